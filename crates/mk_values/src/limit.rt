//! The limits of an evaluation.
ghost use Rattle.std.specs.Prelude.{◌≡◌, ◌+◌, IfErr, OnErr, OnOk};
ghost use Rattle.mk_bytes.specs.Agrees.{Agrees};
ghost use Rattle.mk_values.specs.Limits as spec;
ghost use Rattle.mk_values.specs.declared.fault.ExpandFault.TheVariants.{NoMemory as no_memory};

use crate::fault::ExpandFault;
use mk_bytes::Text;

/// How many references may be open at once.
pub const MAX_OPEN: usize = 256;

const MAX_REFERENCES: u32 = 1_048_576;

/// How many bytes a text that is put together may have.
pub const MAX_TEXT: usize = 4_194_304;

/// One more reference, which is open while it is evaluated.
pub fn open_reference(references: &mut u32, room: usize) -> Result<(), ExpandFault>
    ensures ok { OnOk result
        (spec.MayOpen room references.old × (references.new ≡ references.old + 1)) }
    ensures err { IfErr result (λ fault. spec.MayNotOpen room references.old fault) }
    ensures refused { OnErr result (references.new ≡ references.old) }
{
    if room == 0 {
        return Err(ExpandFault::TooDeep);
    }
    if *references >= MAX_REFERENCES {
        return Err(ExpandFault::TooManyReferences);
    }
    *references += 1;
    Ok(())
}

/// A value behind the text so far.
pub fn append(text: &mut Text, value: &[u8]) -> Result<(), ExpandFault>
    ensures { Agrees no_memory (λ done. text.new) result (spec.appended text.old value.now) }
{
    if text.len() + value.len() > MAX_TEXT {
        return Err(ExpandFault::TooLong);
    }
    text.push(value)?;
    Ok(())
}
