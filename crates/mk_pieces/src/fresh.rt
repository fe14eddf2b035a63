//! Bytes that a modifier makes. They grow no longer than a printed text may be.
ghost use Rattle.std.specs.Prelude.{◌≡◌, ◌++◌};
ghost use Rattle.mk_bytes.specs.Agrees.{Agrees};
ghost use Rattle.mk_pieces.specs.Limits as spec;
ghost use Rattle.mk_pieces.specs.declared.fault.ModFault.TheVariants.{NoMemory as no_memory};

use crate::fault::ModFault;

/// How many bytes a printed text has at most.
pub const MAX_TEXT: usize = 4_194_304;

/// Puts bytes behind others. `TooLong` where there would be more than a printed text may have.
pub fn push(out: &mut Vec<u8>, bytes: &[u8]) -> Result<(), ModFault>
    ensures { Agrees no_memory (λ _. out.new.items) result (spec.pushed out.old.items bytes.now) }
{
    if out.len() + bytes.len() > MAX_TEXT {
        return Err(ModFault::TooLong);
    }
    out.extend_from_slice(bytes)?;
    Ok(())
}

/// Puts two texts behind others, as [`push`] does.
pub fn push_both(out: &mut Vec<u8>, first: &[u8], second: &[u8]) -> Result<(), ModFault>
    ensures { Agrees no_memory (λ _. out.new.items) result
        (spec.pushed out.old.items (first.now ++ second.now)) }
{
    push(out, first)?;
    push(out, second)
}

/// Puts three texts behind others, as [`push`] does.
pub fn push_three(
    out: &mut Vec<u8>,
    first: &[u8],
    second: &[u8],
    third: &[u8],
) -> Result<(), ModFault>
    ensures { Agrees no_memory (λ _. out.new.items) result
        (spec.pushed out.old.items (first.now ++ second.now ++ third.now)) }
{
    push(out, first)?;
    push_both(out, second, third)
}
