//! Letters of one case.
ghost use Rattle.std.specs.Prelude.{◌≡◌};
ghost use Rattle.std.specs.List.{list_any};
ghost use Rattle.mk_bytes.specs.Agrees.{Agrees};
ghost use Rattle.mk_pieces.specs.Letters as spec;
ghost use Rattle.mk_pieces.specs.Limits.{pushed, pushed_if};
ghost use Rattle.mk_pieces.specs.declared.fault.ModFault.TheVariants.{NoMemory as no_memory};

use crate::fault::ModFault;
use crate::fresh::MAX_TEXT;

fn is_other(small: bool, byte: u8) -> bool
    ensures { result ≡ spec.is_other small byte }
{
    if small {
        byte.is_ascii_uppercase()
    } else {
        byte.is_ascii_lowercase()
    }
}

fn to_case(small: bool, byte: u8) -> u8
    ensures { result ≡ spec.to_case small byte }
{
    match byte {
        b'A'..=b'Z' if small => byte + 32,
        b'a'..=b'z' if !small => byte - 32,
        _ => byte,
    }
}

fn has_other(small: bool, text: &[u8]) -> bool
    ensures { result ≡ list_any (spec.is_other small) text.now }
{
    text.iter().any(|byte| is_other(small, *byte))
}

// Puts a text with its letters in the other case behind other bytes.
fn push_recased(out: &mut Vec<u8>, small: bool, text: &[u8]) -> Result<(), ModFault>
    ensures { Agrees no_memory (λ _. out.new.items) result
        (pushed out.old.items (spec.in_case small text.now)) }
{
    if out.len() + text.len() > MAX_TEXT {
        return Err(ModFault::TooLong);
    }
    for byte in text {
        out.push(to_case(small, *byte))?;
    }
    Ok(())
}

/// Puts a text with its ASCII letters small, or in capitals, behind other bytes, unless they are so
/// already, and tells whether it did.
pub fn recased(out: &mut Vec<u8>, small: bool, text: &[u8]) -> Result<bool, ModFault>
    ensures { Agrees no_memory (λ is. (is, out.new.items)) result
        (pushed_if out.old.items (spec.recased small text.now)) }
{
    if !has_other(small, text) {
        return Ok(false);
    }
    push_recased(out, small, text)?;
    Ok(true)
}
