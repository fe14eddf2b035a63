//! The numbers that options take.
ghost use Rattle.std.specs.Prelude.{◌≡◌, ◌≤◌, Some, None, if◌then◌else◌};
ghost use Rattle.mk_bytes.specs.Numbers.{value};
ghost use Rattle.mk_cli.specs.Numbers as spec;

use crate::order::Usage;
use mk_bytes::number_up_to;

// The number from 1 to `most` that a text is.
fn decimal(most: u32, text: &[u8]) -> Option<u32>
    requires { most ≤ 10000 }
    ensures { result ≡ (if spec.is_number most text.now then Some (value 10 text.now) else None) }
{
    match number_up_to(u64::from(most), text)? {
        0 => None,
        number => Some(number as u32),
    }
}

/// The number from 1 to `most` that an option's argument is, which the word at `place` holds. That
/// word is refused where its bytes are not all digits, or the number is none of these.
pub fn number(most: u32, place: u32, text: &[u8]) -> Result<u32, Usage>
    requires { most ≤ 10000 }
    ensures { result ≡ spec.number most place text.now }
{
    match decimal(most, text) {
        Some(number) => Ok(number),
        None => Err(Usage::Word(place)),
    }
}
