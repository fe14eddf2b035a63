//! Numbers in their one decimal spelling.
ghost use Rattle.std.specs.Prelude.{◌≡◌, ◌<◌, ◌^◌, ◌++◌, ℕ, Some, decimal, OnOk, OnErr};
ghost use Rattle.mk_filemon.specs.Escapes as spec;

use itoa::Buffer;
use mk_bytes::{NoMemory, Text};

// The number that digits write, however they write it.
fn parsed(text: &[u8]) -> Option<u64>
    ensures { (number : ℕ) → number < 2 ^ 64 → text.now ≡ decimal number → result ≡ Some number }
{
    let digits = str::from_utf8(text).ok()?;
    digits.parse::<u64>().ok()
}

fn read_digits(text: &[u8]) -> Option<u64>
    ensures { result ≡ spec.number_in text.now }
{
    let number = parsed(text)?;
    if Buffer::new().format(number).as_bytes() == text {
        return Some(number);
    }
    None
}

/// The number that a text is in decimal digits without leading zeros, below 2^64. Takes no memory.
pub fn read_decimal(text: &[u8]) -> Option<u64>
    ensures { result ≡ spec.number_in text.now }
{
    match text {
        [digit] if digit.is_ascii_digit() => Some(u64::from(*digit - b'0')),
        _ => read_digits(text),
    }
}

/// Appends a number in decimal digits.
pub fn push_decimal(text: &mut Text, number: u64) -> Result<(), NoMemory>
    ensures ok { OnOk result (text.new ≡ text.old ++ decimal number) }
    ensures err { OnErr result (text.new ≡ text.old) }
{
    text.push(Buffer::new().format(number).as_bytes())
}
