//! Numbers, as the directive `.if` of NetBSD make(1) compares them.
ghost use Rattle.std.specs.Prelude.{◌≡◌, ℕ, pos, ◌+◌, ◌-◌, ◌*◌, ◌^◌, ◌<◌, ◌≤◌, ◌↔◌, length};
ghost use Rattle.std.specs.Prelude.{position, Some, None, if◌then◌else◌, IsTrue, IfSome};
ghost use Rattle.std.specs.List.{before_first, after_first};
ghost use Rattle.mk_bytes.specs.Numbers as spec;

use std::marker::Model;

// How many digits may stand behind the point. A number is counted in units of the last of them.
const PLACES: usize = 18;

const ONE: u128 = 1_000_000_000_000_000_000;

/// A number in exact decimals, compared by its value. Contracts see the value times 10^18, which is
/// an integer.
#[derive(Clone, Copy, PartialEq, Eq, PartialOrd, Ord)]
pub struct Num {
    scaled: i128,
}

impl Model for Num {
    ghost use Rattle.std.specs.Prelude.{ℤ};

    ghost Value = { ℤ };

    ghost view = { λ num. num.scaled };

    ghost inverse = { λ scaled. record { scaled = scaled } };
}

impl Num {
    /// Whether it is 0.
    pub fn is_zero(self) -> bool
        ensures { IsTrue result ↔ (self ≡ pos 0) }
    {
        self.scaled == 0
    }
}

// The value of digits in a base. `None` where a byte is no digit of it.
fn value(base: u32, digits: &[u8]) -> Option<u128>
    requires base { (2 ≤ base) × (base ≤ 16) }
    requires short { length digits.now ≤ 18 }
    ensures value { result ≡ (if spec.are_digits base digits.now
        then Some (spec.value base digits.now) else None) }
    ensures small { IfSome result (λ value. value < base ^ length digits.now) }
{
    let mut value = 0;
    for byte in digits {
        let digit = char::from(*byte).to_digit(base)?;
        value = value * u128::from(base) + u128::from(digit);
    }
    Some(value)
}

/// The number up to `most` that a text is in decimal digits, with leading zeros if any. `None` for
/// every other text. Takes no memory.
pub fn number_up_to(most: u64, text: &[u8]) -> Option<u64>
    requires { most < 2 ^ 59 }
    ensures value { result ≡ spec.number_up_to most text.now }
    ensures most { IfSome result (λ number. number ≤ most) }
{
    if text.is_empty() {
        return None;
    }
    let mut number = 0;
    for byte in text {
        let digit = char::from(*byte).to_digit(10)?;
        number = number * 10 + u64::from(digit);
        if number > most {
            return None;
        }
    }
    Some(number)
}

// The place of the point.
fn first_point(text: &[u8]) -> Option<usize>
    ensures { result ≡ position spec.is_point text.now }
{
    text.iter().position(|byte| *byte == b'.')
}

// The digits before the point, or all, and those after it, or none.
fn split_at_point(text: &[u8]) -> (&[u8], &[u8])
    ensures whole { result.0.now ≡ before_first spec.is_point text.now }
    ensures fraction { result.1.now ≡ after_first spec.is_point text.now }
{
    match first_point(text) {
        Some(at) => (&text[..at], &text[at + 1..]),
        None => (text, &text[text.len()..]),
    }
}

fn decimal(whole: &[u8], fraction: &[u8]) -> Option<u128>
    ensures value { result ≡ spec.decimal whole.now fraction.now }
    ensures small { IfSome result (λ n. n < 2 ^ 127) }
{
    if whole.is_empty() || whole.len() > PLACES || fraction.len() > PLACES {
        return None;
    }
    let whole = value(10, whole)?;
    let below = 10_u128.pow((PLACES - fraction.len()) as u32);
    Some(whole * ONE + value(10, fraction)? * below)
}

fn hexadecimal(digits: &[u8]) -> Option<u128>
    ensures value { result ≡ spec.hexadecimal digits.now }
    ensures small { IfSome result (λ n. n < 2 ^ 127) }
{
    if digits.is_empty() || digits.len() > 16 {
        return None;
    }
    Some(value(16, digits)? * ONE)
}

// A number without its sign.
fn magnitude(text: &[u8]) -> Option<u128>
    ensures value { result ≡ spec.magnitude text.now }
    ensures small { IfSome result (λ n. n < 2 ^ 127) }
{
    match text.strip_prefix(b"0x".as_slice()) {
        Some(digits) => hexadecimal(digits),
        None => {
            let (whole, fraction) = split_at_point(text);
            decimal(whole, fraction)
        }
    }
}

/// The number that a text is, as a condition of NetBSD make(1) reads it: an optional sign, and then
/// 1 to 18 decimal digits with an optional point and 0 to 18 digits behind it, or `0x` and 1 to 16
/// hexadecimal digits with letters of either case. `None` for every other text. Takes no memory.
pub fn number(text: &[u8]) -> Option<Num>
    ensures { result ≡ spec.number text.now }
{
    let [first, rest @ ..] = text else {
        return None;
    };
    match *first {
        b'-' => Some(Num {
            scaled: -(magnitude(rest)? as i128),
        }),
        b'+' => Some(Num {
            scaled: magnitude(rest)? as i128,
        }),
        _ => Some(Num {
            scaled: magnitude(text)? as i128,
        }),
    }
}
