//! The argument of `:tsC`, and the name of `:@name@body@`.
ghost use Rattle.std.specs.Prelude.{◌≡◌, ◌≤◌, ◌-◌, length, position, IfSome};
ghost use Rattle.mk_ast.specs.Places.{ends_modifier as ends_modifier_at};
ghost use Rattle.mk_ast.specs.Separators as spec;

use crate::place::{closer, ends_modifier};
use crate::row::is_end;
use mk_bytes::{begins, skip};

fn is_octal(byte: u8) -> bool
    ensures { result ≡ spec.is_octal byte }
{
    b'0' <= byte && byte <= b'7'
}

fn is_hex(byte: u8) -> bool
    ensures { result ≡ spec.is_hex byte }
{
    (b'0' <= byte && byte <= b'9')
        || (b'a' <= byte && byte <= b'f')
        || (b'A' <= byte && byte <= b'F')
}

// The value of an octal digit.
fn digit(byte: u8) -> u32
    ensures { result ≡ byte - 48 }
{
    u32::from(byte.saturating_sub(b'0'))
}

fn is_code(number: u32) -> bool
    ensures { result ≡ spec.is_code number }
{
    1 <= number && number <= 255
}

fn is_octal_code(text: &[u8]) -> bool
    ensures { result ≡ spec.is_octal_code text.now }
{
    match text {
        [a] => is_octal(*a) && is_code(digit(*a)),
        [a, b] => is_octal(*a) && is_octal(*b) && is_code(8 * digit(*a) + digit(*b)),
        [a, b, c] => {
            is_octal(*a)
                && is_octal(*b)
                && is_octal(*c)
                && is_code(64 * digit(*a) + 8 * digit(*b) + digit(*c))
        }
        _ => false,
    }
}

fn is_hex_code(text: &[u8]) -> bool
    ensures { result ≡ spec.is_hex_code text.now }
{
    match text {
        [a] => is_hex(*a) && *a != b'0',
        [a, b] => is_hex(*a) && is_hex(*b) && !(*a == b'0' && *b == b'0'),
        _ => false,
    }
}

// What may follow the backslash of a separator.
fn is_escaped_code(text: &[u8]) -> bool
    ensures { result ≡ spec.is_escaped_code text.now }
{
    match text {
        [] => false,
        [first, digits @ ..] => {
            if *first == b'n' || *first == b't' {
                return digits.is_empty();
            }
            if *first == b'x' {
                return is_hex_code(digits);
            }
            is_octal_code(text)
        }
    }
}

fn is_separator(text: &[u8]) -> bool
    ensures { result ≡ spec.is_separator text.now }
{
    match text {
        [] => true,
        [first, code @ ..] => *first == b'\\' && is_escaped_code(code),
    }
}

fn is_one_byte(round: bool, text: &[u8]) -> bool
    ensures { result ≡ spec.is_one_byte round text.now }
{
    match text {
        [] => false,
        [first, rest @ ..] => *first != closer(round) && is_end(round, rest),
    }
}

fn end_of_modifier(round: bool, text: &[u8]) -> Option<usize>
    ensures { result ≡ position (ends_modifier_at round) text.now }
{
    text.iter().position(|byte| ends_modifier(round, *byte))
}

/// The length of what is written after `ts`; `None` where it is no separator.
pub fn separator_len(round: bool, text: &[u8]) -> Option<usize>
    ensures same { result ≡ spec.separator_len round text.now }
    ensures within { IfSome result (λ len. len ≤ length text.now) }
{
    if is_one_byte(round, text) {
        return Some(1);
    }
    match end_of_modifier(round, text) {
        Some(len) if is_separator(&text[..len]) => Some(len),
        _ => None,
    }
}

fn ends_name(byte: u8) -> bool
    ensures { result ≡ spec.ends_name byte }
{
    byte == b'$' || byte == b'@'
}

fn end_of_name(text: &[u8]) -> Option<usize>
    ensures { result ≡ position spec.ends_name text.now }
{
    text.iter().position(|byte| ends_name(*byte))
}

/// The length of the name of `:@`; `None` where it is empty or has no `@` behind it.
pub fn name_len(text: &[u8]) -> Option<usize>
    ensures same { result ≡ spec.name_len text.now }
    ensures within { IfSome result (λ len. len ≤ length text.now) }
{
    match end_of_name(text) {
        Some(len) if len != 0 && begins(b"@", skip(text, len)) => Some(len),
        _ => None,
    }
}
