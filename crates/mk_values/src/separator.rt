//! The byte that is written after `:ts`.
ghost use Rattle.std.specs.Prelude.{◌≡◌, ◌+◌, ◌*◌, ◌≤◌, ◌<◌, fold};
ghost use Rattle.mk_bytes.specs.Bytes.{is_digit};
ghost use Rattle.mk_values.specs.Separators as spec;

// The value of a digit, of either case of letters.
fn digit_value(byte: u8) -> u32
    ensures value { result ≡ spec.digit_value byte }
    ensures small { result < 256 }
{
    if byte.is_ascii_digit() {
        u32::from(byte - b'0')
    } else if byte >= b'a' {
        u32::from(byte - 87)
    } else {
        u32::from(byte.saturating_sub(55))
    }
}

// The byte of the number that digits make, where one has it.
fn numbered(base: u32, digits: &[u8]) -> Option<u8>
    requires least { 1 ≤ base }
    requires most { base ≤ 16 }
    ensures { result ≡ spec.numbered base digits.now }
{
    let mut number = 0;
    for digit in digits {
        number = base * number + digit_value(*digit);
        if number > 255 {
            return None;
        }
    }
    u8::try_from(number).ok()
}

// A byte by its letter or its number.
fn escaped(code: &[u8]) -> Option<u8>
    ensures { result ≡ spec.escaped code.now }
{
    match code {
        [] => None,
        [b'n', ..] => Some(b'\n'),
        [b't', ..] => Some(b'\t'),
        [b'x', digits @ ..] => numbered(16, digits),
        _ => numbered(8, code),
    }
}

/// The separator: nothing, one byte, or a byte by what follows a backslash.
pub fn separator_of(written: &[u8]) -> Option<u8>
    ensures { result ≡ spec.separator_of written.now }
{
    match written {
        [] => None,
        [byte] => Some(*byte),
        [_, code @ ..] => escaped(code),
    }
}
