//! The lines of a log.
ghost use Rattle.std.specs.Prelude.{◌≡◌};
ghost use Rattle.std.specs.List.{list_all};
ghost use Rattle.std.specs.Option.{option_copied, option_map};
ghost use Rattle.mk_bytes.specs.Bytes.{is_digit as is_digit_byte};
ghost use Rattle.mk_filemon.specs.Log as spec;

use crate::escape::cut_at;

/// What a line of a log tells.
#[derive(Clone, Copy)]
pub enum Kind {
    Reads,
    Misses,
    Writes,
    Deletes,
    Moves,
    Links,
    /// The process has another directory.
    Enters,
    /// The process has started another one.
    Forks,
}

fn kind_of(letter: u8) -> Option<Kind>
    ensures { result ≡ spec.kind_of letter }
{
    match letter {
        b'R' | b'E' => Some(Kind::Reads),
        b'W' => Some(Kind::Writes),
        b'D' => Some(Kind::Deletes),
        b'M' => Some(Kind::Moves),
        b'L' => Some(Kind::Links),
        b'C' => Some(Kind::Enters),
        b'F' => Some(Kind::Forks),
        _ => None,
    }
}

// What a line that begins with a letter tells, and what follows it.
fn with_letter<'t>(line: &'t [u8]) -> Option<(Kind, &'t [u8])>
    ensures { option_map (λ found. (found.0, found.1.now)) result ≡ spec.with_letter line.now }
{
    let [letter, b' ', rest @ ..] = line else {
        return None;
    };
    let kind = kind_of(*letter)?;
    Some((kind, rest))
}

fn kind_at<'t>(line: &'t [u8]) -> Option<(Kind, &'t [u8])>
    ensures { option_map (λ found. (found.0, found.1.now)) result ≡ spec.kind_at line.now }
{
    if line.starts_with(b"# N ") {
        return Some((Kind::Misses, &line[4..]));
    }
    with_letter(line)
}

fn is_digit(byte: u8) -> bool
    ensures { result ≡ is_digit_byte byte }
{
    b'0' <= byte && byte <= b'9'
}

fn are_digits(text: &[u8]) -> bool
    ensures { result ≡ list_all is_digit_byte text.now }
{
    text.iter().all(|byte| is_digit(*byte))
}

/// Whether a text is decimal digits.
pub fn is_number(text: &[u8]) -> bool
    ensures { result ≡ spec.is_number text.now }
{
    !text.is_empty() && are_digits(text)
}

/// Digits without leading zeros, by which numbers of any length are the same or differ.
pub fn number_of<'t>(digits: &'t [u8]) -> &'t [u8]
    ensures { result.now ≡ spec.number_of digits.now }
{
    let mut rest = digits;
    'zeros: while let [b'0', after @ ..] = rest {
        rest = after;
    }
    rest
}

/// What a line tells, the number of its process, and its text; `None` where it does not fit.
pub fn line_of<'t>(line: &'t [u8]) -> Option<(Kind, &'t [u8], &'t [u8])>
    ensures { option_map (λ found. (found.0, found.1.now, found.2.now)) result
        ≡ spec.line_of line.now }
{
    let (kind, rest) = kind_at(line)?;
    let (process, text) = cut_at(b' ', rest)?;
    if !is_number(process) {
        return None;
    }
    Some((kind, number_of(process), text))
}

// What stands before the first quote, space and quote, and what stands behind them.
fn cut_at_gap<'t>(text: &'t [u8]) -> Option<(&'t [u8], &'t [u8])>
    ensures { option_map (λ parts. (parts.0.now, parts.1.now)) result ≡ spec.cut_at_gap text.now }
{
    for place in 0..text.len() {
        let rest = &text[place..];
        if rest.starts_with(b"' '") {
            return Some((&text[..place], &rest[3..]));
        }
    }
    None
}

// A text without the quote that ends it.
fn closed<'t>(text: &'t [u8]) -> Option<&'t [u8]>
    ensures { option_copied result ≡ spec.closed text.now }
{
    match text.split_last() {
        Some((b'\'', rest)) => Some(rest),
        _ => None,
    }
}

/// Two paths in quotes: the first ends at the first quote, space and quote, the second at the last
/// byte. `None` where the text is no such pair.
pub fn pair_in<'t>(text: &'t [u8]) -> Option<(&'t [u8], &'t [u8])>
    ensures { option_map (λ pair. (pair.0.now, pair.1.now)) result ≡ spec.pair_in text.now }
{
    let [b'\'', rest @ ..] = text else {
        return None;
    };
    let (first, after) = cut_at_gap(rest)?;
    let second = closed(after)?;
    Some((first, second))
}
