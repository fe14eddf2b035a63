//! Texts in quotes, as strace writes them.
ghost use Rattle.std.specs.Prelude.{◌≡◌, ◌<◌, ◌++◌, IfOk, IfSome, OnOk};
ghost use Rattle.mk_strace.specs.Quoted as spec;

use mk_bytes::{NoMemory, Text};
use std::alloc::Global;

/// How far an escape has come.
#[derive(Clone, Copy)]
pub enum Escape {
    /// There is none.
    No,
    /// Its backslash has stood.
    Begun,
    /// So many octal digits have stood, one or two, with this value.
    Octal(u8, u8),
    /// Two hexadecimal digits follow, or one behind this one.
    Hex,
    HexBehind(u8),
}

// What a byte of a text stands for: at most the byte of an escape that ends before it, and one
// more.
#[derive(Clone, Copy)]
struct Meant {
    before: Option<u8>,
    byte: Option<u8>,
    escape: Escape,
}

fn octal(byte: u8) -> Option<u8>
    ensures value { result ≡ spec.octal byte }
    ensures small { IfSome result (λ digit. digit < 8) }
{
    match byte {
        b'0'..=b'7' => Some(byte - b'0'),
        _ => None,
    }
}

fn hex(byte: u8) -> Option<u8>
    ensures value { result ≡ spec.hex byte }
    ensures small { IfSome result (λ digit. digit < 16) }
{
    match byte {
        b'0'..=b'9' => Some(byte - b'0'),
        b'a'..=b'f' => Some(byte - b'a' + 10),
        _ => None,
    }
}

// The byte that a letter behind a backslash stands for.
fn named(letter: u8) -> Option<u8>
    ensures { result ≡ spec.named letter }
{
    match letter {
        b'n' => Some(b'\n'),
        b't' => Some(b'\t'),
        b'r' => Some(b'\r'),
        b'v' => Some(11),
        b'f' => Some(12),
        b'"' | b'\\' => Some(letter),
        _ => None,
    }
}

fn means(before: Option<u8>, byte: Option<u8>, escape: Escape) -> Option<Meant>
    ensures { result ≡ spec.means before byte escape }
{
    Some(Meant {
        before,
        byte,
        escape,
    })
}

// A byte outside of escapes, behind one that ended before it.
fn plain(before: Option<u8>, byte: u8) -> Option<Meant>
    ensures { result ≡ spec.plain before byte }
{
    match byte {
        b'\\' => means(before, None, Escape::Begun),
        b'"' => None,
        _ => means(before, Some(byte), Escape::No),
    }
}

fn begun(byte: u8) -> Option<Meant>
    ensures { result ≡ spec.begun byte }
{
    if byte == b'x' {
        return means(None, None, Escape::Hex);
    }
    match (octal(byte), named(byte)) {
        (Some(digit), _) => means(None, None, Escape::Octal(1, digit)),
        (None, Some(other)) => means(None, Some(other), Escape::No),
        (None, None) => None,
    }
}

// A byte behind one or two octal digits.
fn octal_behind(count: u8, value: u8, byte: u8) -> Option<Meant>
    ensures { result ≡ spec.octal_behind count value byte }
{
    let Some(digit) = octal(byte) else {
        return plain(Some(value), byte);
    };
    if value >= 32 {
        return None;
    }
    let more = value * 8 + digit;
    if count >= 2 {
        return means(None, Some(more), Escape::No);
    }
    means(None, None, Escape::Octal(2, more))
}

fn hex_first(byte: u8) -> Option<Meant>
    ensures { result ≡ spec.hex_first byte }
{
    let digit = hex(byte)?;
    means(None, None, Escape::HexBehind(digit))
}

fn hex_second(first: u8, byte: u8) -> Option<Meant>
    ensures { result ≡ spec.hex_second first byte }
{
    let digit = hex(byte)?;
    if first >= 16 {
        return None;
    }
    means(None, Some(first * 16 + digit), Escape::No)
}

fn meant_by(escape: Escape, byte: u8) -> Option<Meant>
    ensures { result ≡ spec.meant_by escape byte }
{
    match escape {
        Escape::No => plain(None, byte),
        Escape::Begun => begun(byte),
        Escape::Octal(count, value) => octal_behind(count, value, byte),
        Escape::Hex => hex_first(byte),
        Escape::HexBehind(first) => hex_second(first, byte),
    }
}

fn push_byte(text: &mut Text, byte: Option<u8>) -> Result<(), NoMemory>
    ensures { OnOk result (text.new ≡ text.old ++ spec.bytes_of byte) }
{
    match byte {
        Some(byte) => text.push(&[byte]),
        None => Ok(()),
    }
}

fn push_meant(text: &mut Text, meant: &Meant) -> Result<(), NoMemory>
    ensures { OnOk result (text.new ≡ text.old ++ spec.bytes_meant meant.now) }
{
    push_byte(text, meant.before)?;
    push_byte(text, meant.byte)
}

// The byte of an escape with which a text ends.
fn last_of(escape: Escape) -> Option<Option<u8>>
    ensures { result ≡ spec.last_of escape }
{
    match escape {
        Escape::No => Some(None),
        Escape::Octal(_, value) => Some(Some(value)),
        Escape::Begun | Escape::Hex | Escape::HexBehind(_) => None,
    }
}

/// The bytes that are written so between quotes: `\n`, `\t`, `\r`, `\v`, `\f`, `\"`, `\\`, one to
/// three octal digits or `x` and two hexadecimal ones behind a backslash. `None` for every other
/// text.
pub fn unquoted(alloc: Global, text: &[u8]) -> Result<Option<Text>, NoMemory>
    ensures { IfOk result (λ found. found ≡ spec.unquoted text.now) }
{
    let mut out = Text::new(alloc);
    let mut escape = Escape::No;
    let mut rest = text;
    'bytes: while let [byte, behind @ ..] = rest {
        let Some(meant) = meant_by(escape, *byte) else {
            return Ok(None);
        };
        push_meant(&mut out, &meant)?;
        escape = meant.escape;
        rest = behind;
    }
    let Some(last) = last_of(escape) else {
        return Ok(None);
    };
    push_byte(&mut out, last)?;
    Ok(Some(out))
}
