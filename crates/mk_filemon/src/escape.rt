//! Texts on one line, with escapes.
ghost use Rattle.std.specs.Prelude.{◌≡◌, ◌<◌, ◌≤◌, ◌++◌, ◌==◌, length, take, take_while, drop};
ghost use Rattle.std.specs.Prelude.{true, false, position, IfOk};
ghost use Rattle.std.specs.Prelude.{IfSome, OnOk, OnErr};
ghost use Rattle.std.specs.Option.{option_map};
ghost use Rattle.mk_filemon.specs.Escapes as spec;
ghost use Rattle.mk_filemon.specs.Units.{after_unit, shrinks};

use mk_bytes::{NoMemory, Text};
use std::alloc::Global;

// What a text with escapes begins with.
enum Unit<'t> {
    // A byte, and what follows it or its escape.
    Byte(u8, &'t [u8]),
    // The quote that ends the text, and what follows it.
    Close(&'t [u8]),
    // The end.
    End,
    // A byte that may not stand here.
    Bad,
}

fn is_quote(quoted: bool, byte: u8) -> bool
    ensures { result ≡ spec.is_quote quoted byte }
{
    quoted && byte == b'\''
}

// The byte that an escape stands for.
fn byte_behind(quoted: bool, byte: u8) -> Option<u8>
    ensures { result ≡ spec.byte_behind quoted byte }
{
    match byte {
        b'\\' => Some(b'\\'),
        b'n' => Some(b'\n'),
        b'\'' if quoted => Some(b'\''),
        _ => None,
    }
}

// The byte that stands escaped behind a backslash.
fn escape_unit<'t>(quoted: bool, text: &'t [u8]) -> Unit<'t>
    ensures part { spec.part_behind quoted true text.now ≡ after_unit quoted result }
    ensures shorter { shrinks result (length text.now) }
{
    let Some((byte, rest)) = text.split_first() else {
        return Unit::Bad;
    };
    match byte_behind(quoted, *byte) {
        Some(meant) => Unit::Byte(meant, rest),
        None => Unit::Bad,
    }
}

fn first_unit<'t>(quoted: bool, text: &'t [u8]) -> Unit<'t>
    ensures part { spec.part_at quoted text.now ≡ after_unit quoted result }
    ensures shorter { shrinks result (length text.now) }
{
    let Some((byte, rest)) = text.split_first() else {
        return Unit::End;
    };
    if *byte == b'\\' {
        return escape_unit(quoted, rest);
    }
    if *byte == b'\n' {
        return Unit::Bad;
    }
    if is_quote(quoted, *byte) {
        return Unit::Close(rest);
    }
    Unit::Byte(*byte, rest)
}

fn is_plain(quoted: bool, byte: u8) -> bool
    ensures { result ≡ spec.is_plain quoted byte }
{
    !(byte == b'\\' || byte == b'\n' || is_quote(quoted, byte))
}

fn plain_len(quoted: bool, text: &[u8]) -> usize
    ensures taken { result ≡ length (take_while (spec.is_plain quoted) text.now) }
    ensures within { result ≤ length text.now }
{
    text.iter()
        .take_while(|byte| is_plain(quoted, **byte))
        .count()
}

// Appends the plain bytes that a text begins with, and gives what follows them.
fn push_plain<'t>(out: &mut Text, quoted: bool, text: &'t [u8]) -> Result<&'t [u8], NoMemory>
    ensures pushed { OnOk result (out.new ≡ out.old ++ take (spec.plain_len quoted text.now) text.now) }
    ensures rest { IfOk result (λ rest. rest.now ≡ drop (spec.plain_len quoted text.now) text.now) }
    ensures shorter { IfOk result (λ rest. length rest.now ≤ length text.now) }
{
    let len = plain_len(quoted, text);
    out.push(&text[..len])?;
    Ok(&text[len..])
}

/// Reads a text with escapes, up to the quote that ends it, and what follows the quote; without
/// quotes up to the end. `None` where it is none.
pub fn read_part<'t>(
    alloc: Global,
    quoted: bool,
    text: &'t [u8],
) -> Result<Option<(Text, &'t [u8])>, NoMemory>
    ensures { IfOk result (λ found.
        option_map (λ part. (part.0, part.1.now)) found ≡ spec.part_at quoted text.now) }
{
    let mut part = Text::new(alloc);
    let mut rest = text;
    'units: loop {
        let special = push_plain(&mut part, quoted, rest)?;
        match first_unit(quoted, special) {
            Unit::Byte(byte, after) => {
                part.push(&[byte])?;
                rest = after;
            }
            Unit::Close(after) => return Ok(Some((part, after))),
            Unit::End if quoted => return Ok(None),
            Unit::End => return Ok(Some((part, b""))),
            Unit::Bad => return Ok(None),
        }
    }
}

/// The text that is written so, without quotes: `\\` is a backslash and `\n` a newline. `None` for
/// every text with another backslash, or with a raw newline.
pub fn unescaped(alloc: Global, text: &[u8]) -> Result<Option<Text>, NoMemory>
    ensures { IfOk result (λ found. found ≡ spec.unescaped text.now) }
{
    match read_part(alloc, false, text)? {
        Some((part, _)) => Ok(Some(part)),
        None => Ok(None),
    }
}

fn push_byte(text: &mut Text, quoted: bool, byte: u8) -> Result<(), NoMemory>
    ensures { OnOk result (text.new ≡ text.old ++ spec.escaped_byte quoted byte) }
{
    match byte {
        b'\\' => text.push(b"\\\\"),
        b'\n' => text.push(b"\\n"),
        b'\'' if quoted => text.push(b"\\'"),
        _ => text.push(&[byte]),
    }
}

/// Appends bytes with their escapes, those of a text in quotes or not.
pub fn push_part(text: &mut Text, quoted: bool, bytes: &[u8]) -> Result<(), NoMemory>
    ensures { OnOk result (text.new ≡ text.old ++ spec.escaped quoted bytes.now) }
{
    let mut rest = bytes;
    'runs: loop {
        let special = push_plain(text, quoted, rest)?;
        let Some((byte, more)) = special.split_first() else {
            return Ok(());
        };
        push_byte(text, quoted, *byte)?;
        rest = more;
    }
}

/// Appends bytes as they are written on one line: a backslash as `\\` and a newline as `\n`. Where
/// memory runs out, a part of them may stand.
pub fn push_escaped(text: &mut Text, bytes: &[u8]) -> Result<(), NoMemory>
    ensures { OnOk result (text.new ≡ text.old ++ spec.escaped false bytes.now) }
{
    push_part(text, false, bytes)
}

fn first_place(byte: u8, text: &[u8]) -> Option<usize>
    ensures { result ≡ position (λ one. one == byte) text.now }
{
    text.iter().position(|one| *one == byte)
}

/// What stands before the first of a byte, and what stands behind it. Takes no memory.
pub fn cut_at<'t>(byte: u8, text: &'t [u8]) -> Option<(&'t [u8], &'t [u8])>
    ensures parts { option_map (λ parts. (parts.0.now, parts.1.now)) result
        ≡ spec.cut_at byte text.now }
    ensures shorter { IfSome result (λ parts. length parts.1.now < length text.now) }
{
    match first_place(byte, text) {
        Some(place) => Some((&text[..place], &text[place + 1..])),
        None => None,
    }
}
