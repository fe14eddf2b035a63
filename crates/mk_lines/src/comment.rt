//! Comments: a `#` and what follows it, in lines that are no commands (make(1), "COMMENTS").
ghost use Rattle.std.specs.Prelude.{◌≡◌, ◌+◌, ◌<◌, ◌≤◌, ◌++◌, length, Some, IfOk};
ghost use Rattle.std.specs.Cow.{cow_slice_items};
ghost use Rattle.memchr.specs.Find.{IsFirstByte, is_byte3};
ghost use Rattle.mk_bytes.specs.Bytes.{hash, backslash, square_open};
ghost use Rattle.mk_lines.specs.Comment as spec;

use memchr::{memchr, memchr3};
use mk_bytes::{NoMemory, without_blanks_after};
use std::alloc::Global;
use std::borrow::CowSlice;

/// A logical line without its comment and its final blanks (spaces and tabs), as make(1) reads a
/// line that is no command.
///
/// The comment begins at the first `#` that is not escaped and does not stand directly after `[`.
/// Backslashes pair off from the left: `\#` becomes `#`, and in `\\#` the `#` begins the comment.
/// Every other backslash stays, and so do leading blanks. A line without backslashes is not copied.
/// `NoMemory` where memory ran out.
pub fn cut_comment<'t>(alloc: Global, line: &'t [u8]) -> Result<CowSlice<'t, u8>, NoMemory>
    ensures { IfOk result (λ text. cow_slice_items text ≡ spec.cut_comment line.now) }
{
    // Most lines hold none of these bytes: nothing but their final blanks goes.
    let Some(place) = memchr3(b'#', b'\\', b'[', line) else {
        return Ok(CowSlice::Borrowed(without_blanks_after(line)));
    };
    let kept = without_blanks_after(before_comment(line, place));
    match memchr(b'\\', kept) {
        None => Ok(CowSlice::Borrowed(kept)),
        Some(_) => Ok(CowSlice::Owned(unescape(alloc, kept)?)),
    }
}

// What stands before a line's comment. The place is that of the first byte that a unit of two bytes
// or the comment can begin with.
fn before_comment<'t>(line: &'t [u8], place: usize) -> &'t [u8]
    requires { IsFirstByte (is_byte3 hash backslash square_open) line.now (Some place) }
    ensures { result.now ≡ spec.before_comment line.now }
{
    let mut end = 0;
    let mut found = Some(place);
    'units: while let Some(skipped) = found {
        end += skipped;
        if line[end] == b'#' {
            return &line[..end];
        }
        end += unit_len(&line[end..]);
        found = memchr3(b'#', b'\\', b'[', &line[end..]);
    }
    line
}

// How many bytes are read as one at the start of a line: those of a pair, or a single byte.
fn unit_len(line: &[u8]) -> usize
    requires { 0 < length line.now }
    ensures len { result ≡ spec.unit_len line.now }
    ensures within { result ≤ length line.now }
{
    match line {
        [byte, next, ..] if is_pair(*byte, *next) => 2,
        _ => 1,
    }
}

fn is_pair(byte: u8, next: u8) -> bool
    ensures { result ≡ spec.is_pair byte next }
{
    matches!((byte, next), (b'\\', b'\\' | b'#') | (b'[', b'#'))
}

// A line with `\#` as `#`.
fn unescape(alloc: Global, line: &[u8]) -> Result<Vec<u8>, NoMemory>
    ensures { IfOk result (λ text. text.items ≡ spec.unescaped line.now) }
{
    let mut text = Vec::new(alloc);
    let mut rest = line;
    while let Some(place) = memchr(b'\\', rest) {
        let (run, escape) = rest.split_at(place);
        let (unit, after) = escape.split_at(unit_len(escape));
        text.extend_from_slice(run)?;
        text.extend_from_slice(plain(unit))?;
        rest = after;
    }
    text.extend_from_slice(rest)?;
    Ok(text)
}

// Two bytes that are read as one, with `\#` as `#`, or a single byte as it is.
fn plain<'t>(unit: &'t [u8]) -> &'t [u8]
    ensures { result.now ≡ spec.plain unit.now }
{
    if unit == b"\\#".as_slice() {
        return &unit[1..];
    }
    unit
}
