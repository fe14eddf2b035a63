//! The lines of a meta file that follow one another, each with what it holds.
ghost use Rattle.std.specs.Prelude.{◌≡◌, ◌<◌, length, IfOk, IfSome};
ghost use Rattle.std.specs.Option.{option_map};
ghost use Rattle.mk_meta.specs.Reading as spec;

use crate::line::{command_in, export_in, number_behind, record_of, text_in};
use mk_bytes::{Items, NoMemory, Pair, Pairs, Text};
use mk_filemon::{Rec, Recs, cut_at};
use mk_world::{Lines, TaskLine};
use std::alloc::Global;

/// The text that the first line of a text holds behind a label, and what follows the line.
pub fn text_line<'t>(
    alloc: Global,
    label: &[u8],
    text: &'t [u8],
) -> Result<Option<(Text, &'t [u8])>, NoMemory>
    ensures { IfOk result (λ found. option_map (λ read. (read.0, read.1.now)) found
        ≡ spec.line_read (spec.text_in label.now) text.now) }
{
    let Some((line, rest)) = cut_at(b'\n', text) else {
        return Ok(None);
    };
    Ok(text_in(alloc, label, line)?.zip(Some(rest)))
}

/// The number that the first line of a text holds behind a label, and what follows the line.
pub fn number_line<'t>(label: &[u8], text: &'t [u8]) -> Option<(u64, &'t [u8])>
    ensures { option_map (λ read. (read.0, read.1.now)) result
        ≡ spec.line_read (spec.number_behind label.now) text.now }
{
    let (line, rest) = cut_at(b'\n', text)?;
    number_behind(label, line).zip(Some(rest))
}

fn command_line<'t>(alloc: Global, text: &'t [u8]) -> Result<Option<(TaskLine, &'t [u8])>, NoMemory>
    ensures read { IfOk result (λ found. option_map (λ read. (read.0, read.1.now)) found
        ≡ spec.line_read spec.command_in text.now) }
    ensures shorter { IfOk result (λ found.
        IfSome found (λ read. length read.1.now < length text.now)) }
{
    let Some((line, rest)) = cut_at(b'\n', text) else {
        return Ok(None);
    };
    Ok(command_in(alloc, line)?.zip(Some(rest)))
}

// Adds an item that was read, and gives what follows it.
fn take_in<'t, T: Drop>(
    items: &mut Items<T>,
    found: Option<(T, &'t [u8])>,
) -> Result<Option<&'t [u8]>, NoMemory>
    ensures { IfOk result (λ rest. spec.IsTaken found.entry items.old items.new rest) }
{
    match found {
        Some((item, rest)) => items.push(item).and(Ok(Some(rest))),
        None => Ok(None),
    }
}

/// As many commands as follow one another, and what follows them.
pub fn command_lines<'t>(alloc: Global, text: &'t [u8]) -> Result<(Lines, &'t [u8]), NoMemory>
    ensures { IfOk result (λ read.
        (read.0, read.1.now) ≡ spec.all_of (spec.line_read spec.command_in) text.now) }
{
    let mut lines = Items::new(alloc, 0)?;
    let mut rest = text;
    'lines: while let Some(after) = take_in(&mut lines, command_line(alloc, rest)?)? {
        rest = after;
    }
    Ok((lines, rest))
}

fn export_line<'t>(alloc: Global, text: &'t [u8]) -> Result<Option<(Pair, &'t [u8])>, NoMemory>
    ensures read { IfOk result (λ found. option_map (λ read. (read.0, read.1.now)) found
        ≡ spec.line_read spec.export_in text.now) }
    ensures shorter { IfOk result (λ found.
        IfSome found (λ read. length read.1.now < length text.now)) }
{
    let Some((line, rest)) = cut_at(b'\n', text) else {
        return Ok(None);
    };
    Ok(export_in(alloc, line)?.zip(Some(rest)))
}

/// As many exported variables as follow one another, and what follows them.
pub fn export_lines<'t>(alloc: Global, text: &'t [u8]) -> Result<(Pairs, &'t [u8]), NoMemory>
    ensures { IfOk result (λ read.
        (read.0, read.1.now) ≡ spec.all_of (spec.line_read spec.export_in) text.now) }
{
    let mut exports = Items::new(alloc, 0)?;
    let mut rest = text;
    'lines: while let Some(after) = take_in(&mut exports, export_line(alloc, rest)?)? {
        rest = after;
    }
    Ok((exports, rest))
}

fn record_line<'t>(
    alloc: Global,
    count: usize,
    text: &'t [u8],
) -> Result<Option<(Rec, &'t [u8])>, NoMemory>
    ensures read { IfOk result (λ found. option_map (λ read. (read.0, read.1.now)) found
        ≡ spec.line_read (spec.record_of count) text.now) }
    ensures shorter { IfOk result (λ found.
        IfSome found (λ read. length read.1.now < length text.now)) }
{
    let Some((line, rest)) = cut_at(b'\n', text) else {
        return Ok(None);
    };
    Ok(record_of(alloc, count, line)?.zip(Some(rest)))
}

/// As many records of so many command lines as follow one another, and what follows them.
pub fn record_lines<'t>(
    alloc: Global,
    count: usize,
    text: &'t [u8],
) -> Result<(Recs, &'t [u8]), NoMemory>
    ensures { IfOk result (λ read.
        (read.0, read.1.now) ≡ spec.all_of (spec.line_read (spec.record_of count)) text.now) }
{
    let mut records = Items::new(alloc, 0)?;
    let mut rest = text;
    'lines: while let Some(after) = take_in(&mut records, record_line(alloc, count, rest)?)? {
        rest = after;
    }
    Ok((records, rest))
}
