//! Logical lines, one at a time or all at once.
ghost use Rattle.std.specs.Prelude.{◌≡◌, ◌+◌, ◌^◌, ◌<◌, ◌≤◌, ◌∷◌, drop, length, slice_get, IfOk};
ghost use Rattle.std.specs.Prelude.{OnOk, OnErr};
ghost use Rattle.mk_bytes.specs.Agrees.{Agrees};
ghost use Rattle.mk_lines.specs.Lines as spec;
ghost use Rattle.mk_lines.specs.Faults.{logical_lines as logical_lines_of};
ghost use Rattle.mk_lines.specs.declared.fault.LineFault.TheVariants.{NoMemory as no_memory};

use crate::fault::{LineFault, check};
use crate::physical::{PhysicalLines, is_continued};
use mk_bytes::{Items, NoMemory, Text, without_blanks_before};
use std::alloc::Global;
use std::borrow::CowSlice;
use std::marker::Model;

/// A logical line.
#[derive(Drop)]
pub struct LogLine {
    /// The number of its first physical line, counted from 1.
    pub first: u32,
    /// Its bytes, without a newline and with its comment.
    pub text: Text,
}

/// Logical lines in the order of their text.
pub type LogLines = Items<LogLine>;

/// The logical lines of a text in order, as make(1) joins them from its physical lines, or the
/// fault that [`check`] gives. `NoMemory` where memory ran out.
pub fn logical_lines(alloc: Global, text: &[u8]) -> Result<LogLines, LineFault>
    requires { length text.now < 2 ^ 32 }
    ensures { Agrees no_memory (λ lines. lines) result (logical_lines_of text.now) }
{
    check(text)?;
    let mut lines = Items::new(alloc, 0)?;
    let mut cursor = LineCursor::new(text);
    'lines: while let Some(line) = cursor.next_line(alloc)? {
        lines.push(line.copy(alloc)?)?;
    }
    Ok(lines)
}

/// A logical line of a text that is being read. Contracts see the line.
#[derive(Drop)]
pub struct LineRef<'t> {
    first: u32,
    // A part of the text, or the bytes of several physical lines, joined.
    text: CowSlice<'t, u8>,
}

impl<'t> Model for LineRef<'t> {
    ghost use Rattle.std.specs.Cow.{cow_slice_items};
    ghost use Rattle.mk_lines.specs.declared.line.LogLine.{LogLine};

    ghost Value = { LogLine };

    ghost view = { λ line. record { first = line.first; text = cow_slice_items line.text } };
}

impl<'t> LineRef<'t> {
    /// The number of its first physical line, counted from 1.
    pub fn first(&self) -> u32
        ensures { result ≡ self.now.first }
    {
        self.first
    }

    /// Its bytes, without a newline and with its comment.
    pub fn bytes(&self) -> &[u8]
        ensures { result.now ≡ self.now.text }
    {
        self.text.as_slice()
    }

    /// The same line with bytes of its own.
    pub fn copy(&self, alloc: Global) -> Result<LogLine, NoMemory>
        ensures { IfOk result (λ line. line ≡ self.now) }
    {
        Ok(LogLine {
            first: self.first,
            text: Text::from_bytes(alloc, self.text.as_slice())?,
        })
    }
}

/// The logical lines of a text, one after the other: those of [`logical_lines`]. Contracts see the
/// list of the lines that are left.
#[derive(Drop)]
pub struct LineCursor<'t> {
    lines: PhysicalLines<'t>,
}

impl<'t> Model for LineCursor<'t> {
    ghost use Rattle.std.specs.Prelude.{List, ◌+◌};
    ghost use Rattle.mk_lines.specs.Lines.{lines_from};
    ghost use Rattle.mk_lines.specs.declared.line.LogLine.{LogLine};

    ghost Value = { List LogLine };

    ghost view = { λ cursor. lines_from (cursor.lines.done + 1) cursor.lines.rest.now };
}

impl<'t> LineCursor<'t> {
    /// A cursor over all logical lines of a text, whether or not `check` finds a fault in them.
    /// Takes no memory.
    pub fn new(text: &'t [u8]) -> LineCursor<'t>
        requires { length text.now < 2 ^ 32 }
        ensures value { result ≡ spec.lines_from 1 text.now }
        ensures few { length result ≤ length text.now }
    {
        LineCursor {
            lines: PhysicalLines {
                rest: text,
                done: 0,
            },
        }
    }

    /// Another cursor over the lines that are left. Takes no memory.
    pub fn copy(&self) -> LineCursor<'t>
        ensures { result ≡ self.now }
    {
        LineCursor { lines: self.lines }
    }

    /// Takes the next logical line; `None` for good after the last. A line that is one physical
    /// line takes no memory. Where memory runs out, the cursor is left as it was.
    #[inline(always)]
    pub fn next_line(&mut self, alloc: Global) -> Result<Option<LineRef<'t>>, NoMemory>
        ensures first { IfOk result (λ line. line ≡ slice_get self.old 0) }
        ensures rest { OnOk result (self.new ≡ drop 1 self.old) }
        ensures err { OnErr result (self.new ≡ self.old) }
    {
        let mut lines = self.lines;
        let Some(first) = lines.take_line() else {
            return Ok(None);
        };
        let line = read_line(alloc, &mut lines, first)?;
        self.lines = lines;
        Ok(Some(line))
    }
}

// Reads the logical line that begins with the physical line just taken.
#[inline(always)]
fn read_line<'t>(
    alloc: Global,
    lines: &mut PhysicalLines<'t>,
    first: &'t [u8],
) -> Result<LineRef<'t>, NoMemory>
    ensures { IfOk result (λ line.
        spec.lines_of lines.old.done
        (spec.line_groups (first.now ∷ spec.physical_lines lines.old.rest.now))
        ≡ line ∷ spec.lines_from (lines.new.done + 1) lines.new.rest.now) }
{
    let number = lines.done;
    if is_continued(first) {
        let text = CowSlice::Owned(join(alloc, lines, first)?);
        return Ok(LineRef {
            first: number,
            text,
        });
    }
    Ok(LineRef {
        first: number,
        text: CowSlice::Borrowed(first),
    })
}

// The bytes of the logical line that begins with the physical line just taken.
fn join<'t>(
    alloc: Global,
    lines: &mut PhysicalLines<'t>,
    first: &'t [u8],
) -> Result<Vec<u8>, NoMemory>
    ensures { IfOk result (λ text.
        spec.lines_of lines.old.done
        (spec.line_groups (first.now ∷ spec.physical_lines lines.old.rest.now))
        ≡ record { first = lines.old.done; text = text.items }
        ∷ spec.lines_from (lines.new.done + 1) lines.new.rest.now) }
{
    let mut text = Vec::new(alloc);
    let mut piece = first;
    while is_continued(piece) {
        text.extend_from_slice(&piece[..piece.len() - 1])?;
        let Some(next) = lines.take_line() else {
            return Ok(text);
        };
        text.extend_from_slice(b" ")?;
        piece = without_blanks_before(next);
    }
    text.extend_from_slice(piece)?;
    Ok(text)
}
