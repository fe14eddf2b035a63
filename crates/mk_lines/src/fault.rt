//! The faults of a text: a logical line that is too long, and a zero byte.
ghost use Rattle.std.specs.Prelude.{◌≡◌, ◌+◌, ◌^◌, ◌<◌, ◌≤◌, ◌∷◌, false, length, IsTrue};
ghost use Rattle.std.specs.Result.{result_and};
ghost use Rattle.mk_lines.specs.Lines.{physical_lines, line_groups};
ghost use Rattle.mk_lines.specs.Faults as spec;

use crate::physical::{PhysicalLines, is_continued};
use memchr::{memchr, memrchr};
use mk_bytes::{NoMemory, without_blanks_before};

/// The most bytes that a logical line may have.
pub const MAX_LEN: usize = 1_048_576;

/// Why a text has no logical lines.
#[derive(Clone, Copy, PartialEq, Eq)]
pub enum LineFault {
    /// A logical line is longer than 1,048,576 bytes. The number is that of its first physical
    /// line, counted from 1.
    TooLong(u32),
    /// The physical line with this number, counted from 1, holds a zero byte.
    Zero(u32),
    /// Memory ran out.
    NoMemory,
}

impl From<NoMemory> for LineFault {
    ghost use Rattle.std.specs.Prelude.{◌≡◌};
    ghost use Rattle.mk_lines.specs.declared.fault.LineFault.TheVariants.{NoMemory as no_memory};

    ghost from_gives = { λ _ fault. fault ≡ no_memory };

    fn from(_: NoMemory) -> LineFault {
        LineFault::NoMemory
    }
}

/// Whether a text has logical lines that can be read: `Zero` where a physical line holds a zero
/// byte, and `TooLong` where a logical line is longer than 1,048,576 bytes. Of several faults the
/// one of the earliest logical line is given, and on one logical line `Zero`. Takes no memory.
pub fn check(text: &[u8]) -> Result<(), LineFault>
    requires { length text.now < 2 ^ 32 }
    ensures { result ≡ spec.checked text.now }
{
    // One search of the whole text spares one of each line.
    let zeros = holds_zero(text);
    // Nearly every text is so, and its lines need not be found here.
    if !zeros && falls_into_short_pieces(text) {
        return Ok(());
    }
    check_each(zeros, text)
}

// Whether a text can be cut, behind newlines that end a logical line, into pieces none of which is
// longer than a line may be. It looks for one place to cut in every 1,048,576 bytes, the last, so
// its `false` says nothing.
fn falls_into_short_pieces(text: &[u8]) -> bool
    ensures { IsTrue result → spec.NoneTooLong text.now }
{
    let mut rest = text;
    while rest.len() > MAX_LEN {
        let Some(end) = memrchr(b'\n', &rest[..MAX_LEN]) else {
            return false;
        };
        if is_continued(&rest[..end]) {
            return false;
        }
        rest = &rest[end + 1..];
    }
    true
}

// Checks each line of a text. Without `zeros` the text holds no zero byte.
fn check_each(zeros: bool, text: &[u8]) -> Result<(), LineFault>
    requires short { length text.now < 2 ^ 32 }
    requires zeros { zeros ≡ false → spec.holds_zero text.now ≡ false }
    ensures { result ≡ spec.checked text.now }
{
    let mut lines = PhysicalLines {
        rest: text,
        done: 0,
    };
    while let Some(line) = lines.take_line() {
        check_line(&mut lines, zeros, line)?;
    }
    Ok(())
}

// Checks the logical line that begins with the physical line just taken, and passes over it.
// Without `zeros` no line holds a zero byte.
fn check_line<'t>(
    lines: &mut PhysicalLines<'t>,
    zeros: bool,
    first: &'t [u8],
) -> Result<(), LineFault>
    requires short { length first.now + length lines.old.rest.now < 2 ^ 32 }
    requires zeros { zeros ≡ false
        → spec.HoldNoZero (first.now ∷ physical_lines lines.old.rest.now) }
    ensures fault { spec.groups_checked lines.old.done
        (line_groups (first.now ∷ physical_lines lines.old.rest.now))
        ≡ result_and result
        (spec.groups_checked (lines.new.done + 1)
        (line_groups (physical_lines lines.new.rest.now))) }
    ensures zeros { zeros ≡ false → spec.HoldNoZero (physical_lines lines.new.rest.now) }
    ensures shorter { length lines.new.rest.now ≤ length lines.old.rest.now }
{
    let number = lines.done;
    check_zero(zeros, number, first)?;
    let mut piece = first;
    let mut len = 0;
    while is_continued(piece) {
        len += piece.len() - 1;
        let Some(next) = lines.take_line() else {
            return check_len(number, len);
        };
        check_zero(zeros, lines.done, next)?;
        len += 1;
        piece = without_blanks_before(next);
    }
    check_len(number, len + piece.len())
}

fn check_zero(zeros: bool, number: u32, line: &[u8]) -> Result<(), LineFault>
    requires { zeros ≡ false → spec.holds_zero line.now ≡ false }
    ensures { result ≡ spec.zero_checked number line.now }
{
    if zeros && holds_zero(line) {
        return Err(LineFault::Zero(number));
    }
    Ok(())
}

fn holds_zero(line: &[u8]) -> bool
    ensures { result ≡ spec.holds_zero line.now }
{
    memchr(0, line).is_some()
}

fn check_len(first: u32, len: usize) -> Result<(), LineFault>
    ensures { result ≡ spec.len_checked first len }
{
    if len > MAX_LEN {
        return Err(LineFault::TooLong(first));
    }
    Ok(())
}
