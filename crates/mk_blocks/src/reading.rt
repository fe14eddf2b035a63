//! The reading of files, line by line.
ghost use Rattle.std.specs.Prelude.{◌≡◌, ℕ, ◌+◌, ◌^◌, ◌<◌, ◌≤◌, [], length, IfOk, OnOk};
ghost use Rattle.mk_blocks.specs.Blocks.{parse, put};
ghost use Rattle.mk_blocks.specs.Calls as spec;
ghost use Rattle.mk_blocks.specs.Meaning.{file_at, file_read};
ghost use Rattle.mk_blocks.specs.Runs.{run_at};
ghost use Rattle.mk_blocks.specs.Outcomes.{done};
ghost use Rattle.mk_blocks.specs.Places.{Falls, IsPlace, IsReached, work};
ghost use Rattle.mk_blocks.specs.Ties.{Does, sorted};
ghost use Rattle.mk_blocks.specs.declared.kind.LineKind.TheVariants.{Include, Plain, Uncounted};

use crate::check::check_file;
use crate::choice::{begin_if, leave_block, pass_branches};
use crate::fault::FileFault;
use crate::kind::LineKind;
use crate::language::Language;
use crate::line::{OpenFile, count_line, included, step};
use crate::looping::{begin_loop, leave_body, stop};
use crate::place::{Place, Step};
use mk_lines::{LineCursor, LineRef};
use mk_turns::Stack;
use std::alloc::Global;

/// The most included files that are open at once.
pub const MAX_FILES: usize = 64;

/// Reads a makefile of this name and these bytes, and all files that it includes, line by line. The
/// count is that of the lines and turns which were processed before, and goes on.
///
/// `Bad` where a line is wrong: by the faults of the file's lines, else by those of its blocks,
/// else by the first line that the language refuses; likewise in an included file when it is
/// reached. `TooManyLines` where a line or turn above [`MAX_LINES`] would be processed, and
/// `TooManyFiles` where an included file would be open above [`MAX_FILES`]. All messages of the
/// lines before such a fault have been written, and all files, times, listings and commands asked
/// for that they ask for. `Failed` where the outside failed, and `NoMemory` where memory ran out: a
/// first part of that was done then.
///
/// [`MAX_LINES`]: crate::MAX_LINES
pub fn read_file<L: Language>(
    alloc: Global,
    language: &mut L,
    name: &[u8],
    text: &[u8],
    count: &mut u32,
) -> Result<(), FileFault<L::What, L::Failure>>
    requires { length text.now < 2 ^ 32 }
    ensures does { Does L.ties sorted language.old language.new
        (λ answers given. done (run_at (L.ties.state language.new) count.new)) result
        (λ answers. file_read (L.ties.meaning answers) L.ties.kind name.now text.now
        (run_at (L.ties.state language.old) count.old)) }
    ensures later { OnOk result (count.old ≤ count.new) }
{
    read_file_in(alloc, language, name, text, count, MAX_FILES)
}

// A file in which so many more files may be open at once.
#[cycle(files)]
fn read_file_in<L: Language>(
    alloc: Global,
    language: &mut L,
    name: &[u8],
    text: &[u8],
    count: &mut u32,
    room: usize,
) -> Result<(), FileFault<L::What, L::Failure>>
    requires { length text.now < 2 ^ 32 }
    ensures does { Does L.ties sorted language.old language.new
        (λ answers given. done (run_at (L.ties.state language.new) count.new)) result
        (λ answers. file_at (L.ties.meaning answers) L.ties.kind room name.now text.now
        (run_at (L.ties.state language.old) count.old)) }
    ensures later { OnOk result (count.old ≤ count.new) }
{
    check_file(alloc, language, name, text)?;
    let file = OpenFile { alloc, name, room };
    read_lines(&file, language, count, LineCursor::new(text))?;
    language.close_file();
    Ok(())
}

// All lines of a file.
#[cycle(files)]
fn read_lines<L: Language>(
    file: &OpenFile<'_>,
    language: &mut L,
    count: &mut u32,
    cursor: LineCursor<'_>,
) -> Result<(), FileFault<L::What, L::Failure>>
    requires { length cursor < 2 ^ 32 }
    ensures does { Does L.ties sorted language.old language.new
        (λ answers given. done (run_at (L.ties.state language.new) count.new)) result
        (spec.left_in L.ties file.now [] 0 (parse L.ties.kind cursor.entry)
        language.old count.old) }
    ensures later { OnOk result (count.old ≤ count.new) }
{
    let mut place = Place {
        cursor,
        depth: 0,
        loops: Stack::new(file.alloc),
    };
    'lines: loop {
        if read_on(file, language, count, &mut place)? {
            continue;
        }
        return Ok(());
    }
}

// The next line, and what is behind the body that it ends. False at the end of the file.
#[cycle(files)]
fn read_on<L: Language>(
    file: &OpenFile<'_>,
    language: &mut L,
    count: &mut u32,
    place: &mut Place<'_>,
) -> Result<bool, FileFault<L::What, L::Failure>>
    requires place { IsPlace L.ties.kind place.old }
    ensures does { Does L.ties sorted language.old language.new
        (λ answers more.
        spec.if_left L.ties file.now more place.new language.new count.new answers)
        result (spec.place_left L.ties file.now place.old language.old count.old) }
    ensures place { IfOk result (λ more. spec.IsLeft L.ties.kind more place.new) }
    ensures falls { IfOk result (λ more.
        spec.FallsIf more (work count.old place.old) (work count.new place.new)) }
    ensures later { OnOk result (count.old ≤ count.new) }
{
    match read_line(file, language, count, place)? {
        Step::On => Ok(true),
        Step::Ends => leave_body::<L>(count, place, true),
        Step::Breaks => leave_body::<L>(count, place, false),
    }
}

// The next line of a body or of the file.
#[cycle(files)]
fn read_line<L: Language>(
    file: &OpenFile<'_>,
    language: &mut L,
    count: &mut u32,
    place: &mut Place<'_>,
) -> Result<Step, FileFault<L::What, L::Failure>>
    requires place { IsPlace L.ties.kind place.old }
    ensures does { Does L.ties sorted language.old language.new
        (λ answers step.
        spec.step_left L.ties file.now step place.new language.new count.new answers)
        result (spec.place_left L.ties file.now place.old language.old count.old) }
    ensures place { IfOk result (λ step. IsReached L.ties.kind step place.new) }
    ensures falls { IfOk result (λ step.
        Falls step (work count.old place.old) (work count.new place.new)) }
    ensures later { OnOk result (count.old ≤ count.new) }
{
    let Some(line) = place.cursor.next_line(file.alloc)? else {
        return Ok(Step::Ends);
    };
    let kind = language.kind(line.bytes());
    process(file, language, count, place, kind, &line)
}

// A line of this kind, which was just taken.
#[cycle(files)]
fn process<L: Language>(
    file: &OpenFile<'_>,
    language: &mut L,
    count: &mut u32,
    place: &mut Place<'_>,
    kind: LineKind,
    line: &LineRef<'_>,
) -> Result<Step, FileFault<L::What, L::Failure>>
    requires stands { spec.Stands L.ties.kind kind line.now place.old }
    ensures does { Does L.ties sorted language.old language.new
        (λ answers step.
        spec.step_left L.ties file.now step place.new language.new count.new answers)
        result (spec.left_in L.ties file.now place.old.loops place.old.depth
        (put kind line.now (parse L.ties.kind place.old.cursor)) language.old count.old) }
    ensures place { IfOk result (λ step. IsReached L.ties.kind step place.new) }
    ensures falls { IfOk result (λ step.
        Falls step (work count.old place.old + 1) (work count.new place.new)) }
    ensures later { OnOk result (count.old ≤ count.new) }
{
    match kind {
        LineKind::Plain => plain_line(file, language, count, place, line),
        LineKind::Uncounted => uncounted_line(file, language, place, line),
        LineKind::If => begin_if(file, language, count, place, line),
        LineKind::ElseIf | LineKind::Else => Ok(pass_branches(file.alloc, language, place)?),
        LineKind::EndIf | LineKind::EndFor => Ok(leave_block(place)),
        LineKind::For => begin_loop(file, language, count, place, line),
        LineKind::Break => stop(file, language, count, place),
        LineKind::Include => include_line(file, language, count, place, line),
    }
}

// A line that is counted before the language processes it.
fn plain_line<L: Language>(
    file: &OpenFile<'_>,
    language: &mut L,
    count: &mut u32,
    place: &Place<'_>,
    line: &LineRef<'_>,
) -> Result<Step, FileFault<L::What, L::Failure>>
    requires { spec.Stands L.ties.kind Plain line.now place.now }
    ensures does { Does L.ties sorted language.old language.new
        (λ answers step.
        spec.step_left L.ties file.now step place.now language.new count.new answers)
        result (spec.left_in L.ties file.now place.now.loops place.now.depth
        (put Plain line.now (parse L.ties.kind place.now.cursor)) language.old count.old) }
    ensures place { IfOk result (λ step. IsReached L.ties.kind step place.now) }
    ensures falls { IfOk result (λ step.
        Falls step (work count.old place.now + 1) (work count.new place.now)) }
    ensures later { OnOk result (count.old ≤ count.new) }
{
    count_line(count)?;
    step(file, language, &place.loops, line)?;
    Ok(Step::On)
}

// A line that is not counted.
fn uncounted_line<L: Language>(
    file: &OpenFile<'_>,
    language: &mut L,
    place: &Place<'_>,
    line: &LineRef<'_>,
) -> Result<Step, FileFault<L::What, L::Failure>>
    requires { spec.Stands L.ties.kind Uncounted line.now place.now }
    ensures does { (count : ℕ) → Does L.ties sorted language.old language.new
        (λ answers step. spec.step_left L.ties file.now step place.now language.new count answers)
        result (spec.left_in L.ties file.now place.now.loops place.now.depth
        (put Uncounted line.now (parse L.ties.kind place.now.cursor)) language.old count) }
    ensures place { IfOk result (λ step. IsReached L.ties.kind step place.now) }
    ensures falls { IfOk result (λ step. (count : ℕ) →
        Falls step (work count place.now + 1) (work count place.now)) }
{
    step(file, language, &place.loops, line)?;
    Ok(Step::On)
}

// The line that includes a file, which is read to its end.
#[cycle(files)]
fn include_line<L: Language>(
    file: &OpenFile<'_>,
    language: &mut L,
    count: &mut u32,
    place: &Place<'_>,
    line: &LineRef<'_>,
) -> Result<Step, FileFault<L::What, L::Failure>>
    requires { spec.Stands L.ties.kind Include line.now place.now }
    ensures does { Does L.ties sorted language.old language.new
        (λ answers step.
        spec.step_left L.ties file.now step place.now language.new count.new answers)
        result (spec.left_in L.ties file.now place.now.loops place.now.depth
        (put Include line.now (parse L.ties.kind place.now.cursor)) language.old count.old) }
    ensures place { IfOk result (λ step. IsReached L.ties.kind step place.now) }
    ensures falls { IfOk result (λ step.
        Falls step (work count.old place.now + 1) (work count.new place.now)) }
    ensures later { OnOk result (count.old ≤ count.new) }
{
    count_line(count)?;
    let Some(wanted) = included(file, language, &place.loops, line)? else {
        return Ok(Step::On);
    };
    if file.room == 0 {
        drop(wanted);
        return Err(FileFault::TooManyFiles);
    }
    let read = read_file_in(
        file.alloc,
        language,
        wanted.name.bytes(),
        wanted.text.bytes(),
        count,
        file.room - 1,
    );
    drop(wanted);
    read?;
    Ok(Step::On)
}
