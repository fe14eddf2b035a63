//! Loops: turns that begin, and what is behind them.
ghost use Rattle.std.specs.Prelude.{◌≡◌, ◌+◌, ◌<◌, ◌≤◌, length, IfOk, OnOk};
ghost use Rattle.mk_lines.specs.declared.line.LogLine.{LogLine};
ghost use Rattle.mk_turns.specs.Turns.{loop_turns};
ghost use Rattle.mk_blocks.specs.Blocks.{closed, parse, put};
ghost use Rattle.mk_blocks.specs.Calls as spec;
ghost use Rattle.mk_blocks.specs.Places.{Falls, Fits, IsEnd, IsInside, IsPlace, IsReached, work};
ghost use Rattle.mk_blocks.specs.Ties.{Does, sorted};
ghost use Rattle.mk_blocks.specs.declared.kind.LineKind.TheVariants.{Break, For};
ghost use Rattle.mk_blocks.specs.declared.line.OpenFile.{OpenFile as File};

use crate::fault::FileFault;
use crate::language::Language;
use crate::line::{OpenFile, count_line, turns};
use crate::place::{Place, Step};
use crate::skip::skip_block;
use mk_bytes::NoMemory;
use mk_lines::LineRef;
use mk_turns::{Loop, OpenLoop, has_next, next_turn, turn_count};

/// The line that begins a loop.
pub fn begin_loop<L: Language>(
    file: &OpenFile<'_>,
    language: &mut L,
    count: &mut u32,
    place: &mut Place<'_>,
    line: &LineRef<'_>,
) -> Result<Step, FileFault<L::What, L::Failure>>
    requires { spec.Stands L.ties.kind For line.now place.old }
    ensures does { Does L.ties sorted language.old language.new
        (λ answers step.
        spec.step_left L.ties file.now step place.new language.new count.new answers)
        result (spec.left_in L.ties file.now place.old.loops place.old.depth
        (put For line.now (parse L.ties.kind place.old.cursor)) language.old count.old) }
    ensures place { IfOk result (λ step. IsReached L.ties.kind step place.new) }
    ensures falls { IfOk result (λ step.
        Falls step (work count.old place.old + 1) (work count.new place.new)) }
    ensures later { OnOk result (count.old ≤ count.new) }
{
    count_line(count)?;
    let header = turns(file, language, &place.loops, line)?;
    enter_loop(file, language, count, place, header)?;
    Ok(Step::On)
}

// Goes to the body of a loop in its first turn, or behind it where the loop has none.
fn enter_loop<L: Language>(
    file: &OpenFile<'_>,
    language: &L,
    count: &mut u32,
    place: &mut Place<'_>,
    header: Loop,
) -> Result<(), FileFault<L::What, L::Failure>>
    requires inside { IsInside L.ties.kind place.old.loops place.old.depth
        (closed (parse L.ties.kind place.old.cursor).endings) }
    requires fits { Fits place.old.loops place.old.depth (length place.old.cursor + 1) }
    ensures does { Does L.ties sorted language.now language.now
        (λ answers given. spec.place_left L.ties file.now place.new language.now count.new answers)
        result (spec.turns_left L.ties file.now place.old.loops place.old.depth
        (parse L.ties.kind place.old.cursor) (loop_turns header.names header.words)
        language.now count.old) }
    ensures place { OnOk result (IsPlace L.ties.kind place.new) }
    ensures falls { OnOk result (work count.new place.new ≤ work count.old place.old) }
    ensures later { OnOk result (count.old ≤ count.new) }
{
    if turn_count(&header) == 0 {
        drop(header);
        skip_block(file.alloc, language, &mut place.cursor, 0)?;
        return Ok(());
    }
    if let Err(_) = count_line(count) {
        drop(header);
        return Err(FileFault::TooManyLines);
    }
    let entered = OpenLoop {
        body: place.cursor.copy(),
        header,
        turn: 0,
        depth: place.depth,
    };
    begin_turn(place, entered)?;
    Ok(())
}

// Goes to the beginning of a loop's body.
fn begin_turn<'t>(place: &mut Place<'t>, entered: OpenLoop<'t>) -> Result<(), NoMemory>
    ensures { OnOk result (spec.Begins entered.entry place.old place.new) }
{
    place.cursor = entered.body.copy();
    place.depth = 0;
    place.loops.push(entered)
}

/// The line of a `.break`: reading goes on behind the innermost loop.
pub fn stop<L: Language>(
    file: &OpenFile<'_>,
    language: &L,
    count: &mut u32,
    place: &mut Place<'_>,
) -> Result<Step, FileFault<L::What, L::Failure>>
    requires inside { IsInside L.ties.kind place.old.loops place.old.depth
        (parse L.ties.kind place.old.cursor) }
    requires fits { Fits place.old.loops place.old.depth (length place.old.cursor + 1) }
    ensures does { (line : LogLine) → Does L.ties sorted language.now language.now
        (λ answers step.
        spec.step_left L.ties file.now step place.new language.now count.new answers)
        result (spec.left_in L.ties file.now place.old.loops place.old.depth
        (put Break line (parse L.ties.kind place.old.cursor)) language.now count.old) }
    ensures place { IfOk result (λ step. IsReached L.ties.kind step place.new) }
    ensures falls { IfOk result (λ step.
        Falls step (work count.old place.old + 1) (work count.new place.new)) }
    ensures later { OnOk result (count.old ≤ count.new) }
{
    count_line(count)?;
    skip_block(file.alloc, language, &mut place.cursor, place.depth)?;
    Ok(Step::Breaks)
}

/// Behind the lines of a body: goes to the next turn of its loop, or behind the loop. False where
/// no loop is open.
pub fn leave_body<L: Language>(
    count: &mut u32,
    place: &mut Place<'_>,
    goes_on: bool,
) -> Result<bool, FileFault<L::What, L::Failure>>
    requires { IsEnd L.ties.kind place.old }
    ensures does { (file : File) (language : L) → Does L.ties sorted language language
        (λ answers more. spec.if_left L.ties file more place.new language count.new answers)
        result (spec.behind_left L.ties file place.old.loops goes_on language count.old) }
    ensures place { IfOk result (λ more. spec.IsLeft L.ties.kind more place.new) }
    ensures falls { IfOk result (λ more.
        spec.FallsIf more (work count.old place.old) (work count.new place.new)) }
    ensures later { OnOk result (count.old ≤ count.new) }
{
    let Some(entered) = place.loops.pop() else {
        return Ok(false);
    };
    if has_next(&entered, goes_on) {
        count_line(count)?;
        begin_turn(place, next_turn(entered))?;
        return Ok(true);
    }
    place.depth = entered.depth;
    Ok(true)
}
