//! If-blocks: the branch that is read, and the others.
ghost use Rattle.std.specs.Prelude.{◌≡◌, ◌+◌, ◌^◌, ◌<◌, ◌≤◌, length, IfOk, OnOk};
ghost use Rattle.mk_turns.specs.OpenLoops.{turns_in};
ghost use Rattle.mk_blocks.specs.Blocks.{parse, put};
ghost use Rattle.mk_blocks.specs.Calls as spec;
ghost use Rattle.mk_blocks.specs.Meaning.{condition_step};
ghost use Rattle.mk_blocks.specs.Outcomes.{done};
ghost use Rattle.mk_blocks.specs.Places.{Falls, IsReached, work};
ghost use Rattle.mk_blocks.specs.Runs.{run_at};
ghost use Rattle.mk_blocks.specs.Skips.{outside_of};
ghost use Rattle.mk_blocks.specs.Ties.{Does, sorted};
ghost use Rattle.mk_blocks.specs.declared.kind.LineKind.TheVariants.{If};

use crate::fault::FileFault;
use crate::language::Language;
use crate::line::{OpenFile, condition, count_line};
use crate::place::{Place, Step};
use crate::skip::{next_branch, skip_block};
use mk_bytes::NoMemory;
use mk_lines::{LineCursor, LineRef};
use mk_turns::{OpenLoop, Stack};
use std::alloc::Global;

/// The line that begins an if-block.
pub fn begin_if<L: Language>(
    file: &OpenFile<'_>,
    language: &mut L,
    count: &mut u32,
    place: &mut Place<'_>,
    line: &LineRef<'_>,
) -> Result<Step, FileFault<L::What, L::Failure>>
    requires { spec.Stands L.ties.kind If line.now place.old }
    ensures does { Does L.ties sorted language.old language.new
        (λ answers step.
        spec.step_left L.ties file.now step place.new language.new count.new answers)
        result (spec.left_in L.ties file.now place.old.loops place.old.depth
        (put If line.now (parse L.ties.kind place.old.cursor)) language.old count.old) }
    ensures place { IfOk result (λ step. IsReached L.ties.kind step place.new) }
    ensures falls { IfOk result (λ step.
        Falls step (work count.old place.old + 1) (work count.new place.new)) }
    ensures later { OnOk result (count.old ≤ count.new) }
{
    place.depth = choose(
        file,
        language,
        count,
        &mut place.cursor,
        &place.loops,
        place.depth,
        line,
    )?;
    Ok(Step::On)
}

// Counts the line of a branch, and gives whether its condition holds.
fn holds<L: Language>(
    file: &OpenFile<'_>,
    language: &mut L,
    count: &mut u32,
    loops: &Stack<OpenLoop<'_>>,
    line: &LineRef<'_>,
) -> Result<bool, FileFault<L::What, L::Failure>>
    ensures does { Does L.ties sorted language.old language.new
        (λ answers holds. done (holds, run_at (L.ties.state language.new) count.new)) result
        (λ answers. condition_step (L.ties.meaning answers) file.now.name.now (turns_in loops.now)
        line.now (run_at (L.ties.state language.old) count.old)) }
    ensures later { OnOk result (count.old ≤ count.new) }
{
    count_line(count)?;
    condition(file, language, loops, line)
}

// Goes to the branch of an if-block that is to be read, and gives how many if-blocks are open
// there.
fn choose<L: Language>(
    file: &OpenFile<'_>,
    language: &mut L,
    count: &mut u32,
    cursor: &mut LineCursor<'_>,
    loops: &Stack<OpenLoop<'_>>,
    depth: u32,
    line: &LineRef<'_>,
) -> Result<u32, FileFault<L::What, L::Failure>>
    requires { depth + length cursor.old + 1 < 2 ^ 32 }
    ensures does { Does L.ties sorted language.old language.new
        (λ answers inner. spec.left_at L.ties file.now loops.now inner
        (parse L.ties.kind cursor.new) language.new count.new answers)
        result (spec.left_at L.ties file.now loops.now depth
        (put If line.now (parse L.ties.kind cursor.old)) language.old count.old) }
    ensures behind { IfOk result (λ inner. outside_of inner (parse L.ties.kind cursor.new).endings
        ≡ outside_of (depth + 1) (parse L.ties.kind cursor.old).endings) }
    ensures inner { IfOk result (λ inner. inner ≤ depth + 1) }
    ensures shorter { OnOk result (length cursor.new ≤ length cursor.old) }
    ensures later { OnOk result (count.old ≤ count.new) }
{
    if holds(file, language, count, loops, line)? {
        return Ok(depth + 1);
    }
    'branches: loop {
        let Some(branch) = next_branch(file.alloc, language, cursor)? else {
            return Ok(depth);
        };
        if branch.is_else {
            return Ok(depth + 1);
        }
        let held = holds(file, language, count, loops, &branch.line);
        drop(branch);
        if held? {
            return Ok(depth + 1);
        }
    }
}

/// Behind the line of another branch than the one that was read: the rest of the if-block is passed
/// over.
pub fn pass_branches<L: Language>(
    alloc: Global,
    language: &L,
    place: &mut Place<'_>,
) -> Result<Step, NoMemory>
    requires { length place.old.cursor < 2 ^ 32 }
    ensures { IfOk result (λ step. spec.Passes L.ties.kind place.old place.new step) }
{
    skip_block(alloc, language, &mut place.cursor, 0)?;
    Ok(leave_block(place))
}

/// Behind a line that closes a block.
pub fn leave_block(place: &mut Place<'_>) -> Step
    ensures { spec.Leaves place.old place.new result }
{
    if place.depth == 0 {
        return Step::Ends;
    }
    place.depth -= 1;
    Step::On
}
