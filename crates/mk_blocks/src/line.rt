//! Questions about single lines.
ghost use Rattle.std.specs.Prelude.{◌≡◌, ◌⊎◌, ℕ, ◌≤◌, OnOk, OnErr, Err};
ghost use Rattle.mk_bytes.specs.Agrees.{Agrees};
ghost use Rattle.mk_turns.specs.OpenLoops.{turns_in};
ghost use Rattle.mk_turns.specs.Texts.{text_or};
ghost use Rattle.mk_turns.specs.Turns.{loop_turns};
ghost use Rattle.mk_blocks.specs.FileFaults.{turn_located};
ghost use Rattle.mk_blocks.specs.Meaning.{asked, in_turns_of};
ghost use Rattle.mk_blocks.specs.Runs.{IsCounted, max_lines, run_at};
ghost use Rattle.mk_blocks.specs.Outcomes.{done};
ghost use Rattle.mk_blocks.specs.Ties.{Does, Placed, sorted};
ghost use Rattle.mk_blocks.specs.declared.fault.FileFault.TheVariants.{NoMemory as no_memory};

use crate::fault::{FileFault, LanguageFault, OverLimit, Wrong};
use crate::language::{IncludedFile, Language};
use mk_bytes::Text;
use mk_for::TurnFault;
use mk_lines::LineRef;
use mk_turns::{Loop, OpenLoop, Stack, changed_text, text_or};
use std::alloc::Global;

/// The most lines and turns that are processed in one run.
pub const MAX_LINES: u32 = 4_194_304;

/// A file that is being read.
#[derive(Drop)]
pub struct OpenFile<'f> {
    pub alloc: Global,
    /// Its name in faults and messages.
    pub name: &'f [u8],
    /// How many more files may be open inside it.
    pub room: usize,
}

/// Counts a line or a turn; `OverLimit` where the limit is reached.
pub fn count_line(count: &mut u32) -> Result<(), OverLimit>
    ensures ok { OnOk result (IsCounted count.old count.new) }
    ensures err { OnErr result (max_lines ≤ count.old) }
{
    if *count >= MAX_LINES {
        return Err(OverLimit);
    }
    *count += 1;
    Ok(())
}

// A language's fault, with the place of its line.
fn placed<W: Drop, F>(
    file: &OpenFile<'_>,
    number: u32,
    fault: LanguageFault<W, F>,
) -> FileFault<W, F>
    ensures { Placed file.now.name.now number fault result }
{
    match fault {
        LanguageFault::Wrong(what) => match Text::from_bytes(file.alloc, file.name) {
            Ok(name) => FileFault::Bad(name, number, Wrong::Line(what)),
            Err(_) => FileFault::NoMemory,
        },
        LanguageFault::Failed(failure) => FileFault::Failed(failure),
        LanguageFault::NoMemory => FileFault::NoMemory,
    }
}

// The fault of a line in a turn, with its place.
fn turn_fault<W, F>(file: &OpenFile<'_>, number: u32, fault: TurnFault) -> FileFault<W, F>
    ensures { (result ≡ no_memory)
        ⊎ (turn_located {W = W} {F = F} file.now.name.now number (Err fault) ≡ Err result) }
{
    match fault {
        TurnFault::TooLong => match Text::from_bytes(file.alloc, file.name) {
            Ok(name) => FileFault::Bad(name, number, Wrong::TooLong),
            Err(_) => FileFault::NoMemory,
        },
        TurnFault::NoMemory => FileFault::NoMemory,
    }
}

// What a line becomes in the turns that are being read, or `None` where it stays as it is.
fn in_turns<W, F>(
    file: &OpenFile<'_>,
    loops: &Stack<OpenLoop<'_>>,
    line: &LineRef<'_>,
) -> Result<Option<Text>, FileFault<W, F>>
    ensures { Agrees no_memory (λ changed. text_or changed line.now.text) result
        (in_turns_of file.now.name.now (turns_in loops.now) line.now) }
{
    match changed_text(file.alloc, loops, line.bytes()) {
        Ok(changed) => Ok(changed),
        Err(fault) => Err(turn_fault(file, line.first(), fault)),
    }
}

/// Processes a plain line.
pub fn step<L: Language>(
    file: &OpenFile<'_>,
    language: &mut L,
    loops: &Stack<OpenLoop<'_>>,
    line: &LineRef<'_>,
) -> Result<(), FileFault<L::What, L::Failure>>
    ensures { (count : ℕ) → Does L.ties sorted language.old language.new
        (λ answers given. done (given, run_at (L.ties.state language.new) count)) result
        (λ answers. asked (L.ties.meaning answers).step file.now.name.now (turns_in loops.now)
        line.now (run_at (L.ties.state language.old) count)) }
{
    let changed = in_turns::<L::What, L::Failure>(file, loops, line)?;
    let text = text_or(&changed, line.bytes());
    match language.step(file.alloc, file.name, line.first(), text) {
        Ok(given) => Ok(given),
        Err(fault) => Err(placed(file, line.first(), fault)),
    }
}

/// Whether the condition of a branch holds.
pub fn condition<L: Language>(
    file: &OpenFile<'_>,
    language: &mut L,
    loops: &Stack<OpenLoop<'_>>,
    line: &LineRef<'_>,
) -> Result<bool, FileFault<L::What, L::Failure>>
    ensures { (count : ℕ) → Does L.ties sorted language.old language.new
        (λ answers given. done (given, run_at (L.ties.state language.new) count)) result
        (λ answers. asked (L.ties.meaning answers).condition file.now.name.now (turns_in loops.now)
        line.now (run_at (L.ties.state language.old) count)) }
{
    let changed = in_turns::<L::What, L::Failure>(file, loops, line)?;
    let text = text_or(&changed, line.bytes());
    match language.condition(file.alloc, file.name, line.first(), text) {
        Ok(given) => Ok(given),
        Err(fault) => Err(placed(file, line.first(), fault)),
    }
}

/// The turns of the loop that a line begins.
pub fn turns<L: Language>(
    file: &OpenFile<'_>,
    language: &mut L,
    loops: &Stack<OpenLoop<'_>>,
    line: &LineRef<'_>,
) -> Result<Loop, FileFault<L::What, L::Failure>>
    ensures { (count : ℕ) → Does L.ties sorted language.old language.new
        (λ answers given. done (
          loop_turns given.names given.words,
          run_at (L.ties.state language.new) count,
        )) result
        (λ answers. asked (L.ties.meaning answers).turns file.now.name.now (turns_in loops.now)
        line.now (run_at (L.ties.state language.old) count)) }
{
    let changed = in_turns::<L::What, L::Failure>(file, loops, line)?;
    let text = text_or(&changed, line.bytes());
    match language.turns(file.alloc, file.name, line.first(), text) {
        Ok(given) => Ok(given),
        Err(fault) => Err(placed(file, line.first(), fault)),
    }
}

/// The file that a line includes, or `None` where it is missing and is passed over.
pub fn included<L: Language>(
    file: &OpenFile<'_>,
    language: &mut L,
    loops: &Stack<OpenLoop<'_>>,
    line: &LineRef<'_>,
) -> Result<Option<IncludedFile>, FileFault<L::What, L::Failure>>
    ensures { (count : ℕ) → Does L.ties sorted language.old language.new
        (λ answers given. done (given, run_at (L.ties.state language.new) count)) result
        (λ answers. asked (L.ties.meaning answers).included file.now.name.now (turns_in loops.now)
        line.now (run_at (L.ties.state language.old) count)) }
{
    let changed = in_turns::<L::What, L::Failure>(file, loops, line)?;
    let text = text_or(&changed, line.bytes());
    match language.included(file.alloc, file.name, line.first(), text) {
        Ok(given) => Ok(given),
        Err(fault) => Err(placed(file, line.first(), fault)),
    }
}
