//! Lines in the turns of loops.
ghost use Rattle.std.specs.Prelude.{◌≡◌, ◌<◌, ◌≤◌, length, true, false, IsTrue};
ghost use Rattle.mk_bytes.specs.Agrees.{Agrees};
ghost use Rattle.mk_for.specs.Substitution.{replaced, is_dollar, within};
ghost use Rattle.mk_for.specs.declared.substitution.TurnFault.TheVariants.{NoMemory as no_memory};
ghost use Rattle.mk_lines.specs.Faults.{max_len};
ghost use Rattle.mk_for.specs.Turns.{words_of};
ghost use Rattle.std.specs.List.{list_any};
ghost use Rattle.mk_turns.specs.OpenLoops.{has_next, IsNext, turn_of, turns_in};
ghost use Rattle.mk_turns.specs.Turns as spec;
ghost use Rattle.mk_turns.specs.Texts.{text_or};

use crate::loops::{Loop, OpenLoop};
use crate::stack::Stack;
use mk_bytes::Text;
use mk_for::{TurnFault, substitute_within};
use mk_lines::MAX_LEN;
use std::alloc::Global;

/// How many turns a loop has.
pub fn turn_count(header: &Loop) -> usize
    ensures { result ≡ spec.turn_count header.now.names header.now.words }
{
    header.words.len() / header.names.len()
}

// The words of a turn, counted from 0.
fn turn_words<'t>(header: &'t Loop, turn: usize) -> &'t [Text]
    requires { turn < spec.turn_count header.now.names header.now.words }
    ensures { result.now ≡ words_of (length header.now.names) header.now.words turn }
{
    let count = header.names.len();
    &header.words.as_slice()[turn * count..turn * count + count]
}

// A text in the turn of a loop that is being read.
fn in_turn(alloc: Global, entered: &OpenLoop<'_>, text: &[u8]) -> Result<Text, TurnFault>
    ensures { Agrees no_memory (λ text_in_turn. text_in_turn) result
        (within max_len
        (replaced (turn_of entered.now).names (turn_of entered.now).words text.now)) }
{
    let words = turn_words(&entered.header, entered.turn);
    substitute_within(alloc, entered.header.names.as_slice(), words, text, MAX_LEN)
}

// Whether a text is the same in each turn, and no longer than a line may be.
fn stays(text: &[u8]) -> bool
    ensures plain { IsTrue result → list_any is_dollar text.now ≡ false }
    ensures short { IsTrue result → length text.now ≤ max_len }
{
    text.len() <= MAX_LEN && !text.contains(&b'$')
}

/// The text that stands for another one, or that one where none does.
pub fn text_or<'t>(changed: &'t Option<Text>, text: &'t [u8]) -> &'t [u8]
    ensures { result.now ≡ text_or changed.now text.now }
{
    match changed {
        Some(changed) => changed.bytes(),
        None => text,
    }
}

/// What a text becomes in the turns that are being read, or `None` where it stays as it is;
/// `TooLong` where a loop makes it longer than 1,048,576 bytes, which a line may have. `NoMemory`
/// where memory ran out.
pub fn changed_text(
    alloc: Global,
    loops: &Stack<OpenLoop<'_>>,
    text: &[u8],
) -> Result<Option<Text>, TurnFault>
    ensures { Agrees no_memory (λ changed. text_or changed text.now) result
        (spec.in_turns (turns_in loops.now) text.now) }
{
    if loops.as_slice().is_empty() {
        return Ok(None);
    }
    if stays(text) {
        return Ok(None);
    }
    let mut changed = None;
    for entered in loops.as_slice() {
        changed = Some(in_turn(alloc, entered, text_or(&changed, text))?);
    }
    Ok(changed)
}

/// Another turn follows the one that was read, unless a `.break` ended the loop.
pub fn has_next(entered: &OpenLoop<'_>, goes_on: bool) -> bool
    ensures { result ≡ has_next entered.now goes_on }
{
    let count = turn_count(&entered.header);
    goes_on && entered.turn + 1 < count
}

/// A loop in its next turn.
pub fn next_turn<'t>(entered: OpenLoop<'t>) -> OpenLoop<'t>
    requires { has_next entered true ≡ true }
    ensures { IsNext entered.entry result }
{
    let OpenLoop {
        body,
        header,
        turn,
        depth,
    } = entered;
    OpenLoop {
        body,
        header,
        turn: turn + 1,
        depth,
    }
}
