//! The turns of a loop.
ghost use Rattle.std.specs.Prelude.{◌≡◌, ◌%◌, ◌<◌, ◌≤◌, length, slice_get, Some, IfOk};
ghost use Rattle.mk_bytes.specs.Agrees.{Agrees};
ghost use Rattle.mk_for.specs.Turns as spec;
ghost use Rattle.mk_for.specs.declared.unrolling.ForFault.TheVariants.{NoMemory as no_memory};

use crate::substitution::substitute;
use mk_bytes::{Items, NoMemory, Text, Texts};
use mk_lines::{LogLine, LogLines};
use std::alloc::Global;

/// Why a loop has no turns.
#[derive(Clone, Copy, PartialEq, Eq)]
pub enum ForFault {
    /// There are so many words, which is no multiple of the number of names, the second.
    Count(usize, usize),
    /// Memory ran out.
    NoMemory,
}

impl From<NoMemory> for ForFault {
    ghost use Rattle.std.specs.Prelude.{◌≡◌};
    ghost use Rattle.mk_for.specs.declared.unrolling.ForFault.TheVariants.{NoMemory as no_memory};

    ghost from_gives = { λ _ fault. fault ≡ no_memory };

    fn from(_: NoMemory) -> ForFault {
        ForFault::NoMemory
    }
}

/// The bodies of a loop's turns, in order.
pub type Bodies = Items<LogLines>;

/// The bodies of all turns of a loop in order, each as [`turn`] gives it; `Count` with the numbers
/// of words and of names exactly where the words are no multiple of the names. `NoMemory` where
/// memory ran out.
pub fn unroll(
    alloc: Global,
    body: &LogLines,
    names: &Texts,
    words: &Texts,
) -> Result<Bodies, ForFault>
    requires { 0 < length names.now }
    ensures { Agrees no_memory (λ bodies. bodies) result
        (spec.unrolled body.now names.now words.now) }
{
    if words.len() % names.len() != 0 {
        return Err(ForFault::Count(words.len(), names.len()));
    }
    let mut bodies = Items::new(alloc, 0)?;
    for k in 0..words.len() / names.len() {
        bodies.push(turn(alloc, body, names, words, k)?)?;
    }
    Ok(bodies)
}

/// The body of one turn of a loop, counted from 0: its lines with their numbers, in which the
/// references to the loop's names stand for the words of this turn, as [`substitute`] replaces
/// them. `NoMemory` where memory ran out.
///
/// [`substitute`]: crate::substitute
pub fn turn(
    alloc: Global,
    body: &LogLines,
    names: &Texts,
    words: &Texts,
    k: usize,
) -> Result<LogLines, NoMemory>
    requires named { 0 < length names.now }
    requires even { length words.now % length names.now ≡ 0 }
    requires below { k < spec.turns names.now words.now }
    ensures value { IfOk result (λ lines. lines ≡ spec.body_of body.now names.now words.now k) }
    ensures unrolled { IfOk result (λ lines.
        slice_get (spec.bodies body.now names.now words.now) k ≡ Some lines) }
{
    let count = names.len();
    let values = &words.as_slice()[k * count..k * count + count];
    let mut lines = Items::new(alloc, 0)?;
    for line in body.as_slice() {
        lines.push(turned_line(alloc, names.as_slice(), values, line)?)?;
    }
    Ok(lines)
}

// A line of a turn, with the number that it has in the body.
fn turned_line(
    alloc: Global,
    names: &[Text],
    values: &[Text],
    line: &LogLine,
) -> Result<LogLine, NoMemory>
    requires { length names.now ≤ length values.now }
    ensures { IfOk result (λ turned. turned ≡ spec.line_in names.now values.now line.now) }
{
    Ok(LogLine {
        first: line.first,
        text: substitute(alloc, names, values, line.text.bytes())?,
    })
}
