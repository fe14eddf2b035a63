//! The lines of some processes of a trace.
ghost use Rattle.std.specs.Prelude.{◌≡◌, ◌++◌, IfOk, OnOk};
ghost use Rattle.mk_strace.specs.Families as spec;
ghost use Rattle.mk_strace.specs.Held.{texts_in};

use crate::kept::Kept;
use crate::line::parts_of;
use mk_bytes::{NoMemory, Text};
use mk_filemon::cut_at;
use std::alloc::Global;

// Whether a line is of one of these processes. One that names no process is.
fn is_theirs(family: &Kept, line: &[u8]) -> bool
    ensures { result ≡ spec.is_theirs (texts_in family.now) line.now }
{
    match parts_of(line) {
        Some((process, _)) => !family.of(process).is_empty(),
        None => true,
    }
}

#[tactic(auto, using(crate::proofs::FamilyLemmas::nothing_more))]
// Adds a line, where it is theirs.
fn add_theirs(lines: &mut Text, family: &Kept, line: &[u8]) -> Result<(), NoMemory>
    ensures { OnOk result
        (lines.new ≡ lines.old ++ spec.their_line (texts_in family.now) line.now) }
{
    if is_theirs(family, line) {
        return lines.push_both(line, b"\n");
    }
    Ok(())
}

/// The lines of a trace that are of a process for which a text is kept, and those that name no
/// process, in order, each with its newline. What stands behind the last newline is left out:
/// another process may be writing there. The time is linear in the trace.
pub fn lines_of(alloc: Global, family: &Kept, trace: &[u8]) -> Result<Text, NoMemory>
    ensures { IfOk result (λ lines. lines ≡ spec.lines_of (texts_in family.now) trace.now) }
{
    let mut lines = Text::new(alloc);
    let mut rest = trace;
    'each: while let Some((line, after)) = cut_at(b'\n', rest) {
        add_theirs(&mut lines, family, line)?;
        rest = after;
    }
    Ok(lines)
}
