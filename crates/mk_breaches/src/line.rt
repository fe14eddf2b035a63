//! The lines of breaches.
ghost use Rattle.std.specs.Prelude.{◌≡◌, ◌++◌, OnOk};
ghost use Rattle.mk_breaches.specs.Lines as spec;

use crate::breach::{Breach, Breaches};
use crate::node::{NodeFacts, Nodes, name_at};
use mk_bytes::{NoMemory, Text};
use mk_oodate::Why;

fn reason_word(why: Why) -> &'static [u8]
    ensures { result.now ≡ spec.reason_word why }
{
    match why {
        Why::Always => b"always",
        Why::Missing => b"missing",
        Why::Newer(_) => b"newer",
        Why::NoMeta => b"nometa",
        Why::Touched => b"touched",
        Why::Command => b"command",
        Why::NoRecords => b"norecords",
        Why::Read(_) => b"read",
        Why::Appeared(_) => b"appeared",
        Why::Left(_) => b"left",
    }
}

// Appends a line of a word and a name.
fn push_node_line(out: &mut Text, word: &[u8], name: &[u8]) -> Result<(), NoMemory>
    ensures { OnOk result (out.new ≡ out.old ++ spec.node_line word.now name.now) }
{
    out.push(word)?;
    out.push(b" ")?;
    out.push(name)?;
    out.push(b"\n")
}

// Appends a line of a word, a name, and what is told of it.
fn push_told_line(out: &mut Text, word: &[u8], name: &[u8], told: &[u8]) -> Result<(), NoMemory>
    ensures { OnOk result (out.new ≡ out.old ++ spec.told_line word.now name.now told.now) }
{
    out.push(word)?;
    out.push(b" ")?;
    push_node_line(out, name, told)
}

/// Appends the line of a breach: its word, the name of its node, and the path or the reason that it
/// tells.
pub fn push_line(out: &mut Text, nodes: &[NodeFacts], breach: &Breach) -> Result<(), NoMemory>
    ensures { OnOk result (out.new ≡ out.old ++ spec.line_of nodes.now breach.now) }
{
    match breach {
        Breach::Mode => out.push(b"mode\n"),
        Breach::Asks => out.push(b"asks\n"),
        Breach::Differs => out.push(b"differs\n"),
        Breach::Unmeta(n) => push_node_line(out, b"unmeta", name_at(nodes, *n)),
        Breach::Task(n) => push_node_line(out, b"task", name_at(nodes, *n)),
        Breach::Oodate(n) => push_node_line(out, b"oodate", name_at(nodes, *n)),
        Breach::Exists(n, path) => push_told_line(out, b"exists", name_at(nodes, *n), path.bytes()),
        Breach::Unrecorded(n) => push_node_line(out, b"unrecorded", name_at(nodes, *n)),
        Breach::Stale(n, why) => push_told_line(
            out,
            b"stale",
            name_at(nodes, *n),
            reason_word(*why),
        ),
        Breach::ReadsMade(n, path) => push_told_line(
            out,
            b"reads-made",
            name_at(nodes, *n),
            path.bytes(),
        ),
        Breach::ReadsChanged(n, path) => push_told_line(
            out,
            b"reads-changed",
            name_at(nodes, *n),
            path.bytes(),
        ),
        Breach::Changes(n, path) => push_told_line(
            out,
            b"changes",
            name_at(nodes, *n),
            path.bytes(),
        ),
        Breach::Unwritten(n) => push_node_line(out, b"unwritten", name_at(nodes, *n)),
        Breach::Meta(n, path) => push_told_line(out, b"meta", name_at(nodes, *n), path.bytes()),
    }
}

/// Appends the lines of breaches, in order.
pub fn push_lines(out: &mut Text, nodes: &Nodes, all: &Breaches) -> Result<(), NoMemory>
    ensures { OnOk result (out.new ≡ out.old ++ spec.lines_of nodes.now all.now) }
{
    for breach in all.as_slice() {
        push_line(out, nodes.as_slice(), breach)?;
    }
    Ok(())
}
