//! The graph of what was read, in the language DOT of Graphviz.
ghost use Rattle.std.specs.Prelude.{◌≡◌, ◌++◌, codes, map, flat_map, IfOk, OnOk};
ghost use Rattle.mk_listing.specs.Graphs as spec;
ghost use Rattle.mk_listing.specs.Lists.{all_noted};
ghost use Rattle.mk_listing.specs.Looks.{reads_in};

use crate::list::Distinct;
use crate::look::recorded;
use crate::text::push_dot_name;
use mk_bytes::{NoMemory, Text, Texts};
use mk_filemon::Rec;
use mk_meta::Meta;
use mk_world::Op;
use std::alloc::Global;

fn edge(alloc: Global, target: &Text, path: &Text) -> Result<Text, NoMemory>
    ensures { IfOk result (λ text. text ≡ spec.edge target.now path.now) }
{
    let mut text = Text::from_bytes(alloc, b"  ")?;
    push_dot_name(&mut text, target.bytes())?;
    text.push(b" -> ")?;
    push_dot_name(&mut text, path.bytes())?;
    text.push(b";\n")?;
    Ok(text)
}

fn add_edge(alloc: Global, edges: &mut Distinct, target: &Text, op: &Op) -> Result<(), NoMemory>
    ensures { OnOk result (edges.new
        ≡ all_noted edges.old (map (spec.edge target.now) (reads_in op.now))) }
{
    match op {
        Op::Read(path) | Op::Move(path, _) => edges.add(edge(alloc, target, path)?.bytes()),
        Op::Miss(_) | Op::Write(_) | Op::Delete(_) => Ok(()),
    }
}

#[tactic(auto, using(crate::proofs::ListLemmas::all_noted_append))]
fn add_edges(
    alloc: Global,
    edges: &mut Distinct,
    target: &Text,
    records: &[Rec],
) -> Result<(), NoMemory>
    ensures { OnOk result (edges.new ≡ all_noted edges.old
        (flat_map (λ one. map (spec.edge target.now) (reads_in one.op)) records.now)) }
{
    for one in records {
        add_edge(alloc, edges, target, &one.op)?;
    }
    Ok(())
}

fn add_edges_of(alloc: Global, edges: &mut Distinct, meta: &Meta) -> Result<(), NoMemory>
    ensures { OnOk result (edges.new ≡ all_noted edges.old (spec.edges_of meta.now)) }
{
    add_edges(alloc, edges, &meta.target, recorded(meta))
}

fn add_all_edges(alloc: Global, edges: &mut Distinct, metas: &[Meta]) -> Result<(), NoMemory>
    ensures { OnOk result (edges.new ≡ all_noted edges.old (flat_map spec.edges_of metas.now)) }
{
    for meta in metas {
        add_edges_of(alloc, edges, meta)?;
    }
    Ok(())
}

fn edges_in(alloc: Global, metas: &[Meta]) -> Result<Texts, NoMemory>
    ensures { IfOk result (λ edges. edges ≡ spec.edges metas.now) }
{
    let mut edges = Distinct::new(alloc);
    add_all_edges(alloc, &mut edges, metas)?;
    edges.texts(alloc)
}

fn push_all(out: &mut Text, lines: &[Text]) -> Result<(), NoMemory>
    ensures { OnOk result (out.new ≡ out.old ++ flat_map (λ line. line) lines.now) }
{
    for line in lines {
        out.push(line.bytes())?;
    }
    Ok(())
}

/// A directed graph in DOT: an edge from each target to each path that its job read, each once.
pub fn graph(alloc: Global, metas: &[Meta]) -> Result<Text, NoMemory>
    ensures { IfOk result (λ text. text ≡ spec.graph metas.now) }
{
    let edges = edges_in(alloc, metas)?;
    let mut out = Text::from_bytes(alloc, b"digraph {\n")?;
    push_all(&mut out, edges.as_slice())?;
    out.push(b"}\n")?;
    Ok(out)
}
