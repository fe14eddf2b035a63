//! What dependency lines leave behind the last one.
ghost use Rattle.std.specs.Prelude.{◌≡◌, ◌<◌, length, IfOk, OnOk};
ghost use Rattle.mk_rules.specs.Ends as spec;
ghost use Rattle.mk_graph.specs.Macros.{graph_with_macros};
ghost use Rattle.mk_graph.specs.Numbers.{AreBelow};
ghost use Rattle.mk_rules.specs.Rules.{main_by};

use crate::rules::{Everywhere, Rules, first_main};
use mk_bytes::{Items, NoMemory, Text, Texts};
use mk_graph::{Attr, Graph, Nodes};
use std::alloc::Global;

/// What all dependency lines leave.
#[derive(Drop)]
pub struct Finished {
    pub graph: Graph,
    pub suffixes: Texts,
    pub paths: Texts,
    pub main: Texts,
    pub one_job: bool,
    pub delete_on_error: bool,
}

// Marks a node, where this is so.
fn mark_where(graph: &mut Graph, n: u32, attr: Attr, holds: bool)
    requires { n < length graph.old }
    ensures value { graph.new ≡ spec.node_also holds attr graph.old n }
    ensures length { length graph.new ≡ length graph.old }
{
    if holds {
        graph.mark(n, attr).unwrap();
    }
}

// Gives a node the marks that all targets have, if it is one.
fn mark_target(graph: &mut Graph, n: u32, marks: Everywhere)
    requires { n < length graph.old }
    ensures value { graph.new ≡ spec.target_also marks graph.old n }
    ensures length { length graph.new ≡ length graph.old }
{
    if graph.has(n, Attr::Target) {
        mark_where(graph, n, Attr::Precious, marks.precious);
        mark_where(graph, n, Attr::Silent, marks.silent);
        mark_where(graph, n, Attr::Ignore, marks.ignore);
    }
}

// Gives every target the marks that all targets have.
fn mark_targets(graph: &mut Graph, marks: Everywhere)
    ensures { graph.new ≡ spec.nodes_everywhere marks graph.old }
{
    for n in 0..graph.len() as u32 {
        mark_target(graph, n, marks);
    }
}

// The main targets: the sources of `.MAIN`, or else the first target that may be one.
fn main_targets(
    alloc: Global,
    graph: &Graph,
    targets: &Nodes,
    main: Texts,
) -> Result<Texts, NoMemory>
    requires { AreBelow (length graph.now) targets.now }
    ensures { IfOk result (λ names. names ≡ main_by graph.now targets.now main) }
{
    if !main.is_empty() {
        return Ok(main);
    }
    let mut names = Items::new(alloc, 0)?;
    if let Some(name) = first_main(graph, targets.as_slice()) {
        names.push(Text::from_bytes(alloc, name)?)?;
    }
    Ok(names)
}

// Marks the targets and applies the macros; then the main targets are known.
#[tactic(auto, using(crate::proofs::EndLemmas::length_macros, crate::proofs::FoldLemmas::below_more))]
fn end_graph(
    alloc: Global,
    graph: &mut Graph,
    targets: &Nodes,
    main: Texts,
    marks: Everywhere,
) -> Result<Texts, NoMemory>
    requires { AreBelow (length graph.old) targets.now }
    ensures graph { OnOk result
        (graph.new ≡ graph_with_macros (spec.nodes_everywhere marks graph.old)) }
    ensures main { IfOk result (λ names. names ≡ main_by graph.new targets.now main) }
{
    mark_targets(graph, marks);
    graph.use_macros()?;
    main_targets(alloc, graph, targets, main)
}

impl Rules {
    /// What all dependency lines leave: every target gets the marks that all targets have, then the
    /// macros are applied, and then the main targets are known.
    #[tactic(auto, using(crate::proofs::EndLemmas::length_macros, crate::proofs::FoldLemmas::below_more))]
    pub fn finish(self) -> Result<Finished, NoMemory>
        ensures { IfOk result (λ finished. finished ≡ spec.finished self) }
    {
        drop(self.group);
        let targets = self.targets;
        let mut graph = self.graph;
        let main = end_graph(self.alloc, &mut graph, &targets, self.main, self.everywhere);
        drop(targets);
        match main {
            Err(fault) => {
                drop(graph);
                drop(self.suffixes);
                drop(self.paths);
                Err(fault)
            }
            Ok(main) => Ok(Finished {
                graph,
                suffixes: self.suffixes.into_known(),
                paths: self.paths.into_known(),
                main,
                one_job: self.one_job,
                delete_on_error: self.delete_on_error,
            }),
        }
    }
}
