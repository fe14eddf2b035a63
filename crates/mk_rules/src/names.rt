//! Names of a line as nodes of the graph, and what is added to many of them.
ghost use Rattle.std.specs.Prelude.{◌≡◌, ◌<◌, ◌≤◌, [], length, Ok, IfOk, IfErr, OnOk, OnErr};
ghost use Rattle.mk_bytes.specs.Agrees.{AgreesErr};
ghost use Rattle.mk_graph.specs.Numbers.{AreBelow};
ghost use Rattle.mk_rules.specs.Names as spec;
ghost use Rattle.mk_rules.specs.declared.fault.RuleFault.TheVariants.{NoMemory as no_memory};

use crate::fault::RuleFault;
use mk_bytes::{Items, NoMemory, Texts};
use mk_graph::{Attr, Graph, Nodes};
use std::alloc::Global;

/// The node of a name, which is made where it is new.
pub fn named(graph: &mut Graph, name: &[u8]) -> Result<u32, RuleFault>
    ensures done { IfOk result (λ n. spec.named graph.old name.now ≡ Ok (graph.new, n)) }
    ensures within { IfOk result (λ n. n < length graph.new) }
    ensures refused { IfErr result (λ fault.
        AgreesErr no_memory fault (spec.named graph.old name.now)) }
    ensures longer { length graph.old ≤ length graph.new }
{
    Ok(graph.node(name)?)
}

/// The nodes of names, in order.
#[tactic(auto, using(crate::proofs::FoldLemmas::below_grown))]
pub fn all_named(alloc: Global, graph: &mut Graph, names: &Texts) -> Result<Nodes, RuleFault>
    ensures done { IfOk result (λ nodes.
        spec.all_named graph.old [] names.now ≡ Ok (graph.new, nodes)) }
    ensures within { IfOk result (AreBelow (length graph.new)) }
    ensures refused { IfErr result (λ fault.
        AgreesErr no_memory fault (spec.all_named graph.old [] names.now)) }
    ensures longer { length graph.old ≤ length graph.new }
{
    let mut nodes = Items::new(alloc, names.len())?;
    for name in names.as_slice() {
        nodes.push(named(graph, name.bytes())?)?;
    }
    Ok(nodes)
}

/// Marks nodes. Takes no memory.
pub fn mark_all(graph: &mut Graph, attr: Attr, nodes: &[u32])
    requires { AreBelow (length graph.old) nodes.now }
    ensures value { graph.new ≡ spec.all_marked attr graph.old nodes.now }
    ensures length { length graph.new ≡ length graph.old }
{
    for n in nodes {
        graph.mark(*n, attr).unwrap();
    }
}

fn add_sources(graph: &mut Graph, n: u32, sources: &[u32]) -> Result<(), NoMemory>
    requires node { n < length graph.old }
    requires sources { AreBelow (length graph.old) sources.now }
    ensures ok { OnOk result (graph.new ≡ spec.sourced n graph.old sources.now) }
    ensures length { length graph.new ≡ length graph.old }
{
    for source in sources {
        graph.add_source(n, *source)?;
    }
    Ok(())
}

/// Adds sources to each of some nodes.
pub fn add_all_sources(graph: &mut Graph, nodes: &[u32], sources: &[u32]) -> Result<(), NoMemory>
    requires nodes { AreBelow (length graph.old) nodes.now }
    requires sources { AreBelow (length graph.old) sources.now }
    ensures ok { OnOk result (graph.new ≡ spec.all_sourced sources.now graph.old nodes.now) }
    ensures length { length graph.new ≡ length graph.old }
{
    for n in nodes {
        add_sources(graph, *n, sources)?;
    }
    Ok(())
}

/// Orders each of some nodes before another one.
pub fn order_before(graph: &mut Graph, n: u32, nodes: &[u32]) -> Result<(), NoMemory>
    requires node { n < length graph.old }
    requires nodes { AreBelow (length graph.old) nodes.now }
    ensures ok { OnOk result (graph.new ≡ spec.ordered_before n graph.old nodes.now) }
    ensures length { length graph.new ≡ length graph.old }
{
    for first in nodes {
        graph.order(*first, n)?;
    }
    Ok(())
}

// Orders a node before the first of a list, and each of these before its neighbour.
fn order_behind(graph: &mut Graph, first: u32, nodes: &[u32]) -> Result<(), NoMemory>
    requires first { first < length graph.old }
    requires nodes { AreBelow (length graph.old) nodes.now }
    ensures ok { OnOk result (graph.new ≡ spec.ordered_behind first graph.old nodes.now) }
    ensures length { length graph.new ≡ length graph.old }
{
    let mut before = first;
    for n in nodes {
        graph.order(before, *n)?;
        before = *n;
    }
    Ok(())
}

/// Orders each node before its neighbour in a list.
pub fn order_neighbours(graph: &mut Graph, nodes: &[u32]) -> Result<(), NoMemory>
    requires { AreBelow (length graph.old) nodes.now }
    ensures ok { OnOk result (graph.new ≡ spec.neighbours_ordered graph.old nodes.now) }
    ensures length { length graph.new ≡ length graph.old }
{
    match nodes {
        [] => Ok(()),
        [first, more @ ..] => order_behind(graph, *first, more),
    }
}
