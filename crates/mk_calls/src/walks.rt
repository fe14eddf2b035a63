//! Closed walks.
ghost use Rattle.std.specs.Prelude.{IsTrue};
ghost use Rattle.mk_graph.specs.Numbers.{AreBelow, EachBelow};

use crate::refused::Refused;
use crate::rows::{Row, check};
use mk_bytes::{Items, NoMemory};
use mk_graph::{Nodes, Preds, cycle};
use std::alloc::Global;

// What a row shows, the predecessors of each node, where the walk begins, and the closed walk.
struct CycleRow(
    &'static str,
    &'static [&'static [u32]],
    &'static [u32],
    Option<&'static [u32]>,
);

impl Row for CycleRow {
    fn shows(&self) -> &'static str {
        self.0
    }

    fn holds(&self, alloc: Global) -> Result<bool, Refused> {
        let preds = preds_of(alloc, self.1)?;
        let from = nodes_of(alloc, self.2)?;
        let found = walk_met(alloc, &preds, &from)?;
        Ok(is_met(&found, self.3))
    }
}

const CYCLES: [CycleRow; 3] = [
    CycleRow("two nodes", &[&[1], &[0]], &[0], Some(&[0, 1, 0])),
    CycleRow("no predecessors", &[&[1], &[]], &[0], None),
    CycleRow("from nowhere", &[&[0]], &[], None),
];

fn are_below(bound: usize, nodes: &[u32]) -> bool
    ensures { IsTrue result → AreBelow bound nodes.now }
{
    for n in nodes {
        if *n as usize >= bound {
            return false;
        }
    }
    true
}

fn each_below(bound: usize, preds: &[Nodes]) -> bool
    ensures { IsTrue result → EachBelow bound preds.now }
{
    for nodes in preds {
        if !are_below(bound, nodes.as_slice()) {
            return false;
        }
    }
    true
}

fn nodes_of(alloc: Global, numbers: &[u32]) -> Result<Nodes, NoMemory> {
    let mut nodes = Items::new(alloc, 0)?;
    for n in numbers {
        nodes.push(*n)?;
    }
    Ok(nodes)
}

fn preds_of(alloc: Global, lists: &[&[u32]]) -> Result<Preds, NoMemory> {
    let mut preds = Items::new(alloc, 0)?;
    for numbers in lists {
        preds.push(nodes_of(alloc, numbers)?)?;
    }
    Ok(preds)
}

// The closed walk that is met, where all numbers are those of nodes.
fn walk_met(alloc: Global, preds: &Preds, from: &Nodes) -> Result<Option<Nodes>, NoMemory> {
    let bound = preds.len();
    if !each_below(bound, preds.as_slice()) {
        return Ok(None);
    }
    if !are_below(bound, from.as_slice()) {
        return Ok(None);
    }
    cycle(alloc, preds, from)
}

fn is_met(found: &Option<Nodes>, wanted: Option<&[u32]>) -> bool {
    match (found, wanted) {
        (Some(walk), Some(wanted)) => walk.as_slice() == wanted,
        (None, None) => true,
        _ => false,
    }
}

// A node before each but the last of `count` nodes; the predecessor of the last one is `last`.
fn chain(alloc: Global, count: u32, last: &[u32]) -> Result<Preds, NoMemory> {
    let mut preds = Items::new(alloc, 0)?;
    for n in 1..count {
        preds.push(nodes_of(alloc, &[n])?)?;
    }
    preds.push(nodes_of(alloc, last)?)?;
    Ok(preds)
}

// How many nodes the closed walk from the first node of a chain has.
fn walk_len(alloc: Global, count: u32, last: &[u32]) -> Result<usize, NoMemory> {
    let preds = chain(alloc, count, last)?;
    let from = nodes_of(alloc, &[0])?;
    match walk_met(alloc, &preds, &from)? {
        Some(walk) => Ok(walk.len()),
        None => Ok(0),
    }
}

#[test]
fn closed_walks_are_met(rt: HostRuntime) {
    check(&rt, rt.alloc(), &CYCLES);
}

// What a row shows, the predecessors of the last of many nodes, and how many nodes the closed walk
// has.
struct ChainRow(&'static str, &'static [u32], usize);

impl Row for ChainRow {
    fn shows(&self) -> &'static str {
        self.0
    }

    fn holds(&self, alloc: Global) -> Result<bool, Refused> {
        Ok(walk_len(alloc, 100_000, self.1)? == self.2)
    }
}

const CHAINS: [ChainRow; 3] = [
    ChainRow("back to the first", &[0], 100_001),
    ChainRow("the last one alone", &[99_999], 2),
    ChainRow("no closed walk", &[], 0),
];

#[test]
fn long_chains_are_walked(rt: HostRuntime) {
    check(&rt, rt.alloc(), &CHAINS);
}
