//! Walks from nodes to their predecessors.
ghost use Rattle.std.specs.Prelude.{◌≡◌, ◌<◌, ℕ, List, length, IfOk, IfSome, IfNone, OnOk};
ghost use Rattle.mk_graph.specs.Closed.{IsClosed, NoneCloses};
ghost use Rattle.mk_graph.specs.Numbers.{AreBelow, EachBelow};
ghost use Rattle.mk_graph.specs.Orders.{IsOrdered};
ghost use Rattle.mk_graph.specs.Steps as spec;
ghost use Rattle.mk_graph.specs.StepCounts.{IsLess, steps_left};
ghost use Rattle.mk_graph.specs.StepView.{nodes_on};
ghost use Rattle.mk_graph.specs.Walks.{Walked, closed, depth_first, first_cycle, from_node};

use crate::lists::{Nodes, Preds};
use mk_bytes::{Items, NoMemory};
use std::alloc::Global;
use std::marker::Model;

// How far a walk has come with a node.
#[derive(Clone, Copy)]
enum Mark {
    New,
    OnPath,
    Done,
}

// What a step of a walk comes to.
#[derive(Clone, Copy)]
enum Turn {
    On,
    /// This node is done.
    Left(u32),
    /// The path came to this node of it again.
    Closed(u32),
    /// No node is left.
    Over,
}

// A node on the path, and what is left of the list in which it was met.
#[derive(Clone, Copy)]
struct Step<'t> {
    node: u32,
    rest: &'t [u32],
}

// How far a walk has come: the path to where it stands, and what is left of the list that it goes
// through there. Contracts see the path from its last node to its first.
#[derive(Drop)]
struct Walk<'t> {
    marks: Vec<Mark>,
    path: Vec<Step<'t>>,
    rest: &'t [u32],
}

impl<'t> Model for Walk<'t> {
    ghost use Rattle.mk_graph.specs.Steps.{State};
    ghost use Rattle.mk_graph.specs.StepCounts.{IsLess, steps_left};
    ghost use Rattle.mk_graph.specs.StepView.{frames_of};

    ghost Value = { State };

    ghost view = { λ walk. record {
      marks = walk.marks.items;
      path = frames_of walk.path.items;
      rest = walk.rest.now;
    } };
}

impl<'t> Walk<'t> {
    // A walk from these nodes, before its first step.
    fn new(alloc: Global, count: usize, from: &'t Nodes) -> Result<Walk<'t>, NoMemory>
        ensures { IfOk result (λ walk. walk ≡ spec.first_state count from.now) }
    {
        Ok(Walk {
            marks: vec![in alloc; Mark::New; count]?,
            path: Vec::new(alloc),
            rest: from.as_slice(),
        })
    }

    // Goes from a new node to its predecessors.
    fn enter(&mut self, n: u32, preds: &'t Preds) -> Result<(), NoMemory>
        requires marks { n < length self.old.marks }
        requires preds { n < length preds.now }
        ensures { OnOk result (self.new ≡ spec.entered preds.now self.old n) }
    {
        self.path.push(Step {
            node: n,
            rest: self.rest,
        })?;
        self.marks[n as usize] = Mark::OnPath;
        self.rest = preds.get(n as usize).as_slice();
        Ok(())
    }

    // Goes back from a node whose predecessors are done.
    fn back(&mut self) -> Turn
        requires { spec.AreWithin (length self.old.marks) self.old.path }
        ensures turn { result ≡ spec.turn_back self.old.path }
        ensures state { self.new ≡ spec.gone_back self.old }
    {
        let Some(step) = self.path.pop() else {
            return Turn::Over;
        };
        self.marks[step.node as usize] = Mark::Done;
        self.rest = step.rest;
        Turn::Left(step.node)
    }

    // One step: to the next node of the list, or back where there is none.
    fn step(&mut self, preds: &'t Preds) -> Result<Turn, NoMemory>
        requires preds { EachBelow (length preds.now) preds.now }
        requires fit { spec.IsFit (length preds.now) self.old }
        ensures fit { OnOk result (spec.IsFit (length preds.now) self.new) }
        ensures turned { (whole : Walked) (done : List ℕ) → spec.Leads preds.now done self.old whole
            → IfOk result (λ turn. spec.Turned preds.now done self.new whole turn) }
        ensures fewer { IfOk result (λ turn.
            IsLess (steps_left preds.now self.new) (steps_left preds.now self.old) turn) }
    {
        let Some((n, more)) = self.rest.split_first() else {
            return Ok(self.back());
        };
        self.rest = more;
        match self.marks[*n as usize] {
            Mark::New => {
                self.enter(*n, preds)?;
                Ok(Turn::On)
            }
            Mark::OnPath => Ok(Turn::Closed(*n)),
            Mark::Done => Ok(Turn::On),
        }
    }

    // The path from one of its nodes on, and this node again.
    fn closed(&self, alloc: Global, n: u32) -> Result<Nodes, NoMemory>
        ensures { IfOk result (λ nodes. nodes ≡ closed (spec.path_of self.now.path) n) }
    {
        let mut nodes = Items::new(alloc, 0)?;
        for step in from_node(self.path.as_slice(), n) {
            nodes.push(step.node)?;
        }
        nodes.push(n)?;
        Ok(nodes)
    }
}

// The steps of a path from one of its nodes on.
fn from_node<'v, 't>(path: &'v [Step<'t>], n: u32) -> &'v [Step<'t>]
    ensures { nodes_on result.now ≡ from_node (nodes_on path.now) n }
{
    for (place, step) in path.iter().enumerate() {
        if step.node == n {
            return &path[place..];
        }
    }
    &path[path.len()..]
}

/// What a depth-first walk comes to.
#[derive(Drop)]
pub enum Ordered {
    /// The nodes that it reached, each behind its predecessors.
    Order(Nodes),
    /// The first closed walk that it met, its first node repeated at the end.
    Cycle(Nodes),
}

/// The nodes that are reached from those of `from`, each behind its predecessors: in the order in
/// which a walk from the nodes of `from`, in order, is done with them, where it goes through the
/// predecessors of each node in order. Where it meets a closed walk, the first of them.
pub fn depth_first(alloc: Global, preds: &Preds, from: &Nodes) -> Result<Ordered, NoMemory>
    requires preds { EachBelow (length preds.now) preds.now }
    requires from { AreBelow (length preds.now) from.now }
    ensures value { IfOk result (λ ordered. ordered ≡ depth_first preds.now from.now) }
    ensures order { IfOk result (IsOrdered preds.now) }
{
    let mut order = Items::new(alloc, 0)?;
    let mut walk = Walk::new(alloc, preds.len(), from)?;
    'steps: loop {
        match walk.step(preds)? {
            Turn::On => {}
            Turn::Left(n) => order.push(n)?,
            Turn::Closed(n) => return Ok(Ordered::Cycle(walk.closed(alloc, n)?)),
            Turn::Over => return Ok(Ordered::Order(order)),
        }
    }
}

/// The first closed walk from a node to its predecessors that a depth-first walk from the nodes of
/// `from`, in order, meets: it goes through the predecessors of each node in order, and its first
/// node is repeated at the end. `None` exactly where no node on any walk from these nodes lies on a
/// closed walk.
pub fn cycle(alloc: Global, preds: &Preds, from: &Nodes) -> Result<Option<Nodes>, NoMemory>
    requires preds { EachBelow (length preds.now) preds.now }
    requires from { AreBelow (length preds.now) from.now }
    ensures first { IfOk result (λ found. found ≡ first_cycle preds.now from.now) }
    ensures closed { IfOk result (λ found. IfSome found (IsClosed preds.now from.now)) }
    ensures none { IfOk result (λ found. IfNone found (NoneCloses preds.now from.now)) }
{
    match depth_first(alloc, preds, from)? {
        Ordered::Order(_) => Ok(None),
        Ordered::Cycle(nodes) => Ok(Some(nodes)),
    }
}
