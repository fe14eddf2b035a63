ghost use Rattle.std.specs.Prelude.{◌≡◌, ◌<◌, ◌^◌, length, IsTrue};
ghost use Rattle.mk_graph.specs.Marks.{has};
ghost use Rattle.mk_plan.specs.AsNew.{as_new};
ghost use Rattle.mk_plan.specs.Plans.{are_ordered, are_sourced, node_at};

use mk_bytes::{Items, Text, Texts};
use mk_graph::{Attr, Marks};
use std::marker::Model;

/// How a node of a plan stands in a run.
#[derive(Clone, Copy, PartialEq, Eq)]
pub enum NodeState {
    /// Nothing was decided of it.
    Undecided,
    /// A job makes it.
    Open,
    /// It is up to date, or was made.
    Settled,
    /// It could not be made.
    Failed,
}

/// Nodes, by their places in a plan.
pub type Nodes = Items<u32>;

/// A node of a plan.
#[derive(Drop)]
pub struct PlanNode {
    /// Its cleaned path.
    pub name: Text,
    /// What it is made from, in the order of its line, repeated ones included.
    pub sources: Nodes,
    /// What has to be settled before it is decided.
    pub before: Nodes,
    /// Its command lines as they are written.
    pub commands: Texts,
    /// The cleaned path of its implied source, or nothing where it has none.
    pub implied: Text,
    /// Its attributes.
    pub marks: Marks,
}

/// Nodes in the order in which one job would make them: each stands behind its predecessors, which
/// its sources are among.
#[derive(Drop)]
pub struct Plan {
    nodes: Items<PlanNode>,
}

impl Model for Plan {
    ghost use Rattle.std.specs.Prelude.{List, IsTrue};
    ghost use Rattle.mk_plan.specs.Plans.{are_ordered, are_sourced};
    ghost use Rattle.mk_plan.specs.declared.plan.PlanNode.{PlanNode};

    ghost Value = { List PlanNode };

    ghost view = { λ plan. plan.nodes };

    ghost invariant = { λ plan. IsTrue (are_ordered 0 plan.nodes) × IsTrue (are_sourced plan.nodes) };
}

impl Plan {
    /// The cleaned path of a node, or nothing where there is no such node.
    pub fn name_at(&self, n: u32) -> &[u8]
        ensures { result.now ≡ (node_at self.now n).name }
    {
        match self.nodes.as_slice().get(n as usize) {
            Some(node) => node.name.bytes(),
            None => b"",
        }
    }

    /// The plan of these nodes, each of which stands behind its predecessors and has its sources
    /// among them.
    pub fn of(nodes: Items<PlanNode>) -> Plan
        requires ordered { IsTrue (are_ordered 0 nodes) }
        requires sourced { IsTrue (are_sourced nodes) }
        ensures { result ≡ nodes }
    {
        Plan { nodes }
    }

    /// The nodes, in order. Takes no memory.
    pub fn nodes(&self) -> &[PlanNode]
        ensures { result.now ≡ self.now }
    {
        self.nodes.as_slice()
    }

    /// How many nodes there are. Takes no memory.
    pub fn len(&self) -> u32
        ensures value { result ≡ length self.now }
        ensures ordered { IsTrue (are_ordered 0 self.now) }
        ensures sourced { IsTrue (are_sourced self.now) }
    {
        self.nodes.len() as u32
    }

    /// The cleaned path of a node.
    pub fn name(&self, n: u32) -> &[u8]
        requires { n < length self.now }
        ensures { result.now ≡ (node_at self.now n).name }
    {
        self.nodes.get(n as usize).name.bytes()
    }

    /// What a node is made from, in the order of its line, repeated ones included.
    pub fn sources(&self, n: u32) -> &Nodes
        requires { n < length self.now }
        ensures { result.now ≡ (node_at self.now n).sources }
    {
        &self.nodes.get(n as usize).sources
    }

    /// What has to be settled before a node is decided.
    pub fn before(&self, n: u32) -> &Nodes
        requires { n < length self.now }
        ensures { result.now ≡ (node_at self.now n).before }
    {
        &self.nodes.get(n as usize).before
    }

    /// The command lines of a node as they are written.
    pub fn commands(&self, n: u32) -> &Texts
        requires { n < length self.now }
        ensures { result.now ≡ (node_at self.now n).commands }
    {
        &self.nodes.get(n as usize).commands
    }

    /// The cleaned path of a node's implied source, or nothing where it has none.
    pub fn implied(&self, n: u32) -> &[u8]
        requires { n < length self.now }
        ensures { result.now ≡ (node_at self.now n).implied }
    {
        self.nodes.get(n as usize).implied.bytes()
    }

    /// Whether a node is so marked.
    pub fn has(&self, n: u32, attr: Attr) -> bool
        requires { n < length self.now }
        ensures { result ≡ has (node_at self.now n).marks attr }
    {
        self.nodes.get(n as usize).marks.has(attr)
    }

    /// Counts a node from now on as new for the nodes that are made from it, as a phony one does.
    /// Takes no memory.
    pub fn count_as_new(&mut self, n: u32)
        requires { n < length self.old }
        ensures { self.new ≡ as_new self.old n }
    {
        let node = self.nodes.get_mut(n as usize);
        node.marks = node.marks.with(Attr::Phony);
    }
}
