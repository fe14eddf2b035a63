//! How far a walk over a graph has come.
ghost use Rattle.std.specs.Prelude.{◌≡◌, ◌+◌, ◌<◌, ◌≤◌, false, length, Ok, IfOk, IfErr, IfSome};
ghost use Rattle.std.specs.Prelude.{IfNone, OnOk};
ghost use Rattle.mk_closure.specs.Faults.{IsOwn, IsRefusedBy};
ghost use Rattle.mk_closure.specs.Names as names;
ghost use Rattle.mk_closure.specs.Parts as spec;
ghost use Rattle.mk_pool.specs.Pool.{is_held};

use crate::fault::CloseFault;
use crate::part::{Part, Way};
use mk_bytes::NoMemory;
use mk_graph::Graph;
use mk_pool::{MAX_NAMES, Name, Pool};
use std::alloc::Global;
use std::marker::Model;

/// The nodes of a graph, and behind them the names that are added to them, each with a number: 0,
/// 1, 2 and so on. Contracts see how each is made, and which were met.
#[derive(Drop)]
pub struct Closure<'g> {
    graph: &'g Graph,
    added: Pool,
    parts: Vec<Part>,
}

impl<'g> Model for Closure<'g> {
    ghost use Rattle.mk_closure.specs.Parts.{State, IsHeld};

    ghost Value = { State };

    ghost view = { λ closure. record {
      nodes = closure.graph.now;
      added = closure.added;
      parts = closure.parts.items;
    } };

    ghost invariant = { λ closure. IsHeld (record {
      nodes = closure.graph.now;
      added = closure.added;
      parts = closure.parts.items;
    }) };
}

impl Way {
    /// Whether nothing was decided.
    pub fn is_open(self) -> bool
        ensures { result ≡ spec.is_open_way self }
    {
        match self {
            Way::Open => true,
            Way::Own | Way::Rule(_, _) | Way::Placed(_) | Way::Default | Way::Dropped => false,
        }
    }

    /// Whether the node is not made itself: it is dropped, or another one stands for it.
    pub fn is_left_out(self) -> bool
        ensures { result ≡ spec.is_left_out_way self }
    {
        match self {
            Way::Placed(_) | Way::Dropped => true,
            Way::Open | Way::Own | Way::Rule(_, _) | Way::Default => false,
        }
    }
}

impl<'g> Closure<'g> {
    /// Before the first name is met.
    pub(crate) fn new(alloc: Global, graph: &'g Graph) -> Result<Closure<'g>, NoMemory>
        ensures { IfOk result (λ closure. closure ≡ spec.first_state graph.now) }
    {
        let open = Part {
            way: Way::Open,
            met: false,
        };
        Ok(Closure {
            graph,
            added: Pool::new(alloc)?,
            parts: vec![in alloc; open; graph.len()]?,
        })
    }

    /// The graph itself.
    pub fn graph(&self) -> &'g Graph
        ensures value { result.now ≡ self.now.nodes }
        ensures fewer { length self.now.nodes ≤ length self.now.parts }
    {
        self.graph
    }

    /// How many names there are. Takes no memory.
    pub fn len(&self) -> usize
        ensures value { result ≡ length self.now.parts }
        ensures held { spec.IsHeld self.now }
    {
        self.parts.len()
    }

    /// The number of a name, or `None` where it has none. Takes no memory.
    pub(crate) fn find(&self, name: &[u8]) -> Option<u32>
        ensures value { result ≡ names.number_in self.now name.now }
        ensures within { IfSome result (λ n. n < length self.now.parts) }
        ensures absent { IfNone result (is_held self.now.added name.now ≡ false) }
    {
        if let Some(n) = self.graph.find(name) {
            return Some(n);
        }
        let place = self.added.find(name)?;
        Some(self.graph.len() as u32 + place.0)
    }

    /// The name of a number. Takes no memory.
    pub fn name(&self, n: u32) -> &[u8]
        requires { n < length self.now.parts }
        ensures { result.now ≡ names.name_in self.now n }
    {
        let count = self.graph.len() as u32;
        if n < count {
            return self.graph.name(n);
        }
        self.added.text(Name(n - count))
    }

    /// How far the walk has come with a node.
    pub(crate) fn part(&self, n: u32) -> Part
        requires { n < length self.now.parts }
        ensures value { result ≡ spec.part_at self.now n }
        ensures made { spec.IsMade (length self.now.nodes) (length self.now.parts) result.way }

        // One that is not met leaves room.
        ensures room { result.met ≡ false → spec.met_count self.now.parts < MAX_NAMES }
    {
        self.parts[n as usize]
    }

    /// Meets a node.
    pub(crate) fn meet(&mut self, n: u32)
        requires within { n < length self.old.parts }
        requires new { (spec.part_at self.old n).met ≡ false }
        ensures state { self.new ≡ spec.with_met self.old n }
        ensures count { spec.met_count self.new.parts ≡ 1 + spec.met_count self.old.parts }
        ensures longer { length self.new.parts ≡ length self.old.parts }
    {
        self.parts[n as usize].met = true;
    }

    /// Decides how a node is made.
    pub(crate) fn make(&mut self, n: u32, way: Way)
        requires within { n < length self.old.parts }
        requires made { spec.IsMade (length self.old.nodes) (length self.old.parts) way }
        ensures state { self.new ≡ spec.with_way self.old n way }
        ensures grown { spec.IsGrown self.old self.new }
    {
        self.parts[n as usize].way = way;
    }

    /// The number of a name, which is added where it has none.
    pub(crate) fn number(&mut self, name: &[u8]) -> Result<u32, CloseFault>
        ensures number { IfOk result (λ n. names.numbered self.old name.now ≡ Ok (self.new, n)) }
        ensures within { IfOk result (λ n. n < length self.new.parts) }
        ensures refused { IfErr result (λ fault.
            IsRefusedBy fault (names.numbered self.old name.now)) }
        ensures own { IfErr result IsOwn }
        ensures grown { OnOk result (spec.IsGrown self.old self.new) }
    {
        if let Some(n) = self.find(name) {
            return Ok(n);
        }
        if self.len() == MAX_NAMES {
            return Err(CloseFault::Full);
        }
        Ok(self.add(name)?)
    }

    // Adds a name that has no number.
    fn add(&mut self, name: &[u8]) -> Result<u32, NoMemory>
        requires absent { is_held self.old.added name.now ≡ false }
        requires room { length self.old.parts < MAX_NAMES }
        ensures number { IfOk result (λ n. n ≡ length self.old.parts) }
        ensures state { OnOk result (self.new ≡ spec.with_name self.old name.now) }
    {
        let open = Part {
            way: Way::Open,
            met: false,
        };
        self.parts.reserve(1)?;
        let Ok(_) = self.added.intern(name) else {
            return Err(NoMemory);
        };
        let n = self.parts.len() as u32;
        self.parts.push(open).unwrap();
        Ok(n)
    }
}
