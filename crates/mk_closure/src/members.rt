//! The nodes of a closure, and what belongs to each.
ghost use Rattle.std.specs.Prelude.{◌≡◌, ◌<◌, ◌^◌, [], ◌∷◌, ◌++◌, length, IfOk, OnOk};
ghost use Rattle.mk_closure.specs.Members as spec;
ghost use Rattle.mk_closure.specs.Names.{number_in};
ghost use Rattle.mk_graph.specs.Nodes.{node_at};
ghost use Rattle.mk_graph.specs.Numbers.{AreBelow, EachBelow};

use crate::closure::Closure;
use crate::part::Way;
use mk_bytes::{Items, NoMemory, Text};
use mk_graph::{Graph, Marks, Nodes, Preds};
use std::alloc::Global;

/// The sources of a node as they stand, without a copy: those that the makefiles give it, and
/// behind them that of a rule; or the node of the place that stands for it.
#[derive(Clone, Copy)]
pub struct Sources<'g> {
    pub own: &'g [u32],
    pub of_rule: Option<u32>,
}

impl<'g> Sources<'g> {
    /// How many there are.
    pub fn len(&self) -> usize
        requires { length self.now.own.now < 2 ^ 32 }
        ensures { result ≡ length (spec.listed self.now) }
    {
        match self.of_rule {
            Some(_) => self.own.len() + 1,
            None => self.own.len(),
        }
    }
}

fn default_of(graph: &Graph) -> u32
    ensures { result ≡ spec.default_of graph.now }
{
    match graph.find(b".DEFAULT".as_slice()) {
        Some(n) => n,
        None => graph.len() as u32,
    }
}

impl<'g> Closure<'g> {
    // The sources that the makefiles give a node.
    fn own_sources(&self, n: u32) -> &'g [u32]
        requires { n < length self.now.parts }
        ensures value { result.now ≡ (node_at self.now.nodes n).sources }
        ensures below { AreBelow (length self.now.parts) result.now }
        ensures short { length result.now < 2 ^ 32 }
    {
        if (n as usize) < self.graph().len() {
            return self.graph().sources(n).as_slice();
        }
        &[]
    }

    /// The sources of a node, in their order.
    pub fn sources(&self, n: u32) -> Sources<'g>
        requires { n < length self.now.parts }
        ensures value { spec.listed result ≡ spec.sources_in self.now n }
        ensures below { AreBelow (length self.now.parts) (spec.listed result) }
        ensures short { length result.own.now < 2 ^ 32 }
    {
        match self.part(n).way {
            Way::Open | Way::Own | Way::Default => Sources {
                own: self.own_sources(n),
                of_rule: None,
            },
            Way::Rule(_, source) => Sources {
                own: self.own_sources(n),
                of_rule: Some(source),
            },
            Way::Placed(place) => Sources {
                own: &[],
                of_rule: Some(place),
            },
            Way::Dropped => Sources {
                own: &[],
                of_rule: None,
            },
        }
    }

    /// The nodes that are ordered before a node, planned or not.
    pub fn ordered(&self, n: u32) -> &'g [u32]
        ensures { result.now ≡ (node_at self.now.nodes n).ordered }
    {
        if (n as usize) < self.graph().len() {
            return self.graph().ordered(n).as_slice();
        }
        &[]
    }

    /// The node that stands for a node: that of its place where it has another one, and else the
    /// node itself. Takes no memory.
    pub fn stand_in(&self, n: u32) -> u32
        ensures value { result ≡ spec.stands_for self.now n }
        ensures within { n < length self.now.parts → result < length self.now.parts }
    {
        if (n as usize) >= self.len() {
            return n;
        }
        match self.part(n).way {
            Way::Placed(place) => place,
            Way::Open | Way::Own | Way::Rule(_, _) | Way::Default | Way::Dropped => n,
        }
    }

    /// Whether a node is planned: it was met, is not dropped, and no other one stands for it.
    pub fn is_planned(&self, n: u32) -> bool
        ensures { result ≡ spec.is_planned self.now n }
    {
        if (n as usize) >= self.len() {
            return false;
        }
        let part = self.part(n);
        part.met && !part.way.is_left_out()
    }

    // Adds a node if it is planned.
    fn add_if_planned(&self, planned: &mut Nodes, n: u32) -> Result<(), NoMemory>
        ensures { OnOk result (planned.new ≡ planned.old ++ spec.planned_of self.now (n ∷ [])) }
    {
        if self.is_planned(n) {
            planned.push(n)?;
        }
        Ok(())
    }

    // Adds those of several nodes that are planned.
    fn add_planned(&self, planned: &mut Nodes, nodes: &[u32]) -> Result<(), NoMemory>
        ensures { OnOk result (planned.new ≡ planned.old ++ spec.planned_of self.now nodes.now) }
    {
        for n in nodes {
            self.add_if_planned(planned, *n)?;
        }
        Ok(())
    }

    // Adds what is planned for several nodes.
    fn add_sourced(&self, planned: &mut Nodes, nodes: &[u32]) -> Result<(), NoMemory>
        ensures { OnOk result (planned.new ≡ planned.old ++ spec.sourced_of self.now nodes.now) }
    {
        for n in nodes {
            self.add_if_planned(planned, self.stand_in(*n))?;
        }
        Ok(())
    }

    // Adds what is planned for a node's sources.
    fn add_sources(&self, planned: &mut Nodes, sources: Sources<'g>) -> Result<(), NoMemory>
        ensures { OnOk result (planned.new
            ≡ planned.old ++ spec.sourced_of self.now (spec.listed sources.entry)) }
    {
        self.add_sourced(planned, sources.own)?;
        match sources.of_rule {
            Some(source) => self.add_if_planned(planned, self.stand_in(source)),
            None => Ok(()),
        }
    }

    // The predecessors of a node: what is planned for its sources, and then the planned nodes that
    // are ordered before it.
    fn preds(&self, alloc: Global, n: u32) -> Result<Nodes, NoMemory>
        requires { n < length self.now.parts }
        ensures { IfOk result (λ nodes. nodes ≡ spec.preds_in self.now n) }
    {
        let sources = self.sources(n);
        let mut preds = Items::new(alloc, sources.len())?;
        self.add_sources(&mut preds, sources)?;
        self.add_planned(&mut preds, self.ordered(n)).and(Ok(preds))
    }

    /// The predecessors of each node.
    pub fn all_preds(&self, alloc: Global) -> Result<Preds, NoMemory>
        ensures value { IfOk result (λ preds. preds ≡ spec.all_preds self.now) }
        ensures many { IfOk result (λ preds. length preds ≡ length self.now.parts) }
        ensures below { IfOk result (EachBelow (length self.now.parts)) }
    {
        let mut preds = Items::new(alloc, self.len())?;
        for n in 0..self.len() {
            preds.push(self.preds(alloc, n as u32)?)?;
        }
        Ok(preds)
    }

    // Adds the number of a name, if it has one.
    fn add_number(&self, numbers: &mut Nodes, name: &[u8]) -> Result<(), NoMemory>
        ensures { OnOk result (numbers.new
            ≡ numbers.old ++ spec.number_onto (number_in self.now name.now) []) }
    {
        if let Some(n) = self.find(name) {
            numbers.push(n)?;
        }
        Ok(())
    }

    // The numbers of names.
    fn numbers(&self, alloc: Global, names: &[Text]) -> Result<Nodes, NoMemory>
        ensures { IfOk result (λ numbers. numbers ≡ spec.numbers_in self.now names.now) }
    {
        let mut numbers = Items::new(alloc, names.len())?;
        for name in names {
            self.add_number(&mut numbers, name.bytes())?;
        }
        Ok(numbers)
    }

    /// What is planned for the wanted names.
    pub fn roots(&self, alloc: Global, wanted: &[Text]) -> Result<Nodes, NoMemory>
        ensures value { IfOk result (λ nodes. nodes ≡ spec.roots self.now wanted.now) }
        ensures below { IfOk result (AreBelow (length self.now.parts)) }
    {
        let mut planned = Items::new(alloc, 0)?;
        self.add_sourced(&mut planned, self.numbers(alloc, wanted)?.as_slice())?;
        Ok(planned)
    }

    /// The commands of a node as they are written.
    pub fn commands(&self, n: u32) -> &[Text]
        requires { n < length self.now.parts }
        ensures { result.now ≡ spec.commands_in self.now n }
    {
        let maker = match self.part(n).way {
            Way::Open | Way::Own | Way::Placed(_) | Way::Dropped => n,
            Way::Rule(rule, _) => rule,
            Way::Default => default_of(self.graph()),
        };
        if (maker as usize) < self.graph().len() {
            return self.graph().commands(maker).as_slice();
        }
        &[]
    }

    /// The implied source of a node, or nothing where it has none.
    pub fn implied(&self, n: u32) -> &[u8]
        requires { n < length self.now.parts }
        ensures { result.now ≡ spec.implied_in self.now n }
    {
        match self.part(n).way {
            Way::Open | Way::Own | Way::Placed(_) | Way::Dropped => b"",
            Way::Rule(_, source) => self.name(self.stand_in(source)),
            Way::Default => self.name(n),
        }
    }

    /// The attributes of a node.
    pub fn marks(&self, n: u32) -> Marks
        requires { n < length self.now.parts }
        ensures { result ≡ spec.marks_in self.now n }
    {
        if (n as usize) < self.graph().len() {
            return self.graph().marks(n);
        }
        Marks::none()
    }
}
