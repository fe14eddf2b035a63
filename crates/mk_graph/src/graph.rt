ghost use Rattle.std.specs.Prelude.{◌≡◌, ◌↔◌, ◌<◌, [], ◌∷◌, ◌++◌, false, length, is_some, Some};
ghost use Rattle.std.specs.Prelude.{IsTrue, IsOk, IfOk, IfSome, OnOk, OnErr, IsErrOf};
ghost use Rattle.mk_graph.specs.Macros.{graph_with_macros};
ghost use Rattle.mk_graph.specs.Marks.{has};
ghost use Rattle.mk_graph.specs.Nodes as spec;
ghost use Rattle.mk_graph.specs.Numbers.{AreBelow};

use crate::attr::{Attr, Marks};
use crate::links::Links;
use crate::lists::Nodes;
use crate::macros::use_all;
use mk_bytes::{Items, NoMemory, Text, Texts};
use mk_pool::{MAX_NAMES, Name, Pool, PoolFault};
use std::alloc::Global;
use std::marker::Model;

/// Nodes in the order of their first mention, each with a number: 0, 1, 2 and so on. Contracts see
/// the list of nodes, each with its name, its sources, the nodes that are ordered before it, its
/// commands and its attributes. Each name stands once.
#[derive(Drop)]
pub struct Graph {
    alloc: Global,
    names: Pool,
    nodes: Vec<Links>,
}

impl Model for Graph {
    ghost use Rattle.std.specs.Prelude.{List};
    ghost use Rattle.mk_graph.specs.Nodes.{Node};
    ghost use Rattle.mk_graph.specs.View.{nodes_of, IsHeld};

    ghost Value = { List Node };

    ghost view = { λ graph. nodes_of graph.names graph.nodes.items };

    ghost invariant = { λ graph. IsHeld graph.names graph.nodes.items };
}

// Adds a text at the end. The first one takes room for itself alone, since most nodes have no
// other.
fn add_text(alloc: Global, texts: &mut Texts, text: Text) -> Result<(), NoMemory>
    ensures ok { OnOk result (texts.new ≡ texts.old ++ text ∷ []) }
    ensures err { OnErr result (texts.new ≡ texts.old) }
{
    if texts.is_empty() {
        let mut first = Items::new(alloc, 1)?;
        first.push(text)?;
        *texts = first;
        return Ok(());
    }
    texts.push(text)
}

impl Graph {
    /// A graph without nodes.
    pub fn new(alloc: Global) -> Result<Graph, NoMemory>
        ensures { IfOk result (λ graph. graph ≡ []) }
    {
        Ok(Graph {
            alloc,
            names: Pool::new(alloc)?,
            nodes: Vec::new(alloc),
        })
    }

    /// How many nodes there are. Takes no memory.
    pub fn len(&self) -> usize
        ensures value { result ≡ length self.now }
        ensures graph { spec.IsGraph self.now }
    {
        self.names.len()
    }

    /// The number of the node of a name, or `None` where it has none. Takes no memory.
    pub fn find(&self, name: &[u8]) -> Option<u32>
        ensures value { result ≡ spec.number_of self.now name.now }
        ensures named { is_some result ≡ spec.is_named self.now name.now }
        ensures within { IfSome result (λ n. n < length self.now) }
    {
        Some(self.names.find(name)?.0)
    }

    /// The name of a node. Takes no memory.
    pub fn name(&self, n: u32) -> &[u8]
        requires { n < length self.now }
        ensures value { result.now ≡ (spec.node_at self.now n).name }

        // No other node has this name.
        ensures only { spec.number_of self.now result.now ≡ Some n }
    {
        self.names.text(Name(n))
    }

    /// The number of the node of a name: the old one where it has one, and else the next one, of a
    /// new node. `Full` comes exactly where the name is new and 1,048,576 nodes are there, and
    /// `NoMemory` where memory runs out. After a refusal the graph is as before.
    pub fn node(&mut self, name: &[u8]) -> Result<u32, PoolFault>
        ensures number { IfOk result (λ n. spec.number_of self.new name.now ≡ Some n) }
        ensures within { IfOk result (λ n. n < length self.new) }

        // Nodes that were there keep their numbers, since a new one goes last.
        ensures nodes { OnOk result (self.new ≡ spec.with_node self.old name.now) }

        // A name that has a node needs neither room nor memory.
        ensures named { IsTrue (spec.is_named self.old name.now) → IsOk result }
        ensures full { IsErrOf result PoolFault.Full ↔ spec.IsFullFor self.old name.now }
        ensures err { OnErr result (self.new ≡ self.old) }
    {
        if let Some(n) = self.find(name) {
            return Ok(n);
        }
        if self.len() == MAX_NAMES {
            return Err(PoolFault::Full);
        }
        Ok(self.add(name)?)
    }

    // Makes a node of a name that has none.
    fn add(&mut self, name: &[u8]) -> Result<u32, NoMemory>
        requires absent { spec.is_named self.old name.now ≡ false }
        requires room { length self.old < MAX_NAMES }
        ensures number { IfOk result (λ n. n ≡ length self.old) }
        ensures nodes { OnOk result (self.new ≡ self.old ++ spec.new_node name.now ∷ []) }
        ensures err { OnErr result (self.new ≡ self.old) }
    {
        self.nodes.reserve(1)?;
        let name = self.names.add(name)?;
        self.nodes.push(Links::none(self.alloc)).unwrap();
        Ok(name.0)
    }

    /// Adds a source to a node, at the end. After a refusal the graph is as before.
    pub fn add_source(&mut self, n: u32, source: u32) -> Result<(), NoMemory>
        requires node { n < length self.old }
        requires source { source < length self.old }
        ensures ok { OnOk result (self.new ≡ spec.with_source self.old n source) }
        ensures err { OnErr result (self.new ≡ self.old) }
    {
        self.nodes[n as usize].sources.push(source)
    }

    /// Adds the pair "`first` before `n`" at the end. After a refusal the graph is as before.
    pub fn order(&mut self, first: u32, n: u32) -> Result<(), NoMemory>
        requires first { first < length self.old }
        requires node { n < length self.old }
        ensures ok { OnOk result (self.new ≡ spec.with_order self.old first n) }
        ensures err { OnErr result (self.new ≡ self.old) }
    {
        self.nodes[n as usize].ordered.push(first)
    }

    /// Adds a command to a node, at the end. After a refusal the graph is as before.
    pub fn add_command(&mut self, n: u32, text: &[u8]) -> Result<(), NoMemory>
        requires { n < length self.old }
        ensures ok { OnOk result (self.new ≡ spec.with_command self.old n text.now) }
        ensures err { OnErr result (self.new ≡ self.old) }
    {
        let text = Text::from_bytes(self.alloc, text)?;
        add_text(self.alloc, &mut self.nodes[n as usize].commands, text)
    }

    /// Marks a node. Takes no memory, so it always succeeds.
    pub fn mark(&mut self, n: u32, attr: Attr) -> Result<(), NoMemory>
        requires { n < length self.old }
        ensures value { self.new ≡ spec.with_mark self.old n attr }
        ensures succeeds { IsOk result }
    {
        let links = &mut self.nodes[n as usize];
        links.marks = links.marks.with(attr);
        Ok(())
    }

    /// The sources of a node, in the order in which they were added. Takes no memory.
    pub fn sources(&self, n: u32) -> &Nodes
        requires { n < length self.now }
        ensures value { result.now ≡ (spec.node_at self.now n).sources }
        ensures within { AreBelow (length self.now) result.now }
    {
        &self.nodes[n as usize].sources
    }

    /// The nodes `first` of the pairs "`first` before `n`", in the order in which they were added.
    /// Takes no memory.
    pub fn ordered(&self, n: u32) -> &Nodes
        requires { n < length self.now }
        ensures value { result.now ≡ (spec.node_at self.now n).ordered }
        ensures within { AreBelow (length self.now) result.now }
    {
        &self.nodes[n as usize].ordered
    }

    /// The commands of a node, in the order in which they were added. Takes no memory.
    pub fn commands(&self, n: u32) -> &Texts
        requires { n < length self.now }
        ensures { result.now ≡ (spec.node_at self.now n).commands }
    {
        &self.nodes[n as usize].commands
    }

    /// Whether a node is so marked. Takes no memory.
    pub fn has(&self, n: u32, attr: Attr) -> bool
        requires { n < length self.now }
        ensures { result ≡ has (spec.node_at self.now n).marks attr }
    {
        self.nodes[n as usize].marks.has(attr)
    }

    /// All attributes of a node. Takes no memory.
    pub fn marks(&self, n: u32) -> Marks
        requires { n < length self.now }
        ensures { result ≡ (spec.node_at self.now n).marks }
    {
        self.nodes[n as usize].marks
    }

    /// Applies the macros. Each target that is no macro goes through its sources in order and drops
    /// those that are macros. Of each of them it takes the commands, behind all that it has by then
    /// for `.USE` and before all of them for `.USEBEFORE`, the attributes but these two, and the
    /// sources, which it goes through in their turn. A macro with both attributes counts as `.USE`.
    /// One that the target took already is dropped without any other effect. After a refusal the
    /// graph is given up.
    pub fn use_macros(&mut self) -> Result<(), NoMemory>
        ensures { OnOk result (self.new ≡ graph_with_macros self.old) }
    {
        use_all(self.alloc, &mut self.nodes)
    }
}
