//! What dependency lines leave.
ghost use Rattle.std.specs.Prelude.{◌≡◌, ◌<◌, [], length, IfOk, OnOk, OnErr};
ghost use Rattle.indexmap.specs.IndexSet.{insert_key};
ghost use Rattle.std.specs.List.{list_any};
ghost use Rattle.mk_bytes.specs.Paths.{is_slash};
ghost use Rattle.mk_graph.specs.Nodes.{node_at};
ghost use Rattle.mk_graph.specs.Numbers.{AreBelow};
ghost use Rattle.mk_rules.specs.Ends as ends;
ghost use Rattle.mk_rules.specs.Rules as spec;

use crate::gathered::Gathered;
use indexmap::IndexSet;
use mk_bytes::{Items, NoMemory, Text, Texts};
use mk_graph::{Attr, Graph, Nodes};
use std::alloc::Global;
use std::marker::Model;

/// The marks that every target has.
#[derive(Clone, Copy)]
pub struct Everywhere {
    pub precious: bool,
    pub silent: bool,
    pub ignore: bool,
}

/// What the dependency lines so far leave: the graph of nodes, the known suffixes, the directories
/// of `.PATH`, the sources of `.MAIN`, the nodes that stood as targets, what holds of every target
/// and of the build, and the targets that take the command lines behind the last line. Of the
/// targets so many first ones are kept that can be no main target any more.
#[derive(Drop)]
pub struct Rules {
    pub(crate) alloc: Global,
    pub(crate) graph: Graph,
    pub(crate) suffixes: Gathered,
    pub(crate) paths: Gathered,
    pub(crate) main: Texts,
    pub(crate) targets: Nodes,
    pub(crate) everywhere: Everywhere,
    pub(crate) one_job: bool,
    pub(crate) delete_on_error: bool,
    pub(crate) group: IndexSet<u32>,
    pub(crate) passed: usize,
}

impl Model for Rules {
    ghost use Rattle.mk_rules.specs.Rules.{HavePassed, IsRuled, Ruled};
    ghost use Rattle.mk_rules.specs.View.{ruled_in};

    ghost Value = { Ruled };

    ghost view = { λ rules. ruled_in rules.graph rules.suffixes rules.paths rules.main
        rules.targets rules.everywhere rules.one_job rules.delete_on_error
        rules.group.keys };

    ghost invariant = { λ rules. IsRuled (ruled_in rules.graph rules.suffixes rules.paths rules.main
        rules.targets rules.everywhere rules.one_job rules.delete_on_error
        rules.group.keys) × HavePassed rules.graph rules.targets rules.passed };
}

impl Rules {
    /// No dependency line.
    pub fn new(alloc: Global) -> Result<Rules, NoMemory>
        ensures { IfOk result (λ rules. rules ≡ spec.no_rules) }
    {
        Ok(Rules {
            alloc,
            suffixes: Gathered::new(alloc)?,
            paths: Gathered::new(alloc)?,
            main: Items::new(alloc, 0)?,
            targets: Items::new(alloc, 0)?,
            graph: Graph::new(alloc)?,
            everywhere: Everywhere {
                precious: false,
                silent: false,
                ignore: false,
            },
            one_job: false,
            delete_on_error: false,
            group: IndexSet::new(alloc),
            passed: 0,
        })
    }

    /// The nodes so far. Takes no memory.
    pub fn graph(&self) -> &Graph
        ensures { result.now ≡ self.now.nodes }
    {
        &self.graph
    }

    /// The known suffixes, in order. Takes no memory.
    pub fn suffixes(&self) -> &Texts
        ensures { result.now ≡ self.now.suffixes }
    {
        self.suffixes.known()
    }

    /// The sources of `.MAIN` so far. Takes no memory.
    pub fn main(&self) -> &Texts
        ensures { result.now ≡ self.now.main }
    {
        &self.main
    }

    /// The first target so far that is neither a rule nor a macro nor marked as none of the main
    /// ones. Takes no memory.
    pub fn first_main(&self) -> Option<&[u8]>
        ensures { spec.shown_main result ≡ spec.first_main self.now.nodes self.now.targets }
    {
        first_main(&self.graph, &self.targets.as_slice()[self.passed..])
    }

    /// Whether one job runs at a time. Takes no memory.
    pub fn one_job(&self) -> bool
        ensures { result ≡ self.now.one_job }
    {
        self.one_job
    }

    /// Whether the target of a failed job is removed. Takes no memory.
    pub fn delete_on_error(&self) -> bool
        ensures { result ≡ self.now.delete_on_error }
    {
        self.delete_on_error
    }

    /// Adds a command line to the targets of the last line that take some. After a refusal the
    /// rules are given up.
    pub fn add_command(&mut self, text: &[u8]) -> Result<(), NoMemory>
        ensures { OnOk result (self.new ≡ spec.commanded self.old text.now) }
    {
        let passed = self.passed;
        self.passed = 0;
        add_to_all(&mut self.graph, self.group.as_slice(), text)?;
        self.passed = passed;
        Ok(())
    }

    // Passes over the targets that are no main ones, from one on before which all are such.
    pub(crate) fn pass(&mut self, from: usize)
        requires { spec.HavePassed self.old.nodes self.old.targets from }
        ensures { self.new ≡ self.old }
    {
        self.passed = passed_on(&self.graph, self.targets.as_slice(), from);
    }
}

fn add_to_all(graph: &mut Graph, nodes: &[u32], text: &[u8]) -> Result<(), NoMemory>
    requires { AreBelow (length graph.old) nodes.now }
    ensures ok { OnOk result (graph.new ≡ spec.all_commanded text.now graph.old nodes.now) }
    ensures length { length graph.new ≡ length graph.old }
{
    for n in nodes {
        graph.add_command(*n, text)?;
    }
    Ok(())
}

// Whether a byte is an upper-case letter.
fn is_upper(byte: u8) -> bool
    ensures { result ≡ spec.is_upper byte }
{
    byte >= b'A' && byte <= b'Z'
}

fn has_slash(text: &[u8]) -> bool
    ensures { result ≡ list_any is_slash text.now }
{
    text.iter().any(|byte| *byte == b'/')
}

// Whether make(1) keeps a name for itself: a dot, an upper-case letter, and no slash.
fn is_reserved(name: &[u8]) -> bool
    ensures { result ≡ spec.is_reserved name.now }
{
    match name {
        [first, second, rest @ ..] => { *first == b'.' && is_upper(*second) && !has_slash(rest) }
        _ => false,
    }
}

// Whether a target is neither a rule nor a macro nor marked as no main target.
fn is_plain(graph: &Graph, n: u32) -> bool
    requires { n < length graph.now }
    ensures { result ≡ spec.is_plain (node_at graph.now n).marks }
{
    !(graph.has(n, Attr::Rule)
        || graph.has(n, Attr::Macro)
        || graph.has(n, Attr::MacroBefore)
        || graph.has(n, Attr::NotMain))
}

fn may_be_main(graph: &Graph, n: u32) -> bool
    requires { n < length graph.now }
    ensures { result ≡ spec.may_be_main (node_at graph.now n) }
{
    is_plain(graph, n) && !is_reserved(graph.name(n))
}

// How many first targets are no main ones, where so many were passed over.
fn passed_on(graph: &Graph, targets: &[u32], from: usize) -> usize
    requires targets { AreBelow (length graph.now) targets.now }
    requires passed { spec.HavePassed graph.now targets.now from }
    ensures { spec.HavePassed graph.now targets.now result }
{
    let mut at = from;
    'targets: while at < targets.len() {
        if may_be_main(graph, targets[at]) {
            return at;
        }
        at += 1;
    }
    at
}

/// The first of some nodes that is neither a rule nor a macro nor marked as no main target, and
/// whose name is not reserved: a dot, an upper-case letter and no slash, as `.POSIX`.
pub fn first_main<'g>(graph: &'g Graph, nodes: &[u32]) -> Option<&'g [u8]>
    requires { AreBelow (length graph.now) nodes.now }
    ensures { spec.shown_main result ≡ spec.first_main graph.now nodes.now }
{
    for n in nodes {
        if may_be_main(graph, *n) {
            return Some(graph.name(*n));
        }
    }
    None
}
