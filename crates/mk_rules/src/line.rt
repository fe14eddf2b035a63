//! What a dependency line adds.
ghost use Rattle.std.specs.Prelude.{◌≡◌, ◌<◌, [], length, Ok, IfOk, IfErr, OnOk, OnErr};
ghost use Rattle.std.specs.List.{list_any};
ghost use Rattle.mk_bytes.specs.Agrees.{AgreesErr};
ghost use Rattle.mk_graph.specs.Numbers.{AreBelow};
ghost use Rattle.mk_rules.specs.Lines as spec;
ghost use Rattle.mk_rules.specs.Rules.{takers_among, takers_with};
ghost use Rattle.mk_rules.specs.declared.fault.RuleFault.TheVariants.{NoMemory as no_memory};

use crate::fault::RuleFault;
use crate::gathered::Gathered;
use crate::names::{add_all_sources, all_named, mark_all, order_neighbours};
use crate::rules::Rules;
use crate::source::{meet_all, take_attributes};
use indexmap::IndexSet;
use mk_bytes::{NoMemory, Text, Texts};
use mk_depline::{DepLine, Special};
use mk_graph::{Attr, Graph, Nodes};
use std::alloc::Global;

// How many takers a set may hold whose memory is used again.
const MAX_KEPT: usize = 16;

// Whether a target stood with the other operator.
fn stood_otherwise(graph: &Graph, remake: bool, name: &[u8]) -> bool
    ensures { result ≡ spec.stood_otherwise graph.now remake name.now }
{
    match graph.find(name) {
        Some(n) => graph.has(n, Attr::Target) && graph.has(n, Attr::Remake) != remake,
        None => false,
    }
}

fn any_otherwise(graph: &Graph, remake: bool, targets: &Texts) -> bool
    ensures { result ≡ spec.any_otherwise graph.now remake targets.now }
{
    targets
        .as_slice()
        .iter()
        .any(|target| stood_otherwise(graph, remake, target.bytes()))
}

// Takes in a target that has no commands yet, where it is not taken in.
#[tactic(auto, using(crate::proofs::FoldLemmas::below_key))]
fn take_in(graph: &Graph, takers: &mut IndexSet<u32>, n: u32) -> Result<(), NoMemory>
    requires node { n < length graph.now }
    requires takers { AreBelow (length graph.now) takers.old.keys }
    ensures taken { OnOk result (takers.new.keys ≡ takers_with graph.now takers.old.keys n) }
    ensures within { AreBelow (length graph.now) takers.new.keys }
{
    if graph.commands(n).is_empty() {
        takers.insert(n)?;
    }
    Ok(())
}

// Forgets those that took commands. A large set is given up, since emptying it goes over all its
// room.
fn forget(alloc: Global, takers: &mut IndexSet<u32>)
    ensures { takers.new.keys ≡ [] }
{
    if takers.len() > MAX_KEPT {
        *takers = IndexSet::new(alloc);
    } else {
        takers.clear();
    }
}

// Takes in the targets that take the commands of a group: those that have none yet, each once.
fn take_all(graph: &Graph, takers: &mut IndexSet<u32>, targets: &[u32]) -> Result<(), NoMemory>
    requires targets { AreBelow (length graph.now) targets.now }
    requires none { takers.old.keys ≡ [] }
    ensures takers { OnOk result (takers.new.keys ≡ takers_among graph.now [] targets.now) }
    ensures within { AreBelow (length graph.now) takers.new.keys }
{
    for n in targets {
        take_in(graph, takers, *n)?;
    }
    Ok(())
}

// Adds a node to those that stood, if it may be a main target.
fn list(stood: &mut Nodes, listed: bool, n: u32) -> Result<(), NoMemory>
    ensures ok { OnOk result (stood.new ≡ spec.listed_with listed stood.old n) }
    ensures err { OnErr result (stood.new ≡ stood.old) }
{
    if listed {
        return stood.push(n);
    }
    Ok(())
}

// Lets a node stand as a target.
#[tactic(auto, using(crate::proofs::FoldLemmas::below_listed))]
fn stand(graph: &mut Graph, stood: &mut Nodes, listed: bool, n: u32) -> Result<(), NoMemory>
    requires node { n < length graph.old }
    requires stood { AreBelow (length graph.old) stood.old }
    ensures ok { OnOk result (record { nodes = graph.new; targets = stood.new }
        ≡ spec.stands listed (record { nodes = graph.old; targets = stood.old }) n) }
    ensures within { AreBelow (length graph.new) stood.new }
    ensures length { length graph.new ≡ length graph.old }
{
    if graph.has(n, Attr::Target) {
        return Ok(());
    }
    list(stood, listed, n)?;
    graph.mark(n, Attr::Target).unwrap();
    Ok(())
}

// Lets nodes stand as targets. Those that did not so far, and may be main targets, go behind the
// others.
fn stand_all(
    graph: &mut Graph,
    stood: &mut Nodes,
    listed: bool,
    targets: &[u32],
) -> Result<(), NoMemory>
    requires targets { AreBelow (length graph.old) targets.now }
    requires stood { AreBelow (length graph.old) stood.old }
    ensures ok { OnOk result (record { nodes = graph.new; targets = stood.new }
        ≡ spec.all_stand listed (record { nodes = graph.old; targets = stood.old }) targets.now) }
    ensures within { AreBelow (length graph.new) stood.new }
    ensures length { length graph.new ≡ length graph.old }
{
    for n in targets {
        stand(graph, stood, listed, *n)?;
    }
    Ok(())
}

fn names_at(alloc: Global, graph: &Graph, nodes: &[u32], names: &mut Texts) -> Result<(), NoMemory>
    requires { AreBelow (length graph.now) nodes.now }
    ensures { OnOk result (names.new ≡ spec.with_names names.old graph.now nodes.now) }
{
    for n in nodes {
        names.push(Text::from_bytes(alloc, graph.name(*n))?)?;
    }
    Ok(())
}

impl Rules {
    // Reads a line of targets, with their sources and attributes. Those that may be main targets
    // are listed.
    #[tactic(auto, using(crate::proofs::FoldLemmas::below_more, crate::proofs::FoldLemmas::ruled_grown, crate::proofs::KeepLemmas::passed_none))]
    fn read_targets(&mut self, listed: bool, line: &DepLine) -> Result<(), RuleFault>
        ensures done { OnOk result (spec.targets_read listed self.old line.now ≡ Ok self.new) }
        ensures refused { IfErr result (λ fault.
            AgreesErr no_memory fault (spec.targets_read listed self.old line.now)) }
    {
        if any_otherwise(&self.graph, line.remake, &line.targets) {
            return Err(RuleFault::Operators);
        }
        self.passed = 0;
        let targets = all_named(self.alloc, &mut self.graph, &line.targets)?;
        let sources = meet_all(self.alloc, &mut self.graph, &line.sources)?;
        let targets = targets.as_slice();
        add_all_sources(&mut self.graph, targets, sources.as_slice())?;
        take_attributes(&mut self.graph, targets, &line.sources);
        stand_all(&mut self.graph, &mut self.targets, listed, targets)?;
        forget(self.alloc, &mut self.group);
        take_all(&self.graph, &mut self.group, targets)?;
        if line.remake {
            mark_all(&mut self.graph, Attr::Remake, targets);
        }
        if line.rule.is_some() {
            mark_all(&mut self.graph, Attr::Rule, targets);
        }
        Ok(())
    }

    #[tactic(auto, using(crate::proofs::FoldLemmas::below_more, crate::proofs::FoldLemmas::ruled_grown, crate::proofs::KeepLemmas::passed_none))]
    fn read_main(&mut self, line: &DepLine) -> Result<(), RuleFault>
        ensures done { OnOk result
            (spec.sources_read self.old line.now (spec.with_main self.old) ≡ Ok self.new) }
        ensures refused { IfErr result (λ fault. AgreesErr no_memory fault
            (spec.sources_read self.old line.now (spec.with_main self.old))) }
    {
        self.passed = 0;
        let sources = meet_all(self.alloc, &mut self.graph, &line.sources)?;
        names_at(self.alloc, &self.graph, sources.as_slice(), &mut self.main)?;
        forget(self.alloc, &mut self.group);
        Ok(())
    }

    #[tactic(auto, using(crate::proofs::FoldLemmas::below_more, crate::proofs::FoldLemmas::ruled_grown, crate::proofs::KeepLemmas::passed_none))]
    fn read_order(&mut self, line: &DepLine) -> Result<(), RuleFault>
        ensures done { OnOk result
            (spec.sources_read self.old line.now (spec.with_orders self.old) ≡ Ok self.new) }
        ensures refused { IfErr result (λ fault. AgreesErr no_memory fault
            (spec.sources_read self.old line.now (spec.with_orders self.old))) }
    {
        self.passed = 0;
        let sources = meet_all(self.alloc, &mut self.graph, &line.sources)?;
        order_neighbours(&mut self.graph, sources.as_slice())?;
        forget(self.alloc, &mut self.group);
        Ok(())
    }

    #[tactic(auto, using(crate::proofs::FoldLemmas::below_more, crate::proofs::FoldLemmas::ruled_grown, crate::proofs::KeepLemmas::passed_none))]
    fn read_marks(&mut self, attr: Attr, line: &DepLine) -> Result<(), RuleFault>
        ensures done { OnOk result
            (spec.sources_read self.old line.now (spec.with_marks attr self.old) ≡ Ok self.new) }
        ensures refused { IfErr result (λ fault. AgreesErr no_memory fault
            (spec.sources_read self.old line.now (spec.with_marks attr self.old))) }
    {
        self.passed = 0;
        let sources = meet_all(self.alloc, &mut self.graph, &line.sources)?;
        mark_all(&mut self.graph, attr, sources.as_slice());
        forget(self.alloc, &mut self.group);
        Ok(())
    }

    fn read_suffixes(&mut self, line: &DepLine) -> Result<(), NoMemory>
        ensures { OnOk result (self.new ≡ spec.passed_over (spec.with_suffixes self.old line.now)) }
    {
        if line.sources.is_empty() {
            self.suffixes = Gathered::new(self.alloc)?;
        }
        self.suffixes.add_all(self.alloc, &line.sources)?;
        forget(self.alloc, &mut self.group);
        Ok(())
    }

    fn read_paths(&mut self, line: &DepLine) -> Result<(), NoMemory>
        ensures { OnOk result (self.new ≡ spec.passed_over (spec.with_paths self.old line.now)) }
    {
        if line.sources.is_empty() {
            self.paths = Gathered::new(self.alloc)?;
        }
        self.paths.add_all(self.alloc, &line.sources)?;
        forget(self.alloc, &mut self.group);
        Ok(())
    }

    fn read_special(&mut self, special: Special, line: &DepLine) -> Result<(), RuleFault>
        ensures done { OnOk result (spec.special_read special self.old line.now ≡ Ok self.new) }
        ensures refused { IfErr result (λ fault.
            AgreesErr no_memory fault (spec.special_read special self.old line.now)) }
    {
        let everywhere = line.sources.is_empty();
        match special {
            Special::Main => self.read_main(line),
            Special::Begin | Special::End | Special::Default => self.read_targets(false, line),
            Special::Order => self.read_order(line),
            Special::Suffixes => Ok(self.read_suffixes(line)?),
            Special::Path => Ok(self.read_paths(line)?),
            Special::NotParallel => {
                self.one_job = true;
                forget(self.alloc, &mut self.group);
                Ok(())
            }
            Special::DeleteOnError => {
                self.delete_on_error = true;
                forget(self.alloc, &mut self.group);
                Ok(())
            }
            Special::Phony => self.read_marks(Attr::Phony, line),
            Special::Precious => {
                self.everywhere.precious = self.everywhere.precious || everywhere;
                self.read_marks(Attr::Precious, line)
            }
            Special::Silent => {
                self.everywhere.silent = self.everywhere.silent || everywhere;
                self.read_marks(Attr::Silent, line)
            }
            Special::Ignore => {
                self.everywhere.ignore = self.everywhere.ignore || everywhere;
                self.read_marks(Attr::Ignore, line)
            }
        }
    }

    /// Adds what a dependency line says: nodes for its names, with their sources, attributes and
    /// orders, or what its special target does. The commands behind it go to the targets that have
    /// none yet, each once; behind a special target that is no node they are passed over.
    ///
    /// `Operators` comes exactly where a target stood with the other operator before, and else
    /// `TooManyNames` exactly where a name would be one node more than 1,048,576. After a refusal
    /// the rules are given up.
    pub fn add_line(&mut self, line: &DepLine) -> Result<(), RuleFault>
        ensures done { OnOk result (spec.line_read self.old line.now ≡ Ok self.new) }
        ensures refused { IfErr result (λ fault.
            AgreesErr no_memory fault (spec.line_read self.old line.now)) }
    {
        let passed = self.passed;
        match line.special {
            Some(special) => self.read_special(special, line)?,
            None => self.read_targets(true, line)?,
        }
        self.pass(passed);
        Ok(())
    }
}
