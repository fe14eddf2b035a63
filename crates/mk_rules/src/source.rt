//! The sources of a dependency line.
ghost use Rattle.std.specs.Prelude.{◌≡◌, ◌≤◌, length, Ok, IfOk, IfErr, OnOk, OnErr};
ghost use Rattle.mk_bytes.specs.Agrees.{AgreesErr};
ghost use Rattle.mk_graph.specs.Numbers.{AreBelow};
ghost use Rattle.mk_rules.specs.Sources as spec;
ghost use Rattle.mk_rules.specs.SourceView.{AreMet, met_in};
ghost use Rattle.mk_rules.specs.declared.fault.RuleFault.TheVariants.{NoMemory as no_memory};

use crate::attribute::attr_named;
use crate::fault::RuleFault;
use crate::names::{mark_all, named, order_before};
use mk_bytes::{Items, NoMemory, Texts};
use mk_depline::is_attribute;
use mk_graph::{Attr, Graph, Nodes};
use std::alloc::Global;

/// The sources of a line so far, and how many of them stand before its last `.WAIT`.
#[derive(Drop)]
pub struct Sources {
    pub nodes: Nodes,
    pub waited: usize,
}

// Meets a word of the sources.
#[tactic(auto, using(crate::proofs::FoldLemmas::below_more, crate::proofs::FoldLemmas::below_take, crate::proofs::FoldLemmas::met_pushed))]
fn meet(graph: &mut Graph, sources: &mut Sources, word: &[u8]) -> Result<(), RuleFault>
    requires { AreMet (length graph.old) sources.old }
    ensures done { OnOk result (spec.word_met (met_in graph.old sources.old) word.now
        ≡ Ok (met_in graph.new sources.new)) }
    ensures met { OnOk result (AreMet (length graph.new) sources.new) }
    ensures refused { IfErr result (λ fault.
        AgreesErr no_memory fault (spec.word_met (met_in graph.old sources.old) word.now)) }
    ensures longer { length graph.old ≤ length graph.new }
{
    if word == b".WAIT".as_slice() {
        sources.waited = sources.nodes.len();
        return Ok(());
    }
    if is_attribute(word) {
        return Ok(());
    }
    let n = named(graph, word)?;
    order_before(graph, n, &sources.nodes.as_slice()[..sources.waited])?;
    sources.nodes.push(n)?;
    Ok(())
}

/// Makes the sources of a line nodes, each behind those that stand before a `.WAIT` before it.
pub fn meet_all(alloc: Global, graph: &mut Graph, words: &Texts) -> Result<Nodes, RuleFault>
    ensures done { IfOk result (λ nodes. spec.IsMet graph.old words.now graph.new nodes) }
    ensures within { IfOk result (AreBelow (length graph.new)) }
    ensures refused { IfErr result (λ fault.
        AgreesErr no_memory fault (spec.all_met (spec.none_met graph.old) words.now)) }
    ensures longer { length graph.old ≤ length graph.new }
{
    let mut sources = Sources {
        nodes: Items::new(alloc, words.len())?,
        waited: 0,
    };
    for word in words.as_slice() {
        meet(graph, &mut sources, word.bytes())?;
    }
    Ok(sources.nodes)
}

// Marks targets with an attribute, if there is one.
fn mark_as(graph: &mut Graph, attr: Option<Attr>, targets: &[u32])
    requires { AreBelow (length graph.old) targets.now }
    ensures value { graph.new ≡ spec.marked_as attr graph.old targets.now }
    ensures length { length graph.new ≡ length graph.old }
{
    if let Some(attr) = attr {
        mark_all(graph, attr, targets);
    }
}

/// Marks targets with the attributes among the sources of a line.
pub fn take_attributes(graph: &mut Graph, targets: &[u32], words: &Texts)
    requires { AreBelow (length graph.old) targets.now }
    ensures value { graph.new ≡ spec.attributes_taken targets.now graph.old words.now }
    ensures length { length graph.new ≡ length graph.old }
{
    for word in words.as_slice() {
        mark_as(graph, attr_named(word.bytes()), targets);
    }
}
