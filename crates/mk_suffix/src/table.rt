//! The rules between known suffixes, by the suffixes that they lead to.
ghost use Rattle.std.specs.Prelude.{◌≡◌, ◌+◌, ◌<◌, ◌++◌, length, IfOk, OnOk};
ghost use Rattle.mk_suffix.specs.Found.{seeking_in};
ghost use Rattle.mk_suffix.specs.Table as spec;

use crate::rule::{rule_between, second_part};
use indexmap::IndexMap;
use mk_bytes::{Items, NoMemory, Text, Texts};
use mk_graph::{Attr, Graph};
use std::alloc::Global;
use std::marker::Model;

/// A rule to a suffix: the suffix that it leads from, and its node.
#[derive(Clone, Copy)]
pub struct Source<'s> {
    pub suffix: &'s [u8],
    pub rule: u32,
}

/// The rules of a graph between known suffixes, in a table from which those to one suffix are read
/// off. Beside them it lends the directories that are searched, and the current one. Contracts see
/// the nodes, and by what sources are sought.
#[derive(Drop)]
pub struct SuffixRules<'g> {
    graph: &'g Graph,
    suffixes: &'g Texts,
    paths: &'g Texts,
    cwd: &'g [u8],
    rows: IndexMap<Vec<u8>, Items<Source<'g>>>,

    // the rules to a suffix to which none leads
    none: Items<Source<'g>>,
}

impl<'g> Model for SuffixRules<'g> {
    ghost use Rattle.std.specs.Prelude.{◌≡◌, []};
    ghost use Rattle.mk_suffix.specs.Found.{seeking_in};
    ghost use Rattle.mk_suffix.specs.Table.{Known, AreAll};

    ghost Value = { Known };

    ghost view = { λ rules. record {
      nodes = rules.graph.now;
      seeking = seeking_in rules.suffixes.now rules.paths.now rules.cwd.now;
    } };

    ghost invariant = { λ rules. AreAll rules.graph.now rules.suffixes.now rules.rows.entries
        × (rules.none ≡ []) };
}

// Adds the rule from a suffix, if there is one.
fn push_rule<'s>(
    row: &mut Items<Source<'s>>,
    suffix: &'s [u8],
    rule: Option<u32>,
) -> Result<(), NoMemory>
    ensures { OnOk result (spec.seen_row row.new
        ≡ spec.seen_row row.old ++ spec.rule_from suffix.now rule) }
{
    match rule {
        Some(rule) => row.push(Source { suffix, rule }),
        None => Ok(()),
    }
}

// The rules to a suffix, in the order in which the suffixes that they lead from are known.
fn row_to<'g>(
    alloc: Global,
    graph: &Graph,
    known: &'g [Text],
    to: &[u8],
) -> Result<Items<Source<'g>>, NoMemory>
    ensures { IfOk result (λ row. spec.seen_row row ≡ spec.row graph.now known.now to.now) }
{
    let mut row = Items::new(alloc, 0)?;
    for suffix in known {
        let suffix = suffix.bytes();
        let rule = rule_between(alloc, graph, known, suffix, to)?;
        push_rule(&mut row, suffix, rule)?;
    }
    Ok(row)
}

// Adds the rules to the suffix to which a node leads, if it is a rule and they are not there.
#[tactic(auto, using(crate::proofs::TableLemmas::before_unmarked, crate::proofs::TableLemmas::before_no_rule, crate::proofs::TableLemmas::before_there))]
fn add_row<'g>(
    alloc: Global,
    graph: &Graph,
    known: &'g [Text],
    n: u32,
    rows: &mut IndexMap<Vec<u8>, Items<Source<'g>>>,
) -> Result<(), NoMemory>
    requires within { n < length graph.now }
    requires before { spec.AreBefore graph.now known.now n rows.old.entries }
    ensures { OnOk result (spec.AreBefore graph.now known.now (n + 1) rows.new.entries) }
{
    if !graph.has(n, Attr::Rule) {
        return Ok(());
    }
    let Some(to) = second_part(known, graph.name(n)) else {
        return Ok(());
    };
    if rows.contains_key(to) {
        return Ok(());
    }
    let row = row_to(alloc, graph, known, to)?;
    rows.insert(Vec::from_slice(alloc, to)?, row)?;
    Ok(())
}

impl<'g> SuffixRules<'g> {
    /// The rules of a graph between these suffixes, where sources are sought in these directories
    /// and named from the current one.
    pub fn new(
        alloc: Global,
        graph: &'g Graph,
        suffixes: &'g Texts,
        paths: &'g Texts,
        cwd: &'g [u8],
    ) -> Result<SuffixRules<'g>, NoMemory>
        ensures nodes { IfOk result (λ rules. rules.nodes ≡ graph.now) }
        ensures seeking { IfOk result (λ rules.
            rules.seeking ≡ seeking_in suffixes.now paths.now cwd.now) }
    {
        let known = suffixes.as_slice();
        let mut rows = IndexMap::new(alloc);
        for n in 0..graph.len() as u32 {
            add_row(alloc, graph, known, n, &mut rows)?;
        }
        Ok(SuffixRules {
            graph,
            suffixes,
            paths,
            cwd,
            rows,
            none: Items::new(alloc, 0)?,
        })
    }

    /// The graph of the rules. Takes no memory.
    pub fn graph(&self) -> &'g Graph
        ensures { result.now ≡ self.now.nodes }
    {
        self.graph
    }

    /// The known suffixes. Takes no memory.
    pub fn suffixes(&self) -> &'g Texts
        ensures { result.now ≡ self.now.seeking.suffixes }
    {
        self.suffixes
    }

    /// The directories that are searched. Takes no memory.
    pub fn paths(&self) -> &'g Texts
        ensures { result.now ≡ self.now.seeking.paths }
    {
        self.paths
    }

    /// The current directory. Takes no memory.
    pub fn cwd(&self) -> &'g [u8]
        ensures { result.now ≡ self.now.seeking.cwd }
    {
        self.cwd
    }

    /// The rules to a suffix, in the order in which the suffixes that they lead from are known.
    /// Takes no memory.
    pub fn row(&self, to: &[u8]) -> &[Source<'g>]
        ensures { spec.seen_row result.now ≡ spec.row self.now.nodes self.now.seeking.suffixes to.now }
    {
        match self.rows.get(to) {
            Some(row) => row.as_slice(),
            None => self.none.as_slice(),
        }
    }
}
