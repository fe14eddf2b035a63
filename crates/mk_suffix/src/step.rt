//! The steps of a search for a chain.
ghost use Rattle.std.specs.Prelude.{◌≡◌, ◌+◌, ◌<◌, [], ◌∷◌, ◌++◌, length, map, IfOk, OnOk, OnErr};
ghost use Rattle.mk_depline.specs.Names.{is_among};
ghost use Rattle.mk_suffix.specs.Chains.{first_of};
ghost use Rattle.mk_suffix.specs.Search.{own_way, way_at, reached};
ghost use Rattle.mk_suffix.specs.SearchView.{has_step, way_of, made_by};

use crate::chain::Chain;
use crate::rule::joined;
use mk_bytes::{Items, NoMemory, Text};
use std::alloc::Global;
use std::marker::Model;

/// A suffix that was reached: by the node of the rule from it to an earlier one.
#[derive(Clone, Copy)]
pub struct Step<'s> {
    pub suffix: &'s [u8],
    pub rule: u32,
    /// The place of the suffix that the rule leads to: 0 is that of the target, and the others
    /// follow in order.
    pub to: usize,
}

/// A step from a suffix whose source is found.
#[derive(Drop)]
pub struct Hit<'s> {
    pub step: Step<'s>,
    /// The place of the source.
    pub source: Text,
}

/// The suffixes that a search has reached so far, from that of the target on. Contracts see the
/// list of the chains by which they were reached.
#[derive(Drop)]
pub struct Search<'s> {
    own: &'s [u8],
    steps: Items<Step<'s>>,
}

impl<'s> Model for Search<'s> {
    ghost use Rattle.std.specs.Prelude.{List, [], ◌∷◌};
    ghost use Rattle.mk_suffix.specs.Search.{Way, own_way};
    ghost use Rattle.mk_suffix.specs.SearchView.{ways_from, AreBehind};

    ghost Value = { List Way };

    ghost view = { λ search. ways_from (own_way search.own.now ∷ []) search.steps };

    ghost invariant = { λ search. AreBehind 1 search.steps };
}

// Whether one of these steps is from a suffix.
fn is_step(steps: &[Step<'_>], suffix: &[u8]) -> bool
    ensures { result ≡ has_step steps.now suffix.now }
{
    steps.iter().any(|step| suffix == step.suffix)
}

impl<'s> Search<'s> {
    /// A search that has reached the suffix of the target alone.
    pub fn new(alloc: Global, own: &'s [u8]) -> Result<Search<'s>, NoMemory>
        ensures { IfOk result (λ search. search ≡ own_way own.now ∷ []) }
    {
        Ok(Search {
            own,
            steps: Items::new(alloc, 0)?,
        })
    }

    /// How many suffixes were reached.
    pub fn len(&self) -> usize
        ensures { result ≡ length self.now }
    {
        self.steps.len() + 1
    }

    /// The suffix at a place.
    pub fn suffix(&self, at: usize) -> &'s [u8]
        requires { at < length self.now }
        ensures { result.now ≡ first_of (way_at self.now at).suffixes }
    {
        if at == 0 {
            return self.own;
        }
        self.steps.get(at - 1).suffix
    }

    /// Whether a suffix was reached.
    pub fn has_reached(&self, suffix: &[u8]) -> bool
        ensures { result ≡ is_among (reached self.now) suffix.now }
    {
        suffix == self.own || is_step(self.steps.as_slice(), suffix)
    }

    /// Reaches one suffix more.
    pub fn push(&mut self, step: Step<'s>) -> Result<(), NoMemory>
        requires { step.to < length self.old }
        ensures ok { OnOk result (self.new ≡ self.old ++ way_of self.old step.entry ∷ []) }
        ensures err { OnErr result (self.new ≡ self.old) }
    {
        self.steps.push(step)
    }

    /// The chain that begins with a step, as it makes the name of this base.
    pub fn chain(&self, alloc: Global, base: &[u8], first: Step<'s>) -> Result<Chain, NoMemory>
        requires { first.to < length self.now }
        ensures { IfOk result (λ chain. chain ≡ made_by base.now (way_of self.now first.entry)) }
    {
        let mut names = Items::new(alloc, 0)?;
        let mut rules = Items::new(alloc, 0)?;
        let mut step = first;
        'steps: loop {
            names.push(joined(alloc, base, step.suffix)?)?;
            rules.push(step.rule)?;
            if step.to == 0 {
                names.push(joined(alloc, base, self.own)?)?;
                return Ok(Chain { names, rules });
            }
            step = *self.steps.get(step.to - 1);
        }
    }
}
