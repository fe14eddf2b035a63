//! The search for a chain of rules: it goes from the suffix of the target to those from which a
//! rule leads there, and so on, and reaches each suffix once.
ghost use Rattle.std.specs.Prelude.{◌≡◌, ◌<◌, [], length, Some, IsTrue, IfOk, IfSome, OnErr};
ghost use Rattle.std.specs.Option.{option_map};
ghost use Rattle.mk_depline.specs.Names.{is_among};
ghost use Rattle.mk_suffix.specs.Chains as spec;
ghost use Rattle.mk_suffix.specs.Extends.{AreWays, GoesOn, Went, Found, step_of};
ghost use Rattle.mk_suffix.specs.Found.{is_there, place_of};
ghost use Rattle.mk_suffix.specs.Search.{way_at};
ghost use Rattle.mk_dirs.specs.Answered.{ByLooks, OnlyDated};
ghost use Rattle.mk_suffix.specs.Made.{IsFor};
ghost use Rattle.mk_suffix.specs.declared.fault.SuffixFault.TheVariants.{Failed as failed};
ghost use Rattle.mk_world.specs.Causes.{HasCause};

use crate::chain::Chain;
use crate::fault::SuffixFault;
use crate::found::place_of;
use crate::name::{suffix_of, without_end};
use crate::rule::joined;
use crate::step::{Hit, Search, Step};
use crate::table::{Source, SuffixRules};
use mk_bytes::Text;
use mk_world::World;
use std::alloc::Global;

// Reaches the suffix that a rule leads from to that at a place, if it was not reached before. Where
// its file has a place, it is not reached, and the step from it is answered.
fn reach<'s, W: World>(
    alloc: Global,
    rules: &SuffixRules<'s>,
    base: &[u8],
    search: &mut Search<'s>,
    source: &Source<'s>,
    at: usize,
    world: &mut W,
) -> Result<Option<Hit<'s>>, SuffixFault>
    requires place { at < length search.old }
    requires known { IsTrue (is_among rules.now.seeking.suffixes source.now.suffix.now) }
    requires rule { spec.rule_between rules.now.nodes rules.now.seeking.suffixes source.now.suffix.now
        (spec.first_of (way_at search.old at).suffixes) ≡ Some source.now.rule }
    requires within { source.now.rule < length rules.now.nodes }
    requires idle { W.runs world.old [] }
    ensures goes_on { IfOk result (λ hit. GoesOn rules.now.nodes rules.now.seeking.suffixes
        search.old search.new at source.now.suffix.now (step_of hit)) }
    ensures told { IfOk result (λ hit. ByLooks (W.history world.old) (W.history world.new)
        (λ files. Found (place_of files rules.now.nodes rules.now.seeking) base.now search.old search.new hit)) }
    ensures refused { OnErr result (OnlyDated (W.history world.old) (W.history world.new)) }
    ensures cause { HasCause failed (W.faults world.old) (W.faults world.new) result }
    ensures idle { W.runs world.new [] }
{
    if search.has_reached(source.suffix) {
        return Ok(None);
    }
    let name = joined(alloc, base, source.suffix)?;
    let Source { suffix, rule } = *source;
    let step = Step {
        suffix,
        rule,
        to: at,
    };
    if let Some(place) = place_of(alloc, rules, name.bytes(), world)? {
        return Ok(Some(Hit {
            step,
            source: place,
        }));
    }
    search.push(step)?;
    Ok(None)
}

// Reaches the suffixes from which a rule leads to that at a place, in the order in which they are
// known, up to the first whose file has a place: the step from that one is answered.
fn extend<'s, W: World>(
    alloc: Global,
    rules: &SuffixRules<'s>,
    base: &[u8],
    search: &mut Search<'s>,
    at: usize,
    world: &mut W,
) -> Result<Option<Hit<'s>>, SuffixFault>
    requires place { at < length search.old }
    requires ways { AreWays rules.now.nodes search.old }
    requires idle { W.runs world.old [] }
    ensures went { IfOk result (λ hit.
        Went rules.now.nodes rules.now.seeking.suffixes search.old search.new at [] (step_of hit)) }
    ensures told { IfOk result (λ hit. ByLooks (W.history world.old) (W.history world.new)
        (λ files. Found (place_of files rules.now.nodes rules.now.seeking) base.now search.old search.new hit)) }
    ensures refused { OnErr result (OnlyDated (W.history world.old) (W.history world.new)) }
    ensures cause { HasCause failed (W.faults world.old) (W.faults world.new) result }
    ensures idle { W.runs world.new [] }
{
    for source in rules.row(search.suffix(at)) {
        if let Some(hit) = reach(alloc, rules, base, search, source, at, world)? {
            return Ok(Some(hit));
        }
    }
    Ok(None)
}

// A chain, from this place of its source.
#[tactic(auto, using(crate::proofs::MadeLemmas::set_first))]
fn with_source(chain: Chain, source: Text) -> Chain
    requires { 0 < length chain.names }
    ensures { result ≡ spec.with_source (Some source) chain }
{
    let Chain { names, rules } = chain;
    let mut names = names;
    *names.get_mut(0) = source;
    Chain { names, rules }
}

// The first chain of rules to the suffix of a name of this base whose source is found.
fn first_found<'s, W: World>(
    alloc: Global,
    rules: &SuffixRules<'s>,
    base: &[u8],
    own: &'s [u8],
    world: &mut W,
) -> Result<Option<Chain>, SuffixFault>
    requires idle { W.runs world.old [] }
    ensures told { IfOk result (λ chain. ByLooks (W.history world.old) (W.history world.new)
        (λ files. option_map
        (spec.placed_chain (place_of files rules.now.nodes rules.now.seeking) rules.now.nodes base.now)
        (spec.first_found (is_there (place_of files rules.now.nodes rules.now.seeking)) rules.now.nodes
        rules.now.seeking.suffixes base.now own.now) ≡ chain)) }
    ensures made { IfOk result (λ chain. IfSome chain (IsFor rules.now.nodes)) }
    ensures refused { OnErr result (OnlyDated (W.history world.old) (W.history world.new)) }
    ensures cause { HasCause failed (W.faults world.old) (W.faults world.new) result }
    ensures idle { W.runs world.new [] }
{
    let mut search = Search::new(alloc, own)?;
    let mut at = 0;
    'suffixes: while at < search.len() {
        if let Some(hit) = extend(alloc, rules, base, &mut search, at, world)? {
            let chain = search.chain(alloc, base, hit.step)?;
            return Ok(Some(with_source(chain, hit.source)));
        }
        at += 1;
    }
    Ok(None)
}

/// The chain of suffix rules by which a name is made.
///
/// The suffix of a name is the longest known one that its last component ends with and is longer
/// than; the base is the name without it. A chain leads from a source, the base with another known
/// suffix, by a rule from each suffix to the next, to the name; it has each suffix once. Shorter
/// chains come first, and those of one length by the places of their suffixes among the known, the
/// one nearest to the name first. The first chain is chosen whose source has a place: a target
/// stands for itself, a phony name that is none has no place, and other names stand where a file of
/// them is, under the name itself or below the first directory of `.PATH` that has one. The chain
/// begins at that place.
///
/// `None` exactly where there is no such chain. `Failed` comes only where the world's count of
/// faults rose or is at its end, and `NoMemory` where memory runs out.
pub fn resolve<W: World>(
    alloc: Global,
    rules: &SuffixRules<'_>,
    name: &[u8],
    world: &mut W,
) -> Result<Option<Chain>, SuffixFault>
    requires idle { W.runs world.old [] }

    // The answer is the chosen chain by what the world was asked and answered: of all files that
    // fit the answers.
    ensures told { IfOk result (λ chain. ByLooks (W.history world.old) (W.history world.new)
        (λ files. spec.choice files rules.now.nodes rules.now.seeking name.now ≡ chain)) }
    ensures made { IfOk result (λ chain. IfSome chain (IsFor rules.now.nodes)) }
    ensures refused { OnErr result (OnlyDated (W.history world.old) (W.history world.new)) }
    ensures cause { HasCause failed (W.faults world.old) (W.faults world.new) result }
    ensures idle { W.runs world.new [] }
{
    let Some(own) = suffix_of(rules.suffixes().as_slice(), name) else {
        return Ok(None);
    };
    let chain = first_found(alloc, rules, without_end(name, own), own, world)?;
    Ok(chain)
}
