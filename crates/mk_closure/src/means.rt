//! What there is to make a node with.
ghost use Rattle.std.specs.Prelude.{◌≡◌, [], None, IfOk, IfErr, IfSome, OnErr};
ghost use Rattle.mk_closure.specs.Faults.{IsOutside};
ghost use Rattle.mk_closure.specs.Made.{HasChain};
ghost use Rattle.mk_closure.specs.Means as spec;
ghost use Rattle.mk_closure.specs.declared.fault.CloseFault.TheVariants.{Failed as failed};
ghost use Rattle.mk_dirs.specs.Answered.{ByLooks, OnlyDated};
ghost use Rattle.mk_suffix.specs.Made.{IsFor};
ghost use Rattle.mk_suffix.specs.declared.fault.SuffixFault.TheVariants.{Failed as suffix_failed};
ghost use Rattle.mk_world.specs.Causes.{HasCause};

use crate::fault::CloseFault;
use mk_bytes::Text;
use mk_graph::{Attr, Graph};
use mk_suffix::{Chain, SuffixFault, SuffixRules, place_of, resolve};
use mk_world::World;
use std::alloc::Global;

/// What there is to make a node with.
#[derive(Drop)]
pub enum Means {
    /// What the makefiles say, or a file that is there.
    Own,
    /// A chain of suffix rules.
    Chained(Chain),
    /// The node of this name, where a file stands.
    Placed(Text),
    /// Nothing.
    Missing,
}

/// Whether a node has commands.
pub fn has_commands(graph: &Graph, n: u32) -> bool
    ensures { result ≡ spec.has_commands graph.now n }
{
    (n as usize) < graph.len() && !graph.commands(n).is_empty()
}

fn is_phony(graph: &Graph, n: u32) -> bool
    ensures { result ≡ spec.is_phony graph.now n }
{
    (n as usize) < graph.len() && graph.has(n, Attr::Phony)
}

fn chain_for<W: World>(
    alloc: Global,
    rules: &SuffixRules<'_>,
    name: &[u8],
    n: u32,
    world: &mut W,
) -> Result<Option<Chain>, SuffixFault>
    requires idle { W.runs world.old [] }
    ensures told { IfOk result (λ chain. ByLooks (W.history world.old) (W.history world.new)
        (λ files. spec.chain_for files rules.now.nodes rules.now.seeking name.now n ≡ chain)) }
    ensures made { IfOk result (λ chain. IfSome chain (IsFor rules.now.nodes)) }
    ensures refused { OnErr result (OnlyDated (W.history world.old) (W.history world.new)) }
    ensures cause { HasCause suffix_failed (W.faults world.old) (W.faults world.new) result }
    ensures idle { W.runs world.new [] }
{
    if is_phony(rules.graph(), n) {
        return Ok(None);
    }
    resolve(alloc, rules, name, world)
}

// What there is to make a name with that no chain makes, by its place.
fn means_by(name: &[u8], place: Option<Text>) -> Means
    ensures { result ≡ spec.means_by name.now place None }
{
    match place {
        Some(place) => {
            if place.bytes() == name {
                return Means::Own;
            }
            Means::Placed(place)
        }
        None => Means::Missing,
    }
}

/// What there is to make a node of this name with.
pub fn means_of<W: World>(
    alloc: Global,
    rules: &SuffixRules<'_>,
    name: &[u8],
    n: u32,
    world: &mut W,
) -> Result<Means, CloseFault>
    requires idle { W.runs world.old [] }
    ensures told { IfOk result (λ means. ByLooks (W.history world.old) (W.history world.new)
        (λ files. spec.means_of files rules.now.nodes rules.now.seeking name.now n ≡ means)) }
    ensures made { IfOk result (HasChain rules.now.nodes) }
    ensures refused { OnErr result (OnlyDated (W.history world.old) (W.history world.new)) }
    ensures outside { IfErr result IsOutside }
    ensures cause { HasCause failed (W.faults world.old) (W.faults world.new) result }
    ensures idle { W.runs world.new [] }
{
    if has_commands(rules.graph(), n) {
        return Ok(Means::Own);
    }
    if let Some(chain) = chain_for(alloc, rules, name, n, world)? {
        return Ok(Means::Chained(chain));
    }
    let place = place_of(alloc, rules, name, world)?;
    Ok(means_by(name, place))
}
