//! At which place a file stands that can be a source.
ghost use Rattle.std.specs.Prelude.{◌≡◌, [], IfOk, OnErr};
ghost use Rattle.mk_suffix.specs.Found as spec;
ghost use Rattle.mk_suffix.specs.declared.fault.SuffixFault.TheVariants.{Failed as failed};
ghost use Rattle.mk_world.specs.Causes.{HasCause};
ghost use Rattle.mk_dirs.specs.Answered.{ByLooks, OnlyDated};

use crate::fault::SuffixFault;
use crate::rule::is_marked;
use crate::table::SuffixRules;
use mk_bytes::Text;
use mk_dirs::place;
use mk_graph::Attr;
use mk_world::World;
use std::alloc::Global;

/// The place of a name that can be a source: the name itself where it is a target or a file that is
/// there, else a file of it in a directory that is searched. A phony name that is no target has
/// none.
pub fn place_of<W: World>(
    alloc: Global,
    rules: &SuffixRules<'_>,
    name: &[u8],
    world: &mut W,
) -> Result<Option<Text>, SuffixFault>
    requires idle { W.runs world.old [] }
    ensures told { IfOk result (λ found. ByLooks (W.history world.old) (W.history world.new)
        (λ files. found ≡ spec.place_of files rules.now.nodes rules.now.seeking name.now)) }
    ensures refused { OnErr result (OnlyDated (W.history world.old) (W.history world.new)) }
    ensures cause { HasCause failed (W.faults world.old) (W.faults world.new) result }
    ensures idle { W.runs world.new [] }
{
    let target = is_marked(rules.graph(), name, Attr::Target);
    if !target && is_marked(rules.graph(), name, Attr::Phony) {
        return Ok(None);
    }
    let found = place(alloc, target, rules.paths(), name, rules.cwd(), world)?;
    Ok(found)
}
