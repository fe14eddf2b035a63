//! What is seen of a node that has commands.
ghost use Rattle.std.specs.Prelude.{◌≡◌, ◌<◌, ℕ, List, length, IfOk, OnErr};
ghost use Rattle.mk_audit.specs.Looks.{IsSeen, NodeSight, looks_of};
ghost use Rattle.mk_audit.specs.Views as spec;
ghost use Rattle.mk_decision.specs.Looks.{LooksAt};
ghost use Rattle.mk_decision.specs.Makers.{work_of};
ghost use Rattle.mk_decision.specs.Sights.{SawSome};
ghost use Rattle.mk_world.specs.Causes.{HasCause};
ghost use Rattle.mk_world.specs.declared.fault.WorldFault.TheVariants.{Failed as world_failed};

use crate::commands::{Commands, commands_in};
use crate::filed::{Filed, filed_in};
use mk_decision::{Maker, judge, look};
use mk_world::{World, WorldFault};

/// What is seen of a node that has commands.
#[derive(Drop)]
pub struct NodeView {
    pub commands: Commands,
    pub filed: Filed,
}

/// Looks at a node that has commands: at its file and the nodes that count for it, for what its
/// commands ask, and at its meta file.
pub fn view_of<W: World>(maker: &Maker, world: &mut W, node: u32) -> Result<NodeView, WorldFault>
    requires within { node < length maker.now.plan.now }
    ensures seen { IfOk result (λ view. (sight : NodeSight)
        × IsSeen (work_of maker.now) node sight
        × LooksAt W.meaning (W.history world.old) (W.history world.new)
        (looks_of (work_of maker.now) node sight)
        × (view ≡ spec.view_of (work_of maker.now) node sight)) }
    ensures some { OnErr result
        (SawSome W.meaning (W.history world.old) (W.history world.new)) }
    ensures cause { HasCause world_failed (W.faults world.old) (W.faults world.new) result }
    ensures children { (kids : List ℕ) → W.runs world.old kids → W.runs world.new kids }
{
    let times = look(maker.alloc, world, maker.plan, node)?;
    let verdict = judge(maker, node, &times)?;
    let commands = commands_in(maker, world, node, &verdict.newer)?;
    let filed = filed_in(maker, world, node, times.target, verdict.ages)?;
    Ok(NodeView { commands, filed })
}
