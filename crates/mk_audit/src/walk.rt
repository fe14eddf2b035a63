//! The walk over a plan.
ghost use Rattle.std.specs.Prelude.{◌≡◌, ◌<◌, ◌+◌, ℕ, List, [], Option, length, IfOk, OnOk, OnErr};
ghost use Rattle.mk_audit.specs.Facts.{IsAudited};
ghost use Rattle.mk_audit.specs.Turns.{AreAudited};
ghost use Rattle.mk_audit.specs.Walks.{AreWalked};
ghost use Rattle.mk_audit.specs.declared.fault.AuditFault.TheVariants.{Failed as failed};
ghost use Rattle.mk_decision.specs.Looks.{LooksAt};
ghost use Rattle.mk_decision.specs.Makers.{work_of, work_on};
ghost use Rattle.mk_decision.specs.Sights.{SawSome};
ghost use Rattle.mk_explain.specs.Turns.{SawFiles};
ghost use Rattle.mk_world.specs.Causes.{HasCause};
ghost use Rattle.mk_world.specs.Looks.{OnlyLooked, Seen};
ghost use Rattle.mk_world.specs.declared.fault.WorldFault.TheVariants.{Failed as world_failed};
ghost use Rattle.mk_world.specs.declared.history.History.{History};

use crate::facts::{facts_of, plain_facts};
use crate::fault::AuditFault;
use crate::view::view_of;
use mk_breaches::{NodeFacts, Nodes};
use mk_bytes::Items;
use mk_decision::Maker;
use mk_flags::Flags;
use mk_graph::Made;
use mk_plan::Plan;
use mk_world::{World, WorldFault};
use std::alloc::Global;

// Looks at a node, and says what is found of it.
fn look_at<W: World>(maker: &Maker, world: &mut W, node: u32) -> Result<NodeFacts, WorldFault>
    requires { node < length maker.now.plan.now }
    ensures audited { IfOk result (λ facts. (seen : List Seen)
        × LooksAt W.meaning (W.history world.old) (W.history world.new) seen
        × IsAudited (work_of maker.now) node seen facts) }
    ensures some { OnErr result
        (SawSome W.meaning (W.history world.old) (W.history world.new)) }
    ensures cause { HasCause world_failed (W.faults world.old) (W.faults world.new) result }
    ensures children { (kids : List ℕ) → W.runs world.old kids → W.runs world.new kids }
{
    if maker.plan.commands(node).is_empty() {
        return Ok(plain_facts(maker.alloc, maker.plan, node)?);
    }
    let view = view_of(maker, world, node)?;
    Ok(facts_of(maker, node, view)?)
}

// Takes the turn of a node.
fn audit_node<W: World>(
    maker: &Maker,
    world: &mut W,
    node: u32,
    nodes: &mut Nodes,
) -> Result<(), WorldFault>
    requires { node < length maker.now.plan.now }
    ensures audited { OnOk result ((start : Option History)
        → AreWalked (LooksAt W.meaning start (W.history world.old)) (work_of maker.now) node
        nodes.old
        → AreWalked (LooksAt W.meaning start (W.history world.new)) (work_of maker.now) (node + 1)
        nodes.new) }
    ensures some { OnErr result ((start : Option History)
        → AreWalked (LooksAt W.meaning start (W.history world.old)) (work_of maker.now) node
        nodes.old
        → SawSome W.meaning start (W.history world.new)) }
    ensures cause { HasCause world_failed (W.faults world.old) (W.faults world.new) result }
    ensures children { (kids : List ℕ) → W.runs world.old kids → W.runs world.new kids }
{
    let facts = look_at(maker, world, node)?;
    nodes.push(facts)?;
    Ok(())
}

fn audit_all<W: World>(maker: &Maker, world: &mut W) -> Result<Nodes, WorldFault>
    requires idle { W.runs world.old [] }
    ensures audited { IfOk result (λ nodes. AreAudited
        (SawFiles W.meaning (W.history world.old) (W.history world.new))
        (work_of maker.now) nodes) }
    ensures looked { OnlyLooked (W.history world.old) (W.history world.new) }
    ensures cause { HasCause world_failed (W.faults world.old) (W.faults world.new) result }
    ensures idle { W.runs world.new [] }
{
    let mut nodes = Items::new(maker.alloc, 0)?;
    for node in 0..maker.plan.len() {
        audit_node(maker, world, node, &mut nodes)?;
    }
    Ok(nodes)
}

/// What is found of the nodes of a plan, in plan order, by looks at files. Nothing is started or
/// changed.
///
/// `Failed` comes only where the world's count of faults rose or is at its end.
pub fn audit_nodes<W: World>(
    alloc: Global,
    plan: &Plan,
    made: &Made,
    flags: &Flags,
    world: &mut W,
) -> Result<Nodes, AuditFault>
    requires idle { W.runs world.old [] }
    ensures audited { IfOk result (λ nodes. AreAudited
        (SawFiles W.meaning (W.history world.old) (W.history world.new))
        (work_on plan.now made.now flags.now) nodes) }
    ensures looked { OnlyLooked (W.history world.old) (W.history world.new) }
    ensures cause { HasCause failed (W.faults world.old) (W.faults world.new) result }
    ensures idle { W.runs world.new [] }
{
    let maker = Maker {
        alloc,
        plan,
        made,
        flags,
    };
    Ok(audit_all(&maker, world)?)
}
