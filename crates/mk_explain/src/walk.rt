//! The walk over a plan.
ghost use Rattle.std.specs.Prelude.{◌≡◌, ◌≢◌, ◌<◌, ◌+◌, ℕ, List, [], Option, length, Err, IfOk};
ghost use Rattle.std.specs.Prelude.{IfErr, OnOk};
ghost use Rattle.mk_decision.specs.Looks.{LooksAt};
ghost use Rattle.mk_decision.specs.Makers.{work_of, work_on};
ghost use Rattle.mk_decision.specs.Decisions.{Work};
ghost use Rattle.mk_decision.specs.Judgements.{IsFound, IsJudgement};
ghost use Rattle.mk_explain.specs.Turns.{IsExplained, IsStoppedBy, SawFiles};
ghost use Rattle.mk_explain.specs.Walks.{AreWalked, HaltsAt, HasTurn, IsHaltedBy};
ghost use Rattle.mk_explain.specs.declared.fault.ExplainFault.TheVariants.{Failed as failed};
ghost use Rattle.mk_world.specs.Causes.{HasCause};
ghost use Rattle.mk_world.specs.Looks.{OnlyLooked, Seen};
ghost use Rattle.mk_world.specs.declared.history.History.{History};

use crate::fault::ExplainFault;
use crate::line::line_of;
use crate::reason::{Reason, Reasons};
use mk_bytes::{Items, NoMemory};
use mk_decision::{Found, Judgement, Maker, judge_on};
use mk_flags::Flags;
use mk_graph::Made;
use mk_plan::Plan;
use mk_world::{Task, Time, World};
use std::alloc::Global;

// The reason of a node that was judged, where it has one.
fn reason_of(
    maker: &Maker,
    node: u32,
    task: &Task,
    found: &Found,
) -> Result<Option<Reason>, NoMemory>
    requires { node < length maker.now.plan.now }
    ensures { IfOk result (λ reason. (seen : List Seen)
        → IsFound (work_of maker.now) node seen task.now found.now
        → HasTurn (work_of maker.now) node seen reason) }
{
    let Some(why) = found.why else {
        return Ok(None);
    };
    let line = line_of(maker, node, task, found, why)?;
    Ok(Some(Reason { node, why, line }))
}

// What is told of a node that was so judged.
fn told_of(maker: &Maker, node: u32, judgement: Judgement) -> Result<Option<Reason>, ExplainFault>
    requires { node < length maker.now.plan.now }
    ensures told { IfOk result (λ reason. (seen : List Seen)
        → IsJudgement (work_of maker.now) node seen judgement
        → HasTurn (work_of maker.now) node seen reason) }
    ensures refused { IfErr result (λ fault. (seen : List Seen)
        → IsJudgement (work_of maker.now) node seen judgement
        → IsHaltedBy (work_of maker.now) node seen fault) }
    ensures own { result ≢ Err failed }
{
    match judgement {
        Judgement::Nothing => Ok(None),
        Judgement::Refused(line, what) => Err(ExplainFault::Expand(node, line, what)),
        Judgement::Judged(task, found) => {
            let reason = reason_of(maker, node, &task, &found);
            drop(task);
            drop(found);
            Ok(reason?)
        }
    }
}

// Looks at a node, and gives its reason, where it has one.
fn look_at<W: World>(
    maker: &Maker,
    world: &mut W,
    node: u32,
) -> Result<Option<Reason>, ExplainFault>
    requires { node < length maker.now.plan.now }
    ensures told { IfOk result (λ reason. (seen : List Seen)
        × LooksAt W.meaning (W.history world.old) (W.history world.new) seen
        × HasTurn (work_of maker.now) node seen reason) }
    ensures refused { IfErr result (λ fault. (seen : List Seen)
        × LooksAt W.meaning (W.history world.old) (W.history world.new) seen
        × IsHaltedBy (work_of maker.now) node seen fault) }
    ensures cause { HasCause failed (W.faults world.old) (W.faults world.new) result }
    ensures children { (kids : List ℕ) → W.runs world.old kids → W.runs world.new kids }
{
    let mut newest = Time(0);
    let judgement = judge_on(maker, world, node, &mut newest)?;
    told_of(maker, node, judgement)
}

// Takes the turn of a node. Where it has a reason, it counts as new from then on.
fn explain_node<W: World>(
    alloc: Global,
    plan: &mut Plan,
    made: &Made,
    flags: &Flags,
    world: &mut W,
    node: u32,
    reasons: &mut Reasons,
) -> Result<(), ExplainFault>
    requires { node < length plan.old }
    ensures told { OnOk result ((start : Option History) (first : Work)
        → AreWalked (LooksAt W.meaning start (W.history world.old)) first
        (work_on plan.old made.now flags.now) node reasons.old
        → AreWalked (LooksAt W.meaning start (W.history world.new)) first
        (work_on plan.new made.now flags.now) (node + 1) reasons.new) }
    ensures refused { IfErr result (λ fault. (start : Option History) (first : Work)
        → AreWalked (LooksAt W.meaning start (W.history world.old)) first
        (work_on plan.old made.now flags.now) node reasons.old
        → HaltsAt (LooksAt W.meaning start (W.history world.new)) first fault) }
    ensures length { length plan.new ≡ length plan.old }
    ensures cause { HasCause failed (W.faults world.old) (W.faults world.new) result }
    ensures children { (kids : List ℕ) → W.runs world.old kids → W.runs world.new kids }
{
    let maker = Maker {
        alloc,
        plan,
        made,
        flags,
    };
    if let Some(reason) = look_at(&maker, world, node)? {
        plan.count_as_new(node);
        reasons.push(reason)?;
    }
    Ok(())
}

// The same of a plan that is lent, whose nodes with a reason come to count as new.
fn explain_all<W: World>(
    alloc: Global,
    plan: &mut Plan,
    made: &Made,
    flags: &Flags,
    world: &mut W,
) -> Result<Reasons, ExplainFault>
    requires idle { W.runs world.old [] }
    ensures explained { IfOk result (λ reasons. IsExplained
        (SawFiles W.meaning (W.history world.old) (W.history world.new))
        (work_on plan.old made.now flags.now) reasons) }
    ensures refused { IfErr result (λ fault. IsStoppedBy
        (SawFiles W.meaning (W.history world.old) (W.history world.new))
        (work_on plan.old made.now flags.now) fault) }
    ensures looked { OnlyLooked (W.history world.old) (W.history world.new) }
    ensures cause { HasCause failed (W.faults world.old) (W.faults world.new) result }
    ensures idle { W.runs world.new [] }
{
    let mut reasons = Items::new(alloc, 0)?;
    for node in 0..plan.len() {
        explain_node(alloc, plan, made, flags, world, node, &mut reasons)?;
    }
    Ok(reasons)
}

/// Why the nodes of a plan are out of date, in plan order. A node that has a reason counts as new
/// for the nodes that are made from it. Nothing is started or changed.
///
/// `Expand(n, l, x)` exactly where line l of the task of node n has this fault, and no node before
/// it has one. `Failed` comes only where the world's count of faults rose or is at its end.
pub fn explain<W: World>(
    alloc: Global,
    plan: Plan,
    made: &Made,
    flags: &Flags,
    world: &mut W,
) -> Result<Reasons, ExplainFault>
    requires idle { W.runs world.old [] }
    ensures explained { IfOk result (λ reasons. IsExplained
        (SawFiles W.meaning (W.history world.old) (W.history world.new))
        (work_on plan made.now flags.now) reasons) }
    ensures refused { IfErr result (λ fault. IsStoppedBy
        (SawFiles W.meaning (W.history world.old) (W.history world.new))
        (work_on plan made.now flags.now) fault) }
    ensures looked { OnlyLooked (W.history world.old) (W.history world.new) }
    ensures cause { HasCause failed (W.faults world.old) (W.faults world.new) result }
    ensures idle { W.runs world.new [] }
{
    let mut plan = plan;
    let reasons = explain_all(alloc, &mut plan, made, flags, world);
    drop(plan);
    reasons
}
