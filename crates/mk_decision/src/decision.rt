//! How a node is decided.
ghost use Rattle.std.specs.Prelude.{◌≡◌, ◌<◌, ℕ, List, length, IfOk, OnErr};
ghost use Rattle.mk_decision.specs.Decisions.{decided, IsDecision};
ghost use Rattle.mk_decision.specs.Judgements as spec;
ghost use Rattle.mk_decision.specs.Looks.{LooksAt};
ghost use Rattle.mk_decision.specs.Makers.{work_of};
ghost use Rattle.mk_decision.specs.Newest.{decision_whens, raised_all};
ghost use Rattle.mk_decision.specs.Sights.{SawSome};
ghost use Rattle.mk_world.specs.Causes.{HasCause};
ghost use Rattle.mk_world.specs.Looks.{Seen};
ghost use Rattle.mk_world.specs.declared.fault.WorldFault.TheVariants.{Failed as world_failed};

use crate::judgement::{Judgement, judge_on};
use crate::maker::Maker;
use mk_expand::ExpandFault;
use mk_oodate::Why;
use mk_world::{Task, Time, World, WorldFault};

/// What is to be done with a node.
#[derive(Drop)]
pub enum Decision {
    /// It is up to date, or has nothing to be made by.
    Keep,
    /// This line of it cannot be expanded.
    Refuse(u32, ExpandFault),
    /// It is out of date for this reason, and is made by these lines.
    Make(Task, Why),
}

// The decision of a node that has a task, by the reason that was found.
fn decision_of(task: Task, why: Option<Why>) -> Decision
    ensures { result ≡ decided task why }
{
    match why {
        Some(why) => Decision::Make(task, why),
        None => Decision::Keep,
    }
}

// The decision of a node that is so judged.
fn decision_by(judgement: Judgement) -> Decision
    ensures { result ≡ spec.decision_by judgement }
{
    match judgement {
        Judgement::Nothing => Decision::Keep,
        Judgement::Refused(number, what) => Decision::Refuse(number, what),
        Judgement::Judged(task, found) => decision_of(task, found.why),
    }
}

/// The decision of a node, by looks at what decides it. The newest known time that was told raises
/// `newest`; looks for `exists` do not count.
pub fn decide_on<W: World>(
    maker: &Maker,
    world: &mut W,
    node: u32,
    newest: &mut Time,
) -> Result<Decision, WorldFault>
    requires within { node < length maker.now.plan.now }
    ensures decided { IfOk result (λ decision. (seen : List Seen)
        × LooksAt W.meaning (W.history world.old) (W.history world.new) seen
        × (is : IsDecision (work_of maker.now) node seen decision)
        × (newest.new.0 ≡ raised_all newest.old.0
        (decision_whens (work_of maker.now) node seen decision is))) }
    ensures halted { OnErr result
        (SawSome W.meaning (W.history world.old) (W.history world.new)) }
    ensures cause { HasCause world_failed (W.faults world.old) (W.faults world.new) result }
    ensures children { (kids : List ℕ) → W.runs world.old kids → W.runs world.new kids }
{
    let judgement = judge_on(maker, world, node, newest)?;
    Ok(decision_by(judgement))
}
