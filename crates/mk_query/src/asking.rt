//! A query goes through the nodes in plan order, up to the first that is not kept.
ghost use Rattle.std.specs.Prelude.{◌≡◌, List, [], ℕ, IfOk, IfErr};
ghost use Rattle.mk_decision.specs.Makers.{work_of, work_on};
ghost use Rattle.mk_query.specs.Answers.{Answered, IsAnswer, answer_of, of_world};
ghost use Rattle.mk_query.specs.Causes.{EndsBy};
ghost use Rattle.mk_query.specs.declared.result.QueryResult.TheVariants as ended;
ghost use Rattle.mk_world.specs.Causes.{HasCause};
ghost use Rattle.mk_world.specs.declared.fault.WorldFault.TheVariants.{Failed as failed};

use crate::result::{QueryEnd, QueryResult};
use mk_decision::{Decision, Maker, decide_on};
use mk_flags::Flags;
use mk_graph::Made;
use mk_plan::Plan;
use mk_trace::{Event, Events};
use mk_world::{Time, World, WorldFault};
use std::alloc::Global;

// Goes through the nodes up to the first that is not kept. Tells of those that are, and of one that
// is refused.
fn first_not_kept<W: World>(
    maker: &Maker,
    world: &mut W,
    events: &mut Events,
) -> Result<QueryResult, WorldFault>
    requires none_yet { events.old ≡ [] }
    ensures answered { IfOk result (λ answer. Answered W.meaning (work_of maker.now)
        (W.history world.old) (W.history world.new) answer events.new) }
    ensures halted { IfErr result (λ fault. Answered W.meaning (work_of maker.now)
        (W.history world.old) (W.history world.new) (of_world fault) events.new) }
    ensures cause { HasCause failed (W.faults world.old) (W.faults world.new) result }
    ensures no_fault { IfOk result (λ answer. answer ≡ ended.World → ⊥) }
    ensures children { (kids : List ℕ) → W.runs world.old kids → W.runs world.new kids }
{
    let mut newest = Time(0);
    for node in 0..maker.plan.len() {
        let decision = decide_on(maker, world, node, &mut newest)?;
        match decision {
            Decision::Keep => events.push(Event::Kept(node))?,
            Decision::Refuse(number, what) => {
                let Ok(()) = events.push(Event::Refused(node, number)) else {
                    drop(what);
                    return Err(WorldFault::NoMemory);
                };
                return Ok(QueryResult::Expand(node, number, what));
            }
            Decision::Make(task, _) => {
                drop(task);
                return Ok(QueryResult::OutOfDate(node));
            }
        }
    }
    Ok(QueryResult::UpToDate)
}

// How a query ended that came to an answer, or was stopped.
fn ended_by(went: Result<QueryResult, WorldFault>) -> QueryResult
    ensures { result ≡ answer_of went }
{
    match went {
        Ok(answer) => answer,
        Err(fault) => QueryResult::from(fault),
    }
}

/// Whether the nodes of a plan are up to date. They are looked at in plan order, up to the first
/// that is out of date or has a line that cannot be expanded; the answer is that node, and the
/// report tells of those before it, which are kept. A node is out of date as it is for a build.
/// Nothing is started, and no file is changed.
///
/// `World` comes only where the world's count of faults rose.
pub fn query<W: World>(
    alloc: Global,
    plan: &Plan,
    made: &Made,
    flags: &Flags,
    world: &mut W,
) -> QueryEnd
    requires idle { W.runs world.old [] }
    ensures answered { IsAnswer (work_on plan.now made.now flags.now) (W.history world.old)
        (W.history world.new) result.result result.events }
    ensures world_cause { EndsBy (W.faults world.old) (W.faults world.new) result.result }
    ensures idle { W.runs world.new [] }
{
    let maker = Maker {
        alloc,
        plan,
        made,
        flags,
    };
    let mut events = Events::new(alloc);
    let went = first_not_kept(&maker, world, &mut events);
    QueryEnd {
        result: ended_by(went),
        events,
    }
}
