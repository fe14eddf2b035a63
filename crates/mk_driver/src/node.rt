//! Nodes: each is decided, and is kept, refused or made.
ghost use Rattle.std.specs.Prelude.{◌≡◌, ◌<◌, ◌≤◌, ℕ, List, length, OnOk, IfErr};
ghost use Rattle.mk_child.specs.Halts.{of_world};
ghost use Rattle.mk_decision.specs.Makers.{work_of};
ghost use Rattle.mk_decision.specs.Newest.{IsDecidedUpTo};
ghost use Rattle.mk_driver.specs.Progress.{Fits, FromAny, GoingAt, HaltedAt, SeenAt, undecided};
ghost use Rattle.mk_sched.specs.Next.{next_of};
ghost use Rattle.mk_sched.specs.declared.sched.Next.TheVariants.{Decide as decides};
ghost use Rattle.mk_world.specs.Causes.{HasCause};
ghost use Rattle.mk_world.specs.Looks.{Seen};
ghost use Rattle.mk_world.specs.declared.fault.WorldFault.TheVariants.{Failed as world_failed};

use crate::course::Course;
use crate::job::Job;
use crate::line::run_on;
use crate::meta::open_job;
use mk_child::note_failure;
use mk_decision::{Decision, Maker, decide_on};
use mk_trace::{Event, Failure, tell};
use mk_world::{Kids, World, WorldFault};

// Carries out the decision of the next node.
fn carry_out<W: World>(
    maker: &Maker,
    world: &mut W,
    kids: &mut Kids<W::Kid>,
    course: &mut Course,
    node: u32,
    decision: Decision,
) -> Result<(), WorldFault>
    requires exact { W.runs world.old kids.old.tickets }
    requires fits { Fits (work_of maker.now) course.old kids.old.tickets kids.old.room 0 }
    requires next { next_of course.old.sched ≡ decides node }
    ensures goes { OnOk result ((seen : List Seen)
        → IsDecidedUpTo (work_of maker.now) node seen decision course.old.newest.0
        → FromAny (SeenAt W.meaning (work_of maker.now) (W.history world.old) course.old node seen)
        (GoingAt W.meaning (work_of maker.now) (W.history world.new) course.new)) }
    ensures halted { IfErr result (λ fault. (seen : List Seen)
        → IsDecidedUpTo (work_of maker.now) node seen decision course.old.newest.0
        → FromAny (SeenAt W.meaning (work_of maker.now) (W.history world.old) course.old node seen)
        (HaltedAt W.meaning (work_of maker.now) (of_world fault) (W.history world.new) course.new.events.items)) }
    ensures fits { OnOk result (Fits (work_of maker.now) course.new kids.new.tickets kids.new.room 0) }
    ensures nodes { OnOk result (undecided course.new.sched.nodes < undecided course.old.sched.nodes) }
    ensures same_room { kids.new.room ≡ kids.old.room }
    ensures cause { HasCause world_failed (W.faults world.old) (W.faults world.new) result }
    ensures children { W.runs world.new kids.new.tickets }
{
    match decision {
        Decision::Keep => {
            tell(&mut course.events, Event::Kept(node))?;
            course.sched.kept(node);
            Ok(())
        }
        Decision::Refuse(number, what) => {
            let Ok(()) = tell(&mut course.events, Event::Refused(node, number)) else {
                drop(what);
                return Err(WorldFault::NoMemory);
            };
            course.sched.refused(node);
            note_failure(&mut course.failure, Failure::Expand(node, number, what));
            Ok(())
        }
        Decision::Make(task, _) => {
            match open_job(maker, world, &mut course.newest, node) {
                Ok(collected) => {
                    course.sched.started(node);
                    let job = Job {
                        ticket: 0,
                        node,
                        number: 0,
                        task,
                        collected,
                    };
                    run_on(maker, world, kids, course, job)
                }
                Err(fault) => {
                    drop(task);
                    Err(fault)
                }
            }
        }
    }
}

/// Decides the next node, and keeps it, refuses it or starts its first line.
pub fn decide<W: World>(
    maker: &Maker,
    world: &mut W,
    kids: &mut Kids<W::Kid>,
    course: &mut Course,
    node: u32,
) -> Result<(), WorldFault>
    requires exact { W.runs world.old kids.old.tickets }
    requires fits { Fits (work_of maker.now) course.old kids.old.tickets kids.old.room 0 }
    requires next { next_of course.old.sched ≡ decides node }
    ensures goes { OnOk result (FromAny
        (GoingAt W.meaning (work_of maker.now) (W.history world.old) course.old)
        (GoingAt W.meaning (work_of maker.now) (W.history world.new) course.new)) }
    ensures halted { IfErr result (λ fault. FromAny
        (GoingAt W.meaning (work_of maker.now) (W.history world.old) course.old)
        (HaltedAt W.meaning (work_of maker.now) (of_world fault) (W.history world.new) course.new.events.items)) }
    ensures fits { OnOk result (Fits (work_of maker.now) course.new kids.new.tickets kids.new.room 0) }
    ensures nodes { OnOk result (undecided course.new.sched.nodes < undecided course.old.sched.nodes) }
    ensures same_room { kids.new.room ≡ kids.old.room }
    ensures cause { HasCause world_failed (W.faults world.old) (W.faults world.new) result }
    ensures children { W.runs world.new kids.new.tickets }
{
    let decision = decide_on(maker, world, node, &mut course.newest)?;
    carry_out(maker, world, kids, course, node, decision)
}
