//! A whole dry run.
ghost use Rattle.std.specs.Prelude.{◌≡◌, [], IfOk};
ghost use Rattle.mk_child.specs.declared.halt.Halt.TheVariants as halts;
ghost use Rattle.mk_decision.specs.Makers.{work_on};
ghost use Rattle.mk_dry.specs.DryRuns.{IsDryRun};
ghost use Rattle.mk_dry.specs.Parts.{GoingFrom, IsAlone, IsGoneTo, Origin, PassesAll, point};
ghost use Rattle.mk_dry.specs.Progress.{EndedAt, IsFirstCourse};
ghost use Rattle.mk_trace.specs.Builds.{moment};
ghost use Rattle.mk_trace.specs.Ends.{EndsBy, result_of};
ghost use Rattle.mk_trace.specs.declared.result.BuildResult.TheVariants as ended;
ghost use Rattle.mk_world.specs.Causes.{HasCause};

use crate::course::Course;
use crate::node::{is_stopped_by, pass_node};
use mk_bytes::NoMemory;
use mk_child::Halt;
use mk_flags::Flags;
use mk_graph::Made;
use mk_plan::{NodeState, Plan};
use mk_trace::{BuildEnd, BuildResult, Events, Failure};
use mk_world::{Kids, Sink, World};
use std::alloc::Global;

// Goes through all nodes in order, up to a failure that stops the run.
fn pass_all<W: World, S: Sink>(
    alloc: Global,
    made: &Made,
    flags: &Flags,
    world: &mut W,
    out: &mut S,
    kids: &mut Kids<W::Kid>,
    course: &mut Course,
) -> Result<(), Halt>
    requires alone { IsAlone (W.runs world.old) kids.old.tickets kids.old.room }
    requires gone { IsGoneTo made.now flags.now course.old 0 }
    ensures goes { PassesAll W.meaning made.now flags.now
        (point (W.history world.old) (S.held out.old) course.old)
        (point (W.history world.new) (S.held out.new) course.new) result }
    ensures world_cause { HasCause halts.World (W.faults world.old) (W.faults world.new) result }
    ensures sink_cause { HasCause halts.Sink (S.faults out.old) (S.faults out.new) result }
    ensures children { W.runs world.new kids.new.tickets }
{
    let mut node = 0;
    'nodes: while node < course.plan.len() && !is_stopped_by(flags, &course.failure) {
        pass_node(alloc, made, flags, world, out, kids, course, node)?;
        node += 1;
    }
    Ok(())
}

// The end of a dry run that is over, by its first failure.
fn ended_by(failure: Option<Failure>) -> BuildResult
    ensures { result ≡ result_of failure }
{
    match failure {
        Some(failure) => BuildResult::from(failure),
        None => BuildResult::Done,
    }
}

// Goes through all nodes, and gives the end of the dry run.
fn run_to_end<W: World, S: Sink>(
    alloc: Global,
    made: &Made,
    flags: &Flags,
    world: &mut W,
    out: &mut S,
    kids: &mut Kids<W::Kid>,
    course: &mut Course,
) -> BuildResult
    requires alone { IsAlone (W.runs world.old) kids.old.tickets kids.old.room }
    requires gone { IsGoneTo made.now flags.now course.old 0 }
    ensures ended { (from : Origin) → GoingFrom W.meaning made.now flags.now 0
        (point (W.history world.old) (S.held out.old) course.old) from
        → EndedAt W.meaning from.start result from.first
        (moment (W.history world.new) (S.held out.new) course.new.events.items) }
    ensures world_cause { EndsBy ended.World (W.faults world.old) (W.faults world.new) result }
    ensures sink_cause { EndsBy ended.Sink (S.faults out.old) (S.faults out.new) result }
    ensures children { W.runs world.new kids.new.tickets }
{
    match pass_all(alloc, made, flags, world, out, kids, course) {
        Ok(()) => ended_by(course.failure.take()),
        Err(halt) => BuildResult::from(halt),
    }
}

// The start of a dry run.
fn new_course(alloc: Global, plan: Plan) -> Result<Course, NoMemory>
    ensures { IfOk result (λ course. IsFirstCourse plan course) }
{
    let many = plan.len() as usize;
    let nodes = vec![in alloc; NodeState::Undecided; many];
    match nodes {
        Ok(nodes) => Ok(Course {
            nodes,
            plan,
            events: Vec::new(alloc),
            failure: None,
        }),
        Err(fault) => {
            drop(plan);
            Err(NoMemory::from(fault))
        }
    }
}

// The report of a dry run.
fn events_of(course: Course) -> Events
    ensures { result ≡ course.events.items }
{
    let Course { events, plan, .. } = course;
    drop(plan);
    Events::of(events)
}

// A dry run that did not begin. Takes no memory.
fn no_memory(alloc: Global) -> BuildEnd
    ensures { result ≡ record { result = ended.NoMemory; events = [] } }
{
    BuildEnd {
        result: BuildResult::NoMemory,
        events: Events::new(alloc),
    }
}

/// Shows what a build of this plan would do. In the order of the plan each node is decided as a
/// build decides it, behind those that it waits for, and the lines of one that is out of date are
/// printed. A node that was shown counts as new for all that is made from it. Only a line with `+`
/// is started, directly behind its printing; it is waited for, and what it printed is written. Make
/// itself changes no file. Behind the first line that fails or cannot be expanded nothing more is
/// shown, or, with `-k`, nothing of what depends on it.
///
/// With a line that is not started as one that has ended well, the report's events are a cut run
/// with one job, and a legal run where the outside did not end the dry run. There is one list of
/// items, of which the events are one side, and what happened in the world, where it tells, the
/// other; each item has its reason. Standard output gains what is shown and what the children
/// print. `World` and `Sink` come only where that object's count of faults rose.
pub fn dry_run<W: World, S: Sink>(
    alloc: Global,
    plan: Plan,
    made: &Made,
    flags: &Flags,
    world: &mut W,
    out: &mut S,
) -> BuildEnd
    requires idle { W.runs world.old [] }
    ensures ran { IsDryRun W.meaning (work_on plan made.now flags.now) result.result
        (moment (W.history world.old) (S.held out.old) [])
        (moment (W.history world.new) (S.held out.new) result.events) }
    ensures world_cause { EndsBy ended.World (W.faults world.old) (W.faults world.new)
        result.result }
    ensures sink_cause { EndsBy ended.Sink (S.faults out.old) (S.faults out.new) result.result }
    ensures idle { W.runs world.new [] }
{
    let Ok(mut kids) = Kids::new(alloc, 1) else {
        drop(plan);
        return no_memory(alloc);
    };
    let Ok(mut course) = new_course(alloc, plan) else {
        kids.finish();
        return no_memory(alloc);
    };
    let result = run_to_end(alloc, made, flags, world, out, &mut kids, &mut course);
    world.abandon(&mut kids);
    kids.finish();
    BuildEnd {
        result,
        events: events_of(course),
    }
}
