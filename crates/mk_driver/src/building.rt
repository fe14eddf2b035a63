//! A whole build.
ghost use Rattle.std.specs.Prelude.{◌≡◌, ◌<◌, ◌≤◌, ◌^◌, [], length, false, true, IfErr, IfOk, OnOk};
ghost use Rattle.mk_trace.specs.Builds.{Moment, moment};
ghost use Rattle.mk_headline.specs.CleanBuilds.{IsCleanBuild};
ghost use Rattle.mk_trace.specs.Ends.{EndsBy, result_of};
ghost use Rattle.mk_decision.specs.Makers.{work_of, work_on};
ghost use Rattle.mk_driver.specs.Progress.{EndedAt, Fits, GoingAt, HaltedAt, IsFirstCourse};
ghost use Rattle.mk_driver.specs.Progress.{undecided};
ghost use Rattle.mk_trace.specs.declared.result.BuildResult.TheVariants as ended;
ghost use Rattle.mk_child.specs.declared.halt.Halt.TheVariants as halts;
ghost use Rattle.mk_sched.specs.Next.{next_of};
ghost use Rattle.mk_sched.specs.declared.sched.Next.TheVariants as next;
ghost use Rattle.mk_world.specs.Causes.{HasCause};

use crate::course::Course;
use crate::ending::take_in;
use crate::node::decide;
use mk_bytes::NoMemory;
use mk_child::Halt;
use mk_decision::{Maker, jobs_in};
use mk_flags::Flags;
use mk_graph::Made;
use mk_plan::Plan;
use mk_sched::{Next, Sched};
use mk_trace::{BuildEnd, BuildResult, Events, Failure};
use mk_world::{Kids, Sink, Time, World};
use std::alloc::Global;

// Takes in children up to the next node that may be decided, or up to the last one.
fn take_in_ready<W: World, S: Sink>(
    maker: &Maker,
    world: &mut W,
    out: &mut S,
    kids: &mut Kids<W::Kid>,
    course: &mut Course,
) -> Result<(), Halt>
    requires exact { W.runs world.old kids.old.tickets }
    requires fits { Fits (work_of maker.now) course.old kids.old.tickets kids.old.room 0 }
    ensures goes { OnOk result ((first : Moment)
        → GoingAt W.meaning (work_of maker.now) (W.history world.old) course.old first (S.held out.old)
        → GoingAt W.meaning (work_of maker.now) (W.history world.new) course.new first
        (S.held out.new)) }
    ensures halted { IfErr result (λ halt. (first : Moment)
        → GoingAt W.meaning (work_of maker.now) (W.history world.old) course.old first (S.held out.old)
        → HaltedAt W.meaning (work_of maker.now) halt (W.history world.new) course.new.events.items first
        (S.held out.new)) }
    ensures fits { OnOk result (Fits (work_of maker.now) course.new kids.new.tickets kids.new.room 0) }
    ensures nodes { OnOk result (undecided course.new.sched.nodes ≡ undecided course.old.sched.nodes) }
    ensures ready { OnOk result (next_of course.new.sched ≡ next.Wait → ⊥) }
    ensures same_room { kids.new.room ≡ kids.old.room }
    ensures world_cause { HasCause halts.World (W.faults world.old) (W.faults world.new) result }
    ensures sink_cause { HasCause halts.Sink (S.faults out.old) (S.faults out.new) result }
    ensures children { W.runs world.new kids.new.tickets }
{
    'waits: while course.sched.next() == Next::Wait {
        take_in(maker, world, out, kids, course)?;
    }
    Ok(())
}

// One more node is decided, behind the children that have to be taken in before. Gives whether
// there was one.
fn make_next<W: World, S: Sink>(
    maker: &Maker,
    world: &mut W,
    out: &mut S,
    kids: &mut Kids<W::Kid>,
    course: &mut Course,
) -> Result<bool, Halt>
    requires exact { W.runs world.old kids.old.tickets }
    requires fits { Fits (work_of maker.now) course.old kids.old.tickets kids.old.room 0 }
    ensures goes { OnOk result ((first : Moment)
        → GoingAt W.meaning (work_of maker.now) (W.history world.old) course.old first (S.held out.old)
        → GoingAt W.meaning (work_of maker.now) (W.history world.new) course.new first
        (S.held out.new)) }
    ensures halted { IfErr result (λ halt. (first : Moment)
        → GoingAt W.meaning (work_of maker.now) (W.history world.old) course.old first (S.held out.old)
        → HaltedAt W.meaning (work_of maker.now) halt (W.history world.new) course.new.events.items first
        (S.held out.new)) }
    ensures fits { OnOk result (Fits (work_of maker.now) course.new kids.new.tickets kids.new.room 0) }
    ensures nodes { IfOk result (λ more. more ≡ true
        → undecided course.new.sched.nodes < undecided course.old.sched.nodes) }
    ensures over { IfOk result (λ more. more ≡ false → next_of course.new.sched ≡ next.Over) }
    ensures same_room { kids.new.room ≡ kids.old.room }
    ensures world_cause { HasCause halts.World (W.faults world.old) (W.faults world.new) result }
    ensures sink_cause { HasCause halts.Sink (S.faults out.old) (S.faults out.new) result }
    ensures children { W.runs world.new kids.new.tickets }
{
    take_in_ready(maker, world, out, kids, course)?;
    if let Next::Decide(node) = course.sched.next() {
        course.decided = course.decided.saturating_add(1);
        decide(maker, world, kids, course, node)?;
        return Ok(true);
    }
    Ok(false)
}

// Makes all nodes that can be made.
fn make_all<W: World, S: Sink>(
    maker: &Maker,
    world: &mut W,
    out: &mut S,
    kids: &mut Kids<W::Kid>,
    course: &mut Course,
) -> Result<(), Halt>
    requires exact { W.runs world.old kids.old.tickets }
    requires fits { Fits (work_of maker.now) course.old kids.old.tickets kids.old.room 0 }
    ensures goes { OnOk result ((first : Moment)
        → GoingAt W.meaning (work_of maker.now) (W.history world.old) course.old first (S.held out.old)
        → GoingAt W.meaning (work_of maker.now) (W.history world.new) course.new first
        (S.held out.new)) }
    ensures halted { IfErr result (λ halt. (first : Moment)
        → GoingAt W.meaning (work_of maker.now) (W.history world.old) course.old first (S.held out.old)
        → HaltedAt W.meaning (work_of maker.now) halt (W.history world.new) course.new.events.items first
        (S.held out.new)) }
    ensures fits { OnOk result (Fits (work_of maker.now) course.new kids.new.tickets kids.new.room 0) }
    ensures over { OnOk result (next_of course.new.sched ≡ next.Over) }
    ensures world_cause { HasCause halts.World (W.faults world.old) (W.faults world.new) result }
    ensures sink_cause { HasCause halts.Sink (S.faults out.old) (S.faults out.new) result }
    ensures children { W.runs world.new kids.new.tickets }
{
    'nodes: while make_next(maker, world, out, kids, course)? {}
    Ok(())
}

// The end of a build that is over, by its first failure.
fn ended_by(failure: Option<Failure>) -> BuildResult
    ensures { result ≡ result_of failure }
{
    match failure {
        Some(failure) => BuildResult::from(failure),
        None => BuildResult::Done,
    }
}

// Makes all nodes that can be made, and gives the end of the build.
fn make_to_end<W: World, S: Sink>(
    maker: &Maker,
    world: &mut W,
    out: &mut S,
    kids: &mut Kids<W::Kid>,
    course: &mut Course,
) -> BuildResult
    requires exact { W.runs world.old kids.old.tickets }
    requires fits { Fits (work_of maker.now) course.old kids.old.tickets kids.old.room 0 }
    ensures ended { (first : Moment)
        → GoingAt W.meaning (work_of maker.now) (W.history world.old) course.old first (S.held out.old)
        → EndedAt W.meaning (work_of maker.now) result first
        (moment (W.history world.new) (S.held out.new) course.new.events.items) }
    ensures world_cause { EndsBy ended.World (W.faults world.old) (W.faults world.new) result }
    ensures sink_cause { EndsBy ended.Sink (S.faults out.old) (S.faults out.new) result }
    ensures children { W.runs world.new kids.new.tickets }
{
    match make_all(maker, world, out, kids, course) {
        Ok(()) => ended_by(course.failure.take()),
        Err(halt) => BuildResult::from(halt),
    }
}

// The start of a build.
fn new_course<'p>(
    alloc: Global,
    plan: &'p Plan,
    jobs: u32,
    keep_going: bool,
) -> Result<Course<'p>, NoMemory>
    requires some { 1 ≤ jobs }
    requires few { jobs ≤ 256 }
    ensures begins { IfOk result (λ course. IsFirstCourse plan.now jobs keep_going course) }
    ensures short { length plan.now < 2 ^ 32 }
{
    Ok(Course {
        sched: Sched::new(alloc, plan, jobs, keep_going)?,
        jobs: Vec::new(alloc),
        events: Vec::new(alloc),
        last_ticket: 0,
        last_shown: None,
        failure: None,
        newest: Time(0),
        decided: 0,
    })
}

// The report of a build.
fn events_of(course: Course) -> Events
    ensures { result ≡ course.entry.events.items }
{
    let Course { events, .. } = course;
    Events::of(events)
}

// A build that did not begin. Takes no memory.
fn no_memory(alloc: Global) -> BuildEnd
    ensures { result ≡ record { result = ended.NoMemory; events = [] } }
{
    BuildEnd {
        result: BuildResult::NoMemory,
        events: Events::new(alloc),
    }
}

/// Builds a plan with so many jobs at once: whenever a node may be decided it is, and is kept if it
/// is up to date, and else made by the lines of its task, one after the other. A node is out of
/// date where it is always made, its file is missing, or a source is new or newer; a source without
/// a file may be as old as its own sources. In meta mode it is also out of date where its meta file
/// says so, each of its jobs begins with the head of that file, and where the job has ended well,
/// make asks for the target's time and writes the whole file. Where no node may be decided, the
/// next child that ends is taken in, and what its line printed is written. Behind the first line
/// that fails or cannot be expanded no line is started, or, with `-k`, none of what depends on it.
///
/// The report's events are a cut run, and a legal run where the outside did not end the build.
/// There is one list of items, of which the events are one side, and what happened in the world,
/// where it tells, the other; each item has its reason. Standard output gains what the events
/// print. Where meta files told what happened before the build, they do so at every moment of it,
/// as far as jobs have kept apart. And where all is made in meta mode, and what jobs read and
/// change is declared, each made file has the bytes that a clean build of the same plan and tasks
/// gives it, one job after the other, and each meta file that stands then tells what happened, as
/// jobs have kept apart. `World` and `Sink` come only where that object's count of faults rose.
pub fn build<W: World, S: Sink>(
    alloc: Global,
    plan: &Plan,
    made: &Made,
    flags: &Flags,
    world: &mut W,
    out: &mut S,
) -> BuildEnd
    requires some_jobs { 1 ≤ flags.now.jobs }
    requires few_jobs { flags.now.jobs ≤ 256 }
    requires idle { W.runs world.old [] }
    ensures built { IsCleanBuild W.meaning (work_on plan.now made.now flags.now) result.result
        (moment (W.history world.old) (S.held out.old) [])
        (moment (W.history world.new) (S.held out.new) result.events) }
    ensures world_cause { EndsBy ended.World (W.faults world.old) (W.faults world.new)
        result.result }
    ensures sink_cause { EndsBy ended.Sink (S.faults out.old) (S.faults out.new) result.result }
    ensures idle { W.runs world.new [] }
{
    let maker = Maker {
        alloc,
        plan,
        made,
        flags,
    };
    let jobs = jobs_in(&maker);
    let Ok(mut kids) = Kids::new(alloc, jobs as usize) else {
        return no_memory(alloc);
    };
    let Ok(mut course) = new_course(alloc, plan, jobs, flags.keep_going) else {
        kids.finish();
        return no_memory(alloc);
    };
    let result = make_to_end(&maker, world, out, &mut kids, &mut course);
    world.abandon(&mut kids);
    kids.finish();
    BuildEnd {
        result,
        events: events_of(course),
    }
}
