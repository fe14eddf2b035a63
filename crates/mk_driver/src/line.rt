//! The lines of a job: empty ones are passed over, and for others children are started.
ghost use Rattle.std.specs.List.{list_any};
ghost use Rattle.std.specs.Prelude.{◌≡◌, ◌<◌, ◌≤◌, ◌+◌, ◌-◌, ◌^◌, ℕ, [], ◌∷◌, ◌++◌, Some, true};
ghost use Rattle.std.specs.Prelude.{false, length, nat_eq, OnOk, OnErr, IfOk, IfErr};
ghost use Rattle.mk_child.specs.Halts.{of_world};
ghost use Rattle.mk_driver.specs.Jobs.{HasLine, HasToken, lines_left};
ghost use Rattle.mk_decision.specs.Makers.{work_of};
ghost use Rattle.mk_driver.specs.Progress.{BehindAt, BehindOn, Fits, FromAny, GoingAt, HaltedAt};
ghost use Rattle.mk_driver.specs.Progress.{IsUnstopped, undecided};
ghost use Rattle.mk_trace.specs.Builds.{command_of};
ghost use Rattle.mk_trace.specs.Calls.{Called, NoItem, StartItem};
ghost use Rattle.mk_trace.specs.Runs.{is_empty, line_of};
ghost use Rattle.mk_driver.specs.Scenes.{Scene, IsOpenScene, BehindIn, HaltedIn};
ghost use Rattle.mk_trace.specs.declared.collected.Collected.{Collected as Kept};
ghost use Rattle.mk_trace.specs.declared.event.Event.TheVariants as event;
ghost use Rattle.mk_world.specs.Causes.{HasCause};
ghost use Rattle.mk_world.specs.declared.fault.WorldFault.TheVariants.{Failed as world_failed};
ghost use Rattle.mk_world.specs.declared.command.TaskLine.{TaskLine as Line};

use crate::course::Course;
use crate::job::{Job, add_job, line_at, next_ticket};
use crate::meta::finish_job;
use mk_bytes::NoMemory;
use mk_child::{Place, command, start_child};
use mk_decision::Maker;
use mk_trace::{Event, put};
use mk_world::{Kids, TaskLine, Time, World, WorldFault};

// An empty line begins and ends without a child.
fn pass_line(events: &mut Vec<Event>, place: Place) -> Result<(), NoMemory>
    ensures told { OnOk result (events.new.items ≡ events.old.items
        ++ event.Start place.node place.number ∷ event.End place.node place.number 0 ∷ []) }
    ensures untold { OnErr result (events.new.items ≡ events.old.items) }
{
    events.reserve(2)?;
    put(events, Event::Start(place.node, place.number));
    put(events, Event::End(place.node, place.number, 0));
    Ok(())
}

// Whether the line behind so many is there and is empty.
fn is_next_empty(lines: &[TaskLine], done: u32) -> bool
    requires { length lines.now < 2 ^ 32 }
    ensures empty { result ≡ true → (one : Line) × (done < length lines.now)
        × (line_of lines.now (done + 1) ≡ Some one) × (is_empty one.text ≡ true) }
    ensures child { result ≡ false → done < length lines.now
        → (one : Line) × HasLine lines.now (done + 1) one }
{
    match lines.get(done as usize) {
        Some(line) => line.text.is_empty(),
        None => false,
    }
}

// Passes over the empty lines behind so many, and gives how many lines have then ended.
fn pass_lines(
    events: &mut Vec<Event>,
    node: u32,
    lines: &[TaskLine],
    done: u32,
) -> Result<u32, NoMemory>
    requires few { length lines.now < 2 ^ 32 }
    requires within { done ≤ length lines.now }
    ensures within { IfOk result (λ passed. (done ≤ passed) × (passed ≤ length lines.now)) }
    ensures next { IfOk result (λ passed. passed < length lines.now
        → (one : Line) × HasLine lines.now (passed + 1) one) }
    ensures behind { IfOk result (λ passed. (scene : Scene) → IsOpenScene scene node
        → (collected : Kept) → BehindIn scene events.old.items node lines.now collected done
        → BehindIn scene events.new.items node lines.now collected passed) }
    ensures halted { OnErr result ((scene : Scene) → IsOpenScene scene node
        → (collected : Kept) → BehindIn scene events.old.items node lines.now collected done
        → HaltedIn scene events.new.items) }
{
    let mut passed = done;
    'lines: while is_next_empty(lines, passed) {
        passed += 1;
        let place = Place {
            node,
            number: passed,
        };
        pass_line(events, place)?;
    }
    Ok(passed)
}

// Starts the child of the line of a job under a ticket.
fn start_command<W: World>(
    maker: &Maker,
    world: &mut W,
    kids: &mut Kids<W::Kid>,
    events: &mut Vec<Event>,
    job: &Job,
    ticket: u32,
) -> Result<(), WorldFault>
    requires exact { W.runs world.old kids.old.tickets }
    requires room { length kids.old.tickets < kids.old.room }
    requires fresh { list_any (nat_eq ticket) kids.old.tickets ≡ false }
    requires line { (one : Line) × HasLine job.now.task.lines job.now.number one }
    ensures done { OnOk result ((one : Line) → line_of job.now.task.lines job.now.number ≡ Some one
        → Called W.meaning (W.history world.old) (W.history world.new)
        (StartItem job.now.node job.now.number ticket job.now.collected.owner
        (command_of (work_of maker.now) one))) }
    ensures refused { OnErr result
        (Called W.meaning (W.history world.old) (W.history world.new) NoItem) }
    ensures told { OnOk result
        (events.new.items ≡ events.old.items ++ event.Start job.now.node job.now.number ∷ []) }
    ensures untold { OnErr result (events.new.items ≡ events.old.items) }
    ensures held { OnOk result (kids.new.tickets ≡ kids.old.tickets ++ ticket ∷ []) }
    ensures same_room { kids.new.room ≡ kids.old.room }
    ensures cause { HasCause world_failed (W.faults world.old) (W.faults world.new) result }
    ensures children { W.runs world.new kids.new.tickets }
{
    let line = line_at(&job.task, job.number);
    let made = maker.made;
    let cmd = command(maker.alloc, line, made.scopes.cwd(), &made.mode.exports)?;
    let place = Place {
        node: job.node,
        number: job.number,
    };
    start_child(
        maker.alloc,
        world,
        kids,
        events,
        place,
        ticket,
        Time(job.collected.owner),
        &cmd,
    )
}

// Starts the child of the line of a job; its node has a token.
fn start_line<W: World>(
    maker: &Maker,
    world: &mut W,
    kids: &mut Kids<W::Kid>,
    course: &mut Course,
    job: Job,
) -> Result<(), WorldFault>
    requires exact { W.runs world.old kids.old.tickets }
    requires fits { Fits (work_of maker.now) course.old kids.old.tickets kids.old.room 1 }
    requires token { HasToken course.old.sched.nodes course.old.jobs.items job.node }
    requires line { (one : Line) × HasLine job.task.lines job.number one }
    ensures goes { OnOk result (FromAny
        (BehindOn W.meaning (work_of maker.now) (W.history world.old) course.old course.old.events.items
        job.node job.task.lines job.collected (job.number - 1))
        (GoingAt W.meaning (work_of maker.now) (W.history world.new) course.new)) }
    ensures halted { IfErr result (λ fault. FromAny
        (BehindOn W.meaning (work_of maker.now) (W.history world.old) course.old course.old.events.items
        job.node job.task.lines job.collected (job.number - 1))
        (HaltedAt W.meaning (work_of maker.now) (of_world fault) (W.history world.new) course.new.events.items)) }
    ensures fits { OnOk result (Fits (work_of maker.now) course.new kids.new.tickets kids.new.room 0) }
    ensures nodes { course.new.sched ≡ course.old.sched }
    ensures left { OnOk result (lines_left course.new.jobs.items
        ≡ lines_left course.old.jobs.items + (1 + length job.task.lines - job.number)) }
    ensures same_room { kids.new.room ≡ kids.old.room }
    ensures cause { HasCause world_failed (W.faults world.old) (W.faults world.new) result }
    ensures children { W.runs world.new kids.new.tickets }
{
    let ticket = next_ticket(kids, &mut course.last_ticket);
    if let Err(fault) = start_command(maker, world, kids, &mut course.events, &job, ticket) {
        drop(job);
        return Err(fault);
    }
    let mut started = job;
    started.ticket = ticket;
    add_job(&mut course.jobs, started)?;
    Ok(())
}

/// Goes on with a job whose lines have ended up to the one with its number: its next line that has
/// a child is started, or the job ends where there is none.
pub fn run_on<W: World>(
    maker: &Maker,
    world: &mut W,
    kids: &mut Kids<W::Kid>,
    course: &mut Course,
    job: Job,
) -> Result<(), WorldFault>
    requires exact { W.runs world.old kids.old.tickets }
    requires fits { Fits (work_of maker.now) course.old kids.old.tickets kids.old.room 1 }
    requires token { HasToken course.old.sched.nodes course.old.jobs.items job.node }
    requires going { IsUnstopped (work_of maker.now) course.old }
    requires within { job.number ≤ length job.task.lines }
    ensures goes { OnOk result (FromAny
        (BehindAt W.meaning (work_of maker.now) (W.history world.old) course.old course.old.events.items job)
        (GoingAt W.meaning (work_of maker.now) (W.history world.new) course.new)) }
    ensures halted { IfErr result (λ fault. FromAny
        (BehindAt W.meaning (work_of maker.now) (W.history world.old) course.old course.old.events.items job)
        (HaltedAt W.meaning (work_of maker.now) (of_world fault) (W.history world.new) course.new.events.items)) }
    ensures fits { OnOk result (Fits (work_of maker.now) course.new kids.new.tickets kids.new.room 0) }
    ensures nodes { OnOk result (undecided course.new.sched.nodes ≡ undecided course.old.sched.nodes) }
    ensures left { OnOk result (lines_left course.new.jobs.items
        ≤ lines_left course.old.jobs.items + (length job.task.lines - job.number)) }
    ensures same_room { kids.new.room ≡ kids.old.room }
    ensures cause { HasCause world_failed (W.faults world.old) (W.faults world.new) result }
    ensures children { W.runs world.new kids.new.tickets }
{
    let lines = job.task.lines.as_slice();
    let Ok(passed) = pass_lines(&mut course.events, job.node, lines, job.number) else {
        drop(job);
        return Err(WorldFault::NoMemory);
    };
    if passed as usize >= job.task.lines.len() {
        return finish_job(maker, world, course, job);
    }
    let mut next = job;
    next.number = passed + 1;
    start_line(maker, world, kids, course, next)
}
