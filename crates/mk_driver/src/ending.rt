//! The ends of lines.
ghost use Rattle.std.specs.Prelude.{◌≡◌, ◌<◌, ◌≤◌, ◌+◌, ◌-◌, ◌&&◌, ◌||◌, ℕ, nat_le, not, length};
ghost use Rattle.std.specs.Prelude.{Option, List, Some, None, OnOk, IfOk, IfErr, true};
ghost use Rattle.mk_trace.specs.Builds.{Moment, is_removed};
ghost use Rattle.mk_child.specs.Halts.{of_world};
ghost use Rattle.mk_driver.specs.Jobs.{HasLine, HasToken, is_there, lines_left};
ghost use Rattle.mk_decision.specs.Makers.{work_of};
ghost use Rattle.mk_driver.specs.Progress.{EndingAt, Fits, FromAny, GoingAt, HaltedAt, undecided};
ghost use Rattle.mk_trace.specs.Runs as run;
ghost use Rattle.mk_child.specs.declared.halt.Halt.TheVariants as halts;
ghost use Rattle.mk_plan.specs.Deciding.{is_stopped};
ghost use Rattle.mk_sched.specs.Next.{next_of};
ghost use Rattle.mk_sched.specs.declared.sched.Next.TheVariants.{Wait as waits};
ghost use Rattle.mk_world.specs.Causes.{HasCause};
ghost use Rattle.mk_world.specs.declared.fault.WorldFault.TheVariants.{Failed as world_failed};
ghost use Rattle.mk_world.specs.declared.command.TaskLine.{TaskLine as Line};

use crate::collected::keep_end;
use crate::course::{Course, are_many, progress_of};
use crate::job::{Job, line_at, take_job};
use crate::line::run_on;
use crate::meta::finish_job;
use mk_child::{Halt, line_fails, note_failure, print_end, wait_child};
use mk_decision::Maker;
use mk_graph::Attr;
use mk_trace::{Event, Failure, put};
use mk_world::{Kids, Sink, World, WorldFault};

// Whether there was a failure, and the build stops at the first one.
fn is_stopped_by(maker: &Maker, failure: &Option<Failure>) -> bool
    ensures { result ≡ (not maker.now.flags.now.keep_going && is_there failure.now) }
{
    !maker.flags.keep_going && failure.is_some()
}

// Whether the line of a job is its last one.
fn is_last(job: &Job) -> bool
    ensures { result ≡ nat_le (length job.now.task.lines) job.now.number }
{
    job.number as usize >= job.task.lines.len()
}

// Whether the target of a node is removed where its job fails.
fn is_doomed(maker: &Maker, node: u32) -> bool
    requires { node < length maker.now.plan.now }
    ensures { result ≡ is_removed (work_of maker.now) node }
{
    maker.made.mode.delete_on_error
        && !maker.plan.has(node, Attr::Phony)
        && !maker.plan.has(node, Attr::Precious)
}

// A job whose line has failed is over, and its target is removed where the makefiles say so.
fn fail_job<W: World>(
    maker: &Maker,
    world: &mut W,
    course: &mut Course,
    job: &Job,
    status: u8,
) -> Result<(), WorldFault>
    requires token { HasToken course.old.sched.nodes course.old.jobs.items job.now.node }
    requires within { job.now.node < length maker.now.plan.now }
    requires failed { run.fails (run.line_of job.now.task.lines job.now.number) status ≡ true }
    ensures goes { OnOk result (FromAny
        (EndingAt W.meaning (work_of maker.now) (W.history world.old) course.old job.now status)
        (GoingAt W.meaning (work_of maker.now) (W.history world.new) course.new)) }
    ensures halted { IfErr result (λ fault. FromAny
        (EndingAt W.meaning (work_of maker.now) (W.history world.old) course.old job.now status)
        (HaltedAt W.meaning (work_of maker.now) (of_world fault) (W.history world.new) course.new.events.items)) }
    ensures fits { (tickets : List ℕ) (room : ℕ)
        → Fits (work_of maker.now) course.old tickets room 1
        → Fits (work_of maker.now) course.new tickets room 0 }
    ensures nodes { undecided course.new.sched.nodes ≡ undecided course.old.sched.nodes }
    ensures jobs { course.new.jobs.items ≡ course.old.jobs.items }
    ensures cause { HasCause world_failed (W.faults world.old) (W.faults world.new) result }
    ensures children { (kids : List ℕ) → W.runs world.old kids → W.runs world.new kids }
{
    course.sched.ended(job.node, false);
    let failure = Failure::JobFailed(job.node, job.number, status);
    note_failure(&mut course.failure, failure);
    if is_doomed(maker, job.node) {
        world.remove(maker.alloc, maker.plan.name(job.node))?;
    }
    Ok(())
}

// Goes on behind the end of a job's line, which was taken out.
fn end_line<W: World>(
    maker: &Maker,
    world: &mut W,
    kids: &mut Kids<W::Kid>,
    course: &mut Course,
    job: Job,
    status: u8,
) -> Result<(), WorldFault>
    requires exact { W.runs world.old kids.old.tickets }
    requires fits { Fits (work_of maker.now) course.old kids.old.tickets kids.old.room 1 }
    requires token { HasToken course.old.sched.nodes course.old.jobs.items job.node }
    requires line { (one : Line) × HasLine job.task.lines job.number one }
    ensures goes { OnOk result (FromAny
        (EndingAt W.meaning (work_of maker.now) (W.history world.old) course.old job status)
        (GoingAt W.meaning (work_of maker.now) (W.history world.new) course.new)) }
    ensures halted { IfErr result (λ fault. FromAny
        (EndingAt W.meaning (work_of maker.now) (W.history world.old) course.old job status)
        (HaltedAt W.meaning (work_of maker.now) (of_world fault) (W.history world.new) course.new.events.items)) }
    ensures fits { OnOk result (Fits (work_of maker.now) course.new kids.new.tickets kids.new.room 0) }
    ensures nodes { OnOk result (undecided course.new.sched.nodes ≡ undecided course.old.sched.nodes) }
    ensures left { OnOk result (lines_left course.new.jobs.items
        ≤ lines_left course.old.jobs.items + (length job.task.lines - job.number)) }
    ensures same_room { kids.new.room ≡ kids.old.room }
    ensures cause { HasCause world_failed (W.faults world.old) (W.faults world.new) result }
    ensures children { W.runs world.new kids.new.tickets }
{
    if line_fails(line_at(&job.task, job.number), status) {
        let failed = fail_job(maker, world, course, &job, status);
        drop(job);
        return failed;
    }
    if is_last(&job) {
        return finish_job(maker, world, course, job);
    }
    if is_stopped_by(maker, &course.failure) {
        course.sched.ended(job.node, true);
        drop(job);
        return Ok(());
    }
    run_on(maker, world, kids, course, job)
}

/// Takes in the next child that ends, prints what its line has to print, and goes on with its job.
pub fn take_in<W: World, S: Sink>(
    maker: &Maker,
    world: &mut W,
    out: &mut S,
    kids: &mut Kids<W::Kid>,
    course: &mut Course,
) -> Result<(), Halt>
    requires exact { W.runs world.old kids.old.tickets }
    requires fits { Fits (work_of maker.now) course.old kids.old.tickets kids.old.room 0 }
    requires wait { next_of course.old.sched ≡ waits }
    ensures goes { OnOk result ((first : Moment)
        → GoingAt W.meaning (work_of maker.now) (W.history world.old) course.old first (S.held out.old)
        → GoingAt W.meaning (work_of maker.now) (W.history world.new) course.new first
        (S.held out.new)) }
    ensures halted { IfErr result (λ halt. (first : Moment)
        → GoingAt W.meaning (work_of maker.now) (W.history world.old) course.old first (S.held out.old)
        → HaltedAt W.meaning (work_of maker.now) halt (W.history world.new) course.new.events.items first
        (S.held out.new)) }
    ensures fits { OnOk result (Fits (work_of maker.now) course.new kids.new.tickets kids.new.room 0) }
    ensures nodes { OnOk result (undecided course.new.sched.nodes ≡ undecided course.old.sched.nodes) }
    ensures left { OnOk result
        (lines_left course.new.jobs.items < lines_left course.old.jobs.items) }
    ensures same_room { kids.new.room ≡ kids.old.room }
    ensures world_cause { HasCause halts.World (W.faults world.old) (W.faults world.new) result }
    ensures sink_cause { HasCause halts.Sink (S.faults out.old) (S.faults out.new) result }
    ensures children { W.runs world.new kids.new.tickets }
{
    let progress = progress_of(maker, course);
    let ended = wait_child(maker.alloc, world, kids, &mut course.events, progress)?;
    let mut job = take_job(&mut course.jobs, ended.ticket.0);
    let status = ended.status;
    put(&mut course.events, Event::End(job.node, job.number, status));
    let shown = print_end(
        out,
        maker.plan,
        are_many(maker),
        &mut course.last_shown,
        job.node,
        line_at(&job.task, job.number),
        ended.output.bytes(),
    );
    if let Err(fault) = shown {
        drop(job);
        drop(ended);
        return Err(Halt::from(fault));
    }
    let Ok(()) = keep_end(maker.alloc, &mut job.collected, job.number, ended) else {
        drop(job);
        return Err(Halt::NoMemory);
    };
    end_line(maker, world, kids, course, job, status)?;
    Ok(())
}
