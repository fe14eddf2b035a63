//! Meta files: a job in meta mode begins with the head of one, and where it has ended well the
//! whole file is written (make(1), "META MODE").
ghost use Rattle.std.specs.Prelude.{◌≡◌, ◌<◌, ◌^◌, ℕ, List, None, length, map, true, if◌then◌else◌};
ghost use Rattle.std.specs.Prelude.{IfOk, IfErr, OnOk, OnErr};
ghost use Rattle.mk_decision.specs.Makers.{work_of};
ghost use Rattle.mk_child.specs.Halts.{of_world};
ghost use Rattle.mk_driver.specs.Jobs.{HasToken};
ghost use Rattle.mk_driver.specs.Metas as metas;
ghost use Rattle.mk_driver.specs.Metas.{HasClosed, HasOpened, IsUnclosed, IsUnopened, WholeWritten};
ghost use Rattle.mk_driver.specs.Metas.{WritesHead, WritesPartOfHead, WritesPartOfWhole};
ghost use Rattle.mk_driver.specs.Metas.{WritesWhole};
ghost use Rattle.mk_driver.specs.Progress.{Fits, FromAny, GoingAt, HaltedAt, OverAt, undecided};
ghost use Rattle.mk_export.specs.Lists.{AreExports};
ghost use Rattle.mk_meta.specs.Jobs as jobs;
ghost use Rattle.mk_trace.specs.Collected as spec;
ghost use Rattle.mk_trace.specs.Collected.{IsCountable, has_meta};
ghost use Rattle.mk_world.specs.Causes.{HasCause};
ghost use Rattle.mk_world.specs.declared.fault.WorldFault.TheVariants.{Failed as world_failed};

use crate::course::Course;
use crate::job::Job;
use mk_bytes::{Items, NoMemory, Text};
use mk_decision::{Maker, raise};
use mk_filemon::Recs;
use mk_meta::{Meta, head, meta_path, write_meta};
use mk_plan::is_meta;
use mk_trace::Collected;
use mk_world::{Lines, TaskLine, Time, World, WorldFault};
use std::alloc::Global;

// Writes the head of the meta file of a node, later than the newest time: its time is the start
// stamp of the job.
fn open_head<W: World>(
    maker: &Maker,
    world: &mut W,
    newest: &mut Time,
    node: u32,
) -> Result<Collected, WorldFault>
    requires within { node < length maker.now.plan.now }
    ensures written { IfOk result (λ collected. WritesHead W.meaning (work_of maker.now)
        (W.history world.old) (W.history world.new) node newest.old.0 collected) }
    ensures refused { OnErr result (WritesPartOfHead W.meaning (work_of maker.now)
        (W.history world.old) (W.history world.new) node) }
    ensures cause { HasCause world_failed (W.faults world.old) (W.faults world.new) result }
    ensures children { (kids : List ℕ) → W.runs world.old kids → W.runs world.new kids }
{
    let output = Text::new(maker.alloc);
    let records = Items::new(maker.alloc, 0)?;
    let target = maker.plan.name(node);
    let path = meta_path(maker.alloc, target)?;
    let first = head(maker.alloc, target)?;
    let time = world.stamp(maker.alloc, path.bytes(), first.bytes(), *newest)?;
    *newest = time;
    Ok(Collected {
        owner: time.0,
        output,
        records: Some(records),
    })
}

/// Opens the job of a node that is to be made. In meta mode it begins with the head of the meta
/// file.
pub fn open_job<W: World>(
    maker: &Maker,
    world: &mut W,
    newest: &mut Time,
    node: u32,
) -> Result<Collected, WorldFault>
    requires within { node < length maker.now.plan.now }
    ensures opened { IfOk result (λ collected. HasOpened W.meaning (work_of maker.now)
        (W.history world.old) (W.history world.new) node newest.old.0 collected) }
    ensures refused { OnErr result (IsUnopened W.meaning (work_of maker.now)
        (W.history world.old) (W.history world.new) node) }
    ensures cause { HasCause world_failed (W.faults world.old) (W.faults world.new) result }
    ensures children { (kids : List ℕ) → W.runs world.old kids → W.runs world.new kids }
{
    if is_meta(maker.plan, &maker.made.mode, node) {
        return open_head(maker, world, newest, node);
    }
    Ok(Collected {
        owner: 0,
        output: Text::new(maker.alloc),
        records: None,
    })
}

// The lines of a task, as a meta file keeps them.
fn kept_lines(alloc: Global, lines: &[TaskLine]) -> Result<Lines, NoMemory>
    ensures { IfOk result (λ kept. kept ≡ map jobs.kept_line lines.now) }
{
    let mut kept = Items::new(alloc, lines.len())?;
    for line in lines {
        kept.push(TaskLine {
            text: line.text.copy(alloc)?,
            ignore: line.ignore,
            silent: false,
            always: false,
            compared: false,
        })?;
    }
    Ok(kept)
}

// What the meta file of a job tells, without what its lines printed and recorded.
fn frame_of(maker: &Maker, job: &Job) -> Result<Meta, NoMemory>
    requires within { job.now.node < length maker.now.plan.now }
    ensures { IfOk result (λ meta. meta ≡ metas.frame_of (work_of maker.now) job.now) }
{
    Ok(Meta {
        stamp: Time(job.collected.owner),
        exports: maker.made.mode.exports.share()?,
        lines: kept_lines(maker.alloc, job.task.lines.as_slice())?,
        cwd: Text::from_bytes(maker.alloc, maker.made.scopes.cwd())?,
        target: Text::from_bytes(maker.alloc, maker.plan.name(job.node))?,
        output: Text::new(maker.alloc),
        records: None,
    })
}

// The records of a job, where records count.
fn counted(maker: &Maker, records: Option<Recs>) -> Option<Recs>
    ensures { result ≡ (if (work_of maker.now).mode.nofilemon then None else records) }
{
    if maker.made.mode.nofilemon {
        return None;
    }
    records
}

// What the meta file of a job tells.
fn meta_of(maker: &Maker, job: Job) -> Result<Meta, NoMemory>
    requires within { job.node < length maker.now.plan.now }
    ensures { IfOk result (λ meta. meta
        ≡ spec.meta_of (work_of maker.now) job.node job.task.lines job.collected) }
{
    let frame = frame_of(maker, &job);
    let Job {
        collected,
        task,
        ..
    } = job;
    drop(task);
    let mut meta = frame?;
    meta.output = collected.output;
    meta.records = counted(maker, collected.records);
    Ok(meta)
}

// The text of the meta file of a job.
fn whole_text(maker: &Maker, job: Job) -> Result<Text, NoMemory>
    requires within { job.node < length maker.now.plan.now }
    ensures { IfOk result (λ text. text ≡ metas.text_of (work_of maker.now) job) }
{
    let meta = meta_of(maker, job)?;
    let text = write_meta(maker.alloc, &meta);
    drop(meta);
    text
}

// Writes the whole meta file of a job, later than the newest time.
fn write_whole<W: World>(
    maker: &Maker,
    world: &mut W,
    newest: &mut Time,
    job: Job,
) -> Result<(), WorldFault>
    requires within { job.node < length maker.now.plan.now }
    ensures written { OnOk result (WritesWhole W.meaning (work_of maker.now)
        (W.history world.old) (W.history world.new) job newest.old.0) }
    ensures refused { OnErr result (WritesPartOfWhole W.meaning (work_of maker.now)
        (W.history world.old) (W.history world.new) job) }
    ensures countable { IsCountable job.collected }
    ensures few { length job.task.lines < 2 ^ 32 }
    ensures exports { AreExports (work_of maker.now).mode.exports }
    ensures cause { HasCause world_failed (W.faults world.old) (W.faults world.new) result }
    ensures children { (kids : List ℕ) → W.runs world.old kids → W.runs world.new kids }
{
    let _printed = job.collected.output.len();
    let _lines = job.task.lines.len();
    let _exports = maker.made.mode.exports.as_slice();
    let node = job.node;
    let text = whole_text(maker, job)?;
    let path = meta_path(maker.alloc, maker.plan.name(node))?;
    let time = world.put(maker.alloc, path.bytes(), text.bytes(), *newest)?;
    *newest = time;
    Ok(())
}

// Closes a job in meta mode whose lines have ended well: the target's time is asked, and the whole
// meta file is written.
fn close_meta<W: World>(
    maker: &Maker,
    world: &mut W,
    newest: &mut Time,
    job: Job,
) -> Result<(), WorldFault>
    requires within { job.node < length maker.now.plan.now }
    requires in_meta { has_meta (work_of maker.now) job.node ≡ true }
    ensures written { OnOk result (WholeWritten W.meaning (work_of maker.now)
        (W.history world.old) (W.history world.new) job) }
    ensures refused { OnErr result (IsUnclosed W.meaning (work_of maker.now)
        (W.history world.old) (W.history world.new) job) }
    ensures cause { HasCause world_failed (W.faults world.old) (W.faults world.new) result }
    ensures children { (kids : List ℕ) → W.runs world.old kids → W.runs world.new kids }
{
    match world.time(maker.alloc, maker.plan.name(job.node)) {
        Ok(when) => {
            raise(newest, when);
            write_whole(maker, world, newest, job)
        }
        Err(fault) => {
            drop(job);
            Err(fault)
        }
    }
}

// Closes a job whose lines have ended well.
fn close_job<W: World>(
    maker: &Maker,
    world: &mut W,
    newest: &mut Time,
    job: Job,
) -> Result<(), WorldFault>
    requires within { job.node < length maker.now.plan.now }
    ensures closed { OnOk result (HasClosed W.meaning (work_of maker.now)
        (W.history world.old) (W.history world.new) job) }
    ensures refused { OnErr result (IsUnclosed W.meaning (work_of maker.now)
        (W.history world.old) (W.history world.new) job) }
    ensures cause { HasCause world_failed (W.faults world.old) (W.faults world.new) result }
    ensures children { (kids : List ℕ) → W.runs world.old kids → W.runs world.new kids }
{
    if is_meta(maker.plan, &maker.made.mode, job.node) {
        return close_meta(maker, world, newest, job);
    }
    drop(job);
    Ok(())
}

/// The lines of a job have ended well: it gives its token back, and in meta mode its meta file is
/// written.
pub fn finish_job<W: World>(
    maker: &Maker,
    world: &mut W,
    course: &mut Course,
    job: Job,
) -> Result<(), WorldFault>
    requires token { HasToken course.old.sched.nodes course.old.jobs.items job.node }
    requires within { job.node < length maker.now.plan.now }
    ensures goes { OnOk result (FromAny
        (OverAt W.meaning (work_of maker.now) (W.history world.old) course.old job)
        (GoingAt W.meaning (work_of maker.now) (W.history world.new) course.new)) }
    ensures halted { IfErr result (λ fault. FromAny
        (OverAt W.meaning (work_of maker.now) (W.history world.old) course.old job)
        (HaltedAt W.meaning (work_of maker.now) (of_world fault) (W.history world.new) course.new.events.items)) }
    ensures fits { (tickets : List ℕ) (room : ℕ)
        → Fits (work_of maker.now) course.old tickets room 1
        → Fits (work_of maker.now) course.new tickets room 0 }
    ensures nodes { undecided course.new.sched.nodes ≡ undecided course.old.sched.nodes }
    ensures jobs { course.new.jobs.items ≡ course.old.jobs.items }
    ensures cause { HasCause world_failed (W.faults world.old) (W.faults world.new) result }
    ensures children { (kids : List ℕ) → W.runs world.old kids → W.runs world.new kids }
{
    course.sched.ended(job.node, true);
    close_job(maker, world, &mut course.newest, job)
}
