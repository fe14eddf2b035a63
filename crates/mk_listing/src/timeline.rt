//! When jobs ran.
ghost use Rattle.std.specs.Prelude.{◌≡◌, ◌++◌, IfOk, OnOk};
ghost use Rattle.mk_listing.specs.Timelines as spec;

use crate::text::{array_of, push_json};
use mk_bytes::{Items, NoMemory, Text, Texts};
use mk_filemon::push_decimal;
use std::alloc::Global;

/// A job, with the times at which it began and was over, in nanoseconds.
#[derive(Drop)]
pub struct Job {
    pub target: Text,
    pub start: u64,
    pub end: u64,
}

fn micros(time: u64) -> u64
    ensures { result ≡ spec.micros time }
{
    time / 1000
}

fn push_times(out: &mut Text, job: &Job) -> Result<(), NoMemory>
    ensures { OnOk result (out.new ≡ out.old ++ spec.times job.now) }
{
    out.push(b",\"ts\":")?;
    push_decimal(out, micros(job.start))?;
    out.push(b",\"dur\":")?;
    push_decimal(out, micros(job.end).saturating_sub(micros(job.start)))
}

fn event(alloc: Global, job: &Job, lane: usize) -> Result<Text, NoMemory>
    ensures { IfOk result (λ text. text ≡ spec.event job.now lane) }
{
    let mut text = Text::from_bytes(alloc, b"{\"name\":")?;
    push_json(&mut text, job.target.bytes())?;
    text.push(b",\"ph\":\"X\"")?;
    push_times(&mut text, job)?;
    text.push(b",\"pid\":1,\"tid\":")?;
    push_decimal(&mut text, lane as u64)?;
    text.push(b"}")?;
    Ok(text)
}

fn push_events(
    alloc: Global,
    events: &mut Texts,
    jobs: &[Job],
    lanes: &[usize],
) -> Result<(), NoMemory>
    ensures { OnOk result (events.new ≡ events.old ++ spec.events jobs.now lanes.now) }
{
    let mut rest = lanes;
    for job in jobs {
        let Some((lane, more)) = rest.split_first() else {
            return Ok(());
        };
        events.push(event(alloc, job, *lane)?)?;
        rest = more;
    }
    Ok(())
}

/// A trace in the event format of Chrome: a complete event for each job, in its lane.
pub fn trace(alloc: Global, jobs: &[Job], lanes: &[usize]) -> Result<Text, NoMemory>
    ensures { IfOk result (λ text. text ≡ spec.trace jobs.now lanes.now) }
{
    let mut events = Items::new(alloc, 0)?;
    push_events(alloc, &mut events, jobs, lanes)?;
    array_of(alloc, events.as_slice())
}
