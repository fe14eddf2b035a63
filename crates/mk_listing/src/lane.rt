//! Lanes in which no two jobs run at once.
ghost use Rattle.std.specs.Prelude.{◌≡◌, ◌≤◌, ◌<◌, [], true, length, IfOk, OnOk, IfSome};
ghost use Rattle.std.specs.Bool.{OnTrue};
ghost use Rattle.mk_listing.specs.Timelines as spec;

use crate::timeline::Job;
use mk_bytes::NoMemory;
use std::alloc::Global;

// Whether a lane is free at a time, by the times at which the lanes are.
fn is_free(ends: &[u64], lane: usize, start: u64) -> bool
    ensures { OnTrue result ((lane < length ends.now) × (spec.end_in ends.now lane ≤ start)) }
{
    lane < ends.len() && ends[lane] <= start
}

// The lane of the job that is over next, where it is free.
fn freed(over: Option<&(u64, usize)>, lanes: &[usize], ends: &[u64], start: u64) -> Option<usize>
    ensures { IfSome result (λ lane.
        (lane < length ends.now) × (spec.end_in ends.now lane ≤ start)) }
{
    let (_, place) = over?;
    if *place >= lanes.len() {
        return None;
    }
    let lane = lanes[*place];
    if is_free(ends, lane, start) {
        return Some(lane);
    }
    None
}

// A lane that is free: one of those so far, or a new one.
fn free_lane(freed: Option<usize>, ends: &[u64], start: u64) -> usize
    requires { IfSome freed (λ lane.
        (lane < length ends.now) × (spec.end_in ends.now lane ≤ start)) }
    ensures within { result ≤ length ends.now }
    ensures free { spec.end_in ends.now result ≤ start }
{
    match freed {
        Some(lane) => lane,
        None => ends.len(),
    }
}

// Notes when a lane is free again.
fn note(ends: &mut Vec<u64>, lane: usize, end: u64) -> Result<(), NoMemory>
    requires { lane ≤ length ends.old.items }
    ensures { OnOk result (ends.new.items ≡ spec.ended_in ends.old.items lane end) }
{
    if lane < ends.len() {
        ends[lane] = end;
        return Ok(());
    }
    ends.push(end)?;
    Ok(())
}

// The jobs by the times at which they are over, each with its place.
fn by_end(alloc: Global, jobs: &[Job]) -> Result<Vec<(u64, usize)>, NoMemory> {
    let mut order = Vec::new(alloc);
    for (place, job) in jobs.iter().enumerate() {
        order.push((job.end, place))?;
    }
    order.sort_unstable();
    Ok(order)
}

/// A lane for each job, such that none begins before the job before it in its lane is over. Where
/// the jobs stand in the order in which they began, there are about as many lanes as jobs ran at
/// once.
pub fn lanes(alloc: Global, jobs: &[Job]) -> Result<Vec<usize>, NoMemory>
    ensures { IfOk result (λ lanes. spec.are_apart [] jobs.now lanes.items ≡ true) }
{
    let order = by_end(alloc, jobs)?;
    let mut lanes = Vec::new(alloc);
    let mut ends = Vec::new(alloc);
    let mut over = 0;
    for job in jobs {
        let freed = freed(
            order.get(over),
            lanes.as_slice(),
            ends.as_slice(),
            job.start,
        );
        if freed.is_some() {
            over = over.saturating_add(1);
        }
        let lane = free_lane(freed, ends.as_slice(), job.start);
        note(&mut ends, lane, job.end)?;
        lanes.push(lane)?;
    }
    Ok(lanes)
}
