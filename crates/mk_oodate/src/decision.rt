//! The test itself.
ghost use Rattle.std.specs.Prelude.{◌≡◌, ◌<◌, not, length, position, IfSome};
ghost use Rattle.std.specs.Option.{option_copied};
ghost use Rattle.mk_oodate.specs.Stale as spec;
ghost use Rattle.mk_world.specs.Looks.{is_missing};

use crate::reason::{Age, NodeMode, Times, Why};
use crate::same::is_same;
use mk_filemon::Recs;
use mk_meta::Meta;
use mk_world::{Task, Time, When};

/// Whether a source is newer than a target: it is new, or was changed strictly later. A time that
/// is not known is later than all.
pub fn is_newer(target: When, source: Age) -> bool
    ensures { result ≡ spec.is_newer target source }
{
    match (target, source) {
        (_, Age::New) => true,
        (When::At(target), Age::At(source)) => target.0 < source.0,
        _ => false,
    }
}

fn is_older(one: When, other: When) -> bool
    ensures { result ≡ spec.is_older one other }
{
    match (one, other) {
        (When::At(one), When::At(other)) => one.0 < other.0,
        (When::At(_), When::Unknown) => true,
        _ => false,
    }
}

fn is_changed(stamp: Time, when: When) -> bool
    ensures { result ≡ spec.is_changed stamp when }
{
    match when {
        When::Missing | When::Unknown => true,
        When::At(time) => stamp.0 <= time.0,
    }
}

fn first_newer(target: When, sources: &[Age]) -> Option<usize>
    ensures place { result ≡ position (spec.is_newer target) sources.now }
    ensures within { IfSome result (λ place. place < length sources.now) }
{
    sources.iter().position(|source| is_newer(target, *source))
}

fn first_changed(stamp: Time, reads: &[When]) -> Option<usize>
    ensures place { result ≡ position (spec.is_changed stamp) reads.now }
    ensures within { IfSome result (λ place. place < length reads.now) }
{
    reads.iter().position(|when| is_changed(stamp, *when))
}

fn first_there(misses: &[When]) -> Option<usize>
    ensures place { result ≡ position (λ when. not (is_missing when)) misses.now }
    ensures within { IfSome result (λ place. place < length misses.now) }
{
    misses.iter().position(|when| !when.is_missing())
}

fn first_missing(left: &[When]) -> Option<usize>
    ensures place { result ≡ position is_missing left.now }
    ensures within { IfSome result (λ place. place < length left.now) }
{
    left.iter().position(|when| when.is_missing())
}

// Parts 7 to 10.
fn by_records(mode: &NodeMode, times: &Times, stamp: Time, records: &Option<Recs>) -> Option<Why>
    ensures { result ≡ spec.by_records mode.now times.now stamp records.now }
{
    if records.is_none() {
        return mode.missing_filemon.then_some(Why::NoRecords);
    }
    if let Some(place) = first_changed(stamp, times.reads.as_slice()) {
        return Some(Why::Read(place as u32));
    }
    if let Some(place) = first_there(times.misses.as_slice()) {
        return Some(Why::Appeared(place as u32));
    }
    let place = first_missing(times.left.as_slice())?;
    Some(Why::Left(place as u32))
}

// Parts 5 to 10.
fn by_contents(task: &Task, mode: &NodeMode, times: &Times, meta: &Meta) -> Option<Why>
    ensures { result ≡ spec.by_contents task.now mode.now times.now meta.now }
{
    if !is_older(times.target, times.meta) {
        return Some(Why::Touched);
    }
    if !mode.ignore_cmd && !is_same(mode.count_only, task, meta) {
        return Some(Why::Command);
    }
    if mode.nofilemon {
        return None;
    }
    by_records(mode, times, meta.stamp, &meta.records)
}

// Parts 4 to 10.
fn by_meta(meta: Option<&Meta>, task: &Task, mode: &NodeMode, times: &Times) -> Option<Why>
    ensures { result ≡ spec.by_meta (option_copied meta.entry) task.now mode.now times.now }
{
    match meta {
        Some(meta) if meta.target.bytes() == task.target.bytes() => {
            by_contents(task, mode, times, meta)
        }
        _ => mode.missing_meta.then_some(Why::NoMeta),
    }
}

/// Why a target is out of date, by the value of its meta file, where there is one, its task, what
/// counts for it, and the times at the looks: the first of the ten reasons above that holds, and
/// `None` where none does. Takes no memory.
pub fn stale(meta: Option<&Meta>, task: &Task, mode: &NodeMode, times: &Times) -> Option<Why>
    ensures { result ≡ spec.stale (option_copied meta.entry) task.now mode.now times.now }
{
    if mode.always {
        return Some(Why::Always);
    }
    if times.target.is_missing() {
        return Some(Why::Missing);
    }
    if let Some(place) = first_newer(times.target, times.sources.as_slice()) {
        return Some(Why::Newer(place as u32));
    }
    if !mode.meta {
        return None;
    }
    by_meta(meta, task, mode, times)
}
