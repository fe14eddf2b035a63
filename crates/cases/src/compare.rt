//! What a run did, and what is wanted of it.
use crate::idle::IdleWorld;
use crate::shown::{end_text, events_text, plan_text};
use itoa::Buffer;
use mk_cases::case::{Item, Step, find};
use mk_cases::directive::Directive;
use mk_cases::fault::Trouble;
use mk_cases::found::Found;
use mk_cases::kinds::{Counted, Counts, kind_named};
use mk_memworld::{CallKind, MemSink};
use mk_top::Report;

/// Standard output and standard error of a run.
#[derive(Drop)]
pub struct Sinks {
    pub out: MemSink,
    pub err: MemSink,
}

/// What a run came to.
#[derive(Drop)]
pub struct Ran {
    pub report: Report,
    pub sinks: Sinks,
    /// The calls of the world before it and after it.
    pub before: Counts,
    pub after: Counts,
}

// Compares a number.
fn compare_number(found: &mut Found, item: &Item, wanted: &[u8], got: u64) {
    let mut buffer = Buffer::new();
    let got = buffer.format(got).as_bytes();
    found.compare(item.directive, item.line, wanted, got);
}

// The status of a run is that of its end.
fn compare_own_status(found: &mut Found, step: &Step, report: &Report) {
    let mut buffer = Buffer::new();
    let wanted = buffer.format(report.end.status()).as_bytes();
    compare_number(found, &step.item, wanted, u64::from(report.status));
}

fn compare_status(found: &mut Found, step: &Step, report: &Report) {
    match find(step.wants.as_slice(), Directive::Status) {
        Some(item) => compare_number(found, item, item.rest.as_bytes(), u64::from(report.status)),
        None => compare_own_status(found, step, report),
    }
}

// A line and the end that it wants.
fn wanted_end<'t>(step: &Step<'t>) -> (u32, &'t str) {
    match find(step.wants.as_slice(), Directive::End) {
        Some(item) => (item.line, item.rest),
        None => (step.item.line, "Done"),
    }
}

fn compare_end(found: &mut Found, step: &Step, report: &Report) {
    let (line, wanted) = wanted_end(step);
    let got = end_text(found.alloc(), &report.end);
    found.compare_said(Directive::End, line, wanted.as_bytes(), &got);
}

fn compare_sink(found: &mut Found, step: &Step, what: Directive, sink: &MemSink) {
    match find(step.wants.as_slice(), what) {
        Some(item) => found.compare(what, item.line, item.body.as_slice(), sink.bytes()),
        None => found.compare(what, step.item.line, b"", sink.bytes()),
    }
}

fn compare_after(found: &mut Found, item: &Item, world: &IdleWorld) {
    match world.file(item.rest.as_bytes()) {
        Some(got) => found.compare(item.directive, item.line, item.body.as_slice(), got),
        None => found.compare(item.directive, item.line, b"a file", b"no file"),
    }
}

fn compare_missing(found: &mut Found, item: &Item, world: &IdleWorld) {
    if world.file(item.rest.as_bytes()).is_some() {
        found.compare(item.directive, item.line, b"no file", b"a file");
    }
}

/// How many calls of a kind a run made.
pub fn made(ran: &Ran, kind: Counted) -> u64 {
    match kind {
        Counted::Call(call) => ran.after.get(call).saturating_sub(ran.before.get(call)),
        Counted::Out => ran.sinks.out.calls(CallKind::Write),
        Counted::Err => ran.sinks.err.calls(CallKind::Write),
    }
}

fn compare_count(found: &mut Found, item: &Item, name: &str, wanted: &str, ran: &Ran) {
    match kind_named(name) {
        Some(kind) => compare_number(found, item, wanted.as_bytes(), made(ran, kind)),
        None => found.refuse(Trouble::Bad(item.line)),
    }
}

fn compare_calls(found: &mut Found, item: &Item, ran: &Ran) {
    match item.rest.split_once(' ') {
        Some((name, wanted)) => compare_count(found, item, name, wanted, ran),
        None => found.refuse(Trouble::Bad(item.line)),
    }
}

fn compare_plan(found: &mut Found, item: &Item, report: &Report) {
    let got = plan_text(found.alloc(), &report.plan);
    found.compare_said(item.directive, item.line, item.rest.as_bytes(), &got);
}

fn compare_events(found: &mut Found, item: &Item, report: &Report) {
    let got = events_text(found.alloc(), &report.plan, report.events.as_slice());
    found.compare_said(item.directive, item.line, item.body.as_slice(), &got);
}

// Compares what a run leaves, whatever its schedule is.
fn compare_left(found: &mut Found, step: &Step, world: &IdleWorld) {
    for item in step.wants.as_slice() {
        match item.directive {
            Directive::After => compare_after(found, item, world),
            Directive::Missing => compare_missing(found, item, world),
            _ => {}
        }
    }
}

// Compares what is named of what a run did.
fn compare_done(found: &mut Found, step: &Step, ran: &Ran) {
    for item in step.wants.as_slice() {
        match item.directive {
            Directive::Plan => compare_plan(found, item, &ran.report),
            Directive::Events => compare_events(found, item, &ran.report),
            Directive::Calls => compare_calls(found, item, ran),
            _ => {}
        }
    }
}

// Compares what a run did under the schedule of its case.
fn compare_whole(found: &mut Found, step: &Step, ran: &Ran) {
    compare_end(found, step, &ran.report);
    compare_sink(found, step, Directive::Out, &ran.sinks.out);
    compare_sink(found, step, Directive::Err, &ran.sinks.err);
    compare_done(found, step, ran);
}

/// Compares a run with all that is wanted of it; of a run under a generated schedule its status and
/// the files afterwards.
pub fn compare(found: &mut Found, step: &Step, ran: &Ran, world: &IdleWorld) {
    compare_status(found, step, &ran.report);
    compare_left(found, step, world);
    if found.turn().seed == 0 {
        compare_whole(found, step, ran);
    }
}
