//! Each call of a run refused in turn: the run ends as that call has it, and the next one makes all
//! that is to be made.
use crate::before::change_files;
use crate::clean::compare_made;
use crate::compare::{Ran, Sinks, made};
use crate::idle::IdleWorld;
use crate::running::run_step;
use crate::setup::{Course, sinks_with, unrefused, world_with};
use crate::shown::say_end;
use mk_bytes::NoMemory;
use mk_cases::case::{Case, Job, find};
use mk_cases::directive::Directive;
use mk_cases::fault::Trouble;
use mk_cases::found::Found;
use mk_cases::given::schedule_of;
use mk_cases::kinds::{Counted, Failing, KINDS, Where, one_fail};
use mk_cases::said::Said;
use mk_memworld::CallKind;
use mk_top::End;
use std::alloc::Global;

// How many bytes stand behind a refused write: as the call has it, none, some of the head of a meta
// file and of its text, and all of them.
const LEFT: [Option<usize>; 6] = [None, Some(0), Some(1), Some(20), Some(60), Some(1_048_576)];

// A call that is refused, and the name of its kind.
#[derive(Clone, Copy)]
struct Refusal {
    name: &'static str,
    call: Failing,
}

// No call is the one at place 0.
const NONE: Failing = Failing {
    kind: Counted::Out,
    nth: 0,
    left: None,
};

// A run, and the world behind it.
#[derive(Drop)]
struct Behind {
    ran: Ran,
    world: IdleWorld,
}

// A run whose calls are refused, and what it comes to without that.
#[derive(Clone, Copy)]
struct Trial<'i, 't> {
    job: &'i Job<'i, 't>,
    model: &'i Behind,
}

// A world before a run, in which a call is refused.
fn world_before(alloc: Global, job: &Job, call: &Failing) -> Result<IdleWorld, Trouble> {
    let schedule = schedule_of(alloc, job.case)?;
    let fails = one_fail(alloc, call, Where::World)?;
    let mut world = world_with(alloc, job.case, Course { schedule, fails })?;
    change_files(job.case, job.step.item.line, &mut world).and(Ok(world))
}

fn sinks_at(alloc: Global, call: &Failing) -> Result<Sinks, NoMemory> {
    let out = one_fail(alloc, call, Where::Out)?;
    let err = one_fail(alloc, call, Where::Err)?;
    sinks_with(alloc, out, err)
}

// A run in a world, of which a call is refused where it is one of the sinks'.
fn run_at(alloc: Global, job: &Job, call: &Failing, world: &mut IdleWorld) -> Result<Ran, Trouble> {
    let sinks = sinks_at(alloc, call)?;
    run_step(alloc, job, sinks, world)
}

// A run in which a call is refused, in a world of its own.
fn run_with(alloc: Global, job: &Job, call: &Failing) -> Result<Behind, Trouble> {
    let mut world = world_before(alloc, job, call)?;
    match run_at(alloc, job, call, &mut world) {
        Ok(ran) => Ok(Behind { ran, world }),
        Err(trouble) => {
            drop(world);
            Err(trouble)
        }
    }
}

// The beginning of what is said of a refused call: which one it is.
fn beginning(alloc: Global, one: &Refusal) -> Said {
    let mut said = Said::new(alloc);
    said.push(one.name.as_bytes());
    said.push(b" ");
    said.push_number(u64::from(one.call.nth));
    if let Some(left) = one.call.left {
        said.push(b" ");
        said.push_number(left as u64);
    }
    said.push(b": ");
    said
}

fn said_of(alloc: Global, one: &Refusal, text: &[u8]) -> Said {
    let mut said = beginning(alloc, one);
    said.push(text);
    said
}

fn said_end(alloc: Global, one: &Refusal, end: &End) -> Said {
    let mut said = beginning(alloc, one);
    say_end(&mut said, end);
    said
}

// A run ends as without the refused call.
fn compare_ends(found: &mut Found, trial: &Trial, one: &Refusal, got: &End) {
    let wanted = said_end(found.alloc(), one, &trial.model.ran.report.end);
    let got = said_end(found.alloc(), one, got);
    found.compare_both(Directive::Refused, trial.job.step.item.line, &wanted, &got);
}

// The run in which the call is refused ends with a fault of the outside, or as without it.
fn compare_refused(found: &mut Found, trial: &Trial, one: &Refusal, got: &End) {
    if !matches!(got, End::WorldFault | End::SinkFault) {
        compare_ends(found, trial, one, got);
    }
}

fn compare_texts(found: &mut Found, trial: &Trial, one: &Refusal, wanted: &[u8], got: &[u8]) {
    let wanted = said_of(found.alloc(), one, wanted);
    let got = said_of(found.alloc(), one, got);
    found.compare_both(Directive::Refused, trial.job.step.item.line, &wanted, &got);
}

// It has printed what is printed first without it.
fn compare_printed(found: &mut Found, trial: &Trial, one: &Refusal, ran: &Ran) {
    let wanted = trial.model.ran.sinks.out.bytes();
    let got = ran.sinks.out.bytes();
    if !wanted.starts_with(got) {
        compare_texts(found, trial, one, wanted, got);
    }
}

fn compare_first(found: &mut Found, trial: &Trial, one: &Refusal, ran: &Ran) {
    found.turn_to(1, 0);
    compare_refused(found, trial, one, &ran.report.end);
    compare_printed(found, trial, one, ran);
}

fn run_unrefused(alloc: Global, job: &Job, world: &mut IdleWorld) -> Result<Ran, Trouble> {
    let sinks = unrefused(alloc)?;
    run_step(alloc, job, sinks, world)
}

// The same words are run again, and end as where nothing is refused; they make all that is made
// there.
fn compare_again(found: &mut Found, trial: &Trial, one: &Refusal, again: &Ran, world: &IdleWorld) {
    compare_ends(found, trial, one, &again.report.end);
    found.turn_to(2, 0);
    compare_made(found, trial.job.case, world, &trial.model.world);
}

// The same words are run again in the world behind a run.
fn try_again(
    found: &mut Found,
    trial: &Trial,
    one: &Refusal,
    world: IdleWorld,
) -> Result<(), Trouble> {
    let mut world = world;
    match run_unrefused(found.alloc(), trial.job, &mut world) {
        Ok(again) => {
            compare_again(found, trial, one, &again, &world);
            drop(again);
            drop(world);
            Ok(())
        }
        Err(trouble) => {
            drop(world);
            Err(trouble)
        }
    }
}

fn try_call(found: &mut Found, trial: &Trial, one: &Refusal) -> Result<(), Trouble> {
    let Behind { ran, world } = run_with(found.alloc(), trial.job, &one.call)?;
    compare_first(found, trial, one, &ran);
    drop(ran);
    try_again(found, trial, one, world)
}

// A call is refused.
fn refuse(found: &mut Found, trial: &Trial, one: &Refusal) {
    if found.is_over() {
        return;
    }
    if let Err(trouble) = try_call(found, trial, one) {
        found.refuse(trouble);
    }
}

// Whether such a refused call may leave bytes.
fn leaves_bytes(kind: Counted) -> bool {
    matches!(kind, Counted::Call(CallKind::Stamp | CallKind::Put))
}

// A call is refused with each number of bytes that it may leave.
fn refuse_call(found: &mut Found, trial: &Trial, name: &'static str, kind: Counted, nth: u32) {
    for left in &LEFT {
        let left = *left;
        if left.is_none() || leaves_bytes(kind) {
            let call = Failing { kind, nth, left };
            refuse(found, trial, &Refusal { name, call });
        }
    }
}

// How many calls of a kind a run made, as far as they can be named.
fn count_of(ran: &Ran, kind: Counted) -> u32 {
    u32::try_from(made(ran, kind)).unwrap_or(u32::MAX)
}

// Calls of a kind are refused, one after the other.
fn refuse_kind(found: &mut Found, trial: &Trial, name: &'static str, kind: Counted) {
    for nth in 0..count_of(&trial.model.ran, kind) {
        refuse_call(found, trial, name, kind, nth.saturating_add(1));
    }
}

fn refuse_kinds(found: &mut Found, trial: &Trial) {
    for row in &KINDS {
        let (name, kind) = *row;
        refuse_kind(found, trial, name, kind);
    }
}

fn refuse_run(found: &mut Found, job: &Job) {
    match run_with(found.alloc(), job, &NONE) {
        Ok(model) => {
            refuse_kinds(found, &Trial { job, model: &model });
            drop(model);
        }
        Err(trouble) => found.refuse(trouble),
    }
}

fn refuse_first(found: &mut Found, case: &Case) {
    for step in case.steps.as_slice() {
        if step.is_run() {
            refuse_run(found, &Job { case, step });
            return;
        }
    }
}

/// Where a case asks for it, each call of its first run is refused in turn.
pub fn refuse_all(found: &mut Found, case: &Case) {
    if find(case.setup.as_slice(), Directive::Refused).is_some() {
        refuse_first(found, case);
    }
}
