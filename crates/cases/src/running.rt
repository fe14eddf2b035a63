//! The steps of a case, one behind the other.
use crate::clean::compare_clean;
use crate::compare::{Ran, Sinks, compare};
use crate::idle::IdleWorld;
use crate::refused::refuse_all;
use crate::setup::{run_words, sinks_of, world_of};
use mk_cases::case::{Case, Job, Step};
use mk_cases::directive::Directive;
use mk_cases::fault::Trouble;
use mk_cases::found::Found;
use mk_cases::given::{generated, schedule_of, schedules_of};
use mk_cases::words::words_of;
use mk_memworld::Turns;
use mk_top::End;
use std::alloc::Global;

/// The run of a step with these sinks.
pub fn run_step(
    alloc: Global,
    job: &Job,
    sinks: Sinks,
    world: &mut IdleWorld,
) -> Result<Ran, Trouble> {
    match words_of(alloc, &job.step.item) {
        Ok(words) => run_words(alloc, job.case, &words, sinks, world),
        Err(trouble) => {
            drop(sinks);
            Err(trouble)
        }
    }
}

// A run with the sinks of its case.
fn run_once(alloc: Global, job: &Job, world: &mut IdleWorld) -> Result<Ran, Trouble> {
    let sinks = sinks_of(alloc, job.case)?;
    run_step(alloc, job, sinks, world)
}

// A run; one that memory ran out in is run again.
fn run_well(alloc: Global, job: &Job, world: &mut IdleWorld) -> Result<Ran, Trouble> {
    let ran = run_once(alloc, job, world)?;
    if !matches!(&ran.report.end, End::NoMemory) {
        return Ok(ran);
    }
    drop(ran);
    run_once(alloc, job, world)
}

// What differs in a run.
fn compare_run(found: &mut Found, job: &Job, ran: &Ran, world: &IdleWorld) {
    compare(found, job.step, ran, world);
    if matches!(&ran.report.end, End::Done) {
        compare_clean(found, job, world);
    }
}

// A run, and what differs.
fn take_run(found: &mut Found, job: &Job, world: &mut IdleWorld) {
    match run_well(found.alloc(), job, world) {
        Ok(ran) => {
            compare_run(found, job, &ran, world);
            drop(ran);
        }
        Err(trouble) => found.refuse(trouble),
    }
}

/// A file is changed from outside.
pub fn edit(step: &Step, world: &mut IdleWorld) -> Result<(), Trouble> {
    let bytes = match step.item.directive {
        Directive::Edit => Some(step.item.body.as_slice()),
        _ => None,
    };
    world.edit(&step.item, bytes)
}

fn take_edit(found: &mut Found, step: &Step, world: &mut IdleWorld) {
    if let Err(trouble) = edit(step, world) {
        found.refuse(trouble);
    }
}

// All steps in one world.
fn take_steps(found: &mut Found, case: &Case, seed: u32, world: &mut IdleWorld) {
    let mut run: u32 = 0;
    for step in case.steps.as_slice() {
        if step.is_run() {
            run = run.saturating_add(1);
            found.turn_to(run, seed);
            take_run(found, &Job { case, step }, world);
        } else {
            take_edit(found, step, world);
        }
    }
}

fn run_under(found: &mut Found, case: &Case, seed: u32, schedule: Turns) {
    match world_of(found.alloc(), case, schedule) {
        Ok(world) => {
            let mut world = world;
            take_steps(found, case, seed, &mut world);
            drop(world);
        }
        Err(trouble) => found.refuse(trouble),
    }
}

fn run_seed(found: &mut Found, case: &Case, seed: u32) {
    match generated(found.alloc(), seed) {
        Ok(schedule) => run_under(found, case, seed, schedule),
        Err(_) => found.refuse(Trouble::NoMemory),
    }
}

fn run_seeds(found: &mut Found, case: &Case, count: u32) {
    for seed in 0..count {
        if !found.is_over() {
            run_seed(found, case, seed.saturating_add(1));
        }
    }
}

// Runs a case under the generated schedules that it asks for.
fn run_generated(found: &mut Found, case: &Case) {
    match schedules_of(case) {
        Ok(count) => run_seeds(found, case, count),
        Err(trouble) => found.refuse(trouble),
    }
}

// Runs a case under its own schedule.
fn run_own(found: &mut Found, case: &Case) {
    match schedule_of(found.alloc(), case) {
        Ok(schedule) => run_under(found, case, 0, schedule),
        Err(trouble) => found.refuse(trouble),
    }
}

/// Runs a case under its own schedule, then with each call refused where it asks for that, and then
/// under the generated schedules that it asks for.
pub fn run_case(found: &mut Found, case: &Case) {
    if !case.has_run() {
        found.refuse(Trouble::Bad(case.head.line));
        return;
    }
    run_own(found, case);
    refuse_all(found, case);
    run_generated(found, case);
}
