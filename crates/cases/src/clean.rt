//! The clean build beside a run: of the sources as they stand, by one job, with nothing of earlier
//! builds.
use crate::before::{change_sources, is_left};
use crate::compare::Ran;
use crate::idle::IdleWorld;
use crate::setup::{plain_world, run_words, unrefused};
use crate::shown::end_text;
use mk_bytes::{Items, NoMemory, Text, Texts};
use mk_cases::case::{Case, Item, Job, find};
use mk_cases::directive::Directive;
use mk_cases::fault::Trouble;
use mk_cases::found::Found;
use mk_cases::words::words_of;
use std::alloc::Global;

// What builds leave is taken away.
fn take_away(case: &Case, world: &mut IdleWorld) -> Result<(), Trouble> {
    for item in case.setup.as_slice() {
        if item.directive == Directive::File && is_left(case, item.rest) {
            world.edit(item, None)?;
        }
    }
    Ok(())
}

// A world with the sources as they stand before a run.
fn clean_world(alloc: Global, job: &Job) -> Result<IdleWorld, Trouble> {
    let mut world = plain_world(alloc, job.case)?;
    let mut world = take_away(job.case, &mut world).and(Ok(world))?;
    change_sources(job.case, job.step.item.line, &mut world).and(Ok(world))
}

// The words without those that ask for several jobs.
fn one_job(alloc: Global, words: &Texts) -> Result<Texts, NoMemory> {
    let mut kept = Items::new(alloc, 0)?;
    let mut is_number = false;
    for word in words.as_slice() {
        let is_jobs = word.bytes() == b"-j".as_slice();
        if !is_jobs && !is_number {
            kept.push(Text::from_bytes(alloc, word.bytes())?)?;
        }
        is_number = is_jobs;
    }
    Ok(kept)
}

fn one_job_words(alloc: Global, item: &Item) -> Result<Texts, Trouble> {
    let words = words_of(alloc, item)?;
    Ok(one_job(alloc, &words)?)
}

// The clean build of the words of a run.
fn run_clean(alloc: Global, job: &Job, clean: &mut IdleWorld) -> Result<Ran, Trouble> {
    let words = one_job_words(alloc, &job.step.item)?;
    run_words(alloc, job.case, &words, unrefused(alloc)?, clean)
}

fn bytes_of<'w>(world: &'w IdleWorld, name: &[u8]) -> &'w [u8] {
    match world.file(name) {
        Some(bytes) => bytes,
        None => b"no file",
    }
}

fn compare_file(found: &mut Found, item: &Item, name: &[u8], world: &IdleWorld, clean: &IdleWorld) {
    if let Some(wanted) = clean.file(name) {
        found.compare(item.directive, item.line, wanted, bytes_of(world, name));
    }
}

// The made files of a line, of those that the clean build has made.
fn compare_files(found: &mut Found, item: &Item, world: &IdleWorld, clean: &IdleWorld) {
    for name in item.rest.split_whitespace() {
        compare_file(found, item, name.as_bytes(), world, clean);
    }
}

/// Compares the made files of a case in two worlds, of those that the second one has.
pub fn compare_made(found: &mut Found, case: &Case, world: &IdleWorld, clean: &IdleWorld) {
    for item in case.setup.as_slice() {
        if item.directive == Directive::Made {
            compare_files(found, item, world, clean);
        }
    }
}

// Compares how the clean build ends.
fn compare_clean_end(found: &mut Found, job: &Job, ran: &Ran) {
    let end = end_text(found.alloc(), &ran.report.end);
    found.compare_said(Directive::Made, job.step.item.line, b"Done", &end);
}

fn compare_build(found: &mut Found, job: &Job, world: &IdleWorld) -> Result<(), Trouble> {
    let mut clean = clean_world(found.alloc(), job)?;
    let ran = run_clean(found.alloc(), job, &mut clean);
    let told = match ran {
        Ok(ran) => {
            compare_clean_end(found, job, &ran);
            drop(ran);
            compare_made(found, job.case, world, &clean);
            Ok(())
        }
        Err(trouble) => Err(trouble),
    };
    drop(clean);
    told
}

/// Behind a run that has ended well, where the case names made files, each has the bytes that a
/// clean build gives it.
pub fn compare_clean(found: &mut Found, job: &Job, world: &IdleWorld) {
    if find(job.case.setup.as_slice(), Directive::Made).is_none() {
        return;
    }
    if let Err(trouble) = compare_build(found, job, world) {
        found.refuse(trouble);
    }
}
