//! What is told of runs in a generated world.
ghost use Rattle.std.specs.Prelude.{◌≡◌, ◌++◌, ◌^◌, ◌<◌, length, decimal, IfOk, OnOk};
ghost use Rattle.mk_world.specs.History.{files_of};
ghost use Rattle.mk_generate.specs.Counts as spec;
ghost use Rattle.mk_generate.specs.Input.{line};

use crate::input::{name, push_all};
use itoa::Buffer;
use mk_bytes::{NoMemory, Text};
use mk_memworld::MemWorld;
use mk_run::{Event, PlanNames, Report};
use std::alloc::Global;

fn is_target(name: &[u8]) -> bool
    ensures { result ≡ spec.is_target name.now }
{
    match name {
        [] => false,
        [first, ..] => *first == b'o',
    }
}

// Whether the node at a place of the plan is a target.
fn is_target_at(plan: &PlanNames, n: u32) -> bool
    ensures { result ≡ spec.is_target_at plan.now n }
{
    is_target(plan.at(n))
}

fn starts(plan: &PlanNames, event: &Event) -> bool
    ensures { result ≡ spec.starts plan.now event.now }
{
    match event {
        Event::Start(n, number) => *number == 1 && is_target_at(plan, *n),
        _ => false,
    }
}

fn keeps(plan: &PlanNames, event: &Event) -> bool
    ensures { result ≡ spec.keeps plan.now event.now }
{
    match event {
        Event::Kept(n) => is_target_at(plan, *n),
        _ => false,
    }
}

// How many targets a run has started.
fn started(report: &Report) -> usize
    ensures { result ≡ spec.started report.now }
{
    let plan = &report.plan;
    report
        .events
        .as_slice()
        .iter()
        .filter(|event| starts(plan, *event))
        .count()
}

// How many targets a run has kept.
fn kept(report: &Report) -> usize
    ensures { result ≡ spec.kept report.now }
{
    let plan = &report.plan;
    report
        .events
        .as_slice()
        .iter()
        .filter(|event| keeps(plan, *event))
        .count()
}

// How many bytes a file has, or none where it is missing.
fn length_of(world: &MemWorld, path: &[u8]) -> usize
    ensures value { result ≡ length (spec.text_at (files_of world.now.chronicle) path.now) }
    ensures short { result < 2 ^ 32 }
{
    match world.file(path) {
        Some(text) => text.len(),
        None => 0,
    }
}

// How many bytes the files of all targets have.
fn bytes_of(alloc: Global, n: u32, world: &MemWorld) -> Result<u64, NoMemory>
    ensures { IfOk result (λ bytes. bytes ≡ spec.bytes_of n (files_of world.now.chronicle)) }
{
    let mut bytes = 0;
    for i in 0..n {
        let target = name(alloc, b"o", i)?;
        bytes += length_of(world, target.bytes()) as u64;
    }
    Ok(bytes)
}

fn push_number(text: &mut Text, title: &[u8], number: u64) -> Result<(), NoMemory>
    ensures { OnOk result (text.new ≡ text.old ++ line (title.now ++ decimal number)) }
{
    let mut numbers = Buffer::new();
    push_all(text, &[title, numbers.format(number).as_bytes(), b"\n"])
}

fn push_counts(text: &mut Text, title: &[u8], report: &Report) -> Result<(), NoMemory>
    ensures { OnOk result (text.new ≡ text.old ++ line (title.now ++ spec.counts_of report.now)) }
{
    let mut first = Buffer::new();
    let mut second = Buffer::new();
    let started = first.format(started(report)).as_bytes();
    let kept = second.format(kept(report)).as_bytes();
    push_all(text, &[title, started, b" started ", kept, b" kept\n"])
}

/// What is told of both runs, and of the files behind them.
pub fn told(
    alloc: Global,
    n: u32,
    first: &Report,
    second: &Report,
    world: &MemWorld,
) -> Result<Text, NoMemory>
    ensures { IfOk result (λ text. text
        ≡ spec.told n first.now second.now (files_of world.now.chronicle)) }
{
    let mut text = Text::new(alloc);
    push_number(&mut text, b"targets ", u64::from(n))?;
    push_counts(&mut text, b"first ", first)?;
    push_counts(&mut text, b"second ", second)?;
    push_number(&mut text, b"bytes ", bytes_of(alloc, n, world)?)?;
    Ok(text)
}
