//! Runs in a generated world.
ghost use Rattle.std.specs.Prelude.{◌≡◌, ◌⊎◌, [], IfOk, IfErr, OnOk};
ghost use Rattle.mk_world.specs.History.{state_of, tickets_of};
ghost use Rattle.mk_generate.specs.Inside as spec;
ghost use Rattle.mk_modes.specs.declared.report.End.TheVariants.{Done as done};
ghost use Rattle.mk_modes.specs.declared.report.End.TheVariants.{NoMemory as no_memory};

use crate::input::files;
use mk_bytes::{Items, NoMemory, Text, Texts};
use mk_cli::Order;
use mk_flags::Flags;
use mk_memworld::{MemSink, MemWorld};
use mk_run::{End, Report, run_order};
use mk_scopes::Env;
use mk_world::WorldFault;
use std::alloc::Global;

// What a run inside is asked.
#[derive(Drop)]
struct Request {
    words: Texts,
    order: Order,
    env: Env,
}

/// What two runs have left that have made all.
#[derive(Drop)]
pub struct Twice {
    pub first: Report,
    pub second: Report,
    pub world: MemWorld,
}

fn words(alloc: Global) -> Result<Texts, NoMemory>
    ensures { IfOk result (λ words. words ≡ spec.words) }
{
    let mut words = Items::new(alloc, 4)?;
    words.push(Text::from_bytes(alloc, b"-s")?)?;
    words.push(Text::from_bytes(alloc, b"-j")?)?;
    words.push(Text::from_bytes(alloc, b"4")?)?;
    words.push(Text::from_bytes(alloc, b"all")?)?;
    Ok(words)
}

fn flags(alloc: Global) -> Result<Flags, NoMemory>
    ensures { IfOk result (λ flags. flags ≡ spec.order.flags) }
{
    let mut requested = Items::new(alloc, 1)?;
    requested.push(Text::from_bytes(alloc, b"all")?)?;
    Ok(Flags {
        jobs: 4,
        keep_going: false,
        ignore: false,
        silent: true,
        dry: false,
        query: false,
        progress: false,
        requested,
    })
}

// What the words of a run inside ask for.
fn order(alloc: Global) -> Result<Order, NoMemory>
    ensures { IfOk result (λ order. order ≡ spec.order) }
{
    Ok(Order {
        files: Items::new(alloc, 0)?,
        near: Items::new(alloc, 0)?,
        system: Items::new(alloc, 0)?,
        sets: Items::new(alloc, 0)?,
        prints: Items::new(alloc, 0)?,
        env_first: false,
        audit: false,
        explain: false,
        generate: None,
        flags: flags(alloc)?,
    })
}

fn directory(alloc: Global) -> Result<Text, NoMemory>
    ensures { IfOk result (λ cwd. cwd ≡ spec.env.cwd) }
{
    Text::from_bytes(alloc, b"/w")
}

fn new_request(alloc: Global) -> Result<Request, NoMemory>
    ensures { IfOk result (λ request. request ≡ spec.request) }
{
    let env = Env {
        vars: Items::new(alloc, 0)?,
        cwd: directory(alloc)?,
        program: Text::from_bytes(alloc, b"bmake")?,
    };
    Ok(Request {
        words: words(alloc)?,
        order: order(alloc)?,
        env,
    })
}

// A world with the generated files.
fn new_world(alloc: Global, n: u32) -> Result<MemWorld, NoMemory>
    ensures new { IfOk result (spec.IsNew n) }
    ensures idle { IfOk result (λ world. tickets_of (state_of world.chronicle).children ≡ []) }
{
    let cwd = directory(alloc)?;
    let schedule = Items::new(alloc, 0)?;
    let fails = Items::new(alloc, 0)?;
    MemWorld::new(alloc, cwd, files(alloc, n)?, schedule, fails)
}

// Runs what is asked in a generated world, with sinks of its own.
fn run_inside(alloc: Global, request: &Request, world: &mut MemWorld) -> Result<Report, NoMemory>
    requires asked { request.now ≡ spec.request }
    requires idle { tickets_of (state_of world.old.chronicle).children ≡ [] }
    ensures runs { IfOk result (spec.RunsInside world.old world.new) }
    ensures idle { tickets_of (state_of world.new.chronicle).children ≡ [] }
{
    let mut out = MemSink::new(alloc, Items::new(alloc, 0)?)?;
    let mut err = MemSink::new(alloc, Items::new(alloc, 0)?)?;
    Ok(run_order(
        alloc,
        &request.words,
        &request.order,
        &request.env,
        world,
        &mut out,
        &mut err,
    ))
}

// The report of a run that has made all; else its end.
fn made(report: Report) -> Result<Report, End>
    ensures made { IfOk result (λ made. (made ≡ report) × (report.end ≡ done)) }
    ensures unmade { IfErr result (λ end. (end ≡ report.end) × (report.end ≡ done → ⊥)) }
{
    if matches!(&report.end, End::Done) {
        return Ok(report);
    }
    Err(report.end)
}

// A run inside that has made all; else its end.
fn make_all(alloc: Global, request: &Request, world: &mut MemWorld) -> Result<Report, End>
    requires asked { request.now ≡ spec.request }
    requires idle { tickets_of (state_of world.old.chronicle).children ≡ [] }
    ensures made { IfOk result (λ report. spec.RunsInside world.old world.new report
        × (report.end ≡ done)) }
    ensures stops { IfErr result (spec.Stops world.old world.new) }
    ensures idle { tickets_of (state_of world.new.chronicle).children ≡ [] }
{
    match run_inside(alloc, request, world) {
        Ok(report) => made(report),
        Err(NoMemory) => Err(End::NoMemory),
    }
}

// Changes the first source.
fn change(world: &mut MemWorld) -> Result<(), End>
    requires idle { tickets_of (state_of world.old.chronicle).children ≡ [] }
    ensures edited { OnOk result (spec.IsEdited world.old world.new) }
    ensures late { IfErr result (λ end. (end ≡ no_memory) ⊎ spec.IsLate world.old end) }
    ensures idle { tickets_of (state_of world.new.chronicle).children ≡ [] }
{
    match world.edit(b"s0", Some(b"new\n")) {
        Ok(()) => Ok(()),
        Err(WorldFault::Failed) => Err(End::WorldFault),
        Err(WorldFault::NoMemory) => Err(End::NoMemory),
    }
}

// Runs twice in a generated world, and changes a source in between.
fn run_in(alloc: Global, n: u32, request: &Request, world: MemWorld) -> Result<Twice, End>
    requires asked { request.now ≡ spec.request }
    requires new { spec.IsNew n world }
    requires idle { tickets_of (state_of world.chronicle).children ≡ [] }
    ensures made { IfOk result (λ twice. spec.BothMade n twice.world twice.first twice.second) }
    ensures ended { IfErr result (spec.EndsInside n) }
{
    let mut world = world;
    let first = match make_all(alloc, request, &mut world) {
        Ok(first) => first,
        Err(end) => {
            drop(world);
            return Err(end);
        }
    };
    match change(&mut world) {
        Ok(()) => {}
        Err(end) => {
            drop(first);
            drop(world);
            return Err(end);
        }
    }
    match make_all(alloc, request, &mut world) {
        Ok(second) => Ok(Twice {
            first,
            second,
            world,
        }),
        Err(end) => {
            drop(first);
            drop(world);
            Err(end)
        }
    }
}

/// Generates a world, and runs twice in it, with a changed source in between.
pub fn run_twice(alloc: Global, n: u32) -> Result<Twice, End>
    ensures made { IfOk result (λ twice. spec.BothMade n twice.world twice.first twice.second) }
    ensures ended { IfErr result (spec.EndsInside n) }
{
    let Ok(request) = new_request(alloc) else {
        return Err(End::NoMemory);
    };
    let Ok(world) = new_world(alloc, n) else {
        drop(request);
        return Err(End::NoMemory);
    };
    let twice = run_in(alloc, n, &request, world);
    drop(request);
    twice
}
