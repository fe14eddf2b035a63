//! How make waits for children. While it waits it reads what they print, and it is woken by that,
//! or by the end of an output; a shell that ended, and left its output to a process in the
//! background, is asked for after pauses that grow with the time that it took.
ghost use Rattle.std.specs.Prelude.{◌≡◌, ◌<◌, [], ◌∷◌, length, slice_get, Some, IfOk, IfSome};

use crate::child::{RealKid, Told};
use crate::progress::StatusLine;
use crate::refusal::{Reason, Refusal};
use crate::shell::Streams;
use crate::system::System;
use libc::net;
use libc::types::pollfd;
use mk_world::{Cmd, Ended, Kids, Progress, Ticket};
use std::fs::{File, Files};
use std::process::{OpenProcess, Processes};
use std::thread;
use std::time::{Clock, Duration};

// The first pause and the longest, in microseconds. Each is a quarter longer than the one before.
const FIRST_PAUSE: u64 = 10;

const LONGEST_PAUSE: u64 = 200_000;

// The shortest time that the system can be asked to wait for output, in microseconds.
const TICK: u64 = 1_000;

/// A child that has ended: its place, its exit status and what is told of it.
#[derive(Drop)]
pub struct Over {
    pub place: usize,
    pub status: u8,
    pub told: Told,
}

// The place and the exit status of a child that has ended.
#[derive(Clone, Copy)]
struct Found {
    place: usize,
    status: u8,
}

// What make heard of its children while it waited.
#[derive(Clone, Copy, PartialEq, Eq)]
enum News {
    // Nothing, for the whole pause.
    Nothing,
    // One has printed something.
    Output,
    // The output of one has ended, so that it is about to end.
    End,
}

fn longer(pause: u64) -> u64 {
    pause
        .saturating_add(pause / 4)
        .saturating_add(1)
        .min(LONGEST_PAUSE)
}

fn add_poll(polls: &mut Vec<pollfd>, fd: i32) -> Result<(), Refusal> {
    let asked = pollfd {
        fd,
        events: net::POLLIN,
        revents: 0,
    };
    match polls.push(asked) {
        Ok(()) => Ok(()),
        Err(_) => Err(Refusal::NoMemory),
    }
}

// Writes down the pipe of each child, in order, and tells whether one of them has ended.
#[tactic(auto, using(crate::proofs::KidLemmas::with_kid_unchanged))]
fn list_outputs<P: OpenProcess + Drop>(
    polls: &mut Vec<pollfd>,
    kids: &mut Kids<RealKid<P>>,
) -> Result<bool, Refusal>
    ensures { kids.new ≡ kids.old }
{
    polls.clear();
    let mut is_one_over = false;
    for place in 0..kids.len() {
        let fd = kids.kid(place).output_number();
        is_one_over = is_one_over || fd < 0;
        add_poll(polls, fd)?;
    }
    Ok(is_one_over)
}

// Takes in what the children have printed for whose pipes the system has news.
#[tactic(auto, using(crate::proofs::KidLemmas::with_kid_unchanged))]
fn drain_ready<R, P: OpenProcess + Drop>(
    system: &mut System<R>,
    kids: &mut Kids<RealKid<P>>,
) -> Result<News, Refusal>
    ensures { kids.new ≡ kids.old }
{
    let mut news = News::Output;
    for place in 0..kids.len() {
        if is_ready(system.polls.as_slice(), place) && drain_kid(system, kids, place)? {
            news = News::End;
        }
    }
    Ok(news)
}

fn is_ready(polls: &[pollfd], place: usize) -> bool {
    match polls.get(place) {
        Some(poll) => poll.revents != 0,
        None => false,
    }
}

// Takes in what a child has printed, and tells whether its output has ended.
#[tactic(auto, using(crate::proofs::KidLemmas::with_kid_unchanged))]
fn drain_kid<R, P: OpenProcess + Drop>(
    system: &mut System<R>,
    kids: &mut Kids<RealKid<P>>,
    place: usize,
) -> Result<bool, Refusal>
    requires { place < length kids.old.tickets }
    ensures { kids.new ≡ kids.old }
{
    let kid = kids.kid(place);
    kid.drain(system.buffer.as_mut_slice())?;
    Ok(kid.output_number() < 0)
}

// Waits for what children print, for so many microseconds at most, and takes it in.
fn listen<R: Clock, P: OpenProcess + Drop>(
    system: &mut System<R>,
    kids: &mut Kids<RealKid<P>>,
    is_one_over: bool,
    pause: u64,
) -> Result<News, Refusal>
    ensures { kids.new ≡ kids.old }
{
    let ticks = if is_one_over { 0 } else { pause / TICK };
    let timeout = i32::try_from(ticks).unwrap_or(i32::MAX);
    if net::poll(system.polls.as_mut_slice(), timeout) > 0 {
        return drain_ready(system, kids);
    }
    if is_one_over {
        thread::sleep(&system.rt, Duration::from_micros(pause));
    }
    Ok(News::Nothing)
}

// The oldest child that has ended, where there is one. Those whose output has ended are asked once,
// and where that is wanted, all.
#[tactic(auto, using(crate::proofs::KidLemmas::with_kid_unchanged))]
fn oldest_ended<P: OpenProcess + Drop>(
    kids: &mut Kids<RealKid<P>>,
    asks_all: bool,
) -> Result<Option<Found>, Refusal>
    ensures same { kids.new ≡ kids.old }
    ensures place { IfOk result (λ found. IfSome found (λ one. one.place < length kids.old.tickets)) }
{
    for place in 0..kids.len() {
        if asks_all || kids.kid(place).output_number() < 0 {
            if let Some(status) = kids.kid(place).ended()? {
                return Ok(Some(Found { place, status }));
            }
        }
    }
    Ok(None)
}

// The only child, when it has ended, where its output has.
#[tactic(auto, using(crate::proofs::KidLemmas::with_kid_unchanged))]
fn only_ended<P: OpenProcess + Drop>(kids: &mut Kids<RealKid<P>>) -> Result<Option<Found>, Refusal>
    requires { 0 < length kids.old.tickets }
    ensures same { kids.new ≡ kids.old }
    ensures place { IfOk result (λ found. IfSome found (λ one. one.place < length kids.old.tickets)) }
{
    if kids.len() > 1 || kids.kid(0).output_number() >= 0 {
        return Ok(None);
    }
    let status = kids.kid(0).wait()?;
    Ok(Some(Found { place: 0, status }))
}

// A child that has ended, where there is one.
fn some_ended<P: OpenProcess + Drop>(
    kids: &mut Kids<RealKid<P>>,
    asks_all: bool,
) -> Result<Option<Found>, Refusal>
    requires { 0 < length kids.old.tickets }
    ensures same { kids.new ≡ kids.old }
    ensures place { IfOk result (λ found. IfSome found (λ one. one.place < length kids.old.tickets)) }
{
    if let Some(found) = only_ended(kids)? {
        return Ok(Some(found));
    }
    oldest_ended(kids, asks_all)
}

// Waits until a child has ended. Meanwhile the line may come.
fn next_ended<R: Clock, P: OpenProcess + Drop>(
    system: &mut System<R>,
    kids: &mut Kids<RealKid<P>>,
    line: &mut StatusLine,
) -> Result<Found, Refusal>
    requires { 0 < length kids.old.tickets }
    ensures same { kids.new ≡ kids.old }
    ensures place { IfOk result (λ found. found.place < length kids.old.tickets) }
{
    let mut pause = FIRST_PAUSE;
    let mut asks_all = false;
    for _ in 0..u64::MAX {
        if let Some(found) = some_ended(kids, asks_all)? {
            return Ok(found);
        }
        system.late.drain(system.buffer.as_mut_slice());
        let is_one_over = list_outputs(&mut system.polls, kids)?;
        if !is_one_over {
            pause = pause.max(TICK);
        }
        let news = listen(system, kids, is_one_over, pause)?;
        line.show(&system.rt, system.named.stderr());
        asks_all = news == News::Nothing;
        pause = match news {
            News::Nothing => longer(pause),
            News::Output => pause,
            News::End => FIRST_PAUSE,
        };
    }
    Err(Refusal::Outside(Reason::Other))
}

/// Waits until a child has ended, and takes in what it printed and its log. It stays among the
/// children. Where a progress is given, a terminal shows it while the wait is long, and no longer.
#[tactic(auto, using(crate::proofs::KidLemmas::with_kid_unchanged))]
pub fn wait_over<R: Files<File = File> + Clock + AllocGlobal, P: OpenProcess + Drop>(
    system: &mut System<R>,
    kids: &mut Kids<RealKid<P>>,
    progress: Option<Progress>,
) -> Result<Over, Refusal>
    requires { 0 < length kids.old.tickets }
    ensures same { kids.new ≡ kids.old }
    ensures place { IfOk result (λ over. over.place < length kids.old.tickets) }
    ensures told { IfOk result (λ over. Some over.told.ticket ≡ slice_get kids.old.kids over.place) }
{
    let mut line = StatusLine::new(&system.rt, system.rt.alloc(), progress, kids.len());
    let found = next_ended(system, kids, &mut line);
    line.erase(system.named.stderr());
    let found = found?;
    let told = kids.kid(found.place).told(system)?;
    Ok(Over {
        place: found.place,
        status: found.status,
        told,
    })
}

// Takes in the only child, or gives it up where that is refused.
fn take_only<R: Files<File = File> + Clock + AllocGlobal, P: OpenProcess + Drop>(
    system: &mut System<R>,
    mut kids: Kids<RealKid<P>>,
) -> Result<Ended, Refusal>
    requires { kids.tickets ≡ 0 ∷ [] }
    ensures { IfOk result (λ ended. ended.ticket.0 ≡ 0) }
{
    let over = wait_over(system, &mut kids, None);
    let (_, kid) = kids.take(0);
    kids.finish();
    match over {
        Ok(over) => {
            drop(kid);
            Ok(Ended {
                ticket: Ticket(0),
                status: over.status,
                output: over.told.output,
                records: over.told.records,
            })
        }
        Err(refusal) => {
            kid.give_up(&system.rt);
            system.times.end_child();
            Err(refusal)
        }
    }
}

/// Runs a command to its end. Standard error is that of make. Where it cannot be taken in, its
/// shell is ended.
pub fn run<R: Processes + Files<File = File> + Clock + AllocGlobal + Clone + Drop>(
    system: &mut System<R>,
    cmd: &Cmd,
) -> Result<Ended, Refusal>
    ensures { IfOk result (λ ended. ended.ticket.0 ≡ 0) }
{
    let mut kids = Kids::new(system.rt.alloc(), 1)?;
    match RealKid::start(system, Streams::OutputAlone, Ticket(0), cmd) {
        Ok(kid) => {
            kids.add(Ticket(0), kid);
            take_only(system, kids)
        }
        Err(refusal) => {
            kids.finish();
            Err(refusal)
        }
    }
}
