//! Calls of a world and writes to both sinks, by their kinds.
use crate::case::{Case, Item};
use crate::directive::Directive;
use crate::fault::Trouble;
use mk_bytes::{Items, NoMemory};
use mk_memworld::{CallKind, Fail, Fails, MemWorld};
use std::alloc::Global;

/// What is counted: calls of the world, or writes to one of the sinks.
#[derive(Clone, Copy)]
pub enum Counted {
    Call(CallKind),
    Out,
    Err,
}

/// All that is counted, by its names.
pub const KINDS: [(&str, Counted); 11] = [
    ("read", Counted::Call(CallKind::Read)),
    ("time", Counted::Call(CallKind::Time)),
    ("list", Counted::Call(CallKind::List)),
    ("stamp", Counted::Call(CallKind::Stamp)),
    ("put", Counted::Call(CallKind::Put)),
    ("remove", Counted::Call(CallKind::Remove)),
    ("ask", Counted::Call(CallKind::Ask)),
    ("start", Counted::Call(CallKind::Start)),
    ("wait", Counted::Call(CallKind::WaitAny)),
    ("out", Counted::Out),
    ("err", Counted::Err),
];

/// What a name counts.
pub fn kind_named(name: &str) -> Option<Counted> {
    for row in &KINDS {
        let (one, kind) = *row;
        if one == name {
            return Some(kind);
        }
    }
    None
}

// The call that fails where one of these does.
fn call_of(kind: Counted) -> CallKind {
    match kind {
        Counted::Call(call) => call,
        Counted::Out | Counted::Err => CallKind::Write,
    }
}

/// A call that fails: what it is counted with, which one of its kind it is, and how many bytes
/// stand behind it.
#[derive(Clone, Copy)]
pub struct Failing {
    pub kind: Counted,
    pub nth: u32,
    pub left: Option<usize>,
}

fn with_left(kind: Counted, nth: &str, left: &str) -> Option<Failing> {
    let nth = nth.parse::<u32>().ok()?;
    let left = Some(left.parse::<usize>().ok()?);
    Some(Failing { kind, nth, left })
}

fn without_left(kind: Counted, nth: &str) -> Option<Failing> {
    let nth = nth.parse::<u32>().ok()?;
    let left = None;
    Some(Failing { kind, nth, left })
}

fn with_numbers(kind: Counted, numbers: &str) -> Option<Failing> {
    match numbers.split_once(' ') {
        Some((nth, left)) => with_left(kind, nth, left),
        None => without_left(kind, numbers),
    }
}

fn named_failing(rest: &str) -> Option<Failing> {
    let (name, numbers) = rest.split_once(' ')?;
    with_numbers(kind_named(name)?, numbers)
}

/// Where calls fail: in the world, or in one of the sinks.
#[derive(Clone, Copy)]
pub enum Where {
    World,
    Out,
    Err,
}

fn is_there(kind: Counted, place: Where) -> bool {
    match place {
        Where::World => matches!(kind, Counted::Call(_)),
        Where::Out => matches!(kind, Counted::Out),
        Where::Err => matches!(kind, Counted::Err),
    }
}

// A call is added to those that fail, where it is one of this place.
fn push_fail(fails: &mut Fails, one: &Failing, place: Where) -> Result<(), NoMemory> {
    if !is_there(one.kind, place) {
        return Ok(());
    }
    fails.push(Fail {
        call: call_of(one.kind),
        nth: one.nth,
        left: one.left,
    })
}

fn push_named(fails: &mut Fails, item: &Item, place: Where) -> Result<(), Trouble> {
    match named_failing(item.rest) {
        Some(one) => Ok(push_fail(fails, &one, place)?),
        None => Err(Trouble::Bad(item.line)),
    }
}

fn push_fails(fails: &mut Fails, case: &Case, place: Where) -> Result<(), Trouble> {
    for item in case.setup.as_slice() {
        if item.directive == Directive::Fail {
            push_named(fails, item, place)?;
        }
    }
    Ok(())
}

/// The calls that fail there in a case.
pub fn fails_of(alloc: Global, case: &Case, place: Where) -> Result<Fails, Trouble> {
    let mut fails = Items::new(alloc, 0)?;
    push_fails(&mut fails, case, place)?;
    Ok(fails)
}

/// One call that fails, where it is one of this place.
pub fn one_fail(alloc: Global, one: &Failing, place: Where) -> Result<Fails, NoMemory> {
    let mut fails = Items::new(alloc, 1)?;
    push_fail(&mut fails, one, place)?;
    Ok(fails)
}

/// How many calls of each kind were made.
#[derive(Clone, Copy)]
pub struct Counts {
    read: u64,
    time: u64,
    list: u64,
    stamp: u64,
    put: u64,
    remove: u64,
    ask: u64,
    start: u64,
    wait_any: u64,
}

impl Counts {
    /// Those of a world so far.
    pub fn of(world: &MemWorld) -> Counts {
        Counts {
            read: world.calls(CallKind::Read),
            time: world.calls(CallKind::Time),
            list: world.calls(CallKind::List),
            stamp: world.calls(CallKind::Stamp),
            put: world.calls(CallKind::Put),
            remove: world.calls(CallKind::Remove),
            ask: world.calls(CallKind::Ask),
            start: world.calls(CallKind::Start),
            wait_any: world.calls(CallKind::WaitAny),
        }
    }

    /// Those of a kind.
    pub fn get(&self, kind: CallKind) -> u64 {
        match kind {
            CallKind::Read => self.read,
            CallKind::Time => self.time,
            CallKind::List => self.list,
            CallKind::Stamp => self.stamp,
            CallKind::Put => self.put,
            CallKind::Remove => self.remove,
            CallKind::Ask => self.ask,
            CallKind::Start => self.start,
            CallKind::WaitAny => self.wait_any,
            CallKind::Write => 0,
        }
    }
}
