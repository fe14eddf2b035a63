//! One child: its line is started, it is waited for, and its end is printed.
ghost use Rattle.std.specs.Prelude.{◌≡◌, ◌⊎◌, ◌+◌, ◌≤◌, ◌<◌, ℕ, [], ◌∷◌, ◌++◌, Option, Some, false};
ghost use Rattle.std.specs.Prelude.{length, nat_eq, IsTrue, IfOk, OnOk, OnErr, vec_capacity};
ghost use Rattle.std.specs.Prelude.{vec_len};
ghost use Rattle.std.specs.List.{list_any};
ghost use Rattle.mk_bytes.specs.Paths.{is_clean_directory};
ghost use Rattle.mk_trace.specs.Calls.{Called, NoItem, StartItem, EndItem};
ghost use Rattle.mk_trace.specs.Output as spec;
ghost use Rattle.mk_trace.specs.Runs.{fails, is_empty};
ghost use Rattle.mk_trace.specs.declared.event.Event.TheVariants as event;
ghost use Rattle.mk_world.specs.Calls.{TakenOut};
ghost use Rattle.mk_world.specs.Causes.{HasCause};
ghost use Rattle.mk_world.specs.Sinks.{Gains, GainsPart};
ghost use Rattle.mk_world.specs.declared.fault.SinkFault.TheVariants.{Failed as sink_failed};
ghost use Rattle.mk_world.specs.declared.fault.WorldFault.TheVariants.{Failed as world_failed};

use crate::joined::write_joined;
use mk_bytes::{NoMemory, Text};
use mk_export::Exported;
use mk_plan::Plan;
use mk_trace::{Event, put};
use mk_world::{
    Cmd, Ended, Kids, Progress, Sink, SinkFault, TaskLine, Ticket, Time, World, WorldFault,
};
use std::alloc::Global;

/// The line of a node that a child is started for: the node's place in the plan, and the line's
/// number, counted from 1.
#[derive(Clone, Copy)]
pub struct Place {
    pub node: u32,
    pub number: u32,
}

/// The command of a line, with these variables in its environment.
pub fn command(
    alloc: Global,
    line: &TaskLine,
    cwd: &[u8],
    exports: &Exported,
) -> Result<Cmd, NoMemory>
    ensures { IfOk result
        (λ cmd. cmd ≡ record { text = line.now.text; cwd = cwd.now; exports = exports.now }) }
{
    Ok(Cmd {
        text: line.text.copy(alloc)?,
        cwd: Text::from_bytes(alloc, cwd)?,
        exports: exports.share()?,
    })
}

// Makes room for so many events more.
fn make_room(events: &mut Vec<Event>, count: usize) -> Result<(), NoMemory>
    ensures same { events.new.items ≡ events.old.items }
    ensures room { OnOk result (vec_len events.new + count ≤ vec_capacity events.new) }
{
    events.reserve(count)?;
    Ok(())
}

/// Starts the child of a line, for the start stamp of its job, and tells of it.
pub fn start_child<W: World>(
    alloc: Global,
    world: &mut W,
    kids: &mut Kids<W::Kid>,
    events: &mut Vec<Event>,
    place: Place,
    ticket: u32,
    owner: Time,
    cmd: &Cmd,
) -> Result<(), WorldFault>
    requires exact { W.runs world.old kids.old.tickets }
    requires room { length kids.old.tickets < kids.old.room }
    requires fresh { list_any (nat_eq ticket) kids.old.tickets ≡ false }
    requires directory { IsTrue (is_clean_directory cmd.now.cwd) }
    ensures done { OnOk result (Called W.meaning (W.history world.old) (W.history world.new)
        (StartItem place.node place.number ticket owner.0 cmd.now)) }
    ensures refused { OnErr result
        (Called W.meaning (W.history world.old) (W.history world.new) NoItem) }
    ensures told { OnOk result
        (events.new.items ≡ events.old.items ++ event.Start place.node place.number ∷ []) }
    ensures untold { OnErr result (events.new.items ≡ events.old.items) }
    ensures held { OnOk result (kids.new.tickets ≡ kids.old.tickets ++ ticket ∷ []) }
    ensures same { OnErr result (kids.new ≡ kids.old) }
    ensures same_room { kids.new.room ≡ kids.old.room }
    ensures cause { HasCause world_failed (W.faults world.old) (W.faults world.new) result }
    ensures children { W.runs world.new kids.new.tickets }
{
    make_room(events, 1)?;
    world.start(alloc, kids, Ticket(ticket), owner, cmd)?;
    put(events, Event::Start(place.node, place.number));
    Ok(())
}

/// Waits for a child and takes it in, while the progress may be shown. Tells of the wait, and
/// leaves room to tell of the child's end.
pub fn wait_child<W: World>(
    alloc: Global,
    world: &mut W,
    kids: &mut Kids<W::Kid>,
    events: &mut Vec<Event>,
    progress: Option<Progress>,
) -> Result<Ended, WorldFault>
    requires exact { W.runs world.old kids.old.tickets }
    requires some { 0 < length kids.old.tickets }
    ensures done { IfOk result (λ ended. (node number : ℕ) → Called W.meaning (W.history world.old)
        (W.history world.new) (EndItem node number ended)) }
    ensures refused { OnErr result
        (Called W.meaning (W.history world.old) (W.history world.new) NoItem) }
    ensures told { OnOk result (events.new.items ≡ events.old.items ++ event.Wait ∷ []) }
    ensures untold { OnErr result
        ((events.new.items ≡ events.old.items) ⊎ (events.new.items ≡ events.old.items ++ event.Wait ∷ [])) }
    ensures room { OnOk result (vec_len events.new < vec_capacity events.new) }
    ensures taken { IfOk result
        (λ ended. TakenOut ended.ticket.0 kids.old.tickets kids.new.tickets) }
    ensures same { OnErr result (kids.new ≡ kids.old) }
    ensures same_room { kids.new.room ≡ kids.old.room }
    ensures cause { HasCause world_failed (W.faults world.old) (W.faults world.new) result }
    ensures children { W.runs world.new kids.new.tickets }
{
    make_room(events, 2)?;
    put(events, Event::Wait);
    let ended = world.wait_any(alloc, kids, progress)?;
    Ok(ended)
}

/// Whether a line with this status has failed: a line that is ignored does not.
pub fn line_fails(line: &TaskLine, status: u8) -> bool
    ensures { result ≡ fails (Some line.now) status }
{
    status != 0 && !line.ignore
}

// Whether a node's piece was the last.
fn is_last(node: u32, last: Option<u32>) -> bool
    ensures { result ≡ spec.is_last node last }
{
    match last {
        None => false,
        Some(last) => node == last,
    }
}

// Writes the marker in front of a piece, where it has one.
fn print_marker<S: Sink>(
    out: &mut S,
    plan: &Plan,
    many: bool,
    last: Option<u32>,
    node: u32,
) -> Result<(), SinkFault>
    requires { node < length plan.now }
    ensures done { OnOk result
        (Gains (S.held out.old) (S.held out.new) (spec.marker plan.now many last node)) }
    ensures cut { OnErr result
        (GainsPart (S.held out.old) (S.held out.new) (spec.marker plan.now many last node)) }
    ensures cause { HasCause sink_failed (S.faults out.old) (S.faults out.new) result }
{
    if !many || is_last(node, last) {
        return Ok(());
    }
    write_joined(out, &[b"--- ", plan.name(node), b" ---\n"])
}

// Writes the text of a line unless it is silent, and its child's output.
fn print_piece<S: Sink>(out: &mut S, line: &TaskLine, output: &[u8]) -> Result<(), SinkFault>
    ensures done { OnOk result
        (Gains (S.held out.old) (S.held out.new) (spec.echo (Some line.now) ++ output.now)) }
    ensures cut { OnErr result
        (GainsPart (S.held out.old) (S.held out.new) (spec.echo (Some line.now) ++ output.now)) }
    ensures cause { HasCause sink_failed (S.faults out.old) (S.faults out.new) result }
{
    if line.silent {
        return write_joined(out, &[output]);
    }
    write_joined(out, &[line.text.bytes(), b"\n", output])
}

// Whether the end of a line prints nothing.
fn prints_nothing(line: &TaskLine, output: &[u8]) -> bool
    ensures { result ≡ is_empty (spec.echo (Some line.now) ++ output.now) }
{
    line.silent && output.is_empty()
}

/// Writes what the end of a line prints: its text unless it is silent, and its child's output,
/// behind a marker where there are many jobs and the piece before was another node's.
pub fn print_end<S: Sink>(
    out: &mut S,
    plan: &Plan,
    many: bool,
    last: &mut Option<u32>,
    node: u32,
    line: &TaskLine,
    output: &[u8],
) -> Result<(), SinkFault>
    requires { node < length plan.now }
    ensures done { OnOk result (Gains (S.held out.old) (S.held out.new)
        (spec.shown plan.now many last.old node (spec.echo (Some line.now) ++ output.now))) }
    ensures cut { OnErr result (GainsPart (S.held out.old) (S.held out.new)
        (spec.shown plan.now many last.old node (spec.echo (Some line.now) ++ output.now))) }
    ensures last { last.new
        ≡ spec.last_behind last.old node (spec.echo (Some line.now) ++ output.now) }
    ensures cause { HasCause sink_failed (S.faults out.old) (S.faults out.new) result }
{
    if prints_nothing(line, output) {
        return Ok(());
    }
    let before = *last;
    *last = Some(node);
    print_marker(out, plan, many, before, node)?;
    print_piece(out, line, output)
}
