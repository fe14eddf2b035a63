//! The lines of a node: each is shown, and those that always run are started.
ghost use Rattle.std.specs.Prelude.{◌≡◌, Some, true, IfOk, OnOk, OnErr};
ghost use Rattle.mk_child.specs.declared.halt.Halt.TheVariants as halts;
ghost use Rattle.mk_dry.specs.Items as spec;
ghost use Rattle.mk_dry.specs.Parts.{EndsLine, EndsLines, IsAlone};
ghost use Rattle.mk_dry.specs.Progress.{HasCome, IsAnnounced, IsPoised};
ghost use Rattle.mk_trace.specs.Builds.{moment};
ghost use Rattle.mk_world.specs.Causes.{HasCause};
ghost use Rattle.mk_world.specs.Sinks.{Gains, GainsPart};
ghost use Rattle.mk_world.specs.declared.fault.SinkFault.TheVariants.{Failed as sink_failed};

use mk_child::{Halt, Place, command, line_fails, note_failure, start_child, wait_child};
use mk_graph::Made;
use mk_plan::NodeState;
use mk_trace::{Event, Failure, put, tell};
use mk_world::{Kids, Sink, SinkFault, Task, TaskLine, Time, World, write_all};
use std::alloc::Global;

// The ticket of a child, which runs alone.
const TICKET: u32 = 1;

// Writes the text of a line and a newline, or nothing where it is empty.
fn print_line<S: Sink>(out: &mut S, line: &TaskLine) -> Result<(), SinkFault>
    ensures done { OnOk result
        (Gains (S.held out.old) (S.held out.new) (spec.shown_text (Some line.now))) }
    ensures cut { OnErr result
        (GainsPart (S.held out.old) (S.held out.new) (spec.shown_text (Some line.now))) }
    ensures cause { HasCause sink_failed (S.faults out.old) (S.faults out.new) result }
{
    if line.text.is_empty() {
        return Ok(());
    }
    write_all(out, &[line.text.bytes(), b"\n"])
}

// Whether a dry run starts a line.
fn is_started(line: &TaskLine) -> bool
    ensures { result ≡ spec.is_started line.now }
{
    line.always && !line.text.is_empty()
}

// Starts a line that was announced, waits for its child, and writes what that has printed. Gives
// its status.
fn run_line<W: World, S: Sink>(
    alloc: Global,
    made: &Made,
    world: &mut W,
    out: &mut S,
    kids: &mut Kids<W::Kid>,
    events: &mut Vec<Event>,
    place: Place,
    line: &TaskLine,
) -> Result<u8, Halt>
    requires alone { IsAlone (W.runs world.old) kids.old.tickets kids.old.room }
    requires starts { spec.is_started line.now ≡ true }
    ensures goes { EndsLine W.meaning made.now place line.now IsAnnounced
        (moment (W.history world.old) (S.held out.old) events.old.items)
        (moment (W.history world.new) (S.held out.new) events.new.items) result }
    ensures alone { IfOk result (λ status. IsAlone (W.runs world.new) kids.new.tickets kids.new.room) }
    ensures world_cause { HasCause halts.World (W.faults world.old) (W.faults world.new) result }
    ensures sink_cause { HasCause halts.Sink (S.faults out.old) (S.faults out.new) result }
    ensures children { W.runs world.new kids.new.tickets }
{
    let cmd = command(alloc, line, made.scopes.cwd(), &made.mode.exports)?;
    let started = start_child(alloc, world, kids, events, place, TICKET, Time(0), &cmd);
    drop(cmd);
    started?;
    let ended = wait_child(alloc, world, kids, events, None)?;
    put(events, Event::End(place.node, place.number, ended.status));
    write_all(out, &[ended.output.bytes()])?;
    Ok(ended.status)
}

// Shows a line, and runs it where it always runs. Gives its status, which is 0 where it was not
// started.
fn show_line<W: World, S: Sink>(
    alloc: Global,
    made: &Made,
    world: &mut W,
    out: &mut S,
    kids: &mut Kids<W::Kid>,
    events: &mut Vec<Event>,
    place: Place,
    line: &TaskLine,
) -> Result<u8, Halt>
    requires alone { IsAlone (W.runs world.old) kids.old.tickets kids.old.room }
    ensures goes { EndsLine W.meaning made.now place line.now IsPoised
        (moment (W.history world.old) (S.held out.old) events.old.items)
        (moment (W.history world.new) (S.held out.new) events.new.items) result }
    ensures alone { IfOk result (λ status. IsAlone (W.runs world.new) kids.new.tickets kids.new.room) }
    ensures world_cause { HasCause halts.World (W.faults world.old) (W.faults world.new) result }
    ensures sink_cause { HasCause halts.Sink (S.faults out.old) (S.faults out.new) result }
    ensures children { W.runs world.new kids.new.tickets }
{
    tell(events, Event::Shown(place.node, place.number))?;
    print_line(out, line)?;
    if is_started(line) {
        return run_line(alloc, made, world, out, kids, events, place, line);
    }
    Ok(0)
}

/// Shows the lines of a node in order, up to the first one that fails. Gives how the node then
/// stands.
pub fn show_lines<W: World, S: Sink>(
    alloc: Global,
    made: &Made,
    world: &mut W,
    out: &mut S,
    kids: &mut Kids<W::Kid>,
    events: &mut Vec<Event>,
    failure: &mut Option<Failure>,
    node: u32,
    task: &Task,
) -> Result<NodeState, Halt>
    requires alone { IsAlone (W.runs world.old) kids.old.tickets kids.old.room }
    ensures goes { EndsLines W.meaning made.now node task.now.lines failure.old failure.new
        (moment (W.history world.old) (S.held out.old) events.old.items)
        (moment (W.history world.new) (S.held out.new) events.new.items) result }
    ensures stands { IfOk result (λ stands. HasCome stands failure.old failure.new) }
    ensures alone { IfOk result (λ stands. IsAlone (W.runs world.new) kids.new.tickets kids.new.room) }
    ensures world_cause { HasCause halts.World (W.faults world.old) (W.faults world.new) result }
    ensures sink_cause { HasCause halts.Sink (S.faults out.old) (S.faults out.new) result }
    ensures children { W.runs world.new kids.new.tickets }
{
    let mut done = 0;
    'lines: while (done as usize) < task.lines.len() {
        let line = task.lines.get(done as usize);
        done += 1;
        let place = Place { node, number: done };
        let status = show_line(alloc, made, world, out, kids, events, place, line)?;
        if line_fails(line, status) {
            note_failure(failure, Failure::JobFailed(node, done, status));
            return Ok(NodeState::Failed);
        }
    }
    Ok(NodeState::Settled)
}
