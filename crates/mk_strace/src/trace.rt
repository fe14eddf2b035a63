//! Traces: what their processes did, in order.
ghost use Rattle.std.specs.Prelude.{◌≡◌, Some, IfOk, OnOk};
ghost use Rattle.std.specs.List.{slice_split};
ghost use Rattle.mk_filemon.specs.Parts.{is_newline};
ghost use Rattle.mk_strace.specs.Lines.{act_in};
ghost use Rattle.mk_strace.specs.Held.{texts_in};
ghost use Rattle.mk_strace.specs.Seen.{kind_now};
ghost use Rattle.mk_strace.specs.Traces as spec;

use crate::act::Act;
use crate::kept::Kept;
use crate::line::{Kind, act_in, act_joined, kind_of, parts_of};
use mk_bytes::{Items, NoMemory, Text};
use mk_filemon::cut_at;
use std::alloc::Global;

/// What a process did.
#[derive(Drop)]
pub struct Event {
    pub process: Text,
    pub act: Act,
}

/// What the processes of a trace did, in order.
pub type Events = Items<Event>;

// What only a process does that is not in the midst of a call.
fn at_rest(start: &[u8], act: Act) -> Option<Act>
    ensures { result ≡ spec.at_rest start.now (Some act) }
{
    if start.is_empty() { Some(act) } else { None }
}

fn whole(alloc: Global, start: &[u8], text: &[u8]) -> Result<Option<Act>, NoMemory>
    ensures { IfOk result (λ act. act ≡ spec.at_rest start.now (act_in text.now)) }
{
    if !start.is_empty() {
        return Ok(None);
    }
    act_in(alloc, text)
}

fn resumed(alloc: Global, start: &[u8], rest: &[u8]) -> Result<Option<Act>, NoMemory>
    ensures { IfOk result (λ act. act ≡ spec.resumed start.now rest.now) }
{
    if start.is_empty() {
        return Ok(None);
    }
    act_joined(alloc, start, rest)
}

// What a line of a process says that it did, by the call that it has begun, if there is one.
fn act_on(alloc: Global, start: &[u8], kind: Kind<'_>, text: &[u8]) -> Result<Option<Act>, NoMemory>
    ensures { IfOk result (λ act. act
        ≡ spec.act_on start.now (kind_now kind.entry) text.now) }
{
    match kind {
        Kind::Resumed(rest) => resumed(alloc, start, rest),
        Kind::Takes(from) => Ok(Some(Act::Takes {
            from: Text::from_bytes(alloc, from)?,
        })),
        Kind::Signal => Ok(Some(Act::Nothing)),
        Kind::Begun(_) => Ok(at_rest(start, Act::Nothing)),
        Kind::Ends => Ok(at_rest(start, Act::Ends)),
        Kind::Whole => whole(alloc, start, text),
    }
}

// The calls that are begun behind a line.
fn go_on(alloc: Global, begun: &mut Kept, process: &[u8], kind: Kind<'_>) -> Result<(), NoMemory>
    ensures { OnOk result (texts_in begun.new
        ≡ spec.begun_behind (texts_in begun.old) process.now (kind_now kind.entry)) }
{
    match kind {
        Kind::Begun(start) => begun.set(process, Text::from_bytes(alloc, start)?),
        Kind::Resumed(_) => begun.clear(process),
        Kind::Takes(from) => {
            let start = Text::from_bytes(alloc, begun.of(from))?;
            begun.clear(from)?;
            begun.set(process, start)
        }
        Kind::Whole | Kind::Ends | Kind::Signal => Ok(()),
    }
}

// What a line says that its process did. `None` where it is refused.
fn read_line(alloc: Global, begun: &mut Kept, line: &[u8]) -> Result<Option<Event>, NoMemory>
    ensures event { IfOk result (λ event. event ≡ spec.event_on (texts_in begun.old) line.now) }
    ensures begun { OnOk result (texts_in begun.new
        ≡ spec.begun_after (texts_in begun.old) line.now) }
{
    let Some((process, text)) = parts_of(line) else {
        return Ok(None);
    };
    let Some(kind) = kind_of(text) else {
        return Ok(None);
    };
    let act = act_on(alloc, begun.of(process), kind, text)?;
    match go_on(alloc, begun, process, kind) {
        Ok(()) => with_process(alloc, process, act),
        Err(fault) => Err(fault),
    }
}

fn with_process(alloc: Global, process: &[u8], act: Option<Act>) -> Result<Option<Event>, NoMemory>
    ensures { IfOk result (λ event. event ≡ spec.with_process process.now act) }
{
    let Some(act) = act else {
        return Ok(None);
    };
    match Text::from_bytes(alloc, process) {
        Ok(process) => Ok(Some(Event { process, act })),
        Err(fault) => Err(fault),
    }
}

// Adds what the lines of a trace say, up to the last, which must be empty. Whether none is refused.
fn read_lines(
    alloc: Global,
    begun: &mut Kept,
    events: &mut Events,
    trace: &[u8],
) -> Result<bool, NoMemory>
    ensures { IfOk result (λ read. spec.event_list read events.new
        ≡ spec.behind events.old
        (spec.read_from (texts_in begun.old) (slice_split is_newline trace.now))) }
{
    let mut rest = trace;
    'lines: while let Some((line, after)) = cut_at(b'\n', rest) {
        match read_line(alloc, begun, line)? {
            Some(event) => events.push(event)?,
            None => return Ok(false),
        }
        rest = after;
    }
    Ok(rest.is_empty())
}

/// What the processes of a trace did, one event a line. `None` where a line has no known form,
/// where what follows of a call was not begun, where a process begins another call or ends in the
/// midst of one, and where the last line has no newline: nothing is passed over but calls and
/// signals that say nothing of files. The time is linear in the trace.
pub fn read_trace(alloc: Global, trace: &[u8]) -> Result<Option<Events>, NoMemory>
    ensures { IfOk result (λ events. events ≡ spec.events_of trace.now) }
{
    let mut events = Items::new(alloc, 0)?;
    let mut begun = Kept::new(alloc);
    let read = read_lines(alloc, &mut begun, &mut events, trace);
    drop(begun);
    if read? {
        return Ok(Some(events));
    }
    Ok(None)
}
