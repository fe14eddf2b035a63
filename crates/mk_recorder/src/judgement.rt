//! The records of a command.
ghost use Rattle.std.specs.Prelude.{◌≡◌, IfOk};
ghost use Rattle.mk_recorder.specs.Held.{state_in};
ghost use Rattle.mk_recorder.specs.Judgement as spec;
ghost use Rattle.mk_recorder.specs.States.{state_by, run as runs};

use crate::record::Records;
use crate::state::{State, step};
use crate::table::{Table, Touches};
use mk_bytes::{Items, NoMemory, Text};
use mk_strace::{Act, Event, Events, Kept};
use std::alloc::Global;

// Goes through events. Whether each may be.
fn run(alloc: Global, state: &mut State, events: &[Event]) -> Result<bool, NoMemory>
    ensures { IfOk result (λ fine. state_by fine (state_in state.new)
        ≡ runs events.now (state_in state.old)) }
{
    let mut rest = events;
    'events: while let [event, after @ ..] = rest {
        if !step(alloc, state, event, after)? {
            return Ok(false);
        }
        rest = after;
    }
    Ok(true)
}

fn is_run(act: &Act) -> bool
    ensures { result ≡ spec.is_run act.now }
{
    matches!(act, Act::Runs(_))
}

fn says_nothing(act: &Act) -> bool
    ensures { result ≡ spec.says_nothing act.now }
{
    matches!(act, Act::Nothing)
}

// The state in which a command begins, in its directory, behind these touches.
fn beginning(
    alloc: Global,
    directory: &[u8],
    before: &Touches,
    process: &[u8],
) -> Result<State, NoMemory>
    ensures { IfOk result (λ state. state_in state
        ≡ spec.beginning directory.now before.now process.now) }
{
    let mut owners = Kept::new(alloc);
    let mut directories = Kept::new(alloc);
    let mut table = Table::new(alloc);
    owners.set(process, Text::from_bytes(alloc, process)?)?;
    directories.set(process, Text::from_bytes(alloc, directory)?)?;
    table.note_all(before.as_slice())?;
    let early = Kept::new(alloc);
    Ok(State {
        owners,
        directories,
        early,
        running: 1,
        table,
    })
}

// The records behind all events, if no process runs then.
fn records_behind(
    alloc: Global,
    state: &mut State,
    events: &[Event],
) -> Result<Option<Records>, NoMemory>
    ensures { IfOk result (λ records. records
        ≡ spec.records_behind events.now (state_in state.old)) }
{
    if !run(alloc, state, events)? || state.running != 0 {
        return Ok(None);
    }
    let mut records = Items::new(alloc, 0)?;
    state
        .table
        .add_records(alloc, &mut records)
        .and(Ok(Some(records)))
}

// The records of a command of which this is the first event.
fn judge_from(
    alloc: Global,
    directory: &[u8],
    before: &Touches,
    first: &Event,
    events: &[Event],
) -> Result<Option<Records>, NoMemory>
    ensures { IfOk result (λ records. records
        ≡ spec.judged_from directory.now before.now first.now events.now) }
{
    if !is_run(&first.act) {
        return Ok(None);
    }
    let mut state = beginning(alloc, directory, before, first.process.bytes())?;
    let records = records_behind(alloc, &mut state, events);
    drop(state);
    records
}

// The records of a command by these events, of which the first may say nothing.
fn judge_all(
    alloc: Global,
    directory: &[u8],
    before: &Touches,
    events: &[Event],
) -> Result<Option<Records>, NoMemory>
    ensures { IfOk result (λ records. records
        ≡ spec.judged directory.now before.now events.now) }
{
    let mut rest = events;
    'quiet: while let [event, after @ ..] = rest {
        if !says_nothing(&event.act) {
            return judge_from(alloc, directory, before, event, rest);
        }
        rest = after;
    }
    Ok(None)
}

/// The records of a command that begins in a directory, behind these touches: each path once, with
/// what the command read, missed, wrote and took away. `None` where the first event that says
/// something is no program that is run, a process does something that does not run, it is not known
/// where a name leads, or a process runs on. The time is linear in the events but for directories
/// that are moved.
pub fn judge(
    alloc: Global,
    directory: &[u8],
    before: &Touches,
    events: &Events,
) -> Result<Option<Records>, NoMemory>
    ensures { IfOk result (λ records. records
        ≡ spec.judged directory.now before.now events.now) }
{
    judge_all(alloc, directory, before, events.as_slice())
}
