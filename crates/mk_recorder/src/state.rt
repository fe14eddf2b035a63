//! What is known of the processes of a command, and of the paths that they touched.
ghost use Rattle.std.specs.Prelude.{◌≡◌, IfOk};
ghost use Rattle.std.specs.Option.{option_map};
ghost use Rattle.mk_recorder.specs.Held.{state_in};
ghost use Rattle.mk_recorder.specs.States as spec;

use crate::place::{Place, place_of};
use crate::table::{Table, Touches};
use crate::touch::push_touches;
use mk_bytes::{Items, NoMemory, Text};
use mk_strace::{Act, Event, Kept, Name};
use std::alloc::Global;

// The system numbers no more processes than these at once.
const MOST: u32 = 4_194_304;

/// What is known of processes and paths.
#[derive(Drop)]
pub struct State {
    /// Of each process that runs, the one by whose number its directory is kept, which it may
    /// share.
    pub owners: Kept,
    /// The directories of these.
    pub directories: Kept,
    /// Of each process that did something before the call ended that began it, who began it.
    pub early: Kept,
    /// How many processes run.
    pub running: u32,
    pub table: Table,
}

// Who begins a process by an event, and whether it shares its directory.
fn birth_in<'e>(process: &[u8], event: &'e Event) -> Option<(&'e [u8], bool)>
    ensures { option_map (λ birth. (birth.0.now, birth.1)) result
        ≡ spec.birth_in process.now event.now }
{
    match &event.act {
        Act::Forks { child, is_shared } if child.bytes() == process => {
            Some((event.process.bytes(), *is_shared))
        }
        _ => None,
    }
}

/// Who begins a process, in what is left of a trace, and whether it shares its directory.
pub fn birth_of<'e>(process: &[u8], events: &'e [Event]) -> Option<(&'e [u8], bool)>
    ensures { option_map (λ birth. (birth.0.now, birth.1)) result
        ≡ spec.birth_of process.now events.now }
{
    for event in events {
        if let Some(birth) = birth_in(process, event) {
            return Some(birth);
        }
    }
    None
}

// A process has the directory of its parent from now on, or shares it. Whether it may begin: its
// parent runs, and no process of its number does.
fn born(
    alloc: Global,
    state: &mut State,
    parent: &[u8],
    child: &[u8],
    is_shared: bool,
) -> Result<bool, NoMemory>
    ensures { IfOk result (λ fine. spec.state_by fine (state_in state.new)
        ≡ spec.born parent.now child.now is_shared (state_in state.old)) }
{
    let owner = Text::from_bytes(alloc, state.owners.of(parent))?;
    if owner.is_empty() || !state.owners.of(child).is_empty() || state.running >= MOST {
        return Ok(false);
    }
    if is_shared {
        state.owners.set(child, owner)?;
    } else {
        let directory = Text::from_bytes(alloc, state.directories.of(owner.bytes()));
        drop(owner);
        state.directories.set(child, directory?)?;
        state.owners.set(child, Text::from_bytes(alloc, child)?)?;
    }
    state.running += 1;
    Ok(true)
}

// A process does something. Where it is not known, it is begun by a call that has not ended so far.
fn appear(
    alloc: Global,
    state: &mut State,
    process: &[u8],
    rest: &[Event],
) -> Result<bool, NoMemory>
    ensures { IfOk result (λ fine. spec.state_by fine (state_in state.new)
        ≡ spec.appeared process.now rest.now (state_in state.old)) }
{
    if !state.owners.of(process).is_empty() {
        return Ok(true);
    }
    let Some((parent, is_shared)) = birth_of(process, rest) else {
        return Ok(false);
    };
    state.early.set(process, Text::from_bytes(alloc, parent)?)?;
    born(alloc, state, parent, process, is_shared)
}

// The call ended that began a process.
fn fork(
    alloc: Global,
    state: &mut State,
    parent: &[u8],
    child: &[u8],
    is_shared: bool,
) -> Result<bool, NoMemory>
    ensures { IfOk result (λ fine. spec.state_by fine (state_in state.new)
        ≡ spec.forked parent.now child.now is_shared (state_in state.old)) }
{
    if state.early.of(child).is_empty() {
        return born(alloc, state, parent, child, is_shared);
    }
    state.early.clear(child)?;
    Ok(true)
}

// A process runs no more.
fn end(state: &mut State, process: &[u8]) -> Result<bool, NoMemory>
    ensures { IfOk result (λ fine. spec.state_by fine (state_in state.new)
        ≡ spec.ended process.now (state_in state.old)) }
{
    if state.owners.of(process).is_empty() || state.running == 0 {
        return Ok(false);
    }
    state.owners.clear(process)?;
    state.running -= 1;
    Ok(true)
}

// The directory of a process.
fn directory_of(alloc: Global, state: &State, process: &[u8]) -> Result<Text, NoMemory>
    ensures { IfOk result (λ directory. directory
        ≡ spec.directory_of process.now (state_in state.now)) }
{
    let owner = state.owners.of(process);
    Text::from_bytes(alloc, state.directories.of(owner))
}

// What an act does to paths is noted. Whether it is known where its names lead.
fn touch(alloc: Global, state: &mut State, directory: &[u8], act: &Act) -> Result<bool, NoMemory>
    ensures { IfOk result (λ fine. spec.state_by fine (state_in state.new)
        ≡ spec.touched directory.now act.now (state_in state.old)) }
{
    let mut touches: Touches = Items::new(alloc, 0)?;
    let clear = push_touches(alloc, &mut touches, &state.table, directory, act)?;
    let noted = state.table.note_all(touches.as_slice());
    drop(touches);
    noted.and(Ok(clear))
}

// A process and those that share its directory have another one.
fn enter(
    alloc: Global,
    state: &mut State,
    process: &[u8],
    directory: &[u8],
    name: &Name,
) -> Result<bool, NoMemory>
    ensures { IfOk result (λ fine. spec.state_by fine (state_in state.new)
        ≡ spec.entered process.now directory.now name.now (state_in state.old)) }
{
    let Place::At(path) = place_of(alloc, directory, name)? else {
        return Ok(false);
    };
    match Text::from_bytes(alloc, state.owners.of(process)) {
        Ok(owner) => {
            let set = state.directories.set(owner.bytes(), path);
            drop(owner);
            set.and(Ok(true))
        }
        Err(fault) => Err(fault),
    }
}

// What a process that is known does.
fn act_in(
    alloc: Global,
    state: &mut State,
    process: &[u8],
    directory: &[u8],
    act: &Act,
) -> Result<bool, NoMemory>
    ensures { IfOk result (λ fine. spec.state_by fine (state_in state.new)
        ≡ spec.acted process.now directory.now act.now (state_in state.old)) }
{
    match act {
        Act::Forks { child, is_shared } => {
            fork(alloc, state, process, child.bytes(), *is_shared)
        }
        Act::Ends => end(state, process),
        Act::Takes { from } => end(state, from.bytes()),
        Act::Enters(name) => enter(alloc, state, process, directory, name),
        _ => touch(alloc, state, directory, act),
    }
}

// What a process that is known does, in its directory.
fn act_known(alloc: Global, state: &mut State, process: &[u8], act: &Act) -> Result<bool, NoMemory>
    ensures { IfOk result (λ fine. spec.state_by fine (state_in state.new)
        ≡ spec.acted_known process.now act.now (state_in state.old)) }
{
    let directory = directory_of(alloc, state, process)?;
    let fine = act_in(alloc, state, process, directory.bytes(), act);
    drop(directory);
    fine
}

/// One more event, before these others. Whether it may be: its process runs or is begun, and it is
/// known where its names lead.
pub fn step(
    alloc: Global,
    state: &mut State,
    event: &Event,
    rest: &[Event],
) -> Result<bool, NoMemory>
    ensures { IfOk result (λ fine. spec.state_by fine (state_in state.new)
        ≡ spec.step event.now rest.now (state_in state.old)) }
{
    if !appear(alloc, state, event.process.bytes(), rest)? {
        return Ok(false);
    }
    act_known(alloc, state, event.process.bytes(), &event.act)
}
