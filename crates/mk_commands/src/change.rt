//! Changes of the files, for which all memory is taken beforehand.
ghost use Rattle.std.specs.Prelude.{◌≡◌, IfOk, length};
ghost use Rattle.mk_world.specs.Deeds.{changes};
ghost use Rattle.mk_world.specs.History.{at_time, timed_effects};
ghost use Rattle.mk_commands.specs.Changes.{HasEffects, HaveEffects};

use crate::files::Stored;
use mk_bytes::{NoMemory, Text};
use mk_world::{Deed, Timed};
use std::alloc::Global;

/// A change of the files, with all the memory that it takes beside the room for a new path.
#[derive(Drop)]
pub enum Change {
    Nothing,
    /// A file has these bytes from now on.
    Write {
        path: Vec<u8>,
        file: Stored,
    },
    /// A file is missing from now on.
    Delete {
        path: Text,
    },
    /// A file is missing from now on, and another one has these bytes.
    Move {
        from: Text,
        to: Vec<u8>,
        file: Stored,
    },
}

/// What a step at this time changes.
pub fn change_of(alloc: Global, deed: &Deed, time: u64) -> Result<Change, NoMemory>
    ensures { IfOk result (λ change. HasEffects change (at_time time (changes deed.now))) }
{
    match deed {
        Deed::Read { .. } | Deed::Miss { .. } => Ok(Change::Nothing),
        Deed::Write { path, bytes } => Ok(Change::Write {
            path: Vec::from_slice(alloc, path.bytes())?,
            file: Stored {
                bytes: bytes.copy(alloc)?,
                time,
            },
        }),
        Deed::Delete { path } => Ok(Change::Delete {
            path: path.copy(alloc)?,
        }),
        Deed::Move { from, to, bytes } => Ok(Change::Move {
            from: from.copy(alloc)?,
            to: Vec::from_slice(alloc, to.bytes())?,
            file: Stored {
                bytes: bytes.copy(alloc)?,
                time,
            },
        }),
    }
}

/// What steps change, one after the other.
pub fn changes_of(alloc: Global, steps: &[Timed]) -> Result<Vec<Change>, NoMemory>
    ensures effects { IfOk result
        (λ changes. HaveEffects changes.items (timed_effects steps.now)) }
    ensures count { IfOk result (λ changes. length changes.items ≡ length steps.now) }
{
    let mut changes = Vec::new(alloc);
    for step in steps {
        changes.push(change_of(alloc, &step.deed, step.time)?)?;
    }
    Ok(changes)
}
