//! Copies of what a world keeps.
ghost use Rattle.std.specs.Prelude.{◌≡◌, IfOk};
ghost use Rattle.std.specs.Option.{option_copied};
ghost use Rattle.mk_world.specs.declared.step.Deed.TheVariants.{Move};

use mk_bytes::{NoMemory, Text};
use mk_world::{Cmd, Deed};
use std::alloc::Global;

/// The bytes of a file, where there is one.
pub fn copy_bytes(alloc: Global, bytes: Option<&Text>) -> Result<Option<Text>, NoMemory>
    ensures { IfOk result (λ copy. copy ≡ option_copied bytes.entry) }
{
    match bytes {
        None => Ok(None),
        Some(bytes) => Ok(Some(bytes.copy(alloc)?)),
    }
}

/// A command.
pub fn copy_cmd(alloc: Global, cmd: &Cmd) -> Result<Cmd, NoMemory>
    ensures { IfOk result (λ copy. copy ≡ cmd.now) }
{
    Ok(Cmd {
        text: cmd.text.copy(alloc)?,
        cwd: cmd.cwd.copy(alloc)?,
        exports: cmd.exports.share()?,
    })
}

/// What a step did.
pub fn copy_deed(alloc: Global, deed: &Deed) -> Result<Deed, NoMemory>
    ensures { IfOk result (λ copy. copy ≡ deed.now) }
{
    match deed {
        Deed::Read { path, bytes } => Ok(Deed::Read {
            path: path.copy(alloc)?,
            bytes: bytes.copy(alloc)?,
        }),
        Deed::Miss { path } => Ok(Deed::Miss {
            path: path.copy(alloc)?,
        }),
        Deed::Write { path, bytes } => Ok(Deed::Write {
            path: path.copy(alloc)?,
            bytes: bytes.copy(alloc)?,
        }),
        Deed::Delete { path } => Ok(Deed::Delete {
            path: path.copy(alloc)?,
        }),
        Deed::Move { from, to, bytes } => copy_move(alloc, from, to, bytes),
    }
}

fn copy_move(alloc: Global, from: &Text, to: &Text, bytes: &Text) -> Result<Deed, NoMemory>
    ensures { IfOk result (λ copy. copy ≡ Move from.now to.now bytes.now) }
{
    Ok(Deed::Move {
        from: from.copy(alloc)?,
        to: to.copy(alloc)?,
        bytes: bytes.copy(alloc)?,
    })
}
