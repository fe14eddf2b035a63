//! What is recorded of a path.
ghost use Rattle.std.specs.Prelude.{◌≡◌, IfOk};
ghost use Rattle.mk_recorder.specs.Records as spec;

use crate::known::{Known, is_gone, is_made, is_outer};
use mk_bytes::{Items, NoMemory, Text};
use std::alloc::Global;

/// What is recorded of a path.
#[derive(Drop)]
pub struct Record {
    pub path: Text,
    /// The command depends on what stood there.
    pub is_read: bool,
    /// The command depends on that nothing stood there.
    pub is_missed: bool,
    /// The command made it, and left it.
    pub is_written: bool,
    /// The command took away what stood there.
    pub is_deleted: bool,
    /// It is a directory.
    pub is_folder: bool,
    /// It was run as a program.
    pub is_run: bool,
}

/// What is recorded of paths, each once, in the order of their first touch.
pub type Records = Items<Record>;

fn is_read(known: Known) -> bool
    ensures { result ≡ spec.is_read known }
{
    if known.folder {
        return known.listed;
    }
    known.found || known.kept || known.seen && is_outer(known)
}

fn is_deleted(known: Known) -> bool
    ensures { result ≡ spec.is_deleted known }
{
    !known.folder && is_gone(known) && (known.found || known.seen)
}

/// What is recorded of a path of which this is known.
pub fn record_of(alloc: Global, path: &[u8], known: Known) -> Result<Record, NoMemory>
    ensures { IfOk result (λ one. one ≡ spec.record_of path.now known) }
{
    Ok(Record {
        path: Text::from_bytes(alloc, path)?,
        is_read: is_read(known),
        is_missed: known.missed && !is_made(known),
        is_written: !known.folder && is_made(known),
        is_deleted: is_deleted(known),
        is_folder: known.folder,
        is_run: known.ran,
    })
}
