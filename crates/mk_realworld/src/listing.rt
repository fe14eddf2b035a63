//! The names in a directory.
ghost use Rattle.std.specs.Prelude.{IfOk, IfSome};
ghost use Rattle.mk_world.specs.Listings.{AreInOrder};

use crate::file::is_missing;
use crate::refusal::{Reason, Refusal};
use mk_bytes::{NoMemory, Texts};
use mk_world::Names;
use std::alloc::Global;
use std::fs::Files;
use std::io::{ErrorKind, Read};
use std::str;

// Whether an entry of a directory names the directory itself, the one above it, or nothing.
fn is_no_name(entry: &[u8]) -> bool {
    matches!(entry, [] | [b'.'] | [b'.', b'.'])
}

// Takes in the names among these entries, each of which a byte 0 ends.
fn add_names(names: &mut Names, entries: &[u8]) -> Result<(), NoMemory> {
    for entry in entries.split(|byte| *byte == 0) {
        if !is_no_name(entry) {
            names.add(entry)?;
        }
    }
    Ok(())
}

// All names of an open directory, which are read by way of a buffer, in the order of their bytes.
fn read_names<D: Read>(alloc: Global, buffer: &mut [u8], dir: &mut D) -> Result<Texts, Refusal>
    ensures { IfOk result AreInOrder }
{
    let mut names = Names::new(alloc);
    for _ in 0..u64::MAX {
        let count = match dir.read(buffer) {
            Ok(0) => return Ok(names.texts(alloc)?),
            Ok(count) => count,
            Err(error) if error.kind() == ErrorKind::Interrupted => continue,
            Err(error) => return Err(Refusal::from(error)),
        };
        add_names(&mut names, &buffer[..count])?;
    }
    Err(Refusal::Outside(Reason::Other))
}

/// The names in a directory, in the order of their bytes; `None` where there is no directory. A
/// name may be any bytes. They are read by way of a buffer, which must not be empty.
pub fn names_in<R: Files + AllocGlobal>(
    rt: &R,
    buffer: &mut [u8],
    dir: &[u8],
) -> Result<Option<Texts>, Refusal>
    ensures { IfOk result (λ names. IfSome names AreInOrder) }
{
    match rt.open_dir(str::from_utf8(dir)?) {
        Ok(mut open) => Ok(Some(read_names(rt.alloc(), buffer, &mut open)?)),
        Err(error) => {
            if is_missing(&error) {
                return Ok(None);
            }
            Err(Refusal::from(error))
        }
    }
}
