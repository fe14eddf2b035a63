//! The files of a new world.
ghost use Rattle.std.specs.Prelude.{◌≡◌, [], IsTrue, IfOk};
ghost use Rattle.std.specs.Str.{bytes_eq};
ghost use Rattle.mk_bytes.specs.Paths.{clean, is_clean_directory};
ghost use Rattle.mk_memworld.specs.Base as spec;

use indexmap::IndexSet;
use mk_bytes::{Items, NoMemory, Pair, Pairs, Text, clean_path};
use mk_world::{Bases, File};
use std::alloc::Global;

fn file_of(alloc: Global, pair: &Pair, time: u64) -> Result<File, NoMemory>
    ensures { IfOk result (λ file. file ≡ spec.file_of pair.now time) }
{
    Ok(File {
        path: pair.name.copy(alloc)?,
        bytes: pair.value.copy(alloc)?,
        time,
    })
}

/// These files, with the times 1, 2, 3 and so on.
pub fn base_of(alloc: Global, pairs: &Pairs) -> Result<Bases, NoMemory>
    ensures { IfOk result (λ base. base ≡ spec.base_of pairs.now) }
{
    let mut base = Items::new(alloc, 0)?;
    let mut time = 0;
    for pair in pairs.as_slice() {
        time += 1;
        base.push(file_of(alloc, pair, time)?)?;
    }
    Ok(base)
}

fn is_clean(alloc: Global, cwd: &Text, path: &Text) -> Result<bool, NoMemory>
    ensures { IfOk result (λ is. is ≡ bytes_eq (clean cwd.now path.now) path.now) }
{
    let clean = clean_path(alloc, cwd.bytes(), path.bytes())?;
    Ok(clean.bytes() == path.bytes())
}

/// Whether the paths of these files are clean, as they are named from a directory, and differ. Each
/// path is looked up among those behind it, which a set holds.
pub fn are_clean(alloc: Global, cwd: &Text, files: &Pairs) -> Result<bool, NoMemory>
    ensures { IfOk result (λ are. are ≡ spec.are_clean cwd.now files.now) }
{
    let mut later = IndexSet::new(alloc);
    all_clean(alloc, cwd, files.as_slice(), &mut later)
}

// The same, with a set that is empty at the beginning.
fn all_clean(
    alloc: Global,
    cwd: &Text,
    files: &[Pair],
    later: &mut IndexSet<Vec<u8>>,
) -> Result<bool, NoMemory>
    requires { later.old.keys ≡ [] }
    ensures { IfOk result (λ are. are ≡ spec.are_clean cwd.now files.now) }
{
    let mut left = files.len();
    'files: while left > 0 {
        left -= 1;
        let path = &files[left].name;
        let is_new = later.insert(Vec::from_slice(alloc, path.bytes())?)?;
        if !is_new || !is_clean(alloc, cwd, path)? {
            return Ok(false);
        }
    }
    Ok(true)
}
