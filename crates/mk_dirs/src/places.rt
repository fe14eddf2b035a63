//! At which place a name stands.
ghost use Rattle.std.specs.Prelude.{◌≡◌, [], true, Some, is_none, IfOk, OnErr};
ghost use Rattle.mk_dirs.specs.Places as spec;
ghost use Rattle.mk_dirs.specs.declared.fault.DirFault.TheVariants.{Failed as failed};
ghost use Rattle.mk_world.specs.Causes.{HasCause};
ghost use Rattle.mk_dirs.specs.Answered.{ByLooks, OnlyDated};
ghost use Rattle.mk_world.specs.declared.fault.WorldFault.TheVariants.{Failed as world_failed};

use crate::fault::DirFault;
use mk_bytes::{NoMemory, Text, Texts, are_names, clean_path, is_absolute};
use mk_world::{World, WorldFault};
use std::alloc::Global;

fn is_missing<W: World>(alloc: Global, world: &mut W, path: &[u8]) -> Result<bool, WorldFault>
    requires idle { W.runs world.old [] }
    ensures told { IfOk result (λ missing. ByLooks (W.history world.old) (W.history world.new)
        (λ files. missing ≡ is_none (files path.now))) }
    ensures refused { OnErr result (OnlyDated (W.history world.old) (W.history world.new)) }
    ensures cause { HasCause world_failed (W.faults world.old) (W.faults world.new) result }
    ensures idle { W.runs world.new [] }
{
    let when = world.time(alloc, path)?;
    Ok(when.is_missing())
}

// The path of a name below a directory.
fn below(alloc: Global, cwd: &[u8], dir: &[u8], name: &[u8]) -> Result<Text, NoMemory>
    ensures { IfOk result (λ path. path ≡ spec.below cwd.now dir.now name.now) }
{
    let mut path = Text::from_bytes(alloc, dir)?;
    path.push_both(b"/", name)?;
    if are_names(path.bytes()) {
        return Ok(path);
    }
    clean_path(alloc, cwd, path.bytes())
}

// The path of a name below a directory, where it is a file.
fn found_below<W: World>(
    alloc: Global,
    cwd: &[u8],
    dir: &[u8],
    name: &[u8],
    world: &mut W,
) -> Result<Option<Text>, DirFault>
    requires idle { W.runs world.old [] }
    ensures told { IfOk result (λ found. ByLooks (W.history world.old) (W.history world.new)
        (λ files. found ≡ spec.found_below files cwd.now dir.now name.now)) }
    ensures refused { OnErr result (OnlyDated (W.history world.old) (W.history world.new)) }
    ensures cause { HasCause failed (W.faults world.old) (W.faults world.new) result }
    ensures idle { W.runs world.new [] }
{
    let path = below(alloc, cwd, dir, name)?;
    if is_missing(alloc, world, path.bytes())? {
        return Ok(None);
    }
    Ok(Some(path))
}

// The path of a name below the first of these directories below which it is a file.
fn first_below<W: World>(
    alloc: Global,
    cwd: &[u8],
    dirs: &[Text],
    name: &[u8],
    world: &mut W,
) -> Result<Option<Text>, DirFault>
    requires idle { W.runs world.old [] }
    ensures told { IfOk result (λ found. ByLooks (W.history world.old) (W.history world.new)
        (λ files. found ≡ spec.first_below files cwd.now dirs.now name.now)) }
    ensures refused { OnErr result (OnlyDated (W.history world.old) (W.history world.new)) }
    ensures cause { HasCause failed (W.faults world.old) (W.faults world.new) result }
    ensures idle { W.runs world.new [] }
{
    for dir in dirs {
        if let Some(path) = found_below(alloc, cwd, dir.bytes(), name, world)? {
            return Ok(Some(path));
        }
    }
    Ok(None)
}

/// The place of a cleaned name (make(1), `.PATH`): the name itself where it is a `target` or a file
/// that is there; else, for a relative name, the path of a file of that name below the first
/// directory of `paths` that has one, cleaned against the directory `cwd`.
///
/// `None` exactly where there is no such place. A target is not looked at, and of other names each
/// path is looked at once, up to the first file. `Failed` comes only where the world's count of
/// faults rose or is at its end, and `NoMemory` where memory runs out.
pub fn place<W: World>(
    alloc: Global,
    target: bool,
    paths: &Texts,
    name: &[u8],
    cwd: &[u8],
    world: &mut W,
) -> Result<Option<Text>, DirFault>
    requires idle { W.runs world.old [] }

    // The answer is the place by what the world was asked and answered: of all files that fit the
    // answers.
    ensures told { IfOk result (λ found. ByLooks (W.history world.old) (W.history world.new)
        (λ files. found ≡ spec.place files target paths.now cwd.now name.now)) }

    // In every world a target stands for itself.
    ensures target { target ≡ true → IfOk result (λ found. found ≡ Some name.now) }
    ensures refused { OnErr result (OnlyDated (W.history world.old) (W.history world.new)) }
    ensures cause { HasCause failed (W.faults world.old) (W.faults world.new) result }
    ensures idle { W.runs world.new [] }
{
    if target {
        return Ok(Some(Text::from_bytes(alloc, name)?));
    }
    if !is_missing(alloc, world, name)? {
        return Ok(Some(Text::from_bytes(alloc, name)?));
    }
    if is_absolute(name) {
        return Ok(None);
    }
    let found = first_below(alloc, cwd, paths.as_slice(), name, world)?;
    Ok(found)
}
