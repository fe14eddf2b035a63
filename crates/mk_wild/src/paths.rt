//! The paths that a pattern stands for.
ghost use Rattle.std.specs.Prelude.{◌≡◌, ◌++◌, IfOk, OnOk};
ghost use Rattle.std.specs.Option.{option_copied};
ghost use Rattle.mk_wild.specs.Wild as spec;

use crate::name::{before_name, last_name, takes};
use mk_bytes::{NoMemory, Text, Texts};
use std::alloc::Global;

fn joined(alloc: Global, before: &[u8], name: &[u8]) -> Result<Text, NoMemory>
    ensures { IfOk result (λ path. path ≡ before.now ++ name.now) }
{
    let mut path = Text::from_bytes(alloc, before)?;
    path.push(name)?;
    Ok(path)
}

// Adds the paths of those names that a pattern takes, in their order.
fn push_paths(
    alloc: Global,
    paths: &mut Texts,
    pattern: &[u8],
    names: &[Text],
) -> Result<(), NoMemory>
    ensures { OnOk result (paths.new ≡ paths.old ++ spec.taken_of pattern.now names.now) }
{
    let before = before_name(pattern);
    let last = last_name(pattern);
    for name in names {
        if takes(last, name.bytes()) {
            paths.push(joined(alloc, before, name.bytes())?)?;
        }
    }
    Ok(())
}

/// Adds the paths that a pattern stands for, by the names in its directory, in their order; none
/// where there is no such directory.
pub fn push_taken(
    alloc: Global,
    paths: &mut Texts,
    pattern: &[u8],
    names: Option<&Texts>,
) -> Result<(), NoMemory>
    ensures { OnOk result
        (paths.new ≡ paths.old ++ spec.taken pattern.now (option_copied names.entry)) }
{
    match names {
        None => Ok(()),
        Some(names) => push_paths(alloc, paths, pattern, names.as_slice()),
    }
}
