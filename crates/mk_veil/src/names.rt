//! What a directory holds without the hidden paths.
ghost use Rattle.std.specs.Prelude.{◌≡◌, ◌++◌, IfOk, IfSome, OnOk};
ghost use Rattle.std.specs.Option.{option_map};
ghost use Rattle.mk_world.specs.Listings.{AreInOrder};
ghost use Rattle.mk_veil.specs.Names as spec;

use crate::hidden::Hidden;
use mk_bytes::{Items, NoMemory, Text, Texts};
use std::alloc::Global;

// The path of a name in a directory.
fn joined(alloc: Global, dir: &[u8], name: &[u8]) -> Result<Text, NoMemory>
    ensures { IfOk result (λ path. path ≡ spec.joined dir.now name.now) }
{
    if dir == b".".as_slice() {
        return Text::from_bytes(alloc, name);
    }
    let mut path = Text::new(alloc);
    if dir != b"/".as_slice() {
        path.push(dir)?;
    }
    path.push_both(b"/", name)?;
    Ok(path)
}

fn is_hidden(alloc: Global, hidden: &Hidden, dir: &[u8], name: &[u8]) -> Result<bool, NoMemory>
    ensures { IfOk result (λ is. is ≡ spec.is_hidden hidden.now dir.now name.now) }
{
    let path = joined(alloc, dir, name)?;
    Ok(hidden.has(path.bytes()))
}

fn push_bare(
    alloc: Global,
    hidden: &Hidden,
    dir: &[u8],
    names: &[Text],
    bare: &mut Texts,
) -> Result<(), NoMemory>
    ensures { OnOk result
        (bare.new ≡ bare.old ++ spec.bare_names hidden.now dir.now names.now) }
{
    for name in names {
        if !is_hidden(alloc, hidden, dir, name.bytes())? {
            bare.push(name.copy(alloc)?)?;
        }
    }
    Ok(())
}

fn bare_names(alloc: Global, hidden: &Hidden, dir: &[u8], names: &[Text]) -> Result<Texts, NoMemory>
    ensures { IfOk result (λ bare. bare ≡ spec.bare_names hidden.now dir.now names.now) }
{
    let mut bare = Items::new(alloc, 0)?;
    push_bare(alloc, hidden, dir, names, &mut bare)?;
    Ok(bare)
}

/// The names that a directory holds, without those of hidden paths. They stay in order.
#[tactic(auto, using(crate::proofs::NameLemmas::bare_in_order))]
pub fn bare_list(
    alloc: Global,
    hidden: &Hidden,
    dir: &[u8],
    names: &Option<Texts>,
) -> Result<Option<Texts>, NoMemory>
    requires ordered { IfSome names.now AreInOrder }
    ensures names { IfOk result (λ bare.
        bare ≡ option_map (spec.bare_names hidden.now dir.now) names.now) }
    ensures ordered { IfOk result (λ bare. IfSome bare AreInOrder) }
{
    match names {
        None => Ok(None),
        Some(names) => Ok(Some(bare_names(alloc, hidden, dir, names.as_slice())?)),
    }
}
