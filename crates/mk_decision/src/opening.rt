//! Looks at meta files.
ghost use Rattle.std.specs.Prelude.{◌≡◌, ℕ, List, Option, IfOk, OnErr};
ghost use Rattle.mk_decision.specs.Looks.{LooksAt};
ghost use Rattle.mk_decision.specs.Metas as spec;
ghost use Rattle.mk_decision.specs.Newest.{raised};
ghost use Rattle.mk_decision.specs.Sights.{SawSome};
ghost use Rattle.mk_meta.specs.TrueHistory as meta;
ghost use Rattle.mk_world.specs.Causes.{HasCause};
ghost use Rattle.mk_world.specs.declared.fault.WorldFault.TheVariants.{Failed as failed};

use crate::newest::raise;
use mk_bytes::{NoMemory, Text};
use mk_meta::{Meta, meta_path, read_meta};
use mk_world::{Time, When, World, WorldFault};
use std::alloc::Global;

/// A meta file, as it was looked at.
#[derive(Drop)]
pub struct MetaFile {
    /// The value whose text it is, where it is the text of one.
    pub value: Option<Meta>,
    pub when: When,
}

fn value_of(alloc: Global, bytes: &Option<Text>) -> Result<Option<Meta>, NoMemory>
    ensures { IfOk result (λ value. spec.IsValueOf bytes.now value) }
{
    match bytes {
        Some(text) => read_meta(alloc, text.bytes()),
        None => Ok(None),
    }
}

// Reads a meta file, and then asks its time.
fn look_at_file<W: World>(
    alloc: Global,
    world: &mut W,
    path: &[u8],
    newest: &mut Time,
) -> Result<MetaFile, WorldFault>
    ensures seen { IfOk result (λ file. (bytes : Option (List ℕ)) × spec.IsValueOf bytes file.value
        × LooksAt W.meaning (W.history world.old) (W.history world.new)
        (spec.file_looks path.now bytes file.when)) }
    ensures some { OnErr result
        (SawSome W.meaning (W.history world.old) (W.history world.new)) }
    ensures newest { IfOk result (λ file. newest.new.0 ≡ raised newest.old.0 file.when) }
    ensures cause { HasCause failed (W.faults world.old) (W.faults world.new) result }
    ensures children { (kids : List ℕ) → W.runs world.old kids → W.runs world.new kids }
{
    let bytes = world.read(alloc, path)?;
    let when = world.time(alloc, path)?;
    raise(newest, when);
    let value = value_of(alloc, &bytes)?;
    Ok(MetaFile { value, when })
}

/// Reads the meta file of a target, and then asks its time.
pub fn open_meta<W: World>(
    alloc: Global,
    world: &mut W,
    target: &[u8],
    newest: &mut Time,
) -> Result<MetaFile, WorldFault>
    ensures seen { IfOk result (λ file. (bytes : Option (List ℕ)) × spec.IsValueOf bytes file.value
        × LooksAt W.meaning (W.history world.old) (W.history world.new)
        (spec.file_looks (meta.meta_path target.now) bytes file.when)) }
    ensures some { OnErr result
        (SawSome W.meaning (W.history world.old) (W.history world.new)) }
    ensures newest { IfOk result (λ file. newest.new.0 ≡ raised newest.old.0 file.when) }
    ensures cause { HasCause failed (W.faults world.old) (W.faults world.new) result }
    ensures children { (kids : List ℕ) → W.runs world.old kids → W.runs world.new kids }
{
    let path = meta_path(alloc, target)?;
    look_at_file(alloc, world, path.bytes(), newest)
}
