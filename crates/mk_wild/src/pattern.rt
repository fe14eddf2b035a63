//! For which paths a name stands, as the files stand.
ghost use Rattle.std.specs.Prelude.{◌≡◌, ◌∷◌, [], ℕ, List, false, true, IfOk, OnErr};
ghost use Rattle.mk_world.specs.Calls.{Adds, OwnNothing};
ghost use Rattle.mk_world.specs.Causes.{HasCause};
ghost use Rattle.mk_world.specs.Listings.{AreInOrder};
ghost use Rattle.mk_world.specs.declared.fault.WorldFault.TheVariants.{Failed};
ghost use Rattle.mk_wild.specs.Names as spec;
ghost use Rattle.mk_wild.specs.Wild.{IsTaken, OwnAtMost};

use crate::name::{directory_of, is_pattern};
use crate::paths::push_taken;
use mk_bytes::{Items, NoMemory, Text, Texts};
use mk_world::{World, WorldFault};
use std::alloc::Global;

// A name that stands for itself.
fn itself(alloc: Global, name: &[u8]) -> Result<Texts, NoMemory>
    ensures { IfOk result (λ paths. paths ≡ name.now ∷ []) }
{
    let mut paths = Items::new(alloc, 1)?;
    paths.push(Text::from_bytes(alloc, name)?)?;
    Ok(paths)
}

/// For which paths a clean name stands: a pattern for those in its directory whose last component
/// matches, in the order of their bytes, each once, and any other name for itself. A component that
/// begins with `.` is matched by a pattern alone that does. Its directory is looked at once;
/// without wildcards nothing is looked at. The faults are those of the world.
pub fn wild<W: World>(alloc: Global, name: &[u8], world: &mut W) -> Result<Texts, WorldFault>
    ensures plain { spec.is_pattern name.now ≡ false → IfOk result (λ paths. paths ≡ name.now ∷ []) }
    ensures nothing { spec.is_pattern name.now ≡ false → Adds W.meaning (W.history world.old)
        (W.history world.new) OwnNothing }
    ensures matched { spec.is_pattern name.now ≡ true → IfOk result
        (IsTaken W.meaning (W.history world.old) (W.history world.new) name.now) }
    ensures ordered { IfOk result AreInOrder }
    ensures refused { OnErr result (Adds W.meaning (W.history world.old) (W.history world.new)
        (OwnAtMost (spec.directory_of name.now))) }
    ensures cause { HasCause Failed (W.faults world.old) (W.faults world.new) result }
    ensures children { (kids : List ℕ) → W.runs world.old kids → W.runs world.new kids }
{
    if !is_pattern(name) {
        return Ok(itself(alloc, name)?);
    }
    let names = world.list(alloc, directory_of(name))?;
    let mut paths = Items::new(alloc, 0)?;
    push_taken(alloc, &mut paths, name, names.as_ref())?;
    Ok(paths)
}
