//! Looks at the paths that the records of a meta file name.
ghost use Rattle.std.specs.Prelude.{◌≡◌, ◌∷◌, ◌++◌, ℕ, List, [], Option, IfOk, OnErr, OnOk};
ghost use Rattle.mk_decision.specs.Dates.{AreDated, record_times};
ghost use Rattle.mk_decision.specs.Looks.{LooksAt};
ghost use Rattle.mk_decision.specs.Metas as spec;
ghost use Rattle.mk_decision.specs.Newest.{raised_all};
ghost use Rattle.mk_decision.specs.Sights.{SawSome};
ghost use Rattle.mk_world.specs.Causes.{HasCause};
ghost use Rattle.mk_world.specs.declared.fault.WorldFault.TheVariants.{Failed as failed};
ghost use Rattle.mk_world.specs.declared.history.History.{History};

use crate::newest::raise;
use mk_bytes::{Items, Text, Texts};
use mk_filemon::Recs;
use mk_oodate::{Whens, looked_at};
use mk_world::{Time, World, WorldFault};
use std::alloc::Global;

// Looks at the time at which one path more was changed last: a file that another one was moved to
// is new, however old its own time is.
fn look_at<W: World>(
    alloc: Global,
    world: &mut W,
    path: &[u8],
    whens: &mut Whens,
    newest: &mut Time,
) -> Result<(), WorldFault>
    ensures seen { OnOk result ((start : Option History) (all rest : List (List ℕ))
        → AreDated W.meaning start (W.history world.old) all (path.now ∷ rest) whens.old
        → AreDated W.meaning start (W.history world.new) all rest whens.new) }
    ensures some { OnErr result ((start : Option History) (all rest : List (List ℕ))
        → AreDated W.meaning start (W.history world.old) all rest whens.old
        → SawSome W.meaning start (W.history world.new)) }
    ensures newest { OnOk result ((start : ℕ)
        → newest.old.0 ≡ raised_all start whens.old → newest.new.0 ≡ raised_all start whens.new) }
    ensures cause { HasCause failed (W.faults world.old) (W.faults world.new) result }
    ensures children { (kids : List ℕ) → W.runs world.old kids → W.runs world.new kids }
{
    let when = world.changed(alloc, path)?;
    raise(newest, when);
    whens.push(when)?;
    Ok(())
}

// Looks at the times of the last changes of these paths, one after the other.
fn look_at_all<W: World>(
    alloc: Global,
    world: &mut W,
    paths: &[Text],
    newest: &mut Time,
) -> Result<Whens, WorldFault>
    ensures seen { IfOk result (λ whens.
        AreDated W.meaning (W.history world.old) (W.history world.new) paths.now [] whens) }
    ensures some { OnErr result
        (SawSome W.meaning (W.history world.old) (W.history world.new)) }
    ensures newest { IfOk result (λ whens. newest.new.0 ≡ raised_all newest.old.0 whens) }
    ensures cause { HasCause failed (W.faults world.old) (W.faults world.new) result }
    ensures children { (kids : List ℕ) → W.runs world.old kids → W.runs world.new kids }
{
    let mut whens = Items::new(alloc, paths.len())?;
    for path in paths {
        look_at(alloc, world, path.bytes(), &mut whens, newest)?;
    }
    Ok(whens)
}

/// The times at which the paths that records name were changed last.
#[derive(Drop)]
pub struct RecordTimes {
    /// Of those that a job found outside.
    pub reads: Whens,
    /// Of those that it missed there.
    pub misses: Whens,
    /// Of those that it left written.
    pub left: Whens,
}

/// Asks when the paths that records name were changed last, without those that begin with an
/// ignored word.
pub fn look_at_records<W: World>(
    alloc: Global,
    world: &mut W,
    ignored: &Texts,
    records: &Recs,
    newest: &mut Time,
) -> Result<RecordTimes, WorldFault>
    ensures seen { IfOk result (λ times. (paths : spec.PathTimes)
        × spec.AreOf ignored.now records.now paths
        × LooksAt W.meaning (W.history world.old) (W.history world.new) (spec.path_looks paths)
        × (times ≡ record_times paths)) }
    ensures some { OnErr result
        (SawSome W.meaning (W.history world.old) (W.history world.new)) }
    ensures newest { IfOk result (λ times. newest.new.0
        ≡ raised_all newest.old.0 (times.reads ++ (times.misses ++ times.left))) }
    ensures cause { HasCause failed (W.faults world.old) (W.faults world.new) result }
    ensures children { (kids : List ℕ) → W.runs world.old kids → W.runs world.new kids }
{
    let paths = looked_at(alloc, ignored, records)?;
    let reads = look_at_all(alloc, world, paths.found.as_slice(), newest)?;
    let misses = look_at_all(alloc, world, paths.missed.as_slice(), newest)?;
    let left = look_at_all(alloc, world, paths.left.as_slice(), newest)?;
    Ok(RecordTimes {
        reads,
        misses,
        left,
    })
}
