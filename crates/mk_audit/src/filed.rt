//! What is seen of the meta file of a node, and of the paths of its records.
ghost use Rattle.std.specs.Prelude.{◌≡◌, ◌<◌, ℕ, List, [], Option, length, unwrap_or, IfOk, OnErr};
ghost use Rattle.std.specs.Option.{option_copied};
ghost use Rattle.mk_audit.specs.Looks.{IsMetaSeen, counted, records_of as recorded};
ghost use Rattle.mk_audit.specs.Views.{filed_by};
ghost use Rattle.mk_decision.specs.Dates.{record_times};
ghost use Rattle.mk_decision.specs.Looks.{LooksAt};
ghost use Rattle.mk_decision.specs.Makers.{work_of};
ghost use Rattle.mk_decision.specs.Metas.{AreOf, IsValueOf, MetaSight, PathTimes, file_looks};
ghost use Rattle.mk_decision.specs.Metas.{meta_looks, path_looks};
ghost use Rattle.mk_decision.specs.Reasons.{first_times};
ghost use Rattle.mk_decision.specs.Sights.{SawSome};
ghost use Rattle.mk_meta.specs.TrueHistory.{meta_path};
ghost use Rattle.mk_plan.specs.Plans.{node_at};
ghost use Rattle.mk_world.specs.Causes.{HasCause};
ghost use Rattle.mk_world.specs.declared.fault.WorldFault.TheVariants.{Failed as world_failed};

use mk_bytes::{Items, NoMemory};
use mk_decision::{Maker, MetaFile, RecordTimes, look_at_records, open_meta};
use mk_filemon::Recs;
use mk_meta::Meta;
use mk_oodate::{Ages, Times};
use mk_plan::is_meta;
use mk_world::{Time, When, World, WorldFault};
use std::alloc::Global;

/// What is known of a node by times and by its meta file.
#[derive(Drop)]
pub struct Filed {
    pub times: Times,
    /// The value of its meta file, where this was looked at and has one.
    pub value: Option<Meta>,
}

// The times where no meta file is looked at.
fn timed(alloc: Global, target: When, ages: Ages) -> Result<Times, NoMemory>
    ensures { IfOk result (λ times. times ≡ first_times target ages) }
{
    Ok(Times {
        target,
        meta: When::Missing,
        sources: ages,
        reads: Items::new(alloc, 0)?,
        misses: Items::new(alloc, 0)?,
        left: Items::new(alloc, 0)?,
    })
}

// The records of a node by its meta file, where that has some and is of this name.
fn records_of<'m>(name: &[u8], value: &'m Option<Meta>) -> Option<&'m Recs>
    ensures { unwrap_or (option_copied result) [] ≡ recorded name.now value.now }
{
    let meta = value.as_ref()?;
    if meta.target.bytes() != name {
        return None;
    }
    meta.records.as_ref()
}

// Those by whose paths it may be out of date.
fn counted_of<'m>(maker: &Maker, node: u32, value: &'m Option<Meta>) -> Option<&'m Recs>
    requires { node < length maker.now.plan.now }
    ensures { unwrap_or (option_copied result) [] ≡ counted maker.now.made.now.mode
        (recorded (node_at maker.now.plan.now node).name value.now) }
{
    if maker.made.mode.nofilemon {
        return None;
    }
    records_of(maker.plan.name(node), value)
}

fn no_times(alloc: Global) -> Result<RecordTimes, NoMemory>
    ensures { IfOk result (λ times. times ≡ record { reads = []; misses = []; left = [] }) }
{
    Ok(RecordTimes {
        reads: Items::new(alloc, 0)?,
        misses: Items::new(alloc, 0)?,
        left: Items::new(alloc, 0)?,
    })
}

// The times of the paths that count by a meta file.
fn path_times<W: World>(
    maker: &Maker,
    world: &mut W,
    node: u32,
    value: &Option<Meta>,
) -> Result<RecordTimes, WorldFault>
    requires within { node < length maker.now.plan.now }
    ensures seen { IfOk result (λ times. (paths : PathTimes)
        × AreOf maker.now.made.now.mode.ignore_paths (counted maker.now.made.now.mode
        (recorded (node_at maker.now.plan.now node).name value.now)) paths
        × LooksAt W.meaning (W.history world.old) (W.history world.new) (path_looks paths)
        × (times ≡ record_times paths)) }
    ensures some { OnErr result
        (SawSome W.meaning (W.history world.old) (W.history world.new)) }
    ensures cause { HasCause world_failed (W.faults world.old) (W.faults world.new) result }
    ensures children { (kids : List ℕ) → W.runs world.old kids → W.runs world.new kids }
{
    let Some(records) = counted_of(maker, node, value) else {
        return Ok(no_times(maker.alloc)?);
    };
    let ignored = &maker.made.mode.ignore_paths;
    let mut newest = Time(0);
    look_at_records(maker.alloc, world, ignored, records, &mut newest)
}

// The meta file of a node is read, and its time is asked.
fn opened<W: World>(maker: &Maker, world: &mut W, node: u32) -> Result<MetaFile, WorldFault>
    requires within { node < length maker.now.plan.now }
    ensures seen { IfOk result (λ file. (bytes : Option (List ℕ)) × IsValueOf bytes file.value
        × LooksAt W.meaning (W.history world.old) (W.history world.new)
        (file_looks (meta_path (node_at maker.now.plan.now node).name) bytes file.when)) }
    ensures some { OnErr result
        (SawSome W.meaning (W.history world.old) (W.history world.new)) }
    ensures cause { HasCause world_failed (W.faults world.old) (W.faults world.new) result }
    ensures children { (kids : List ℕ) → W.runs world.old kids → W.runs world.new kids }
{
    let mut newest = Time(0);
    open_meta(maker.alloc, world, maker.plan.name(node), &mut newest)
}

/// What is known of a node by the time of its file, the ages of its sources, and in meta mode its
/// meta file: this is read, and each path that counts of its records is looked at.
pub fn filed_in<W: World>(
    maker: &Maker,
    world: &mut W,
    node: u32,
    target: When,
    ages: Ages,
) -> Result<Filed, WorldFault>
    requires within { node < length maker.now.plan.now }
    ensures filed { IfOk result (λ filed. (meta : Option MetaSight)
        × IsMetaSeen (work_of maker.now) node meta
        × LooksAt W.meaning (W.history world.old) (W.history world.new)
        (meta_looks (meta_path (node_at maker.now.plan.now node).name) meta)
        × (filed ≡ filed_by target ages meta)) }
    ensures some { OnErr result
        (SawSome W.meaning (W.history world.old) (W.history world.new)) }
    ensures cause { HasCause world_failed (W.faults world.old) (W.faults world.new) result }
    ensures children { (kids : List ℕ) → W.runs world.old kids → W.runs world.new kids }
{
    if !is_meta(maker.plan, &maker.made.mode, node) {
        let times = timed(maker.alloc, target, ages)?;
        return Ok(Filed { times, value: None });
    }
    let file = opened(maker, world, node)?;
    let paths = path_times(maker, world, node, &file.value)?;
    Ok(Filed {
        times: Times {
            target,
            meta: file.when,
            sources: ages,
            reads: paths.reads,
            misses: paths.misses,
            left: paths.left,
        },
        value: file.value,
    })
}
