//! Why a node is out of date. Each look is made only where what was seen before gives no reason.
ghost use Rattle.std.specs.Prelude.{◌≡◌, ◌<◌, ◌++◌, ℕ, List, [], Option, None, true, false, length};
ghost use Rattle.std.specs.Prelude.{unwrap_or, IfOk, OnErr};
ghost use Rattle.std.specs.Option.{option_copied};
ghost use Rattle.mk_decision.specs.Decisions.{mode_at};
ghost use Rattle.mk_decision.specs.Judgements.{found_by};
ghost use Rattle.mk_decision.specs.Looks.{LooksAt};
ghost use Rattle.mk_decision.specs.Makers.{work_of};
ghost use Rattle.mk_decision.specs.Metas.{AreOf, MetaSight, PathTimes, meta_looks, no_paths};
ghost use Rattle.mk_decision.specs.Metas.{path_looks, records_in as records_of};
ghost use Rattle.mk_decision.specs.Newest.{raised_all, times_whens};
ghost use Rattle.mk_decision.specs.Reasons as spec;
ghost use Rattle.mk_decision.specs.Sights.{SawSome};
ghost use Rattle.mk_meta.specs.TrueHistory.{meta_path};
ghost use Rattle.mk_oodate.specs.Stale as test;
ghost use Rattle.mk_plan.specs.Plans.{node_at};
ghost use Rattle.mk_world.specs.Causes.{HasCause};
ghost use Rattle.mk_world.specs.declared.fault.WorldFault.TheVariants.{Failed as failed};

use crate::maker::Maker;
use crate::opening::open_meta;
use crate::paths::look_at_records;
use crate::test::node_mode;
use mk_bytes::{Items, NoMemory};
use mk_filemon::Recs;
use mk_meta::Meta;
use mk_oodate::{Ages, NodeMode, Times, Why, stale};
use mk_world::{Task, Time, When, World, WorldFault};
use std::alloc::Global;

/// What was found of a node that has a task.
#[derive(Drop)]
pub struct Found {
    /// Why it is out of date, or `None` where it is not.
    pub why: Option<Why>,
    /// What the test went by.
    pub times: Times,
    /// The value of its meta file, where this was looked at and has one.
    pub value: Option<Meta>,
}

// The times where only the target and the sources were looked at.
fn first_times(alloc: Global, target: When, ages: Ages) -> Result<Times, NoMemory>
    ensures { IfOk result (λ times. times ≡ spec.first_times target ages) }
{
    Ok(Times {
        target,
        meta: When::Missing,
        sources: ages,
        reads: Items::new(alloc, 0)?,
        misses: Items::new(alloc, 0)?,
        left: Items::new(alloc, 0)?,
    })
}

// The reason by what was seen so far.
fn reason_by(value: &Option<Meta>, task: &Task, mode: &NodeMode, times: &Times) -> Option<Why>
    ensures { result ≡ test.stale value.now task.now mode.now times.now }
{
    stale(value.as_ref(), task, mode, times)
}

// The reason by times alone.
fn by_times(mode: NodeMode, task: &Task, times: &Times) -> Option<Why>
    ensures { result ≡ test.stale None task.now (record mode { meta = false }) times.now }
{
    let timed = NodeMode {
        meta: false,
        ..mode
    };
    stale(None, task, &timed, times)
}

// The records that count, where there are any.
fn records_in<'m>(mode: &NodeMode, task: &Task, value: &'m Option<Meta>) -> Option<&'m Recs>
    ensures { unwrap_or (option_copied result) [] ≡ records_of mode.now task.now value.now }
{
    let meta = value.as_ref()?;
    if mode.nofilemon || meta.target.bytes() != task.target.bytes() {
        return None;
    }
    meta.records.as_ref()
}

// The times, with those of the paths that count by a meta file.
fn with_records<W: World>(
    maker: &Maker,
    world: &mut W,
    mode: &NodeMode,
    task: &Task,
    value: &Option<Meta>,
    times: Times,
    newest: &mut Time,
) -> Result<Times, WorldFault>
    requires bare { times ≡ spec.with_paths no_paths times }
    ensures seen { IfOk result (λ after. (paths : PathTimes)
        × AreOf maker.now.made.now.mode.ignore_paths (records_of mode.now task.now value.now) paths
        × LooksAt W.meaning (W.history world.old) (W.history world.new) (path_looks paths)
        × (after ≡ spec.with_paths paths times)) }
    ensures some { OnErr result
        (SawSome W.meaning (W.history world.old) (W.history world.new)) }
    ensures newest { IfOk result (λ after. newest.new.0
        ≡ raised_all newest.old.0 (after.reads ++ (after.misses ++ after.left))) }
    ensures cause { HasCause failed (W.faults world.old) (W.faults world.new) result }
    ensures children { (kids : List ℕ) → W.runs world.old kids → W.runs world.new kids }
{
    let Some(records) = records_in(mode, task, value) else {
        return Ok(times);
    };
    let ignored = &maker.made.mode.ignore_paths;
    let seen = look_at_records(maker.alloc, world, ignored, records, newest)?;
    Ok(Times {
        reads: seen.reads,
        misses: seen.misses,
        left: seen.left,
        ..times
    })
}

// What is found of a node by its meta file, where times give no reason.
fn by_meta<W: World>(
    maker: &Maker,
    world: &mut W,
    node: u32,
    mode: &NodeMode,
    task: &Task,
    times: Times,
    newest: &mut Time,
) -> Result<Found, WorldFault>
    requires within { node < length maker.now.plan.now }
    requires bare { times ≡ spec.first_times times.target times.sources }
    requires opened { spec.is_opened mode.now task.now times.target times.sources ≡ true }
    ensures seen { IfOk result (λ found. (meta : Option MetaSight)
        × spec.IsMetaSight maker.now.made.now.mode.ignore_paths mode.now task.now
        times.target times.sources meta
        × LooksAt W.meaning (W.history world.old) (W.history world.new)
        (meta_looks (meta_path (node_at maker.now.plan.now node).name) meta)
        × (found ≡ found_by mode.now task.now times.target times.sources meta)) }
    ensures some { OnErr result
        (SawSome W.meaning (W.history world.old) (W.history world.new)) }
    ensures newest { IfOk result (λ found. newest.new.0
        ≡ raised_all newest.old.0 (times_whens found.times)) }
    ensures cause { HasCause failed (W.faults world.old) (W.faults world.new) result }
    ensures children { (kids : List ℕ) → W.runs world.old kids → W.runs world.new kids }
{
    let file = open_meta(maker.alloc, world, maker.plan.name(node), newest)?;
    let times = Times {
        meta: file.when,
        ..times
    };
    let why = reason_by(&file.value, task, mode, &times);
    if why.is_some() {
        return Ok(Found {
            why,
            times,
            value: file.value,
        });
    }
    let times = with_records(maker, world, mode, task, &file.value, times, newest)?;
    Ok(Found {
        why: reason_by(&file.value, task, mode, &times),
        times,
        value: file.value,
    })
}

/// What is found of a node by its task, the time of its file and the ages of its sources. In meta
/// mode its meta file is looked at where these give no reason, and where that gives none either, so
/// is each path that counts of its records.
pub fn find<W: World>(
    maker: &Maker,
    world: &mut W,
    node: u32,
    task: &Task,
    target: When,
    ages: Ages,
    newest: &mut Time,
) -> Result<Found, WorldFault>
    requires within { node < length maker.now.plan.now }
    ensures seen { IfOk result (λ found. (meta : Option MetaSight)
        × spec.IsMetaSight maker.now.made.now.mode.ignore_paths (mode_at (work_of maker.now) node)
        task.now target ages meta
        × LooksAt W.meaning (W.history world.old) (W.history world.new)
        (meta_looks (meta_path (node_at maker.now.plan.now node).name) meta)
        × (found ≡ found_by (mode_at (work_of maker.now) node) task.now target ages meta)) }
    ensures some { OnErr result
        (SawSome W.meaning (W.history world.old) (W.history world.new)) }
    ensures newest { IfOk result (λ found. newest.new.0
        ≡ raised_all newest.old.0 (times_whens found.times)) }
    ensures cause { HasCause failed (W.faults world.old) (W.faults world.new) result }
    ensures children { (kids : List ℕ) → W.runs world.old kids → W.runs world.new kids }
{
    let mode = node_mode(maker.plan, &maker.made.mode, node);
    let times = first_times(maker.alloc, target, ages)?;
    let why = by_times(mode, task, &times);
    if !mode.meta || why.is_some() {
        return Ok(Found {
            why,
            times,
            value: None,
        });
    }
    by_meta(maker, world, node, &mode, task, times, newest)
}
