//! How a node is judged, by looks.
ghost use Rattle.std.specs.Prelude.{◌≡◌, ◌≢◌, ◌⊎◌, ◌<◌, ◌++◌, ℕ, List, length, Option, Ok, Err};
ghost use Rattle.std.specs.Prelude.{IfOk, OnErr};
ghost use Rattle.mk_decision.specs.Ages.{IsWalk, source_ages as ages_of};
ghost use Rattle.mk_decision.specs.Asks.{TaskAsked};
ghost use Rattle.mk_decision.specs.Decisions.{asked_questions, asked_task, mode_at, newer_of};
ghost use Rattle.mk_decision.specs.Judgements.{found_by, IsJudgement};
ghost use Rattle.mk_decision.specs.Looks.{LooksAt};
ghost use Rattle.mk_decision.specs.Makers.{work_of};
ghost use Rattle.mk_decision.specs.Metas.{MetaSight, meta_looks};
ghost use Rattle.mk_decision.specs.Newest.{judgement_whens, later_whens, node_whens, raised_all};
ghost use Rattle.mk_decision.specs.Reasons.{IsMetaSight};
ghost use Rattle.mk_decision.specs.Sights.{SawSome, seen_of};
ghost use Rattle.mk_decision.specs.declared.judgement.Judgement.TheVariants.{Judged as judged};
ghost use Rattle.mk_decision.specs.declared.judgement.Judgement.TheVariants.{Refused as refuse};
ghost use Rattle.mk_values.specs.declared.fault.ExpandFault.TheVariants.{Failed as failed};
ghost use Rattle.mk_meta.specs.TrueHistory.{meta_path};
ghost use Rattle.mk_plan.specs.Plans.{node_at};
ghost use Rattle.mk_plan.specs.Refusals.{IsOwn, without_line};
ghost use Rattle.mk_world.specs.Causes.{HasCause};
ghost use Rattle.mk_world.specs.Looks.{Seen};
ghost use Rattle.mk_world.specs.declared.fault.WorldFault.TheVariants.{Failed as world_failed};
ghost use Rattle.mk_world.specs.declared.fault.WorldFault.TheVariants.{NoMemory as no_memory};

use crate::age::source_ages;
use crate::maker::Maker;
use crate::newest::raise_by;
use crate::reason::{Found, find};
use crate::sight::{NodeTimes, look};
use crate::test::newer_names;
use mk_bytes::{NoMemory, Texts};
use mk_expand::ExpandFault;
use mk_oodate::Ages;
use mk_plan::{MadeFacts, TaskFault, task};
use mk_world::{Task, Time, When, World, WorldFault};

/// How a node is judged.
#[derive(Drop)]
pub enum Judgement {
    /// It has nothing to be made by.
    Nothing,
    /// This line of it cannot be expanded.
    Refused(u32, ExpandFault),
    /// It has this task, and this was found of it.
    Judged(Task, Found),
}

/// The task of a node, where these of its sources are newer than it. What its conditions ask is
/// asked of the makefiles and of the world.
pub fn task_in<W: World>(
    maker: &Maker,
    world: &mut W,
    node: u32,
    newer: &Texts,
) -> Result<Task, TaskFault>
    requires within { node < length maker.now.plan.now }
    ensures task { TaskAsked W.meaning (W.history world.old) (W.history world.new) result
        (λ looked. asked_task (work_of maker.now) node newer.now looked)
        (λ looked. asked_questions (work_of maker.now) node newer.now looked) }
    ensures cause { HasCause failed (W.faults world.old) (W.faults world.new)
        (without_line result) }
    ensures children { (kids : List ℕ) → W.runs world.old kids → W.runs world.new kids }
{
    let mut asked = Vec::new(maker.alloc);
    let requested = &maker.flags.requested;
    let mut facts = MadeFacts::new(maker.made, requested, world, &mut asked);
    task(
        maker.alloc,
        maker.plan,
        maker.made,
        node,
        newer,
        maker.flags,
        &mut facts,
    )
}

/// What is known of a node by times.
#[derive(Drop)]
pub struct Verdict {
    /// The names of its sources that are newer than it.
    pub newer: Texts,
    /// The ages of all its sources.
    pub ages: Ages,
}

/// What is known of a node by the times of its file and of the nodes that count for it.
pub fn judge(maker: &Maker, node: u32, times: &NodeTimes) -> Result<Verdict, NoMemory>
    requires within { node < length maker.now.plan.now }
    requires walk { IsWalk maker.now.plan.now node times.now.target times.now.sources }
    ensures newer { IfOk result (λ verdict. verdict.newer
        ≡ newer_of (work_of maker.now) node times.now.target times.now.sources) }
    ensures ages { IfOk result (λ verdict. verdict.ages
        ≡ ages_of maker.now.plan.now node times.now.sources) }
{
    let ages = source_ages(maker.alloc, maker.plan, node, &times.sources)?;
    let dated = ages.as_slice();
    let places = maker.plan.sources(node).as_slice();
    let newer = newer_names(maker.alloc, maker.plan, places, times.target, dated)?;
    Ok(Verdict { newer, ages })
}

// The judgement of a node whose task has a fault.
fn refused(fault: TaskFault) -> Result<Judgement, WorldFault>
    ensures { ((result ≡ Err no_memory) × (fault.what ≢ failed))
        ⊎ (((result ≡ Err world_failed) × (fault.what ≡ failed))
        ⊎ ((result ≡ Ok (refuse fault.line fault.what)) × IsOwn fault)) }
{
    match fault.what {
        ExpandFault::NoMemory => Err(WorldFault::NoMemory),
        ExpandFault::Failed => Err(WorldFault::Failed),
        what => Ok(Judgement::Refused(fault.line, what)),
    }
}

// The judgement of a node that has a task.
fn judgement_of<W: World>(
    maker: &Maker,
    world: &mut W,
    node: u32,
    task: Task,
    target: When,
    ages: Ages,
    newest: &mut Time,
) -> Result<Judgement, WorldFault>
    requires within { node < length maker.now.plan.now }
    ensures seen { IfOk result (λ judgement. (meta : Option MetaSight)
        × IsMetaSight maker.now.made.now.mode.ignore_paths (mode_at (work_of maker.now) node) task
        target ages meta
        × LooksAt W.meaning (W.history world.old) (W.history world.new)
        (meta_looks (meta_path (node_at maker.now.plan.now node).name) meta)
        × (judgement ≡ judged task
        (found_by (mode_at (work_of maker.now) node) task target ages meta))) }
    ensures some { OnErr result
        (SawSome W.meaning (W.history world.old) (W.history world.new)) }
    ensures newest { IfOk result (λ judgement.
        newest.new.0 ≡ raised_all newest.old.0 (later_whens judgement)) }
    ensures cause { HasCause world_failed (W.faults world.old) (W.faults world.new) result }
    ensures children { (kids : List ℕ) → W.runs world.old kids → W.runs world.new kids }
{
    match find(maker, world, node, &task, target, ages, newest) {
        Ok(found) => Ok(Judgement::Judged(task, found)),
        Err(fault) => {
            drop(task);
            Err(fault)
        }
    }
}

// The judgement of a node with commands that was looked at.
fn judgement_by<W: World>(
    maker: &Maker,
    world: &mut W,
    node: u32,
    times: &NodeTimes,
    newest: &mut Time,
) -> Result<Judgement, WorldFault>
    requires within { node < length maker.now.plan.now }
    requires some { 0 < length (node_at maker.now.plan.now node).commands }
    requires walk { IsWalk maker.now.plan.now node times.now.target times.now.sources }
    ensures judged { IfOk result (λ judgement. (more : List Seen)
        × LooksAt W.meaning (W.history world.old) (W.history world.new) more
        × (is : IsJudgement (work_of maker.now) node
        (seen_of maker.now.plan.now node times.now.target times.now.sources ++ more) judgement)
        × ((n : ℕ) → raised_all n (judgement_whens (work_of maker.now) node
        (seen_of maker.now.plan.now node times.now.target times.now.sources ++ more) judgement is)
        ≡ raised_all n (node_whens times.now.target times.now.sources ++ later_whens judgement))) }
    ensures halted { OnErr result
        (SawSome W.meaning (W.history world.old) (W.history world.new)) }
    ensures newest { IfOk result (λ judgement.
        newest.new.0 ≡ raised_all newest.old.0 (later_whens judgement)) }
    ensures cause { HasCause world_failed (W.faults world.old) (W.faults world.new) result }
    ensures children { (kids : List ℕ) → W.runs world.old kids → W.runs world.new kids }
{
    let verdict = judge(maker, node, times)?;
    match task_in(maker, world, node, &verdict.newer) {
        Err(fault) => refused(fault),
        Ok(task) => { judgement_of(maker, world, node, task, times.target, verdict.ages, newest) }
    }
}

/// The judgement of a node, by looks at what decides it. The newest known time that was told raises
/// `newest`; looks for `exists` do not count.
pub fn judge_on<W: World>(
    maker: &Maker,
    world: &mut W,
    node: u32,
    newest: &mut Time,
) -> Result<Judgement, WorldFault>
    requires within { node < length maker.now.plan.now }
    ensures judged { IfOk result (λ judgement. (seen : List Seen)
        × LooksAt W.meaning (W.history world.old) (W.history world.new) seen
        × (is : IsJudgement (work_of maker.now) node seen judgement)
        × (newest.new.0 ≡ raised_all newest.old.0
        (judgement_whens (work_of maker.now) node seen judgement is))) }
    ensures halted { OnErr result
        (SawSome W.meaning (W.history world.old) (W.history world.new)) }
    ensures cause { HasCause world_failed (W.faults world.old) (W.faults world.new) result }
    ensures children { (kids : List ℕ) → W.runs world.old kids → W.runs world.new kids }
{
    if maker.plan.commands(node).is_empty() {
        return Ok(Judgement::Nothing);
    }
    let times = look(maker.alloc, world, maker.plan, node)?;
    raise_by(newest, &times);
    judgement_by(maker, world, node, &times, newest)
}
