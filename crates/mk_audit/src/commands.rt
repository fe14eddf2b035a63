//! What the commands of a node look up, and its task.
ghost use Rattle.std.specs.Prelude.{◌≡◌, ◌≢◌, ◌⊎◌, ◌<◌, ◌↔◌, ◌++◌, ℕ, List, map, length};
ghost use Rattle.std.specs.Prelude.{None as none, Ok, Err, IfOk, OnErr};
ghost use Rattle.mk_audit.specs.Looks.{IsAllAsked, asked_names};
ghost use Rattle.mk_audit.specs.Views as spec;
ghost use Rattle.mk_audit.specs.Walks.{FoundNames, FoundTask, NamesAsked};
ghost use Rattle.mk_decision.specs.Decisions.{asked_questions, asked_task};
ghost use Rattle.mk_decision.specs.Looks.{LooksAt};
ghost use Rattle.mk_decision.specs.Makers.{work_of};
ghost use Rattle.mk_decision.specs.Metas.{paths_in};
ghost use Rattle.mk_decision.specs.Sights.{SawSome};
ghost use Rattle.mk_plan.specs.Refusals.{IsOwn, without_line};
ghost use Rattle.mk_values.specs.declared.facts.Asked.{Asked as Question};
ghost use Rattle.mk_values.specs.declared.fault.ExpandFault.TheVariants.{Failed as failed};
ghost use Rattle.mk_world.specs.Causes.{HasCause};
ghost use Rattle.mk_world.specs.Looks.{Dated, dated};
ghost use Rattle.mk_world.specs.declared.fault.WorldFault.TheVariants.{Failed as world_failed};
ghost use Rattle.mk_world.specs.declared.fault.WorldFault.TheVariants.{NoMemory as no_memory};

use mk_bytes::{Items, NoMemory, Texts};
use mk_decision::{Maker, task_in};
use mk_expand::{Asked, ExpandFault};
use mk_plan::{MadeFacts, TaskFault, task_names};
use mk_world::{Task, World, WorldFault};
use std::alloc::Global;

/// What is found of the commands of a node.
#[derive(Drop)]
pub struct Commands {
    /// The names that they look up, or none where the task is a fault.
    pub names: Option<Texts>,
    /// The paths of which they ask whether they are there, in the order of asking.
    pub asked: Texts,
    /// The task, or none where it is a fault.
    pub task: Option<Task>,
}

fn paths_of(alloc: Global, asked: &[Asked]) -> Result<Texts, NoMemory>
    ensures { IfOk result (λ paths. paths ≡ map (λ (one : Question). one.path) asked.now) }
{
    let mut paths = Items::new(alloc, 0)?;
    for one in asked {
        paths.push(one.path.copy(alloc)?)?;
    }
    Ok(paths)
}

// What is looked up, and which paths were asked of meanwhile.
#[derive(Drop)]
struct Lookup {
    names: Result<Texts, TaskFault>,
    asked: Result<Texts, NoMemory>,
}

// The names that the task of a node looks up where these of its sources are newer. What its
// conditions ask is asked of the makefiles and of the world.
fn names_in<W: World>(maker: &Maker, world: &mut W, node: u32, newer: &Texts) -> Lookup
    requires within { node < length maker.now.plan.now }
    ensures names { NamesAsked W.meaning (W.history world.old) (W.history world.new)
        result.asked result.names (asked_names (work_of maker.now) node newer.now)
        (asked_questions (work_of maker.now) node newer.now) }
    ensures cause { HasCause failed (W.faults world.old) (W.faults world.new)
        (without_line result.names) }
    ensures children { (kids : List ℕ) → W.runs world.old kids → W.runs world.new kids }
{
    let mut asked = Vec::new(maker.alloc);
    let requested = &maker.flags.requested;
    let mut facts = MadeFacts::new(maker.made, requested, world, &mut asked);
    let names = task_names(
        maker.alloc,
        maker.plan,
        maker.made,
        node,
        newer,
        maker.flags,
        &mut facts,
    );
    let asked = paths_of(maker.alloc, facts.asked());
    Lookup { names, asked }
}

// The names of a task, and the paths that were asked of.
#[derive(Drop)]
struct Named {
    names: Option<Texts>,
    asked: Texts,
}

fn named_of(names: Option<Texts>, asked: Result<Texts, NoMemory>) -> Result<Named, WorldFault>
    ensures names { IfOk result (λ named. named.names ≡ names) }
    ensures asked { IfOk result (λ named. asked ≡ Ok named.asked) }
    ensures own { result ≢ Err world_failed }
{
    let asked = asked?;
    Ok(Named { names, asked })
}

// Where there are no names: the task has a fault of the makefiles, or the outside failed.
fn unnamed(fault: TaskFault, asked: Result<Texts, NoMemory>) -> Result<Named, WorldFault>
    ensures own { IfOk result (λ named. IsOwn fault) }
    ensures names { IfOk result (λ named. named.names ≡ none) }
    ensures asked { IfOk result (λ named. asked ≡ Ok named.asked) }
    ensures failed { (result ≡ Err world_failed) ↔ (fault.what ≡ failed) }
{
    match fault.what {
        ExpandFault::NoMemory => Err(WorldFault::NoMemory),
        ExpandFault::Failed => Err(WorldFault::Failed),
        _ => named_of(None, asked),
    }
}

fn named_in<W: World>(
    maker: &Maker,
    world: &mut W,
    node: u32,
    newer: &Texts,
) -> Result<Named, WorldFault>
    requires within { node < length maker.now.plan.now }
    ensures named { IfOk result (λ named.
        (found : FoundNames W.meaning (W.history world.old) (W.history world.new)
        (work_of maker.now) node newer.now named.names)
        × (named.asked ≡ paths_in found.dates)) }
    ensures some { OnErr result
        (SawSome W.meaning (W.history world.old) (W.history world.new)) }
    ensures cause { HasCause world_failed (W.faults world.old) (W.faults world.new) result }
    ensures children { (kids : List ℕ) → W.runs world.old kids → W.runs world.new kids }
{
    let Lookup { names, asked } = names_in(maker, world, node, newer);
    match names {
        Ok(names) => named_of(Some(names), asked),
        Err(fault) => unnamed(fault, asked),
    }
}

// Where there is no task.
fn no_task(fault: TaskFault) -> Result<Option<Task>, WorldFault>
    ensures { ((result ≡ Err no_memory) × (fault.what ≢ failed))
        ⊎ (((result ≡ Err world_failed) × (fault.what ≡ failed))
        ⊎ ((result ≡ Ok none) × IsOwn fault)) }
{
    match fault.what {
        ExpandFault::NoMemory => Err(WorldFault::NoMemory),
        ExpandFault::Failed => Err(WorldFault::Failed),
        _ => Ok(None),
    }
}

// The task of a node, or none where it is a fault.
fn task_of<W: World>(
    maker: &Maker,
    world: &mut W,
    node: u32,
    newer: &Texts,
) -> Result<Option<Task>, WorldFault>
    requires within { node < length maker.now.plan.now }
    ensures task { IfOk result (λ task.
        FoundTask W.meaning (W.history world.old) (W.history world.new)
        (work_of maker.now) node newer.now task) }
    ensures some { OnErr result
        (SawSome W.meaning (W.history world.old) (W.history world.new)) }
    ensures cause { HasCause world_failed (W.faults world.old) (W.faults world.new) result }
    ensures children { (kids : List ℕ) → W.runs world.old kids → W.runs world.new kids }
{
    match task_in(maker, world, node, newer) {
        Ok(task) => Ok(Some(task)),
        Err(fault) => no_task(fault),
    }
}

/// What the commands of a node look up and ask, where these of its sources are newer, and then its
/// task.
pub fn commands_in<W: World>(
    maker: &Maker,
    world: &mut W,
    node: u32,
    newer: &Texts,
) -> Result<Commands, WorldFault>
    requires within { node < length maker.now.plan.now }
    ensures commands { IfOk result (λ commands. (named asked : List Dated)
        × LooksAt W.meaning (W.history world.old) (W.history world.new)
        (map dated named ++ map dated asked)
        × IsAllAsked (asked_names (work_of maker.now) node newer.now named)
        (asked_questions (work_of maker.now) node newer.now named) named
        × IsAllAsked (asked_task (work_of maker.now) node newer.now asked)
        (asked_questions (work_of maker.now) node newer.now asked) asked
        × (commands ≡ spec.commands_by (work_of maker.now) node newer.now named asked)) }
    ensures some { OnErr result
        (SawSome W.meaning (W.history world.old) (W.history world.new)) }
    ensures cause { HasCause world_failed (W.faults world.old) (W.faults world.new) result }
    ensures children { (kids : List ℕ) → W.runs world.old kids → W.runs world.new kids }
{
    let named = named_in(maker, world, node, newer)?;
    let task = task_of(maker, world, node, newer)?;
    Ok(Commands {
        names: named.names,
        asked: named.asked,
        task,
    })
}
