//! What is breached by what is found of a plan and its nodes, before any record counts.
ghost use Rattle.std.specs.Prelude.{◌≡◌, ◌<◌, ◌++◌, ◌∷◌, ◌&&◌, ◌||◌, [], not, filter, is_none, map};
ghost use Rattle.std.specs.Prelude.{OnOk};
ghost use Rattle.std.specs.Prelude.{if◌then◌else◌};
ghost use Rattle.mk_breaches.specs.Breaches as spec;
ghost use Rattle.mk_breaches.specs.Held.{rows_in};
ghost use Rattle.mk_breaches.specs.Paths.{is_meta_path as ends_as_meta};
ghost use Rattle.mk_breaches.specs.Rows.{noted_from, no_rows};
ghost use Rattle.mk_breaches.specs.declared.breach.Breach.TheVariants as breach;

use crate::breach::{Breach, Breaches};
use crate::node::{NodeFacts, PlanFacts};
use crate::path::{Paths, is_meta_path};
use crate::table::{Row, Table};
use mk_bytes::{NoMemory, Text};
use mk_oodate::Why;
use std::alloc::Global;

/// Adds a breach, where there is one.
pub fn push_where(is: bool, breach: Breach, all: &mut Breaches) -> Result<(), NoMemory>
    ensures { OnOk result (all.new ≡ all.old ++ spec.told_where is breach) }
{
    if is {
        all.push(breach)?;
    }
    Ok(())
}

/// Adds what is breached by a plan as a whole.
pub fn push_plan(plan: PlanFacts, all: &mut Breaches) -> Result<(), NoMemory>
    ensures { OnOk result (all.new ≡ all.old ++ spec.plan_breaches plan) }
{
    push_where(plan.mode, Breach::Mode, all)?;
    push_where(plan.asks, Breach::Asks, all)?;
    push_where(!plan.asks && plan.differs, Breach::Differs, all)
}

// Whether what stands at a path is made by a build, or changed by some job.
fn is_unsettled(path: &[u8], row: Row) -> bool
    ensures { result ≡ ((not (is_none row.maker) || ends_as_meta path.now) || row.changed) }
{
    row.maker.is_some() || is_meta_path(path) || row.changed
}

impl<'r> Paths<'r> {
    // Adds those that a build makes or changes.
    fn push_unsettled(
        &self,
        alloc: Global,
        table: &Table,
        n: u32,
        all: &mut Breaches,
    ) -> Result<(), NoMemory>
        ensures { OnOk result (all.new ≡ all.old ++ map (breach.Exists n)
            (filter (λ path. (not (is_none (rows_in table.now path).maker) || ends_as_meta path)
            || (rows_in table.now path).changed) self.now)) }
    {
        for path in self.paths.iter() {
            if is_unsettled(*path, table.row(*path)) {
                all.push(Breach::Exists(n, Text::from_bytes(alloc, *path)?))?;
            }
        }
        Ok(())
    }
}

// Adds the paths of which a node's commands ask whether they are there, and that a build makes or
// changes.
fn push_exists(
    alloc: Global,
    nodes: &[NodeFacts],
    table: &Table,
    n: u32,
    node: &NodeFacts,
    all: &mut Breaches,
) -> Result<(), NoMemory>
    requires { rows_in table.now ≡ noted_from 0 no_rows nodes.now }
    ensures { OnOk result
        (all.new ≡ all.old ++ map (breach.Exists n) (spec.exists nodes.now node.now)) }
{
    let asked = Paths::of(alloc, node.asked.as_slice())?;
    asked.push_unsettled(alloc, table, n, all)
}

fn push_stale(n: u32, stale: Option<Why>, all: &mut Breaches) -> Result<(), NoMemory>
    ensures { OnOk result (all.new ≡ all.old ++ spec.stale_breaches n stale) }
{
    if let Some(why) = stale {
        all.push(Breach::Stale(n, why))?;
    }
    Ok(())
}

// Adds that a node has no records, or why they are stale.
fn push_state(n: u32, node: &NodeFacts, all: &mut Breaches) -> Result<(), NoMemory>
    ensures { OnOk result (all.new ≡ all.old ++ spec.state_breaches n node.now) }
{
    if node.unrecorded {
        return Ok(all.push(Breach::Unrecorded(n))?);
    }
    push_stale(n, node.stale, all)
}

/// Adds what a node's task breaches, and then the state of its records; where the task is a fault,
/// that alone.
pub fn push_task(
    alloc: Global,
    nodes: &[NodeFacts],
    table: &Table,
    n: u32,
    node: &NodeFacts,
    all: &mut Breaches,
) -> Result<(), NoMemory>
    requires { rows_in table.now ≡ noted_from 0 no_rows nodes.now }
    ensures { OnOk result (all.new ≡ all.old ++ spec.task_breaches nodes.now n node.now) }
{
    if node.task {
        return Ok(all.push(Breach::Task(n))?);
    }
    push_where(node.oodate, Breach::Oodate(n), all)?;
    push_exists(alloc, nodes, table, n, node, all)?;
    push_state(n, node, all)
}
