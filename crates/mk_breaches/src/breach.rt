//! What is breached by what is found of a plan, and by the records of its jobs.
ghost use Rattle.std.specs.Prelude.{◌≡◌, ◌<◌, ◌^◌, ◌++◌, [], length, map, IfOk, OnOk};
ghost use Rattle.std.specs.Prelude.{if◌then◌else◌};
ghost use Rattle.mk_breaches.specs.Breaches as spec;
ghost use Rattle.mk_breaches.specs.Held.{rows_in};
ghost use Rattle.mk_breaches.specs.Rows.{noted_from, no_rows};
ghost use Rattle.mk_breaches.specs.declared.breach.Breach.TheVariants as breach;

use crate::found::{push_plan, push_task, push_where};
use crate::node::{NodeFacts, Nodes, PlanFacts, is_judged};
use crate::read::{push_reads_changed, push_reads_made};
use crate::table::Table;
use crate::written::{push_changes, push_meta_paths, push_unwritten};
use mk_bytes::{Items, NoMemory, Text};
use mk_filemon::outer_reads;
use mk_oodate::Why;
use std::alloc::Global;

/// What is breached: by a plan as a whole, or by a node of it, which is told by its number.
#[derive(Drop)]
pub enum Breach {
    /// The mode is not one in which an audit holds.
    Mode,
    /// What a line of a makefile asked of a command stands on files that a build makes.
    Asks,
    /// Without the files that a build makes, the plan would be another one.
    Differs,
    /// No meta file is kept or compared for its made file.
    Unmeta(u32),
    /// Its task is a fault. No more is told of it.
    Task(u32),
    /// Its commands look up which sources are newer, or one of its lines is not compared.
    Oodate(u32),
    /// Its commands ask whether this path is there, which a build makes or changes.
    Exists(u32, Text),
    /// There are no records of it. No more is told of it.
    Unrecorded(u32),
    /// It is out of date, by this reason. No more is told of it.
    Stale(u32, Why),
    /// It reads from outside a made file on which it does not depend.
    ReadsMade(u32, Text),
    /// It reads from outside a path that is no made file and that some job changes.
    ReadsChanged(u32, Text),
    /// It changes a path other than its made file that is a node's, or that another job reads or
    /// changes.
    Changes(u32, Text),
    /// It does not leave its made file written.
    Unwritten(u32),
    /// It reads or changes a meta path, or has one as its name.
    Meta(u32, Text),
}

/// Breaches, in order.
pub type Breaches = Items<Breach>;

// Adds what the outer reads of a node breach.
fn push_reads(
    alloc: Global,
    nodes: &[NodeFacts],
    table: &Table,
    n: u32,
    node: &NodeFacts,
    all: &mut Breaches,
) -> Result<(), NoMemory>
    requires { rows_in table.now ≡ noted_from 0 no_rows nodes.now }
    ensures { OnOk result (all.new ≡ all.old
        ++ (map (breach.ReadsMade n) (spec.reads_made nodes.now n node.now)
        ++ map (breach.ReadsChanged n) (spec.reads_changed nodes.now node.now))) }
{
    let reads = outer_reads(alloc, &node.records)?;
    push_reads_made(alloc, nodes, table, n, reads.as_slice(), all)?;
    push_reads_changed(alloc, nodes, table, n, reads.as_slice(), all)
}

// Adds what the records of a node breach.
fn push_records(
    alloc: Global,
    nodes: &[NodeFacts],
    table: &Table,
    n: u32,
    node: &NodeFacts,
    all: &mut Breaches,
) -> Result<(), NoMemory>
    requires { rows_in table.now ≡ noted_from 0 no_rows nodes.now }
    ensures { OnOk result
        (all.new ≡ all.old ++ spec.record_breaches nodes.now n node.now) }
{
    push_reads(alloc, nodes, table, n, node, all)?;
    push_changes(alloc, nodes, table, n, node, all)?;
    push_unwritten(alloc, n, node, all)?;
    push_meta_paths(alloc, n, node, all)
}

// Adds what is found of a node that has a job.
fn push_job(
    alloc: Global,
    nodes: &[NodeFacts],
    table: &Table,
    n: u32,
    node: &NodeFacts,
    all: &mut Breaches,
) -> Result<(), NoMemory>
    requires { rows_in table.now ≡ noted_from 0 no_rows nodes.now }
    ensures { OnOk result (all.new ≡ all.old ++ (if node.now.job
        then spec.told_where node.now.unmeta (breach.Unmeta n) ++ spec.task_breaches nodes.now n node.now
        else [])) }
{
    if !node.job {
        return Ok(());
    }
    push_where(node.unmeta, Breach::Unmeta(n), all)?;
    push_task(alloc, nodes, table, n, node, all)
}

// Adds what a node breaches: what is found of it, and what its records breach where they are
// judged.
fn push_node(
    alloc: Global,
    nodes: &[NodeFacts],
    table: &Table,
    n: u32,
    node: &NodeFacts,
    all: &mut Breaches,
) -> Result<(), NoMemory>
    requires { rows_in table.now ≡ noted_from 0 no_rows nodes.now }
    ensures { OnOk result (all.new ≡ all.old ++ spec.breaches_of nodes.now n node.now) }
{
    push_job(alloc, nodes, table, n, node, all)?;
    if is_judged(node) {
        push_records(alloc, nodes, table, n, node, all)?;
    }
    Ok(())
}

fn push_nodes(
    alloc: Global,
    nodes: &[NodeFacts],
    table: &Table,
    all: &mut Breaches,
) -> Result<(), NoMemory>
    requires few { length nodes.now < 2 ^ 32 }
    requires table { rows_in table.now ≡ noted_from 0 no_rows nodes.now }
    ensures { OnOk result (all.new ≡ all.old ++ spec.breaches_from nodes.now 0 nodes.now) }
{
    for (n, node) in nodes.iter().enumerate() {
        push_node(alloc, nodes, table, n as u32, node, all)?;
    }
    Ok(())
}

/// What is breached: first by the plan as a whole, then by node in the order of the plan. Of a node
/// without commands nothing is told, and behind a task that is a fault, records that are missing or
/// a reason that makes a node out of date no more is told of it. Each kind has its paths in the
/// order of first record, or of first asking, each path once. It takes about constant time a
/// record, and one walk over what a node depends on for each node that reads a made file which is
/// no source of it.
pub fn breaches(alloc: Global, plan: PlanFacts, nodes: &Nodes) -> Result<Breaches, NoMemory>
    ensures { IfOk result (λ all. all ≡ spec.breaches plan nodes.now) }
{
    let table = Table::of(alloc, nodes.as_slice())?;
    let mut all = Items::new(alloc, 0)?;
    push_plan(plan, &mut all)?;
    push_nodes(alloc, nodes.as_slice(), &table, &mut all)?;
    Ok(all)
}
