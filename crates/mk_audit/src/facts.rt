//! What is found of a node.
ghost use Rattle.std.specs.Prelude.{◌≡◌, ◌<◌, length, IfOk};
ghost use Rattle.mk_audit.specs.Facts as spec;
ghost use Rattle.mk_audit.specs.Looks.{records_of as recorded};
ghost use Rattle.mk_decision.specs.Makers.{work_of};
ghost use Rattle.mk_plan.specs.Plans.{node_at};

use crate::commands::Commands;
use crate::filed::Filed;
use crate::names::is_by_newer;
use crate::reason::reason_of;
use crate::view::NodeView;
use mk_breaches::NodeFacts;
use mk_bytes::{Items, NoMemory, Text, Texts};
use mk_decision::Maker;
use mk_filemon::Recs;
use mk_graph::Attr;
use mk_meta::Meta;
use mk_oodate::{Times, Why};
use mk_plan::{Plan, is_meta};
use mk_world::Task;
use std::alloc::Global;

fn makes_file(plan: &Plan, node: u32) -> bool
    requires { node < length plan.now }
    ensures { result ≡ spec.makes_file (node_at plan.now node) }
{
    !plan.commands(node).is_empty() && !plan.has(node, Attr::Phony)
}

fn is_unmeta(plan: &Plan, node: u32) -> bool
    requires { node < length plan.now }
    ensures { result ≡ spec.is_unmeta (node_at plan.now node) }
{
    makes_file(plan, node) && (plan.has(node, Attr::NoMeta) || plan.has(node, Attr::NoMetaCmp))
}

fn is_at_fault(commands: &Commands) -> bool
    ensures { result ≡ spec.is_at_fault commands.now }
{
    commands.names.is_none() || commands.task.is_none()
}

fn is_oodate(names: &Option<Texts>, task: &Option<Task>) -> bool
    ensures { result ≡ spec.is_oodate names.now task.now }
{
    match (names, task) {
        (Some(names), Some(task)) => is_by_newer(names, task),
        _ => false,
    }
}

fn stale_of(
    maker: &Maker,
    node: u32,
    task: &Option<Task>,
    value: &Option<Meta>,
    times: Times,
) -> Result<Option<Why>, NoMemory>
    requires { node < length maker.now.plan.now }
    ensures { IfOk result (λ why. why ≡ spec.stale_of (work_of maker.now) node task.now
        (record { times = times; value = value.now })) }
{
    match task {
        Some(task) => reason_of(maker, node, task, value, times),
        None => Ok(None),
    }
}

// The records of a node, taken from its meta file.
fn records_of(alloc: Global, name: &[u8], value: Option<Meta>) -> Result<Recs, NoMemory>
    ensures { IfOk result (λ records. records ≡ recorded name.now value) }
{
    let Some(meta) = value else {
        return Items::new(alloc, 0);
    };
    let Meta {
        target,
        records,
        ..
    } = meta;
    match records {
        Some(records) if target.bytes() == name => Ok(records),
        _ => Items::new(alloc, 0),
    }
}

fn copy_places(alloc: Global, places: &[u32]) -> Result<Items<u32>, NoMemory>
    ensures { IfOk result (λ copy. copy ≡ places.now) }
{
    let mut copy = Items::new(alloc, places.len())?;
    for place in places {
        copy.push(*place)?;
    }
    Ok(copy)
}

/// What is found of a node without commands.
pub fn plain_facts(alloc: Global, plan: &Plan, node: u32) -> Result<NodeFacts, NoMemory>
    requires { node < length plan.now }
    ensures { IfOk result (λ facts. facts ≡ spec.plain_facts (node_at plan.now node)) }
{
    Ok(NodeFacts {
        name: Text::from_bytes(alloc, plan.name(node))?,
        made: false,
        sources: copy_places(alloc, plan.sources(node).as_slice())?,
        job: false,
        unmeta: false,
        task: false,
        oodate: false,
        asked: Items::new(alloc, 0)?,
        unrecorded: false,
        stale: None,
        records: Items::new(alloc, 0)?,
    })
}

/// What is found of a node with commands, by what is seen of it.
pub fn facts_of(maker: &Maker, node: u32, view: NodeView) -> Result<NodeFacts, NoMemory>
    requires { node < length maker.now.plan.now }
    ensures { IfOk result (λ facts. facts ≡ spec.facts_by (work_of maker.now) node view) }
{
    let alloc = maker.alloc;
    let plan = maker.plan;
    let NodeView { commands, filed } = view;
    let fault = is_at_fault(&commands);
    let Commands { names, asked, task } = commands;
    let Filed { times, value } = filed;
    let stale = stale_of(maker, node, &task, &value, times)?;
    Ok(NodeFacts {
        name: Text::from_bytes(alloc, plan.name(node))?,
        made: makes_file(plan, node),
        sources: copy_places(alloc, plan.sources(node).as_slice())?,
        job: true,
        unmeta: is_unmeta(plan, node),
        task: fault,
        oodate: is_oodate(&names, &task),
        asked,
        unrecorded: !is_meta(plan, &maker.made.mode, node),
        stale,
        records: records_of(alloc, plan.name(node), value)?,
    })
}
