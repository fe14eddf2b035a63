//! Why a node is out of date, as an audit asks it.
ghost use Rattle.std.specs.Prelude.{◌≡◌, ◌<◌, length, IfOk};
ghost use Rattle.mk_audit.specs.Reasons as spec;
ghost use Rattle.mk_decision.specs.Makers.{work_of};
ghost use Rattle.mk_plan.specs.Plans.{node_at};

use mk_bytes::{Items, NoMemory};
use mk_decision::{Maker, node_mode};
use mk_graph::Attr;
use mk_meta::Meta;
use mk_oodate::{NodeMode, Times, Why, stale};
use mk_world::{Task, Time, When};
use std::alloc::Global;

fn strict(phony: bool, mode: NodeMode) -> NodeMode
    ensures { result ≡ spec.strict phony mode }
{
    NodeMode {
        always: false,
        missing_meta: true,
        missing_filemon: true,
        nofilemon: false,
        count_only: !phony && mode.count_only,
        ..mode
    }
}

// The times of a node, those of a phony one without its own and its sources'.
fn own_times(alloc: Global, phony: bool, times: Times) -> Result<Times, NoMemory>
    ensures { IfOk result (λ own. own ≡ spec.own_times phony times) }
{
    if !phony {
        return Ok(times);
    }
    Ok(Times {
        target: When::At(Time(0)),
        meta: When::Unknown,
        sources: Items::new(alloc, 0)?,
        ..times
    })
}

/// The first reason that makes a node out of date, by its task, its meta file and times.
pub fn reason_of(
    maker: &Maker,
    node: u32,
    task: &Task,
    value: &Option<Meta>,
    times: Times,
) -> Result<Option<Why>, NoMemory>
    requires { node < length maker.now.plan.now }
    ensures { IfOk result (λ why.
        why ≡ spec.reason_of (work_of maker.now) node task.now value.now times) }
{
    let phony = maker.plan.has(node, Attr::Phony);
    let mode = strict(phony, node_mode(maker.plan, &maker.made.mode, node));
    let times = own_times(maker.alloc, phony, times)?;
    Ok(stale(value.as_ref(), task, &mode, &times))
}
