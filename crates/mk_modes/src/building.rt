//! Builds of the targets that are asked for.
ghost use Rattle.std.specs.Prelude.{◌≡◌, List, [], Option, Ok, IfOk};
ghost use Rattle.mk_dirs.specs.Answered.{ByLooks};
ghost use Rattle.mk_graph.specs.Nodes.{names_of as graph_names};
ghost use Rattle.mk_plan.specs.Plans.{node_at, planned};
ghost use Rattle.mk_pool.specs.Pool.{AreDistinct};
ghost use Rattle.mk_plan.specs.declared.plan.PlanNode.{PlanNode};
ghost use Rattle.mk_modes.specs.Building as spec;
ghost use Rattle.mk_modes.specs.Causes as runs;
ghost use Rattle.mk_modes.specs.declared.report.End.TheVariants.{
  WorldFault as world_failed,
  SinkFault as sink_failed,
};
ghost use Rattle.mk_world.specs.declared.history.History.{History};

use crate::report::End;
use mk_bytes::{Items, NoMemory, Text};
use mk_driver::build;
use mk_flags::Flags;
use mk_graph::Made;
use mk_plan::{Plan, PlanNames, make_plan};
use mk_trace::{BuildResult, Events};
use mk_world::{Sink, World};
use std::alloc::Global;

/// How a run went before the line of its end is written: its end, the names of the nodes in plan
/// order, and what the build did.
#[derive(Drop)]
pub struct Went {
    pub end: End,
    pub plan: PlanNames,
    pub events: Events,
}

/// A run that built nothing. Takes no memory.
pub fn unbuilt(alloc: Global, end: End) -> Went
    ensures { result ≡ spec.unbuilt end }
{
    Went {
        end,
        plan: PlanNames::of(Items::new(alloc, 0).unwrap()),
        events: Events::new(alloc),
    }
}

/// Copies of the names of the nodes, in plan order.
pub fn names_of(alloc: Global, plan: &Plan) -> Result<PlanNames, NoMemory>
    ensures { IfOk result (λ names. names ≡ spec.names_of plan.now) }
{
    let mut names = Items::new(alloc, plan.len() as usize)?;
    for n in 0..plan.len() {
        names.push(Text::from_bytes(alloc, plan.name(n))?)?;
    }
    Ok(PlanNames::of(names))
}

/// The name of a node in plan order, or nothing where there is no such node.
pub fn name_at(alloc: Global, names: &PlanNames, n: u32) -> Result<Text, NoMemory>
    ensures { IfOk result (λ name. (nodes : List PlanNode) → names.now ≡ spec.names_of nodes
        → name ≡ (node_at nodes n).name) }
{
    Text::from_bytes(alloc, names.at(n))
}

/// The end of a run by that of its build, where the nodes of the plan have these names.
pub fn end_by(alloc: Global, names: &PlanNames, ended: BuildResult) -> End
    ensures { (nodes : List PlanNode) → names.now ≡ spec.names_of nodes
        → spec.IsEndOf nodes ended result }
{
    match ended {
        BuildResult::Done => End::Done,
        BuildResult::JobFailed(n, line, status) => match name_at(alloc, names, n) {
            Ok(name) => End::JobFailed(name, line, status),
            Err(_) => End::NoMemory,
        },
        BuildResult::Expand(n, line, fault) => match name_at(alloc, names, n) {
            Ok(name) => End::Expand(name, line, fault),
            Err(_) => {
                drop(fault);
                End::NoMemory
            }
        },
        BuildResult::World => End::WorldFault,
        BuildResult::Sink => End::SinkFault,
        BuildResult::NoMemory => End::NoMemory,
    }
}

// No two nodes of a graph have one name. Does nothing.
fn names_differ(made: &Made)
    ensures { AreDistinct (graph_names made.now.graph) }
{
    let _nodes = made.graph.len();
}

// Builds a plan.
fn build_plan<W: World, S: Sink>(
    alloc: Global,
    plan: Plan,
    made: &Made,
    flags: &Flags,
    world: &mut W,
    out: &mut S,
) -> Went
    requires jobs { spec.AreJobs flags.now.jobs }
    requires idle { W.runs world.old [] }
    ensures builds { (first : Option History) → ByLooks first (W.history world.old)
        (λ files. planned files made.now flags.now.requested flags.now.query ≡ Ok plan)
        → spec.Builds W.meaning made.now flags.now (spec.point first (S.held out.old))
        (spec.point (W.history world.new) (S.held out.new)) result }
    ensures world_cause { runs.EndCause world_failed (W.faults world.old) (W.faults world.new)
        result.end }
    ensures sink_cause { runs.EndCause sink_failed (S.faults out.old) (S.faults out.new)
        result.end }
    ensures idle { W.runs world.new [] }
{
    names_differ(made);
    let built = build(alloc, &plan, made, flags, world, out);
    let names = plan.into_names();
    Went {
        end: end_by(alloc, &names, built.result),
        plan: names,
        events: built.events,
    }
}

/// Makes a plan of the targets that are asked for, and builds it.
pub fn build_targets<W: World, S: Sink>(
    alloc: Global,
    made: &Made,
    flags: &Flags,
    world: &mut W,
    out: &mut S,
) -> Went
    requires jobs { spec.AreJobs flags.now.jobs }
    requires idle { W.runs world.old [] }
    ensures builds { spec.Builds W.meaning made.now flags.now
        (spec.point (W.history world.old) (S.held out.old))
        (spec.point (W.history world.new) (S.held out.new)) result }
    ensures world_cause { runs.EndCause world_failed (W.faults world.old) (W.faults world.new)
        result.end }
    ensures sink_cause { runs.EndCause sink_failed (S.faults out.old) (S.faults out.new)
        result.end }
    ensures idle { W.runs world.new [] }
{
    match make_plan(alloc, made, &flags.requested, flags.query, world) {
        Ok(plan) => build_plan(alloc, plan, made, flags, world, out),
        Err(fault) => unbuilt(alloc, End::from(fault)),
    }
}
