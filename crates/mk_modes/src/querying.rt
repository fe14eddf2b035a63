//! Queries: whether the targets that are asked for are up to date.
ghost use Rattle.std.specs.Prelude.{◌≡◌, List, [], ℕ, Option, Ok};
ghost use Rattle.mk_plan.specs.Plans.{planned};
ghost use Rattle.mk_plan.specs.declared.plan.PlanNode.{PlanNode};
ghost use Rattle.mk_modes.specs.Building.{names_of as all_names, point};
ghost use Rattle.mk_modes.specs.Causes as runs;
ghost use Rattle.mk_modes.specs.Querying as spec;
ghost use Rattle.mk_modes.specs.declared.report.End.TheVariants.{
  WorldFault as world_failed,
  SinkFault as sink_failed,
};
ghost use Rattle.mk_dirs.specs.Answered.{ByLooks};
ghost use Rattle.mk_world.specs.declared.history.History.{History};

use crate::building::{Went, name_at, unbuilt};
use crate::report::End;
use mk_flags::Flags;
use mk_graph::Made;
use mk_plan::{Plan, PlanNames, make_plan};
use mk_query::{QueryResult, query};
use mk_world::World;
use std::alloc::Global;

// The end of a run by that of its query, where the nodes of the plan have these names.
fn end_of(alloc: Global, names: &PlanNames, ended: QueryResult) -> End
    ensures end { (nodes : List PlanNode) → names.now ≡ all_names nodes
        → spec.IsEndOf nodes ended result }
    ensures no_sink { result ≡ sink_failed → ⊥ }
{
    match ended {
        QueryResult::UpToDate => End::Done,
        QueryResult::OutOfDate(n) => match name_at(alloc, names, n) {
            Ok(name) => End::NotUpToDate(name),
            Err(_) => End::NoMemory,
        },
        QueryResult::Expand(n, line, fault) => match name_at(alloc, names, n) {
            Ok(name) => End::Expand(name, line, fault),
            Err(_) => {
                drop(fault);
                End::NoMemory
            }
        },
        QueryResult::World => End::WorldFault,
        QueryResult::NoMemory => End::NoMemory,
    }
}

// Asks whether the nodes of a plan are up to date.
fn query_plan<W: World>(
    alloc: Global,
    plan: Plan,
    made: &Made,
    flags: &Flags,
    world: &mut W,
) -> Went
    requires idle { W.runs world.old [] }
    ensures queries { (first : Option History) (out : Option (List ℕ))
        → ByLooks first (W.history world.old)
        (λ files. planned files made.now flags.now.requested flags.now.query ≡ Ok plan)
        → spec.Queries made.now flags.now (point first out) (point (W.history world.new) out) result }
    ensures world_cause { runs.EndCause world_failed (W.faults world.old) (W.faults world.new)
        result.end }
    ensures no_sink { result.end ≡ sink_failed → ⊥ }
    ensures idle { W.runs world.new [] }
{
    let asked = query(alloc, &plan, made, flags, world);
    let names = plan.into_names();
    Went {
        end: end_of(alloc, &names, asked.result),
        plan: names,
        events: asked.events,
    }
}

/// Makes a plan of the targets that are asked for, and asks whether its nodes are up to date.
pub fn query_targets<W: World>(alloc: Global, made: &Made, flags: &Flags, world: &mut W) -> Went
    requires idle { W.runs world.old [] }
    ensures queries { (out : Option (List ℕ)) → spec.Queries made.now flags.now
        (point (W.history world.old) out) (point (W.history world.new) out) result }
    ensures world_cause { runs.EndCause world_failed (W.faults world.old) (W.faults world.new)
        result.end }
    ensures no_sink { result.end ≡ sink_failed → ⊥ }
    ensures idle { W.runs world.new [] }
{
    match make_plan(alloc, made, &flags.requested, flags.query, world) {
        Ok(plan) => query_plan(alloc, plan, made, flags, world),
        Err(fault) => unbuilt(alloc, End::from(fault)),
    }
}
