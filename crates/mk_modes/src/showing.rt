//! Dry runs: what a build of the targets that are asked for would do.
ghost use Rattle.std.specs.Prelude.{◌≡◌, [], Option, Ok};
ghost use Rattle.mk_plan.specs.Plans.{planned};
ghost use Rattle.mk_modes.specs.Building.{point};
ghost use Rattle.mk_modes.specs.Causes as runs;
ghost use Rattle.mk_modes.specs.Showing as spec;
ghost use Rattle.mk_modes.specs.declared.report.End.TheVariants.{
  WorldFault as world_failed,
  SinkFault as sink_failed,
};
ghost use Rattle.mk_dirs.specs.Answered.{ByLooks};
ghost use Rattle.mk_world.specs.declared.history.History.{History};

use crate::building::{Went, end_by, names_of, unbuilt};
use crate::report::End;
use mk_dry::dry_run;
use mk_flags::Flags;
use mk_graph::Made;
use mk_plan::{Plan, make_plan};
use mk_world::{Sink, World};
use std::alloc::Global;

// Shows what is to be done of a plan.
fn show_plan<W: World, S: Sink>(
    alloc: Global,
    plan: Plan,
    made: &Made,
    flags: &Flags,
    world: &mut W,
    out: &mut S,
) -> Went
    requires idle { W.runs world.old [] }
    ensures shows { (first : Option History) → ByLooks first (W.history world.old)
        (λ files. planned files made.now flags.now.requested flags.now.query ≡ Ok plan)
        → spec.Shows W.meaning made.now flags.now (point first (S.held out.old))
        (point (W.history world.new) (S.held out.new)) result }
    ensures world_cause { runs.EndCause world_failed (W.faults world.old) (W.faults world.new)
        result.end }
    ensures sink_cause { runs.EndCause sink_failed (S.faults out.old) (S.faults out.new)
        result.end }
    ensures idle { W.runs world.new [] }
{
    let Ok(names) = names_of(alloc, &plan) else {
        drop(plan);
        return unbuilt(alloc, End::NoMemory);
    };
    let shown = dry_run(alloc, plan, made, flags, world, out);
    Went {
        end: end_by(alloc, &names, shown.result),
        plan: names,
        events: shown.events,
    }
}

/// Makes a plan of the targets that are asked for, and shows on `out` what a build of it would do.
pub fn show_targets<W: World, S: Sink>(
    alloc: Global,
    made: &Made,
    flags: &Flags,
    world: &mut W,
    out: &mut S,
) -> Went
    requires idle { W.runs world.old [] }
    ensures shows { spec.Shows W.meaning made.now flags.now
        (point (W.history world.old) (S.held out.old))
        (point (W.history world.new) (S.held out.new)) result }
    ensures world_cause { runs.EndCause world_failed (W.faults world.old) (W.faults world.new)
        result.end }
    ensures sink_cause { runs.EndCause sink_failed (S.faults out.old) (S.faults out.new)
        result.end }
    ensures idle { W.runs world.new [] }
{
    match make_plan(alloc, made, &flags.requested, flags.query, world) {
        Ok(plan) => show_plan(alloc, plan, made, flags, world, out),
        Err(fault) => unbuilt(alloc, End::from(fault)),
    }
}
