//! Explanations: why the targets that are asked for are out of date.
ghost use Rattle.std.specs.Prelude.{◌≡◌, ◌⊎◌, List, [], Option, Result, Ok, false, OnOk, OnErr};
ghost use Rattle.mk_decision.specs.Makers.{work_on};
ghost use Rattle.mk_explain.specs.declared.fault.ExplainFault.{ExplainFault as Fault};
ghost use Rattle.mk_explain.specs.declared.fault.ExplainFault.TheVariants.{Failed as failed_fault};
ghost use Rattle.mk_explain.specs.declared.reason.Reason.{Reason as Told};
ghost use Rattle.mk_plan.specs.Plans.{planned};
ghost use Rattle.mk_plan.specs.declared.plan.PlanNode.{PlanNode};
ghost use Rattle.mk_modes.specs.Building.{point, names_of as all_names};
ghost use Rattle.mk_modes.specs.Causes as runs;
ghost use Rattle.mk_modes.specs.Ends.{of_explain};
ghost use Rattle.mk_modes.specs.Explaining as spec;
ghost use Rattle.mk_modes.specs.declared.report.End.TheVariants.{
  WorldFault as world_failed,
  SinkFault as sink_failed,
  NoMemory as no_memory,
};
ghost use Rattle.mk_world.specs.Causes.{HasCause};
ghost use Rattle.mk_dirs.specs.Answered.{ByLooks};
ghost use Rattle.mk_world.specs.Looks.{OnlyLooked};
ghost use Rattle.mk_world.specs.Sinks.{Gains, GainsPart};
ghost use Rattle.mk_world.specs.declared.fault.SinkFault.TheVariants.{Failed};
ghost use Rattle.mk_world.specs.declared.history.History.{History};

use crate::building::{Went, name_at, names_of, unbuilt};
use crate::report::End;
use mk_explain::{ExplainFault, Reasons, explain};
use mk_flags::Flags;
use mk_graph::Made;
use mk_plan::{Plan, PlanNames, make_plan};
use mk_trace::Events;
use mk_world::{Sink, SinkFault, World, write_all};
use std::alloc::Global;

// Writes the lines of reasons.
fn print_reasons<S: Sink>(out: &mut S, reasons: &Reasons) -> Result<(), SinkFault>
    ensures done { OnOk result
        (Gains (S.held out.old) (S.held out.new) (spec.lines_of reasons.now)) }
    ensures cut { OnErr result
        (GainsPart (S.held out.old) (S.held out.new) (spec.lines_of reasons.now)) }
    ensures cause { HasCause Failed (S.faults out.old) (S.faults out.new) result }
{
    for reason in reasons.as_slice() {
        write_all(out, &[reason.line.bytes()])?;
    }
    Ok(())
}

// The end of a run whose plan could not be explained; the nodes of the plan have these names.
fn end_of(alloc: Global, names: &PlanNames, fault: ExplainFault) -> End
    ensures end { (nodes : List PlanNode) → names.now ≡ all_names nodes
        → (result ≡ of_explain nodes fault) ⊎ (result ≡ no_memory) }
    ensures failed { fault ≡ failed_fault → result ≡ world_failed }
    ensures only_failed { result ≡ world_failed → fault ≡ failed_fault }
    ensures no_sink { result ≡ sink_failed → ⊥ }
{
    match fault {
        ExplainFault::Expand(n, line, what) => match name_at(alloc, names, n) {
            Ok(name) => End::Expand(name, line, what),
            Err(_) => {
                drop(what);
                End::NoMemory
            }
        },
        ExplainFault::Failed => End::WorldFault,
        ExplainFault::NoMemory => End::NoMemory,
    }
}

// Tells why the nodes of a plan are out of date, and gives the end of the run.
fn tell<W: World, S: Sink>(
    alloc: Global,
    plan: Plan,
    names: &PlanNames,
    made: &Made,
    flags: &Flags,
    world: &mut W,
    out: &mut S,
) -> End
    requires names { names.now ≡ all_names plan }
    requires idle { W.runs world.old [] }
    ensures tells { (outcome : Result (List Told) Fault)
        × spec.Explains W.meaning (work_on plan made.now flags.now) (W.history world.old)
        (W.history world.new) outcome
        × spec.Tells plan outcome (S.held out.old) (S.held out.new) result }
    ensures looked { OnlyLooked (W.history world.old) (W.history world.new) }
    ensures world_cause { runs.EndCause world_failed (W.faults world.old) (W.faults world.new) result }
    ensures sink_cause { runs.EndCause sink_failed (S.faults out.old) (S.faults out.new) result }
    ensures idle { W.runs world.new [] }
{
    match explain(alloc, plan, made, flags, world) {
        Ok(reasons) => match print_reasons(out, &reasons) {
            Ok(()) => End::Done,
            Err(_) => End::SinkFault,
        },
        Err(fault) => end_of(alloc, names, fault),
    }
}

// Tells why the nodes of a plan are out of date.
fn explain_plan<W: World, S: Sink>(
    alloc: Global,
    plan: Plan,
    made: &Made,
    flags: &Flags,
    world: &mut W,
    out: &mut S,
) -> Went
    requires idle { W.runs world.old [] }
    ensures explains { (first : Option History) → ByLooks first (W.history world.old)
        (λ files. planned files made.now flags.now.requested false ≡ Ok plan)
        → spec.Explanation W.meaning made.now flags.now (point first (S.held out.old))
        (point (W.history world.new) (S.held out.new)) result }
    ensures world_cause { runs.EndCause world_failed (W.faults world.old) (W.faults world.new)
        result.end }
    ensures sink_cause { runs.EndCause sink_failed (S.faults out.old) (S.faults out.new)
        result.end }
    ensures idle { W.runs world.new [] }
{
    let Ok(names) = names_of(alloc, &plan) else {
        drop(plan);
        return unbuilt(alloc, End::NoMemory);
    };
    Went {
        end: tell(alloc, plan, &names, made, flags, world, out),
        plan: names,
        events: Events::new(alloc),
    }
}

/// Makes a plan of the targets that are asked for, with `.BEGIN` and `.END`, and tells on `out` why
/// its nodes are out of date. Where a line of a task cannot be expanded, nothing is told.
pub fn explain_targets<W: World, S: Sink>(
    alloc: Global,
    made: &Made,
    flags: &Flags,
    world: &mut W,
    out: &mut S,
) -> Went
    requires idle { W.runs world.old [] }
    ensures explains { spec.Explanation W.meaning made.now flags.now
        (point (W.history world.old) (S.held out.old))
        (point (W.history world.new) (S.held out.new)) result }
    ensures world_cause { runs.EndCause world_failed (W.faults world.old) (W.faults world.new)
        result.end }
    ensures sink_cause { runs.EndCause sink_failed (S.faults out.old) (S.faults out.new)
        result.end }
    ensures idle { W.runs world.new [] }
{
    match make_plan(alloc, made, &flags.requested, false, world) {
        Ok(plan) => explain_plan(alloc, plan, made, flags, world, out),
        Err(fault) => unbuilt(alloc, End::from(fault)),
    }
}
