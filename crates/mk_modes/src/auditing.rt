//! Audits: what breaches what a build of the targets that are asked for stands on.
ghost use Rattle.std.specs.Prelude.{◌≡◌, [], false, length, Option, Ok, Err, IfOk};
ghost use Rattle.mk_audit.specs.declared.fault.AuditFault.TheVariants.{Failed as failed_audit};
ghost use Rattle.mk_decision.specs.Makers.{work_on};
ghost use Rattle.mk_dirs.specs.Answered.{ByLooks};
ghost use Rattle.mk_modes.specs.Auditing as spec;
ghost use Rattle.mk_modes.specs.Building.{point};
ghost use Rattle.mk_modes.specs.Causes as runs;
ghost use Rattle.mk_modes.specs.Ends.{of_count};
ghost use Rattle.mk_modes.specs.declared.report.End.TheVariants.{
  WorldFault as world_failed,
  SinkFault as sink_failed,
};
ghost use Rattle.mk_plan.specs.Plans.{planned};
ghost use Rattle.mk_world.specs.Causes.{HasCause};
ghost use Rattle.mk_world.specs.Looks.{OnlyLooked};
ghost use Rattle.mk_world.specs.declared.history.History.{History};

use crate::building::{Went, unbuilt};
use crate::report::End;
use mk_audit::{AuditFault, audit_nodes, mode_is_full};
use mk_breaches::{Nodes, PlanFacts, breaches, push_lines};
use mk_bytes::{NoMemory, Text};
use mk_cli::Order;
use mk_flags::Flags;
use mk_graph::{Made, Mode};
use mk_plan::{Plan, make_plan};
use mk_scopes::Env;
use mk_trace::Events;
use mk_world::{Sink, World, write_all};
use std::alloc::Global;

/// What an audit found: of a plan as a whole, and of its nodes.
#[derive(Drop)]
pub struct Audit {
    pub plan: PlanFacts,
    pub nodes: Nodes,
}

// The lines of breaches, one after the other, and how many there are.
#[derive(Drop)]
struct Lines {
    text: Text,
    count: u64,
}

// Whether what was asked of commands stands on files that a build makes, and whether the plan would
// be another one without these: neither is looked for.
fn second_look() -> (bool, bool)
    ensures { result ≡ (false, false) }
{
    (false, false)
}

// What is found of a whole plan.
fn plan_facts(mode: &Mode) -> PlanFacts
    ensures { result ≡ spec.plan_facts mode.now false false }
{
    let (asks, differs) = second_look();
    PlanFacts {
        mode: !mode_is_full(mode),
        asks,
        differs,
    }
}

// What is to be found of a plan.
fn audit_of<W: World>(
    alloc: Global,
    plan: &Plan,
    made: &Made,
    flags: &Flags,
    world: &mut W,
) -> Result<Audit, AuditFault>
    requires idle { W.runs world.old [] }
    ensures finds { spec.Finds W.meaning (work_on plan.now made.now flags.now) made.now.mode
        (W.history world.old) (W.history world.new) result }
    ensures looked { OnlyLooked (W.history world.old) (W.history world.new) }
    ensures cause { HasCause failed_audit (W.faults world.old) (W.faults world.new) result }
    ensures idle { W.runs world.new [] }
{
    let nodes = audit_nodes(alloc, plan, made, flags, world)?;
    Ok(Audit {
        plan: plan_facts(&made.mode),
        nodes,
    })
}

fn lines_of(alloc: Global, audit: &Audit) -> Result<Lines, NoMemory>
    ensures text { IfOk result (λ lines. lines.text ≡ spec.lines_in audit.now) }
    ensures count { IfOk result (λ lines. lines.count ≡ length (spec.breaches_in audit.now)) }
{
    let all = breaches(alloc, audit.plan, &audit.nodes)?;
    let mut text = Text::new(alloc);
    push_lines(&mut text, &audit.nodes, &all)?;
    Ok(Lines {
        text,
        count: all.len() as u64,
    })
}

// The end of an audit that told so many breaches.
fn end_by(count: u64) -> End
    ensures { result ≡ of_count count }
{
    if count == 0 {
        End::Done
    } else {
        End::Breaches(count)
    }
}

// Tells what is breached, and gives the end of the run.
fn tell_breaches<S: Sink>(alloc: Global, audit: &Audit, out: &mut S) -> End
    ensures tells { spec.Tells (Ok audit.now) (S.held out.old) (S.held out.new) result }
    ensures no_world { result ≡ world_failed → ⊥ }
    ensures cause { runs.EndCause sink_failed (S.faults out.old) (S.faults out.new) result }
{
    let Ok(lines) = lines_of(alloc, audit) else {
        return End::NoMemory;
    };
    match write_all(out, &[lines.text.bytes()]) {
        Ok(()) => end_by(lines.count),
        Err(_) => End::SinkFault,
    }
}

// Tells what an audit gave, and gives the end of the run.
fn tell<S: Sink>(alloc: Global, outcome: Result<Audit, AuditFault>, out: &mut S) -> End
    ensures tells { spec.Tells outcome (S.held out.old) (S.held out.new) result }
    ensures failed { outcome ≡ Err failed_audit → result ≡ world_failed }
    ensures only_failed { result ≡ world_failed → outcome ≡ Err failed_audit }
    ensures cause { runs.EndCause sink_failed (S.faults out.old) (S.faults out.new) result }
{
    match outcome {
        Ok(audit) => tell_breaches(alloc, &audit, out),
        Err(fault) => End::from(fault),
    }
}

// Audits a plan.
fn audit_plan<W: World, S: Sink>(
    alloc: Global,
    env: &Env,
    plan: Plan,
    made: &Made,
    order: &Order,
    world: &mut W,
    out: &mut S,
) -> Went
    requires idle { W.runs world.old [] }
    ensures audits { (first : Option History) → ByLooks first (W.history world.old)
        (λ files. planned files made.now order.now.flags.requested false ≡ Ok plan)
        → spec.Audits W.meaning env.now made.now order.now (point first (S.held out.old))
        (point (W.history world.new) (S.held out.new)) result }
    ensures world_cause { runs.EndCause world_failed (W.faults world.old) (W.faults world.new)
        result.end }
    ensures sink_cause { runs.EndCause sink_failed (S.faults out.old) (S.faults out.new)
        result.end }
    ensures idle { W.runs world.new [] }
{
    let outcome = audit_of(alloc, &plan, made, &order.flags, world);
    Went {
        end: tell(alloc, outcome, out),
        plan: plan.into_names(),
        events: Events::new(alloc),
    }
}

/// Makes a plan of the targets that are asked for, with `.BEGIN` and `.END`, and tells on `out`
/// what breaches what a build of them stands on. Nothing is started or changed.
pub fn audit_targets<W: World, S: Sink>(
    alloc: Global,
    env: &Env,
    made: &Made,
    order: &Order,
    world: &mut W,
    out: &mut S,
) -> Went
    requires idle { W.runs world.old [] }
    ensures audits { spec.Audits W.meaning env.now made.now order.now
        (point (W.history world.old) (S.held out.old))
        (point (W.history world.new) (S.held out.new)) result }
    ensures world_cause { runs.EndCause world_failed (W.faults world.old) (W.faults world.new)
        result.end }
    ensures sink_cause { runs.EndCause sink_failed (S.faults out.old) (S.faults out.new)
        result.end }
    ensures idle { W.runs world.new [] }
{
    match make_plan(alloc, made, &order.flags.requested, false, world) {
        Ok(plan) => audit_plan(alloc, env, plan, made, order, world, out),
        Err(fault) => unbuilt(alloc, End::from(fault)),
    }
}
