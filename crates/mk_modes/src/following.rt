//! What a run does before the line of its end is written: it reads, and then prints, audits,
//! explains, asks, shows or builds.
ghost use Rattle.std.specs.Prelude.{◌≡◌, [], IsTrue};
ghost use Rattle.mk_bytes.specs.Paths.{is_clean_directory};
ghost use Rattle.mk_plan.specs.Facts.{lists_of};
ghost use Rattle.mk_modes.specs.Building.{AreJobs, point};
ghost use Rattle.mk_modes.specs.Causes.{EndCause, SinkCause};
ghost use Rattle.mk_modes.specs.Meaning as spec;
ghost use Rattle.mk_modes.specs.Modes as modes;
ghost use Rattle.mk_modes.specs.declared.report.End.TheVariants.{
  WorldFault as world_failed,
  SinkFault as sink_failed,
};

use crate::auditing::audit_targets;
use crate::building::{Went, build_targets, unbuilt};
use crate::explaining::explain_targets;
use crate::print::print_all;
use crate::querying::query_targets;
use crate::report::End;
use crate::showing::show_targets;
use mk_cli::Order;
use mk_graph::Made;
use mk_plan::MadeFacts;
use mk_reader::read;
use mk_scopes::Env;
use mk_world::{Sink, World};
use std::alloc::Global;
use std::mem::forget;

// The end of a run that went so far.
fn end_of(went: Result<(), End>) -> End
    ensures { result ≡ modes.end_of went }
{
    match went {
        Ok(()) => End::Done,
        Err(end) => end,
    }
}

// Prints what the words ask for. What conditions ask is asked of the makefiles and of the world.
fn print_made<W: World, S: Sink>(
    alloc: Global,
    made: &Made,
    order: &Order,
    world: &mut W,
    out: &mut S,
) -> Went
    requires idle { W.runs world.old [] }
    ensures prints { modes.PrintsAll made.now.scopes
        (lists_of made.now order.now.flags.requested) order.now.prints
        (point (W.history world.old) (S.held out.old))
        (point (W.history world.new) (S.held out.new)) result }
    ensures world_cause { EndCause world_failed (W.faults world.old) (W.faults world.new)
        result.end }
    ensures sink_cause { EndCause sink_failed (S.faults out.old) (S.faults out.new) result.end }
    ensures idle { W.runs world.new [] }
{
    let mut questions = Vec::new(alloc);
    let requested = &order.flags.requested;
    let mut facts = MadeFacts::new(made, requested, world, &mut questions);
    let went = print_all(alloc, &made.scopes, &order.prints, &mut facts, out);
    unbuilt(alloc, end_of(went))
}

// Does with the makefiles what the words ask for: prints, where there are some, and else an audit,
// an explanation, a query, a dry run or a build.
fn by_mode<W: World, S: Sink>(
    alloc: Global,
    env: &Env,
    made: &Made,
    order: &Order,
    world: &mut W,
    out: &mut S,
) -> Went
    requires jobs { AreJobs order.now.flags.jobs }
    requires idle { W.runs world.old [] }
    ensures goes { modes.Goes W.meaning (spec.by_mode env.now made.now order.now order.now.prints)
        (point (W.history world.old) (S.held out.old))
        (point (W.history world.new) (S.held out.new)) result }
    ensures world_cause { EndCause world_failed (W.faults world.old) (W.faults world.new)
        result.end }
    ensures sink_cause { EndCause sink_failed (S.faults out.old) (S.faults out.new) result.end }
    ensures idle { W.runs world.new [] }
{
    if !order.prints.is_empty() {
        return print_made(alloc, made, order, world, out);
    }
    if order.audit {
        return audit_targets(alloc, env, made, order, world, out);
    }
    if order.explain {
        return explain_targets(alloc, made, &order.flags, world, out);
    }
    if order.flags.query {
        return query_targets(alloc, made, &order.flags, world);
    }
    if order.flags.dry {
        return show_targets(alloc, made, &order.flags, world, out);
    }
    build_targets(alloc, made, &order.flags, world, out)
}

/// What a run does whose words ask for this, up to the line of its end: it reads the makefiles,
/// whose messages it writes on `err`, and then prints, audits, explains, asks, shows or builds. The
/// environment's directory is absolute and clean. Out come the end, the names of the nodes in plan
/// order, and what the build did.
///
/// The end is that of the reading where this is refused. It is `WorldFault` where a call of the
/// world failed, `SinkFault` where a write to `out` or `err` did, and `NoMemory` where memory ran
/// out.
pub fn follow<W: World, S: Sink>(
    alloc: Global,
    order: &Order,
    env: &Env,
    world: &mut W,
    out: &mut S,
    err: &mut S,
) -> Went
    requires directory { IsTrue (is_clean_directory env.now.cwd) }
    requires jobs { AreJobs order.now.flags.jobs }
    requires idle { W.runs world.old [] }
    ensures goes { modes.Followed W.meaning env.now order.now
        (point (W.history world.old) (S.held out.old))
        (point (W.history world.new) (S.held out.new))
        (record { before = S.held err.old; after = S.held err.new }) result }
    ensures world_cause { EndCause world_failed (W.faults world.old) (W.faults world.new)
        result.end }
    ensures sink_cause { SinkCause (S.faults out.old) (S.faults out.new) (S.faults err.old)
        (S.faults err.new) result.end }
    ensures idle { W.runs world.new [] }
{
    match read(alloc, world, err, order, env) {
        Ok(made) => {
            let went = by_mode(alloc, env, &made, order, world, out);
            // A run is the last thing that its process does: to give back each node and variable
            // by itself would take a good part of a build in which nothing is made.
            forget(made);
            went
        }
        Err(fault) => unbuilt(alloc, End::from(fault)),
    }
}
