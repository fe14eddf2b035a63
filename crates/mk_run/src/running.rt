//! A run of what the words of a command line ask for: a world and two sinks in; a report out.
ghost use Rattle.std.specs.Prelude.{◌≡◌, [], IsTrue};
ghost use Rattle.mk_bytes.specs.Paths.{is_clean_directory};
ghost use Rattle.mk_modes.specs.Building.{AreJobs, point};
ghost use Rattle.mk_modes.specs.Causes.{LineCause, WorldCause, SinkCause};
ghost use Rattle.mk_modes.specs.Ends as ends;
ghost use Rattle.mk_run.specs.Runs as runs;
ghost use Rattle.mk_run.specs.TrueRuns.{IsTrueOrderRun};

use mk_bytes::Texts;
use mk_cli::Order;
use mk_modes::{End, Report, Went, follow, write_line};
use mk_scopes::Env;
use mk_world::{Sink, World};
use std::alloc::Global;

// Writes the line of an end, and gives the end of the run.
fn finish<S: Sink>(words: &Texts, went: End, err: &mut S) -> End
    ensures ends { runs.Closed words.now went
        (record { before = S.held err.old; after = S.held err.new }) result }
    ensures cause { LineCause (S.faults err.old) (S.faults err.new) went result }
{
    if write_line(err, words, &went).is_err() {
        drop(went);
        return End::SinkFault;
    }
    went
}

/// Ends a run: the line of its end is written on `err`, last. `End::SinkFault` where that fails.
pub fn close<S: Sink>(words: &Texts, went: Went, err: &mut S) -> Report
    ensures closed { runs.Closed words.now went.end
        (record { before = S.held err.old; after = S.held err.new }) result.end }
    ensures cause { LineCause (S.faults err.old) (S.faults err.new) went.end result.end }
    ensures status { result.status ≡ ends.status_of result.end }
    ensures plan { result.plan ≡ went.plan }
    ensures events { result.events ≡ went.events }
{
    let end = finish(words, went.end, err);
    Report {
        status: end.status(),
        end,
        plan: went.plan,
        events: went.events,
    }
}

/// Does what the words of a command line ask for, which are taken. The environment's directory is
/// absolute and clean.
///
/// It reads the makefiles, whose messages it writes on `err`, and then prints on `out` what the
/// words ask for, each print on its line as soon as it is evaluated. Where they ask for no print it
/// makes a plan of the targets. Of these `--audit` tells what breaches what a build of them
/// stands on, `--explain` tells why each is out of date, `-q` asks
/// whether they are up to date, and `-n` shows what a build would do; else they are built, with so
/// many jobs, by times and, in meta mode, by meta files. Every end but `Done`, `NotUpToDate` and
/// `SinkFault` has its line on `err`, which is written last.
///
/// Where meta files told what happened before the run, they do so at every moment of it, as far as
/// the commands of `!=` change no file and jobs keep apart.
pub fn run_order<W: World, S: Sink>(
    alloc: Global,
    words: &Texts,
    order: &Order,
    env: &Env,
    world: &mut W,
    out: &mut S,
    err: &mut S,
) -> Report
    requires directory { IsTrue (is_clean_directory env.now.cwd) }
    requires jobs { AreJobs order.now.flags.jobs }
    requires idle { W.runs world.old [] }
    ensures ran { IsTrueOrderRun W.meaning words.now env.now order.now
        (point (W.history world.old) (S.held out.old))
        (point (W.history world.new) (S.held out.new))
        (record { before = S.held err.old; after = S.held err.new }) result }
    ensures status { result.status ≡ ends.status_of result.end }

    // A fault of the outside comes only where a count rose, and a rise is always answered.
    ensures world_fault { WorldCause (W.faults world.old) (W.faults world.new) result.end }
    ensures sink_fault { SinkCause (S.faults out.old) (S.faults out.new) (S.faults err.old)
        (S.faults err.new) result.end }

    // No child is left.
    ensures idle { W.runs world.new [] }
{
    let went = follow(alloc, order, env, world, out, err);
    close(words, went, err)
}
