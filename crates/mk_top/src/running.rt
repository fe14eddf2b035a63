//! A run: the words of the command line, a world and two sinks in; a report out.
ghost use Rattle.std.specs.Prelude.{◌≡◌, [], IsTrue};
ghost use Rattle.mk_bytes.specs.Paths.{is_clean_directory};
ghost use Rattle.mk_modes.specs.Building.{AreJobs, point};
ghost use Rattle.mk_modes.specs.Ends as ends;
ghost use Rattle.mk_top.specs.Causes as causes;
ghost use Rattle.mk_top.specs.Runs as runs;

use mk_bytes::Texts;
use mk_cli::Order;
use mk_generate::generate;
use mk_run::{Report, asked, close, run_order, unbuilt};
use mk_scopes::Env;
use mk_world::{Sink, World};
use std::alloc::Global;

// What a run does whose words ask for this.
fn follow<W: World, S: Sink>(
    alloc: Global,
    words: &Texts,
    order: &Order,
    env: &Env,
    world: &mut W,
    out: &mut S,
    err: &mut S,
) -> Report
    requires directory { IsTrue (is_clean_directory env.now.cwd) }
    requires jobs { AreJobs order.now.flags.jobs }
    requires idle { W.runs world.old [] }
    ensures does { runs.Does W.meaning words.now env.now order.now order.now.generate
        (point (W.history world.old) (S.held out.old))
        (point (W.history world.new) (S.held out.new))
        (record { before = S.held err.old; after = S.held err.new }) result }
    ensures status { result.status ≡ ends.status_of result.end }
    ensures world_fault { causes.WorldCause order.now.generate (W.faults world.old)
        (W.faults world.new) result.end }
    ensures sink_fault { causes.SinkCause order.now.generate (S.faults out.old) (S.faults out.new)
        (S.faults err.old) (S.faults err.new) result.end }
    ensures idle { W.runs world.new [] }
{
    match order.generate {
        Some(n) => {
            let end = generate(alloc, n, out);
            close(words, unbuilt(alloc, end), err)
        }
        None => run_order(alloc, words, order, env, world, out, err),
    }
}

/// Does all that the program does. The words are those of the command line without the program's
/// name; the environment's directory is absolute and clean.
///
/// It reads the words, then the makefiles, whose messages it writes on `err`, and does with them
/// what the words ask for: it prints, tells why targets are out of date, asks whether they are, or
/// builds them (mk_run). With `--generate N` it reads no makefile: it runs twice in a world in
/// memory with N generated targets, of which a source is changed in between, and tells on `out`
/// what was done there. Every end but `Done`, `NotUpToDate` and `SinkFault` has its line on `err`,
/// which is written last.
pub fn run<W: World, S: Sink>(
    alloc: Global,
    words: &Texts,
    env: &Env,
    world: &mut W,
    out: &mut S,
    err: &mut S,
) -> Report
    requires directory { IsTrue (is_clean_directory env.now.cwd) }
    requires idle { W.runs world.old [] }
    ensures ran { runs.IsRun W.meaning words.now env.now
        (point (W.history world.old) (S.held out.old))
        (point (W.history world.new) (S.held out.new))
        (record { before = S.held err.old; after = S.held err.new }) result }
    ensures status { result.status ≡ ends.status_of result.end }

    // A fault of the outside comes only where a count rose, and a rise is always answered.
    ensures world_fault { causes.WorldCause (causes.generated env.now.cwd words.now)
        (W.faults world.old) (W.faults world.new) result.end }
    ensures sink_fault { causes.SinkCause (causes.generated env.now.cwd words.now)
        (S.faults out.old) (S.faults out.new) (S.faults err.old) (S.faults err.new) result.end }

    // No child is left.
    ensures idle { W.runs world.new [] }
{
    match asked(alloc, words, env.cwd.bytes()) {
        Ok(order) => {
            let report = follow(alloc, words, &order, env, world, out, err);
            drop(order);
            report
        }
        Err(end) => close(words, unbuilt(alloc, end), err),
    }
}
