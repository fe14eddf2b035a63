//! Runs in a world of their own, which is generated, and what is told of them.
ghost use Rattle.std.specs.Prelude.{◌≡◌, ◌⊎◌, []};
ghost use Rattle.mk_generate.specs.Counts.{told as told_of};
ghost use Rattle.mk_generate.specs.Generated.{Generates, OutCause, Prints};
ghost use Rattle.mk_modes.specs.Causes.{EndCause};
ghost use Rattle.mk_modes.specs.declared.report.End.TheVariants.{
  NoMemory as no_memory,
  SinkFault as sink_failed,
};
ghost use Rattle.mk_world.specs.History.{files_of};
ghost use Rattle.mk_world.specs.Sinks.{Gains};

use crate::counts::told;
use crate::inside::{Twice, run_twice};
use mk_run::End;
use mk_world::{Sink, write_all};
use std::alloc::Global;

// Tells what two runs in a generated world have done.
fn tell<S: Sink>(alloc: Global, n: u32, twice: &Twice, out: &mut S) -> End
    ensures tells { ((result ≡ no_memory) × Gains (S.held out.old) (S.held out.new) [])
        ⊎ Prints (told_of n twice.now.first twice.now.second
        (files_of twice.now.world.chronicle))
        (record { before = S.held out.old; after = S.held out.new }) result }
    ensures cause { EndCause sink_failed (S.faults out.old) (S.faults out.new) result }
{
    let Ok(text) = told(alloc, n, &twice.first, &twice.second, &twice.world) else {
        return End::NoMemory;
    };
    if write_all(out, &[text.bytes()]).is_err() {
        return End::SinkFault;
    }
    End::Done
}

/// Runs twice in a world in memory with `n` generated targets, of which a source is changed in
/// between, and tells on `out` what was done there. `Done` where all is told; else the end of what
/// did not come to that: `NoMemory`, an end of a run inside, `WorldFault` where the source cannot
/// be changed, and `SinkFault` where a write on `out` failed.
pub fn generate<S: Sink>(alloc: Global, n: u32, out: &mut S) -> End
    ensures generates { Generates n
        (record { before = S.held out.old; after = S.held out.new }) result }
    ensures cause { OutCause n (S.faults out.old) (S.faults out.new) result }
{
    match run_twice(alloc, n) {
        Ok(twice) => {
            let end = tell(alloc, n, &twice, out);
            drop(twice);
            end
        }
        Err(end) => end,
    }
}
