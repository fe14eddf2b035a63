ghost use Rattle.std.specs.Prelude.{◌≡◌, Some};
ghost use Rattle.mk_trace.specs.Builds.{or_next};

use mk_bytes::NoMemory;
use mk_trace::{BuildResult, Failure};
use mk_world::{SinkFault, WorldFault};

/// What ends a build before it is over.
#[derive(Clone, Copy)]
pub enum Halt {
    /// A call of the world failed.
    World,
    /// A write to standard output failed.
    Sink,
    /// Memory ran out.
    NoMemory,
}

/// Keeps a failure where it is the first one.
pub fn note_failure(failure: &mut Option<Failure>, next: Failure)
    ensures { failure.new ≡ or_next failure.old (Some next) }
{
    if failure.is_none() {
        *failure = Some(next);
    }
}

impl From<NoMemory> for Halt {
    ghost use Rattle.std.specs.Prelude.{◌≡◌};
    ghost use Rattle.mk_child.specs.declared.halt.Halt.TheVariants.{NoMemory as no_memory};

    ghost from_gives = { λ _ result. result ≡ no_memory };

    fn from(_: NoMemory) -> Halt {
        Halt::NoMemory
    }
}

impl From<WorldFault> for Halt {
    ghost use Rattle.std.specs.Prelude.{◌≡◌};
    ghost use Rattle.mk_child.specs.Halts.{of_world};

    ghost from_gives = { λ given result. result ≡ of_world given };

    fn from(fault: WorldFault) -> Halt {
        match fault {
            WorldFault::Failed => Halt::World,
            WorldFault::NoMemory => Halt::NoMemory,
        }
    }
}

impl From<SinkFault> for Halt {
    ghost use Rattle.std.specs.Prelude.{◌≡◌};
    ghost use Rattle.mk_child.specs.declared.halt.Halt.TheVariants.{Sink as sink_failed};

    ghost from_gives = { λ _ result. result ≡ sink_failed };

    fn from(_: SinkFault) -> Halt {
        Halt::Sink
    }
}

impl From<Halt> for BuildResult {
    ghost use Rattle.std.specs.Prelude.{◌≡◌};
    ghost use Rattle.mk_child.specs.Halts.{of_halt};

    ghost from_gives = { λ given result. result ≡ of_halt given };

    fn from(halt: Halt) -> BuildResult {
        match halt {
            Halt::World => BuildResult::World,
            Halt::Sink => BuildResult::Sink,
            Halt::NoMemory => BuildResult::NoMemory,
        }
    }
}
