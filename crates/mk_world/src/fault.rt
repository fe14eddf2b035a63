use mk_bytes::NoMemory;
use thiserror::Error;

/// Why a call of a world is refused.
#[derive(Clone, Copy, Debug, PartialEq, Eq, Error)]
pub enum WorldFault {
    /// The outside failed, and the world has counted it.
    #[error("an outside call failed")]
    Failed,
    /// Memory ran out.
    #[error("out of memory")]
    NoMemory,
}

impl From<NoMemory> for WorldFault {
    ghost use Rattle.std.specs.Prelude.{◌≡◌};
    ghost use Rattle.mk_world.specs.declared.fault.WorldFault.TheVariants.{NoMemory as no_memory};

    ghost from_gives = { λ _ fault. fault ≡ no_memory };

    fn from(_: NoMemory) -> WorldFault {
        WorldFault::NoMemory
    }
}

/// Why a write to a sink is refused.
#[derive(Clone, Copy, Debug, PartialEq, Eq, Error)]
pub enum SinkFault {
    /// The outside failed, and the sink has counted it.
    #[error("a write failed")]
    Failed,
}
