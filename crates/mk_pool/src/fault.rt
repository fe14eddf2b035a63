use mk_bytes::NoMemory;
use thiserror::Error;

/// Why a pool took no new name.
#[derive(Clone, Copy, Debug, PartialEq, Eq, Error)]
pub enum PoolFault {
    /// The most names are held.
    #[error("too many names")]
    Full,
    /// A growth was refused.
    #[error("out of memory")]
    NoMemory,
}

impl From<NoMemory> for PoolFault {
    ghost use Rattle.std.specs.Prelude.{◌≡◌};
    ghost use Rattle.mk_pool.specs.declared.fault.PoolFault.TheVariants.{NoMemory as no_memory};

    ghost from_gives = { λ _ fault. fault ≡ no_memory };

    fn from(_: NoMemory) -> PoolFault {
        PoolFault::NoMemory
    }
}
