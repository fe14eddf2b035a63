use mk_bytes::NoMemory;
use std::alloc::{AllocError, AllocFailed};

/// Why a modifier is refused.
#[derive(Clone, Copy, PartialEq, Eq)]
pub enum ModFault {
    /// The printed text would pass 4,194,304 bytes.
    TooLong,
    /// The text of `:[..]` or of `:range=` is no choice of places.
    BadPlace,
    /// Memory ran out.
    NoMemory,
}

impl From<NoMemory> for ModFault {
    ghost use Rattle.std.specs.Prelude.{◌≡◌};
    ghost use Rattle.mk_pieces.specs.declared.fault.ModFault.TheVariants.{NoMemory as no_memory};

    ghost from_gives = { λ _ fault. fault ≡ no_memory };

    fn from(_: NoMemory) -> ModFault {
        ModFault::NoMemory
    }
}

impl From<AllocError> for ModFault {
    ghost use Rattle.std.specs.Prelude.{◌≡◌};
    ghost use Rattle.mk_pieces.specs.declared.fault.ModFault.TheVariants.{NoMemory as no_memory};

    ghost from_gives = { λ _ fault. fault ≡ no_memory };

    fn from(_: AllocError) -> ModFault {
        ModFault::NoMemory
    }
}

impl<T: Drop> From<AllocFailed<T>> for ModFault {
    ghost use Rattle.std.specs.Prelude.{◌≡◌};
    ghost use Rattle.mk_pieces.specs.declared.fault.ModFault.TheVariants.{NoMemory as no_memory};

    ghost from_gives = { λ _ fault. fault ≡ no_memory };

    fn from(_: AllocFailed<T>) -> ModFault {
        ModFault::NoMemory
    }
}
