use mk_bytes::NoMemory;
use mk_world::WorldFault;

/// Why there is no answer.
#[derive(Clone, Copy, PartialEq, Eq)]
pub enum DirFault {
    /// A call of the world failed.
    Failed,
    /// Memory ran out.
    NoMemory,
}

impl From<NoMemory> for DirFault {
    ghost use Rattle.std.specs.Prelude.{◌≡◌};
    ghost use Rattle.mk_dirs.specs.declared.fault.DirFault.TheVariants.{NoMemory as no_memory};

    ghost from_gives = { λ _ fault. fault ≡ no_memory };

    fn from(_: NoMemory) -> DirFault {
        DirFault::NoMemory
    }
}

impl From<WorldFault> for DirFault {
    ghost use Rattle.std.specs.Prelude.{◌≡◌};
    ghost use Rattle.mk_dirs.specs.Faults.{of_world};

    ghost from_gives = { λ given fault. fault ≡ of_world given };

    fn from(fault: WorldFault) -> DirFault {
        match fault {
            WorldFault::Failed => DirFault::Failed,
            WorldFault::NoMemory => DirFault::NoMemory,
        }
    }
}
