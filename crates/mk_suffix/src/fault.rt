use mk_bytes::NoMemory;
use mk_dirs::DirFault;

/// Why there is no answer.
#[derive(Clone, Copy, PartialEq, Eq)]
pub enum SuffixFault {
    /// A call of the world failed.
    Failed,
    /// Memory ran out.
    NoMemory,
}

impl From<NoMemory> for SuffixFault {
    ghost use Rattle.std.specs.Prelude.{◌≡◌};
    ghost use Rattle.mk_suffix.specs.declared.fault.SuffixFault.TheVariants.{NoMemory as no_memory};

    ghost from_gives = { λ _ fault. fault ≡ no_memory };

    fn from(_: NoMemory) -> SuffixFault {
        SuffixFault::NoMemory
    }
}

impl From<DirFault> for SuffixFault {
    ghost use Rattle.std.specs.Prelude.{◌≡◌};
    ghost use Rattle.mk_suffix.specs.Faults.{of_dirs};

    ghost from_gives = { λ given fault. fault ≡ of_dirs given };

    fn from(fault: DirFault) -> SuffixFault {
        match fault {
            DirFault::Failed => SuffixFault::Failed,
            DirFault::NoMemory => SuffixFault::NoMemory,
        }
    }
}
