use mk_bytes::{NoMemory, Text};
use mk_suffix::SuffixFault;

/// Why there is no closure.
#[derive(Drop)]
pub enum CloseFault {
    /// There is no way to make this name, and no file of it.
    NoRule(Text),
    /// There would be more names than 1,048,576.
    Full,
    /// A call of the world failed.
    Failed,
    /// Memory ran out.
    NoMemory,
}

impl From<NoMemory> for CloseFault {
    ghost use Rattle.std.specs.Prelude.{◌≡◌};
    ghost use Rattle.mk_closure.specs.declared.fault.CloseFault.TheVariants.{NoMemory as no_memory};

    ghost from_gives = { λ _ fault. fault ≡ no_memory };

    fn from(_: NoMemory) -> CloseFault {
        CloseFault::NoMemory
    }
}

impl From<SuffixFault> for CloseFault {
    ghost use Rattle.std.specs.Prelude.{◌≡◌};
    ghost use Rattle.mk_closure.specs.Faults.{of_suffix};

    ghost from_gives = { λ given fault. fault ≡ of_suffix given };

    fn from(fault: SuffixFault) -> CloseFault {
        match fault {
            SuffixFault::Failed => CloseFault::Failed,
            SuffixFault::NoMemory => CloseFault::NoMemory,
        }
    }
}
