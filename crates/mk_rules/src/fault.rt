use mk_bytes::NoMemory;
use mk_pool::PoolFault;

/// Why a dependency line is refused.
#[derive(Clone, Copy, PartialEq, Eq)]
pub enum RuleFault {
    /// A target stood with the other operator before.
    Operators,
    /// A name would be one node more than 1,048,576.
    TooManyNames,
    /// Memory ran out.
    NoMemory,
}

impl From<NoMemory> for RuleFault {
    ghost use Rattle.std.specs.Prelude.{◌≡◌};
    ghost use Rattle.mk_rules.specs.declared.fault.RuleFault.TheVariants.{NoMemory as no_memory};

    ghost from_gives = { λ _ fault. fault ≡ no_memory };

    fn from(_: NoMemory) -> RuleFault {
        RuleFault::NoMemory
    }
}

impl From<PoolFault> for RuleFault {
    ghost use Rattle.std.specs.Prelude.{◌≡◌};
    ghost use Rattle.mk_rules.specs.Names.{of_pool};

    ghost from_gives = { λ given fault. fault ≡ of_pool given };

    fn from(fault: PoolFault) -> RuleFault {
        match fault {
            PoolFault::Full => RuleFault::TooManyNames,
            PoolFault::NoMemory => RuleFault::NoMemory,
        }
    }
}
