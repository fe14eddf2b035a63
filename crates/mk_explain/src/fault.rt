use mk_bytes::NoMemory;
use mk_expand::ExpandFault;
use mk_world::WorldFault;

/// Why a plan is not explained.
#[derive(Drop)]
pub enum ExplainFault {
    /// At this node this line of its task cannot be expanded.
    Expand(u32, u32, ExpandFault),
    /// A call of the world failed.
    Failed,
    /// Memory ran out.
    NoMemory,
}

impl From<NoMemory> for ExplainFault {
    ghost use Rattle.std.specs.Prelude.{◌≡◌};
    ghost use Rattle.mk_explain.specs.declared.fault.ExplainFault.TheVariants.{NoMemory as no_memory};

    ghost from_gives = { λ _ fault. fault ≡ no_memory };

    fn from(_: NoMemory) -> ExplainFault {
        ExplainFault::NoMemory
    }
}

impl From<WorldFault> for ExplainFault {
    ghost use Rattle.std.specs.Prelude.{◌≡◌};
    ghost use Rattle.mk_explain.specs.Faults.{of_world};

    ghost from_gives = { λ given fault. fault ≡ of_world given };

    fn from(fault: WorldFault) -> ExplainFault {
        match fault {
            WorldFault::Failed => ExplainFault::Failed,
            WorldFault::NoMemory => ExplainFault::NoMemory,
        }
    }
}
