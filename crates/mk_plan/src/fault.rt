use mk_bytes::{Kind, NoMemory, Text, Texts};
use mk_closure::CloseFault;
use mk_expand::ExpandFault;
use mk_pool::MAX_NAMES;
use mk_world::WorldFault;

/// Why there is no plan.
#[derive(Drop)]
pub enum PlanFault {
    /// No name is wanted, and the makefiles have no target.
    NoTarget,
    /// There is no way to make this name, and no file of it.
    NoRule(Text),
    /// These names, of which the last is the first again, are each made from the next.
    Cycle(Texts),
    /// More than so many names would be met.
    Limit(Kind, u64),
    /// A call of the world failed.
    Failed,
    /// Memory ran out.
    NoMemory,
}

impl From<NoMemory> for PlanFault {
    ghost use Rattle.std.specs.Prelude.{◌≡◌};
    ghost use Rattle.mk_plan.specs.declared.fault.PlanFault.TheVariants.{NoMemory as no_memory};

    ghost from_gives = { λ _ fault. fault ≡ no_memory };

    fn from(_: NoMemory) -> PlanFault {
        PlanFault::NoMemory
    }
}

impl From<WorldFault> for PlanFault {
    ghost use Rattle.std.specs.Prelude.{◌≡◌};
    ghost use Rattle.mk_plan.specs.Refusals.{of_world};

    ghost from_gives = { λ given fault. fault ≡ of_world given };

    fn from(fault: WorldFault) -> PlanFault {
        match fault {
            WorldFault::Failed => PlanFault::Failed,
            WorldFault::NoMemory => PlanFault::NoMemory,
        }
    }
}

impl From<CloseFault> for PlanFault {
    ghost use Rattle.std.specs.Prelude.{◌≡◌};
    ghost use Rattle.mk_plan.specs.Refusals.{of_closure};

    ghost from_gives = { λ given fault. fault ≡ of_closure given };

    fn from(fault: CloseFault) -> PlanFault {
        match fault {
            CloseFault::NoRule(name) => PlanFault::NoRule(name),
            CloseFault::Full => PlanFault::Limit(Kind::Names, MAX_NAMES as u64),
            CloseFault::Failed => PlanFault::Failed,
            CloseFault::NoMemory => PlanFault::NoMemory,
        }
    }
}

/// Why a node has no task: the number of the command line, counted from 1, that is at fault first,
/// and what is wrong with it.
#[derive(Drop)]
pub struct TaskFault {
    pub line: u32,
    pub what: ExpandFault,
}

impl From<NoMemory> for TaskFault {
    ghost use Rattle.std.specs.Prelude.{◌≡◌};
    ghost use Rattle.mk_plan.specs.Refusals.{no_memory_fault};

    ghost from_gives = { λ _ fault. fault ≡ no_memory_fault };

    fn from(_: NoMemory) -> TaskFault {
        TaskFault {
            line: 0,
            what: ExpandFault::NoMemory,
        }
    }
}
