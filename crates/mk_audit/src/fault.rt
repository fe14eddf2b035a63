use mk_world::WorldFault;

/// Why a plan is not audited.
#[derive(Clone, Copy, PartialEq, Eq)]
pub enum AuditFault {
    /// A call of the world failed.
    Failed,
    /// Memory ran out.
    NoMemory,
}

impl From<WorldFault> for AuditFault {
    ghost use Rattle.std.specs.Prelude.{◌≡◌};
    ghost use Rattle.mk_audit.specs.Faults.{of_world};

    ghost from_gives = { λ given fault. fault ≡ of_world given };

    fn from(fault: WorldFault) -> AuditFault {
        match fault {
            WorldFault::Failed => AuditFault::Failed,
            WorldFault::NoMemory => AuditFault::NoMemory,
        }
    }
}
