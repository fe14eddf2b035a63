use mk_audit::AuditFault;
use mk_bytes::{Kind, Text, Texts};
use mk_expand::ExpandFault;
use mk_plan::{PlanFault, PlanNames};
use mk_reader::{ReadFault, What};
use mk_trace::Events;
use mk_world::SinkFault;

/// How a run ends.
#[derive(Drop)]
pub enum End {
    /// All went well. Status 0.
    Done,
    /// The word at this place, counted from 0, is the first that is refused. Status 2.
    Usage(u32),
    /// A makefile, named as on the command line, is missing; without `-f` it is `makefile`, where
    /// both default ones are missing. Status 2.
    NoFile(Text),
    /// A makefile, a line of it, counted from 1, and what is wrong there first. For an assignment
    /// of the command line the name is empty and the line is 0. Status 2.
    Bad(Text, u32, What),
    /// The print at this place, counted from 0, has this fault. Status 2.
    Print(u32, ExpandFault),
    /// No target was asked for, and the makefiles have none. Status 2.
    NoTarget,
    /// There is no way to make this name, and no file of it. Status 2.
    NoRule(Text),
    /// These names, of which the last is the first again, are each made from the next. Status 2.
    Cycle(Texts),
    /// More than so many of these came up. Status 2.
    Limit(Kind, u64),
    /// This command line of this node, counted from 1, could not be expanded. Status 2.
    Expand(Text, u32, ExpandFault),
    /// This command line of this node, counted from 1, ended with this status. Status 1.
    JobFailed(Text, u32, u8),
    /// This node, the first in the plan that is not kept, is out of date, which was asked. Status
    /// 1.
    NotUpToDate(Text),
    /// An audit found so many breaches, at least one. Status 1.
    Breaches(u64),
    /// A call of the world failed. Status 3.
    WorldFault,
    /// A write to standard output or standard error failed. Status 3.
    SinkFault,
    /// Memory ran out. Status 4.
    NoMemory,
}

/// What a run answers: its exit status, how it ended, the names of the nodes in plan order, and
/// what the build did. Both lists are empty where there was no build.
#[derive(Drop)]
pub struct Report {
    pub status: u8,
    pub end: End,
    pub plan: PlanNames,
    pub events: Events,
}

impl From<ReadFault> for End {
    ghost use Rattle.std.specs.Prelude.{◌≡◌};
    ghost use Rattle.mk_modes.specs.Ends.{of_read};

    ghost from_gives = { λ fault end. end ≡ of_read fault };

    fn from(fault: ReadFault) -> End {
        match fault {
            ReadFault::NoFile(file) => End::NoFile(file),
            ReadFault::Bad(file, line, what) => End::Bad(file, line, what),
            ReadFault::Limit(kind, most) => End::Limit(kind, most),
            ReadFault::World => End::WorldFault,
            ReadFault::Sink => End::SinkFault,
            ReadFault::NoMemory => End::NoMemory,
        }
    }
}

impl From<PlanFault> for End {
    ghost use Rattle.std.specs.Prelude.{◌≡◌};
    ghost use Rattle.mk_modes.specs.Ends.{of_plan};

    ghost from_gives = { λ fault end. end ≡ of_plan fault };

    fn from(fault: PlanFault) -> End {
        match fault {
            PlanFault::NoTarget => End::NoTarget,
            PlanFault::NoRule(name) => End::NoRule(name),
            PlanFault::Cycle(names) => End::Cycle(names),
            PlanFault::Limit(kind, most) => End::Limit(kind, most),
            PlanFault::Failed => End::WorldFault,
            PlanFault::NoMemory => End::NoMemory,
        }
    }
}

impl From<AuditFault> for End {
    ghost use Rattle.std.specs.Prelude.{◌≡◌};
    ghost use Rattle.mk_modes.specs.Ends.{of_audit};

    ghost from_gives = { λ fault end. end ≡ of_audit fault };

    fn from(fault: AuditFault) -> End {
        match fault {
            AuditFault::Failed => End::WorldFault,
            AuditFault::NoMemory => End::NoMemory,
        }
    }
}

impl From<SinkFault> for End {
    ghost use Rattle.std.specs.Prelude.{◌≡◌};
    ghost use Rattle.mk_modes.specs.declared.report.End.TheVariants.{SinkFault as sink_failed};

    ghost from_gives = { λ _ end. end ≡ sink_failed };

    fn from(_: SinkFault) -> End {
        End::SinkFault
    }
}

impl End {
    ghost use Rattle.std.specs.Prelude.{◌≡◌};
    ghost use Rattle.mk_modes.specs.Ends.{status_of};

    /// The exit status.
    pub fn status(&self) -> u8
        ensures { result ≡ status_of self.now }
    {
        match self {
            End::Done => 0,
            End::JobFailed(_, _, _) | End::NotUpToDate(_) | End::Breaches(_) => 1,
            End::Usage(_) | End::NoFile(_) | End::Bad(_, _, _) | End::Print(_, _) => 2,
            End::NoTarget | End::NoRule(_) | End::Cycle(_) | End::Limit(_, _) => 2,
            End::Expand(_, _, _) => 2,
            End::WorldFault | End::SinkFault => 3,
            End::NoMemory => 4,
        }
    }
}
