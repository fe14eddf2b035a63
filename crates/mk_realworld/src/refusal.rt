//! Why something is not done, and how it is told.
ghost use Rattle.std.specs.Prelude.{◌≡◌, ◌<◌, ◌≤◌};
ghost use Rattle.mk_world.specs.Causes.{Rose};
ghost use Rattle.mk_world.specs.declared.fault.WorldFault.TheVariants.{Failed};

use crate::count::count_fault;
use mk_bytes::NoMemory;
use mk_world::WorldFault;
use std::alloc::AllocError;
use std::io::{Error, ErrorKind};
use std::str::Utf8Error;

/// Why the outside refused something.
#[derive(Clone, Copy, PartialEq, Eq)]
pub enum Reason {
    /// The system's own number of the error.
    System(i32),
    /// A text that is not UTF-8, and so cannot be said to the system.
    NotText,
    /// More than 64 MiB.
    TooLong,
    /// A file whose time does not come to be later than that of another file.
    NoLaterTime,
    /// A reason that has no number.
    Other,
}

/// Why something is not done.
#[derive(Clone, Copy, PartialEq, Eq)]
pub enum Refusal {
    /// Memory ran out.
    NoMemory,
    /// The system refused it, or it cannot be said to the system.
    Outside(Reason),
}

impl From<NoMemory> for Refusal {
    fn from(_: NoMemory) -> Refusal {
        Refusal::NoMemory
    }
}

impl From<AllocError> for Refusal {
    fn from(_: AllocError) -> Refusal {
        Refusal::NoMemory
    }
}

impl From<Utf8Error> for Refusal {
    fn from(_: Utf8Error) -> Refusal {
        Refusal::Outside(Reason::NotText)
    }
}

impl From<Error> for Refusal {
    fn from(error: Error) -> Refusal {
        if error.kind() == ErrorKind::OutOfMemory {
            return Refusal::NoMemory;
        }
        match error.raw_os_error() {
            Some(code) => Refusal::Outside(Reason::System(code)),
            None => Refusal::Outside(Reason::Other),
        }
    }
}

/// The answer of a call of the world; where the outside refused, it is counted.
pub fn counted(refusal: Refusal, faults: &mut u64) -> WorldFault
    ensures kept { faults.old ≤ faults.new }
    ensures answered { faults.old < faults.new → result ≡ Failed }
    ensures rose { result ≡ Failed → Rose faults.old faults.new }
{
    match refusal {
        Refusal::NoMemory => WorldFault::NoMemory,
        Refusal::Outside(_) => {
            count_fault(faults);
            WorldFault::Failed
        }
    }
}
