//! Why a command line is not done.
use mk_bytes::{NoMemory, Text};
use std::alloc::{AllocError, Global};
use std::io::{Error, ErrorKind};

/// Why a command line is not done.
#[derive(Drop)]
pub enum Refusal {
    /// Memory ran out.
    NoMemory,
    /// The system refuses this.
    System(Text),
}

impl From<NoMemory> for Refusal {
    fn from(_: NoMemory) -> Refusal {
        Refusal::NoMemory
    }
}

impl From<AllocError> for Refusal {
    fn from(_: AllocError) -> Refusal {
        Refusal::NoMemory
    }
}

impl Refusal {
    /// The system refuses what has this name.
    pub fn of(alloc: Global, name: &[u8]) -> Refusal {
        match Text::from_bytes(alloc, name) {
            Ok(name) => Refusal::System(name),
            Err(NoMemory) => Refusal::NoMemory,
        }
    }

    /// This error came where the system was asked for what has this name.
    pub fn at(alloc: Global, error: &Error, name: &[u8]) -> Refusal {
        if error.kind() == ErrorKind::OutOfMemory {
            return Refusal::NoMemory;
        }
        Refusal::of(alloc, name)
    }
}
