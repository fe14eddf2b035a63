//! Why cases are not run.
use mk_bytes::NoMemory;
use std::alloc::{AllocError, AllocFailed};

/// Why cases are not run.
#[derive(Clone, Copy, PartialEq, Eq)]
pub enum Trouble {
    /// The line with this number is not as the format has it.
    Bad(u32),
    /// Memory ran out.
    NoMemory,
}

impl From<NoMemory> for Trouble {
    fn from(_: NoMemory) -> Trouble {
        Trouble::NoMemory
    }
}

impl From<AllocError> for Trouble {
    fn from(_: AllocError) -> Trouble {
        Trouble::NoMemory
    }
}

impl<T: Drop> From<AllocFailed<T>> for Trouble {
    fn from(_: AllocFailed<T>) -> Trouble {
        Trouble::NoMemory
    }
}
