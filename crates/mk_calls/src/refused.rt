//! What ends a test before its end.
use mk_bytes::NoMemory;
use mk_lines::LineFault;
use mk_pool::PoolFault;
use std::alloc::AllocError;

/// A call was refused, which no row wants.
#[derive(Debug, Drop)]
pub struct Refused;

impl From<NoMemory> for Refused {
    fn from(_: NoMemory) -> Refused {
        Refused
    }
}

impl From<PoolFault> for Refused {
    fn from(_: PoolFault) -> Refused {
        Refused
    }
}

impl From<LineFault> for Refused {
    fn from(_: LineFault) -> Refused {
        Refused
    }
}

impl From<AllocError> for Refused {
    fn from(_: AllocError) -> Refused {
        Refused
    }
}
