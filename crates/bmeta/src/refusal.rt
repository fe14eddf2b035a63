//! Why nothing is told, and lines on standard error.
use mk_bytes::NoMemory;
use std::alloc::{AllocError, AllocFailed};
use std::io::{Error, ErrorKind, Print};

/// Why nothing is told.
#[derive(Clone, Copy)]
pub enum Refusal {
    /// Memory ran out.
    NoMemory,
    /// Standard output takes nothing.
    NotWritten,
    /// The current directory has no path.
    NoDirectory,
}

impl From<NoMemory> for Refusal {
    fn from(_: NoMemory) -> Refusal {
        Refusal::NoMemory
    }
}

impl From<AllocError> for Refusal {
    fn from(_: AllocError) -> Refusal {
        Refusal::NoMemory
    }
}

impl<T: Drop> From<AllocFailed<T>> for Refusal {
    fn from(refused: AllocFailed<T>) -> Refusal {
        drop(refused);
        Refusal::NoMemory
    }
}

/// Writes a line of a path and a reason on standard error.
pub fn tell(rt: &HostRuntime, path: &[u8], reason: &[u8]) {
    let stderr = rt.stderr();
    let _ = stderr.write_all(b"bmeta: ");
    let _ = stderr.write_all(path);
    let _ = stderr.write_all(b": ");
    let _ = stderr.write_all(reason);
    let _ = stderr.write_all(b"\n");
}

/// Writes why a path cannot be read on standard error.
pub fn tell_error(rt: &HostRuntime, path: &[u8], error: &Error) {
    tell(
        rt,
        path,
        match error.kind() {
            ErrorKind::NotFound => b"there is no such file",
            ErrorKind::PermissionDenied => b"permission denied",
            ErrorKind::InvalidFilename => b"holds a name that is not UTF-8",
            ErrorKind::OutOfMemory => b"out of memory",
            _ => b"cannot be read".as_slice(),
        },
    );
}
