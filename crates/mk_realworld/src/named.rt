//! The line that names the first call of the outside that failed. It is written on the process's
//! standard error by the world itself, and is no part of what make writes there.
use crate::refusal::Reason;
use std::io::{Print, Stderr};

// No error of the system has a longer text.
const LONGEST: usize = 256;

/// The process's standard error, and whether a fault was named there.
#[derive(Drop)]
pub struct Named {
    stderr: Stderr,
    is_done: bool,
}

fn write_reason(stderr: &Stderr, reason: Reason) {
    let _ = match reason {
        Reason::System(code) => {
            let mut buffer = [0u8; LONGEST];
            let len = os::error_text(code, &mut buffer);
            stderr.write_all(&buffer[..len])
        }
        Reason::NotText => stderr.write_all(b"not UTF-8"),
        Reason::TooLong => stderr.write_all(b"more than 64 MiB"),
        Reason::NoLaterTime => {
            stderr.write_all(b"the time of the file does not come to be later than that of others")
        }
        Reason::Other => stderr.write_all(b"refused"),
    };
}

/// Writes the line of a call that failed: `bmake: CALL PATH: REASON`.
pub fn write_fault(stderr: &Stderr, call: &[u8], path: &[u8], reason: Reason) {
    let _ = stderr.write_all(b"bmake: ");
    let _ = stderr.write_all(call);
    let _ = stderr.write_all(b" ");
    let _ = stderr.write_all(path);
    let _ = stderr.write_all(b": ");
    write_reason(stderr, reason);
    let _ = stderr.write_all(b"\n");
}

impl Named {
    /// No fault was named yet.
    pub fn new(stderr: Stderr) -> Named {
        Named {
            stderr,
            is_done: false,
        }
    }

    /// The process's standard error.
    pub fn stderr(&self) -> &Stderr {
        &self.stderr
    }

    /// Names a call that failed, with what it was about and why, where no other one was named
    /// before.
    pub fn name(&mut self, call: &[u8], path: &[u8], reason: Reason) {
        if !self.is_done {
            self.is_done = true;
            write_fault(&self.stderr, call, path, reason);
        }
    }
}
