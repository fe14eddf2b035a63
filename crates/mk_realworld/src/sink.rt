ghost use Rattle.std.specs.Prelude.{◌≡◌, ◌<◌, ◌≤◌, length, IfOk};

use crate::count::count_fault;
use crate::named::write_fault;
use crate::refusal::Reason;
use libc::net;
use libc::types::pollfd;
use mk_world::{Sink, SinkFault};
use std::io::{Stderr, Stdout};
use std::os::fd::AsRawFd;

// How often a write is tried that a signal has broken off, or that would wait.
const TRIES: u32 = 1_048_576;

/// Standard output or standard error.
#[derive(Drop)]
pub struct RealSink {
    number: i32,
    // Whether a write may be one to a pipe that nobody reads any more, which would end the process.
    may_break: bool,
    // Where the first write that fails is named.
    named: Option<Stderr>,
    faults: u64,
}

// Waits until a stream that does not block takes more.
fn wait_for_room(number: i32) {
    let mut asked = [pollfd {
        fd: number,
        events: net::POLLOUT,
        revents: 0,
    }];
    net::poll(&mut asked, -1);
}

// Whether a stream may be a pipe: no terminal, and nothing that has a place in it, as a file has.
fn is_like_pipe(number: i32) -> bool {
    libc::lseek(number, 0, libc::SEEK_CUR) < 0 && libc::isatty(number) != 1
}

// Writes some of the bytes by one call, and gives how many, or a number below 0. To keep the signal
// of a pipe that nobody reads any more off takes three calls beside it, so that is done for pipes
// alone.
fn write_once(number: i32, may_break: bool, bytes: &[u8]) -> isize {
    if may_break {
        return os::write_no_sigpipe(number, bytes);
    }
    libc::write(number, bytes)
}

// Writes some of the bytes, and gives how many, or the system's number of the error.
fn write_some(number: i32, may_break: bool, bytes: &[u8]) -> Result<usize, i32>
    ensures some { IfOk result (λ count. 0 < count) }
    ensures within { IfOk result (λ count. count ≤ length bytes.now) }
{
    for _ in 0..TRIES {
        let written = usize::try_from(write_once(number, may_break, bytes)).unwrap_or(0);
        if written > 0 && written <= bytes.len() {
            return Ok(written);
        }
        match os::errno() {
            libc::EINTR => {}
            libc::EAGAIN => wait_for_room(number),
            code => return Err(code),
        }
    }
    Err(libc::EAGAIN)
}

impl RealSink {
    /// The standard output of the process, with a count of faults of 0. The first write that fails
    /// is named on its standard error.
    pub fn out(stdout: Stdout, stderr: Stderr) -> RealSink
        ensures { result.faults ≡ 0 }
    {
        let number = stdout.as_raw_fd();
        RealSink {
            number,
            may_break: is_like_pipe(number),
            named: Some(stderr),
            faults: 0,
        }
    }

    /// The standard error of the process, with a count of faults of 0.
    pub fn err(stderr: Stderr) -> RealSink
        ensures { result.faults ≡ 0 }
    {
        RealSink {
            number: stderr.as_raw_fd(),
            may_break: true,
            named: None,
            faults: 0,
        }
    }
}

impl Sink for RealSink {
    ghost use Rattle.std.specs.Prelude.{None};

    ghost held = { λ _. None };

    ghost faults = { λ sink. sink.faults };

    /// Writes by one call of the system. A stream that does not block is waited for; one that
    /// nobody reads any more is a counted fault, and ends no process.
    fn write(&mut self, bytes: &[u8]) -> Result<usize, SinkFault> {
        match write_some(self.number, self.may_break, bytes) {
            Ok(count) => Ok(count),
            Err(code) => {
                if let Some(stderr) = self.named.take() {
                    write_fault(&stderr, b"write", b"standard output", Reason::System(code));
                }
                count_fault(&mut self.faults);
                Err(SinkFault::Failed)
            }
        }
    }
}
