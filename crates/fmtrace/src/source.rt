//! Where the trace of a command stands.
use crate::family::family_of;
use crate::file::{bytes_from, bytes_of, length_of};
use crate::refusal::Refusal;
use mk_bytes::Text;
use mk_filemon::cut_at;
use mk_strace::lines_of;

/// Where the trace of a command stands.
#[derive(Drop)]
pub struct Source {
    path: Text,
    part: Option<Part>,
}

// A part of a trace that tells of other commands too.
#[derive(Clone, Copy)]
struct Part {
    from: u64,
    process: u32,
}

impl Source {
    /// A file of its own.
    pub fn whole(path: Text) -> Source {
        Source { path, part: None }
    }

    /// The lines of a process, and of those that it began, behind so many bytes of a file.
    pub fn part(path: Text, from: u64, process: u32) -> Source {
        Source {
            path,
            part: Some(Part { from, process }),
        }
    }

    /// How often the end of the trace is waited for, and how long each time, in microseconds: a
    /// fifth of a second in all. strace writes it when the command is gone already. A trace to
    /// which others add is not looked at as often.
    pub fn patience(&self) -> (u32, u64) {
        match self.part {
            None => (1000, 200),
            Some(_) => (40, 5000),
        }
    }

    /// How long the file is.
    pub fn length(&self, rt: &HostRuntime) -> u64 {
        length_of(rt, self.path.bytes())
    }

    /// The trace as it stands; none where it cannot be read.
    pub fn text(&self, rt: &HostRuntime) -> Result<Option<Text>, Refusal> {
        let Some(part) = self.part else {
            return bytes_of(rt, self.path.bytes());
        };
        let Some(bytes) = bytes_from(rt, self.path.bytes(), part.from)? else {
            return Ok(None);
        };
        // The first line is of what this process asked for the length with, or of another one: that
        // of the command was not begun then.
        let lines = match cut_at(b'\n', bytes.bytes()) {
            Some((_, lines)) => lines,
            None => b"",
        };
        let family = family_of(rt.alloc(), lines, part.process)?;
        Ok(Some(lines_of(rt.alloc(), &family, lines)?))
    }
}
