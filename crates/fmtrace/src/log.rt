//! The part of a log that is written for a command (filemon(4)).
use crate::file::Stand;
use mk_bytes::{NoMemory, Text};
use mk_filemon::push_decimal;
use std::alloc::Global;

/// A part of a log: its head, a line for each record, and its end with the count of these lines.
#[derive(Drop)]
pub struct Log {
    text: Text,
    process: Text,
    count: u64,
}

/// What is told of a path that holds a newline: a read of a path that is never there.
pub const NO_FORM: &[u8] = b"/a path with a newline has no record";

/// Whether a path holds a newline, so that no line can hold it.
pub fn has_newline(path: &[u8]) -> bool {
    path.iter().any(|byte| *byte == b'\n')
}

impl Log {
    /// A log of the records of a process, with its first line.
    pub fn new(alloc: Global, process: u32) -> Result<Log, NoMemory> {
        let mut digits = Text::new(alloc);
        push_decimal(&mut digits, u64::from(process))?;
        Ok(Log {
            text: Text::from_bytes(alloc, b"# recorder fmtrace 0.2.0\n")?,
            process: digits,
            count: 0,
        })
    }

    /// Adds a record. One whose path holds a newline, which no line can hold, is told as a read of
    /// a path that is never there.
    pub fn push(&mut self, letter: &[u8], path: &[u8]) -> Result<(), NoMemory> {
        if has_newline(path) {
            return self.push_line(b"R", NO_FORM);
        }
        self.push_line(letter, path)
    }

    fn push_line(&mut self, letter: &[u8], path: &[u8]) -> Result<(), NoMemory> {
        self.text.push_both(letter, b" ")?;
        self.text.push_both(self.process.bytes(), b" ")?;
        self.text.push_both(path, b"\n")?;
        self.count = self.count.saturating_add(1);
        Ok(())
    }

    /// Adds the last line: the process, its status and how many records there are.
    pub fn end(&mut self, status: u8) -> Result<(), NoMemory> {
        self.text.push_both(b"# Bye bye ", self.process.bytes())?;
        self.text.push(b" ")?;
        push_decimal(&mut self.text, u64::from(status))?;
        self.text.push(b" ")?;
        push_decimal(&mut self.text, self.count)?;
        self.text.push(b"\n")
    }

    pub fn bytes(&self) -> &[u8] {
        self.text.bytes()
    }
}

/// Whether a read is recorded, where this stands at its path in the end. A directory counts where
/// it was listed, and no device does.
pub fn keeps_read(is_folder: bool, stand: Stand) -> bool {
    match stand {
        Stand::File | Stand::Missing | Stand::Unknown => true,
        Stand::Folder => is_folder,
        Stand::Other => false,
    }
}

/// Whether a written path is recorded, where this stands there in the end: only a file is.
pub fn keeps_written(stand: Stand) -> bool {
    matches!(stand, Stand::File | Stand::Unknown)
}

/// Whether a deleted path is recorded, where this stands there in the end.
pub fn keeps_deleted(stand: Stand) -> bool {
    matches!(stand, Stand::Missing | Stand::Unknown)
}
