//! What a child prints. It comes by a pipe, so that a command which opens `/dev/stderr` anew cuts
//! nothing that it printed before.
ghost use Rattle.std.specs.Prelude.{◌≤◌, length, IfOk};
ghost use Rattle.mk_realworld.specs.PieceSizes.{bytes_of};

use crate::file::MAX_FILE;
use crate::refusal::{Reason, Refusal};
use mk_bytes::Text;
use std::fs::Files;
use std::io;
use std::io::{Error, ErrorKind, PipeReader, PipeWriter, Read};
use std::os::fd::AsRawFd;

/// The end of a pipe at which make reads, until nobody can write into it any more, and what has
/// come out of it so far.
#[derive(Drop)]
pub struct Output {
    reader: Option<PipeReader>,
    text: Text,
}

/// What a pipe had.
#[derive(Clone, Copy, PartialEq, Eq)]
pub enum Piece {
    /// So many bytes.
    Bytes(usize),
    /// Nothing stands in it now.
    Nothing,
    /// Nothing will stand in it any more.
    End,
}

// The next bytes of a pipe, without waiting for them.
fn next_piece(reader: &mut PipeReader, buffer: &mut [u8]) -> Result<Piece, Refusal>
    ensures { IfOk result (λ piece. bytes_of piece ≤ length buffer.new) }
{
    for _ in 0..u64::MAX {
        match reader.read(buffer) {
            Ok(0) => return Ok(Piece::End),
            Ok(count) => return Ok(Piece::Bytes(count)),
            Err(error) => match error.kind() {
                ErrorKind::Interrupted => {}
                ErrorKind::WouldBlock => return Ok(Piece::Nothing),
                _ => return Err(Refusal::from(error)),
            },
        }
    }
    Err(Refusal::Outside(Reason::Other))
}

impl Output {
    /// A new pipe: what is read of it, and the end at which a child writes.
    pub fn new<R: Files + AllocGlobal>(rt: &R) -> Result<(Output, PipeWriter), Refusal> {
        let (reader, writer) = io::pipe(rt)?;
        if os::set_nonblocking(reader.as_raw_fd(), true) != 0 {
            return Err(Refusal::Outside(Reason::System(os::errno())));
        }
        let output = Output {
            reader: Some(reader),
            text: Text::new(rt.alloc()),
        };
        Ok((output, writer))
    }

    /// The number by which the system knows the pipe; below 0 where it has ended.
    pub fn number(&self) -> i32 {
        match &self.reader {
            Some(reader) => reader.as_raw_fd(),
            None => -1,
        }
    }

    fn add(&mut self, bytes: &[u8]) -> Result<(), Refusal> {
        if bytes.len() > MAX_FILE.saturating_sub(self.text.len()) {
            return Err(Refusal::Outside(Reason::TooLong));
        }
        self.text.push(bytes)?;
        Ok(())
    }

    /// Takes in what stands in the pipe, and does not wait for more.
    pub fn drain(&mut self, buffer: &mut [u8]) -> Result<(), Refusal> {
        for _ in 0..u64::MAX {
            let Some(reader) = &mut self.reader else {
                return Ok(());
            };
            match next_piece(reader, buffer)? {
                Piece::Bytes(count) => self.add(&buffer[..count])?,
                Piece::Nothing => return Ok(()),
                Piece::End => self.reader = None,
            }
        }
        Err(Refusal::Outside(Reason::Other))
    }

    /// What came out of it, and the pipe, where somebody can still write into it.
    pub fn take(&mut self, empty: Text) -> (Text, Option<PipeReader>) {
        let reader = self.reader.take();
        (std::mem::replace(&mut self.text, empty), reader)
    }
}
