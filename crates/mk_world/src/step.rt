//! What commands ask of the files, how they are answered, and what is recorded of it.
use crate::time::Ticket;
use mk_bytes::{Items, Text};

/// What a command asks for next.
#[derive(Drop)]
pub enum Request {
    /// The bytes of a path, or that it is missing.
    Look { path: Text },
    /// To write a whole file.
    Write { path: Text, bytes: Text },
    /// To remove a file.
    Delete { path: Text },
    /// To give a file another path.
    Move { from: Text, to: Text },
}

/// How a request is answered.
#[derive(Drop)]
pub enum Answer {
    /// The file of a look stands, with these bytes.
    Found { bytes: Text },
    /// The file of a look, or the first one of a move, is missing.
    Missing,
    /// The first file of a move stood.
    Stands,
    /// The write or removal is done.
    Done,
}

/// The answers so far.
pub type Answers = Items<Answer>;

/// What a command does, by the answers so far.
#[derive(Drop)]
pub enum Next {
    More { request: Request },
    Over { status: u8, output: Text },
}

/// What one step did to the files, with all bytes that it read, wrote or moved.
#[derive(Drop)]
pub enum Deed {
    Read { path: Text, bytes: Text },
    Miss { path: Text },
    Write { path: Text, bytes: Text },
    Delete { path: Text },
    Move { from: Text, to: Text, bytes: Text },
}

/// What several steps did, in order.
pub type Deeds = Items<Deed>;

/// What is recorded of a step: what it did, without bytes.
#[derive(Drop)]
pub enum Op {
    Read(Text),
    Miss(Text),
    Write(Text),
    Delete(Text),
    Move(Text, Text),
}

/// The records of several steps, in order.
pub type Ops = Items<Op>;

/// A child that was taken in, or a command that was run to its end: its exit status, what it
/// printed, and the records of its steps, where there are any.
#[derive(Drop)]
pub struct Ended {
    pub ticket: Ticket,
    pub status: u8,
    pub output: Text,
    pub records: Option<Ops>,
}
