//! What has happened in a world.
use crate::command::Cmd;
use crate::step::{Deed, Deeds};
use mk_bytes::{Items, Text};

/// A file with the time of its last change.
#[derive(Drop)]
pub struct File {
    pub path: Text,
    pub bytes: Text,
    pub time: u64,
}

/// Files, each with its time.
pub type Bases = Items<File>;

/// A step and its time.
#[derive(Drop)]
pub struct Timed {
    pub deed: Deed,
    pub time: u64,
}

/// Steps with their times, in order.
pub type Timeds = Items<Timed>;

/// One thing that happened. No change has an earlier time than one before it, and each stamp has a
/// later time than the stamps before it.
#[derive(Drop)]
pub enum Happening {
    /// Somebody else changed a file, to these bytes or to missing.
    Edit {
        path: Text,
        bytes: Option<Text>,
        time: u64,
    },
    /// Make looked at a path, for its bytes or its time.
    Look {
        path: Text,
    },
    /// Make wrote the head of a meta file.
    Stamp {
        path: Text,
        bytes: Text,
        time: u64,
    },
    /// Make wrote a whole file.
    Put {
        path: Text,
        bytes: Text,
        time: u64,
    },
    /// Make removed a file.
    Gone {
        path: Text,
        time: u64,
    },
    /// Make ran a command to its end, with nothing between its steps.
    Ask {
        cmd: Cmd,
        steps: Timeds,
    },
    /// Make started a child for an owner, the start stamp of its job or 0.
    Start {
        ticket: u32,
        owner: u64,
        cmd: Cmd,
    },
    /// A child did one step.
    Step {
        ticket: u32,
        owner: u64,
        deed: Deed,
        time: u64,
    },
    /// Make took in a child that had ended.
    End {
        ticket: u32,
        owner: u64,
    },
    /// Make gave up a child.
    Left {
        ticket: u32,
        owner: u64,
    },
}

/// What happened, in order.
pub type Happenings = Items<Happening>;

/// What a world tells of itself: its files at the beginning, and what has happened since.
#[derive(Drop)]
pub struct History {
    pub base: Bases,
    pub events: Happenings,
}

/// A child that runs, and what it has done so far.
#[derive(Drop)]
pub struct Child {
    pub ticket: u32,
    pub owner: u64,
    pub cmd: Cmd,
    pub deeds: Deeds,
}

/// The children that run, in the order of their starts.
pub type Children = Items<Child>;
