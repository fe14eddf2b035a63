use mk_bytes::{Text, Texts};
use mk_world::{Cmd, Ended, When};
use std::snapshot::Snapshot;

/// A note of a question that reading asked of the world, and of the answer. It keeps neither: of
/// more than the kind of the question proofs alone know.
#[derive(Drop)]
pub enum Note {
    /// The bytes of a path were read.
    Read(Snapshot<Text>, Snapshot<Option<Text>>),
    /// The time of a path was asked for.
    Time(Snapshot<Text>, Snapshot<When>),
    /// The names in a directory were asked for.
    Listed(Snapshot<Text>, Snapshot<Option<Texts>>),
    /// A command was run to its end.
    Ran(Snapshot<Cmd>, Snapshot<Ended>),
    /// A command was not answered, and may have been run.
    Cut(Snapshot<Cmd>),
}
