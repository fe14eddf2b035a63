use mk_bytes::Text;
use mk_filemon::Recs;
use mk_world::{Lines, SharedPairs, Time};

/// What a target was made with. It has a meta file where its commands begin with none of the bytes
/// that are taken off a command line, only `text` and `ignore` of them are set, the names of the
/// exports are sorted and distinct, made of letters, digits and `_` with no digit first, and the
/// records name lines.
#[derive(Drop)]
pub struct Meta {
    /// The time at which the job began.
    pub stamp: Time,
    /// The variables of the commands' environment.
    pub exports: SharedPairs,
    pub lines: Lines,
    /// The directory of the commands.
    pub cwd: Text,
    pub target: Text,
    /// The output of all lines in order.
    pub output: Text,
    /// The records of all lines in order, where every child gave some.
    pub records: Option<Recs>,
}
