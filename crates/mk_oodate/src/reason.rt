//! What a target's state is judged by, and what the judgement says.
use mk_bytes::Items;
use mk_world::{Time, When};

/// The age of a source.
#[derive(Clone, Copy, PartialEq, Eq)]
pub enum Age {
    /// Older than every target.
    Old,
    At(Time),
    /// Newer than every target.
    New,
}

/// Why a target is out of date. Places count from 0.
#[derive(Clone, Copy, PartialEq, Eq)]
pub enum Why {
    Always,
    Missing,
    /// The source at this place is newer.
    Newer(u32),
    NoMeta,
    Touched,
    Command,
    NoRecords,
    /// The path at this place, of those that the job found outside, was changed.
    Read(u32),
    /// The path at this place, of those that the job missed, is there.
    Appeared(u32),
    /// The path at this place, of those that the job left written, is missing.
    Left(u32),
}

/// The ages of sources, in order.
pub type Ages = Items<Age>;

/// When files were changed last.
pub type Whens = Items<When>;

/// What counts for a node.
#[derive(Clone, Copy)]
pub struct NodeMode {
    /// It is made whatever stands there.
    pub always: bool,
    /// It is in meta mode.
    pub meta: bool,
    /// It must have a meta file.
    pub missing_meta: bool,
    /// Its meta file must have records.
    pub missing_filemon: bool,
    /// Records do not count.
    pub nofilemon: bool,
    /// Commands do not count.
    pub ignore_cmd: bool,
    /// Of commands only the number counts.
    pub count_only: bool,
}

/// What was seen at the looks for a node: its file, its meta file, its sources, and the paths that
/// [`crate::looked_at`] gives.
#[derive(Drop)]
pub struct Times {
    pub target: When,
    pub meta: When,
    pub sources: Ages,
    pub reads: Whens,
    pub misses: Whens,
    pub left: Whens,
}
