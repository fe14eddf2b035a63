use mk_bytes::Text;
use mk_filemon::Recs;

/// What the job of a node collects for its meta file.
#[derive(Drop)]
pub struct Collected {
    /// When the job began: the time of the head of its meta file, or 0 where it has none.
    pub owner: u64,
    /// What its children printed.
    pub output: Text,
    /// What they recorded, by the numbers of their lines, where each of them did.
    pub records: Option<Recs>,
}
