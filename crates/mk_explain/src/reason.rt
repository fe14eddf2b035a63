use mk_bytes::{Items, Text};
use mk_oodate::Why;

/// Why a node is out of date.
#[derive(Drop)]
pub struct Reason {
    /// Its place in the plan.
    pub node: u32,
    pub why: Why,
    /// The line that tells it, with its newline.
    pub line: Text,
}

/// Reasons, in plan order.
pub type Reasons = Items<Reason>;
