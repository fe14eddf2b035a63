//! Blocks that are open.

/// The part of a block in which a line stands.
#[derive(Clone, Copy)]
pub enum BlockPart {
    /// A branch of an if-block, behind which another one may follow.
    Branch,
    /// The branch of an `.else`.
    Last,
    /// The body of a loop.
    Body,
}

/// A block that is open.
#[derive(Clone, Copy)]
pub struct OpenBlock {
    /// The number of the line that began it.
    pub first: u32,
    pub part: BlockPart,
    /// Whether it is a loop or stands in one.
    pub in_loop: bool,
}
