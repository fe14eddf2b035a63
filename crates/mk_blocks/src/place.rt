//! Places in a file that is being read.
use mk_lines::LineCursor;
use mk_turns::{OpenLoop, Stack};

/// Where reading stands in a file: before a line, inside so many if-blocks whose branches are being
/// read, inside loops.
#[derive(Drop)]
pub struct Place<'t> {
    pub cursor: LineCursor<'t>,
    /// Those inside the innermost loop.
    pub depth: u32,
    pub loops: Stack<OpenLoop<'t>>,
}

/// What a line leads to.
#[derive(Clone, Copy)]
pub enum Step {
    /// Reading goes on at the place.
    On,
    /// The lines of a body or of the file are at their end.
    Ends,
    /// The innermost loop is ended.
    Breaks,
}
