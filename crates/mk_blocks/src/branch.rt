//! Branches of an if-block.

use mk_lines::LineRef;

/// The line that begins another branch of an if-block.
#[derive(Drop)]
pub struct Branch<'t> {
    pub is_else: bool,
    pub line: LineRef<'t>,
}
