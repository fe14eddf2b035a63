//! What a line is for the blocks of its file.

/// What a logical line is for the blocks of its file.
#[derive(Clone, Copy, PartialEq, Eq)]
pub enum LineKind {
    /// A line that is processed and counted.
    Plain,
    /// A line that is processed and does not count.
    Uncounted,
    /// The line that begins an if-block, with the condition of its first branch.
    If,
    /// The line of another branch, with its condition.
    ElseIf,
    /// The line of the branch that is read where no condition holds.
    Else,
    /// The line that ends an if-block.
    EndIf,
    /// The line that begins a loop.
    For,
    /// The line that ends the body of a loop.
    EndFor,
    /// The line that ends the innermost loop at once.
    Break,
    /// The line that includes a file.
    Include,
}

/// What is wrong with the blocks of a file.
#[derive(Clone, Copy, PartialEq, Eq)]
pub enum BlockFault {
    /// Another branch where no if-block is open whose `.else` is still to come.
    Else,
    /// The end of an if-block where the innermost open block is none.
    EndIf,
    /// The end of a loop where the innermost open block is none.
    EndFor,
    /// A `.break` outside loops.
    Break,
    /// A block that is still open at the end of its file.
    OpenBlock,
}
