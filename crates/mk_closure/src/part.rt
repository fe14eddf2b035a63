/// How a node is made.
#[derive(Clone, Copy)]
pub enum Way {
    /// Nothing was decided of it.
    Open,
    /// As the makefiles say.
    Own,
    /// By the commands of the first node, a rule, from the second, which is its last source.
    Rule(u32, u32),
    /// It is not made: the node of its place stands for it.
    Placed(u32),
    /// By the commands of `.DEFAULT`.
    Default,
    /// There is no way to make it, and it is optional.
    Dropped,
}

/// How far a walk has come with a node.
#[derive(Clone, Copy)]
pub struct Part {
    pub way: Way,
    pub met: bool,
}
