/// Which limit of make was passed.
#[derive(Clone, Copy, PartialEq, Eq)]
pub enum Kind {
    /// The names of nodes.
    Names,
    /// The logical lines of the makefiles read.
    Lines,
    /// The included files that are open at once.
    Includes,
}
