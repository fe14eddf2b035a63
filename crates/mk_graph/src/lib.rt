//! What the makefiles leave: the variables, and how targets are made (NetBSD make(1), "FILE
//! DEPENDENCY SPECIFICATIONS").
//!
//! A [`Graph`] holds nodes in order of first mention.
#![tactic(auto)]

mod attr;
mod graph;
mod law;
mod links;
mod lists;
mod macros;
mod mode;
mod told;
mod walk;

pub use attr::{Attr, Marks};
pub use graph::Graph;
pub use law::orders_are_whole;
pub use lists::{Nodes, Preds};
use mk_bytes::Texts;
use mk_scopes::Scopes;
pub use mode::Mode;
pub use walk::{Ordered, cycle, depth_first};

/// What the makefiles of a run leave.
#[derive(Drop)]
pub struct Made {
    pub scopes: Scopes,
    pub graph: Graph,
    /// The known suffixes, in their order.
    pub suffixes: Texts,
    /// The directories that are searched for files, clean, in their order.
    pub paths: Texts,
    /// What is made where no name is requested.
    pub main: Texts,
    pub mode: Mode,
}
