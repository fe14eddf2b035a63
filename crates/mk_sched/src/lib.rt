//! Job tokens: which node of a plan is decided next, while its predecessors are made by so many
//! jobs at once (NetBSD make(1), options `-j` and `-k`).
#![tactic(auto)]

mod counts;
mod followers;
mod least;
mod sched;
mod start;

pub use sched::{Next, Sched};
