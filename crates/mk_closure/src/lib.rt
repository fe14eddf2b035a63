//! The closure of wanted names: which nodes are met from them on, and how each is made (NetBSD
//! make(1), "FILE DEPENDENCY SPECIFICATIONS").
#![tactic(auto)]

mod closure;
mod decide;
mod fault;
mod law;
mod means;
mod members;
mod part;
mod visit;

pub use closure::Closure;
pub use fault::CloseFault;
pub use law::{closures_are_named, closures_are_what_is_needed};
pub use members::Sources;
pub use part::{Part, Way};
pub use visit::close;
