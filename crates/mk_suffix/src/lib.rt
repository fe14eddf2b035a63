//! Suffix rules (NetBSD make(1), "FILE DEPENDENCY SPECIFICATIONS" and `.SUFFIXES`): by which chain
//! of them a file is made from one that is there.
#![tactic(auto)]

mod chain;
mod fault;
mod found;
mod name;
mod rule;
mod search;
mod step;
mod table;

pub use chain::Chain;
pub use fault::SuffixFault;
pub use found::place_of;
pub use name::prefix_of;
pub use search::resolve;
pub use table::SuffixRules;
