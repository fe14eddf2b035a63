//! What dependency lines leave (NetBSD make(1), "FILE DEPENDENCY SPECIFICATIONS", "SPECIAL TARGETS"
//! and "SPECIAL SOURCES"): the graph of nodes, the known suffixes, the directories of `.PATH`, the
//! main targets, and the targets that take the command lines.
#![tactic(auto)]

mod attribute;
mod end;
mod fault;
mod gathered;
mod line;
mod mode;
mod names;
mod rules;
mod source;

pub use end::Finished;
pub use fault::RuleFault;
pub use mode::mode_by;
pub use rules::Rules;
