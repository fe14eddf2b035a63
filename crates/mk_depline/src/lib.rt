//! Dependency lines, without the references in them (NetBSD make(1), "FILE DEPENDENCY
//! SPECIFICATIONS"): targets, an operator, and sources.
//!
//! [`parse_dep`] reads one. What its parts mean is left to the reader of makefiles.
#![tactic(auto)]

mod brace;
mod fault;
mod line;
mod name;

pub use fault::DepFault;
pub use line::{DepLine, parse_dep};
pub use name::{Special, is_attribute};
