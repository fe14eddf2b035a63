//! What an audit finds of the nodes of a plan: whether what is recorded of their jobs is there, and
//! is that of what the jobs would do now (`mk_breaches` tells what is breached by that).
//!
//! The nodes are gone through in plan order. For one with commands, in this order: its file and the
//! nodes that count for it are looked at, the names that its commands look up are found, its task
//! is made, and, in meta mode, its meta file is read and each path of its records is looked at. A
//! node without commands is not looked at. Nothing is started or changed, and no node counts as new
//! for others.
#![tactic(auto)]

mod commands;
mod facts;
mod fault;
mod filed;
mod law;
mod mode;
mod names;
mod reason;
mod view;
mod walk;

pub use fault::AuditFault;
pub use law::{audited_nodes_are_of_the_plan, phony_nodes_are_by_records};
pub use mode::mode_is_full;
pub use names::{is_by_newer, looks_for_newer};
pub use walk::audit_nodes;
