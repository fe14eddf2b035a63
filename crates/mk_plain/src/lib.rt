//! That what the theorem asks of plans follows where makefiles ask for nothing that builds leave.
//!
//! No code stands here but the laws, each the contract of a function.
#![tactic(auto)]

mod law;

pub use law::{plain_files_are_sound, plans_are_alike_by_names};
