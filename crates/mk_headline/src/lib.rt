//! That a build of the program is a build of turns, and so leaves what the clean build leaves.
//!
//! No code stands here but the laws, each the contract of a function.
#![tactic(auto)]

mod law;

pub use law::{
    builds_are_clean, builds_are_turns, builds_keep_apart, builds_stay_true, done_builds_are_clean,
    first_builds_are_turns, settled_nodes_have_judged_lines,
};
