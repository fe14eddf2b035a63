//! What is left to be asked of a clean build when files are edited: of the jobs that the edits do
//! not reach nothing, since they do what they did.
//!
//! No code stands here but the law, the contract of a function.
#![tactic(auto)]

mod law;

pub use law::edited_builds_are_declared;
