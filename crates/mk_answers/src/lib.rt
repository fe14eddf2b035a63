//! That what is evaluated and read is by the answers to what it asks.
//!
//! No code stands here but the laws, each the contract of a function.
#![tactic(auto)]

mod law;

pub use law::{readings_part_at_questions, values_are_by_their_answers, worlds_are_read_as_files};
