//! The options of make that reach the makes below it: which words of a command line they are, and
//! the text by which one make hands them to another, in the variable `BMAKE_FLAGS` of the
//! environment.
#![tactic(auto)]

mod flags;
mod passed;

pub use flags::{flags_of, words_in};
pub use passed::passed_on;
