//! Patterns of words, as NetBSD make(1) has them in its modifiers `:M` and `:N`.
//!
//! A pattern is read as a list of parts (`specs/Patterns.antt`). One reading of it looks at each
//! byte a fixed number of times, and a match begins anew at most once for each byte of the word. So
//! the steps are at most the product of the two lengths, up to a factor.
#![tactic(auto)]

mod glob;
mod part;
mod set;

pub use glob::{matches, matches_one_of};
