//! The turns of a loop, as NetBSD make(1) makes them of the body of a `.for`.
//!
//! A turn takes as many words as the loop has names. In its body each reference to a name becomes
//! a reference with the name's word as its value, so that a word is never read as text of a line.
#![tactic(auto)]

mod form;
mod substitution;
mod unrolling;

pub use substitution::{TurnFault, substitute, substitute_within};
pub use unrolling::{Bodies, ForFault, turn, unroll};
