//! The turns of loops whose bodies are being read, and what a line becomes in them (NetBSD make(1),
//! the directive `.for`).
//!
//! In each turn the names of a loop stand for as many of its words, in order. In a line inside
//! several loops the names are replaced one loop after the other, the outermost first, and behind
//! each the line has at most as many bytes as a logical line.
#![tactic(auto)]

mod loops;
mod stack;
mod turn;

pub use loops::{Loop, OpenLoop};
pub use stack::Stack;
pub use turn::{changed_text, has_next, next_turn, text_or, turn_count};
