//! The grammar of make's variable references and their modifiers, read and written.
//!
//! A text is plain bytes and references: `$$`, `$c`, `${name:modifiers}` and `$(name:modifiers)`.
//! The forms are those of NetBSD make(1), "VARIABLE ASSIGNMENTS", with the modifiers that it lists.
//! A text has one tree or one first fault: what [`parse`] reads, [`print`] spells again, and what a
//! well-formed tree spells is read as that tree.
#![tactic(auto)]

mod fault;
mod literal;
mod modifier;
mod piece;
mod place;
mod read;
mod row;
mod run;
mod separator;
mod spelling;
mod tree;
mod whole;

pub use fault::{AstFault, TreeFault};
pub use piece::{bare_reference_at, piece_at};
pub use place::Piece;
pub use spelling::{print, print_part};
pub use tree::{ModTree, ModTrees, Part, Tree};
pub use whole::{form_at, parse};
