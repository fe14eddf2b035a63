//! Makefiles as trees of lines, if-blocks, loops and included files, over any language of single
//! lines (NetBSD make(1), "INCLUDE STATEMENTS, CONDITIONALS AND FOR LOOPS").
//!
//! What a line does is the business of a [`Language`]. This crate decides which lines are
//! processed, how often, and in which order:
//!
//! - Of an if-block the first branch is read whose condition holds, or that of `.else`. Conditions
//!   behind it are not evaluated, and lines of other branches are not processed.
//! - The body of a loop is read once in each turn. In its lines the names of the loops round it
//!   stand for the words of their turns, the outermost loop first. `.break` ends the innermost
//!   loop.
//! - A file is checked before any of its lines is processed: first the faults of its lines, then
//!   those of its blocks. Blocks are those of the lines as they are written, in one file.
//! - At most 4,194,304 lines and turns are processed in one run, and at most 64 included files are
//!   open at once.
//!
//! Loops and if-blocks take no stack, however deeply they are nested, and turns leave no memory
//! behind.
#![tactic(auto)]

mod branch;
mod check;
mod choice;
mod fault;
mod kind;
mod language;
mod line;
mod looping;
mod nesting;
mod open_block;
mod place;
mod reading;
mod skip;
mod turn_body;

pub use fault::{FileFault, LanguageFault, Wrong};
pub use kind::{BlockFault, LineKind};
pub use language::{IncludedFile, Language};
pub use line::MAX_LINES;
pub use mk_turns::Loop;
pub use nesting::checked_file_is_one_block;
pub use reading::{MAX_FILES, read_file};
pub use turn_body::turns_read_their_bodies;
