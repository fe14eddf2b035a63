//! The logical lines of a makefile's text, and lines without their comments, as NetBSD make(1)
//! reads them.
//!
//! A physical line ends at a newline; the last may lack it. Physical lines are counted from 1. A
//! line that ends in an odd number of backslashes is continued: the last backslash, the newline
//! and the blanks (spaces and tabs) that begin the next line become one space. At the end of the
//! text, the last backslash of such a line is dropped.
#![tactic(auto)]

mod comment;
mod fault;
mod line;
mod physical;

pub use comment::cut_comment;
pub use fault::{LineFault, MAX_LEN, check};
pub use line::{LineCursor, LineRef, LogLine, LogLines, logical_lines};
