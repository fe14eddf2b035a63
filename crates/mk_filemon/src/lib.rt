//! What commands read, miss, write, delete and move: the log of a recorder after NetBSD filemon(4),
//! the records of a meta file, and what they say of the files outside a run.
//!
//! ## The log
//!
//! A log is lines of a letter, a space, a process number, a space and data; lines that do not fit
//! are passed over.
//!
//! | Line | Meaning |
//! |---|---|
//! | `R p path`, `E p path` | process p read the path |
//! | `# N p path` | it looked for the path and missed it; this form is this project's own |
//! | `W p path`, `D p path` | it wrote the path, or deleted it |
//! | `M p 'a' 'b'` | it moved a to b |
//! | `L p 'a' 'b'` | it linked a to b: a is read and b written |
//! | `C p path` | its directory is now this one |
//! | `F p q` | it started process q, which has its directory |
//!
//! A recorder may write its part of a log between two lines of its own, so that a log which was cut
//! is never taken for a whole one:
//!
//! | Line | Meaning |
//! |---|---|
//! | `# recorder NAME` | a part begins, and NAME wrote it |
//! | `# Bye bye PROCESS STATUS COUNT` | it ends; COUNT lines stand between these two |
//!
//! What the paths of a log take has a limit, half of what a file may have; a log above it is none.
//!
//! ## The records
//!
//! A record is `R`, `N` (a miss), `W` or `D`, a space, the number of a command line, a space and a
//! path; or `M`, the number, and two paths in single quotes. A backslash is written `\\` and a
//! newline `\n`, in quotes also a single quote `\'`. Each record has one spelling.
#![tactic(auto)]

mod directory;
mod escape;
mod law;
mod line;
mod log;
mod number;
mod outer;
mod part;
mod record;
mod room;
mod trace;

pub use directory::directory_from;
pub use escape::{cut_at, push_escaped, unescaped};
pub use law::{records_tell_of_steps, same_by_records};
pub use log::read_log;
pub use number::{push_decimal, read_decimal};
pub use outer::{JobPaths, job_paths, left_written, outer_found, outer_missed, outer_reads};
pub use record::{Rec, Recs, push_op, read_op, write_op};
