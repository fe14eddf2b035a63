//! The commands of a world in memory: a small language of command lines, and what a command does to
//! the files, step by step.
//!
//! `next` says what a command does next by the answers that it has had, `Files` holds the files as
//! they stand, and a `Rest` is what a command does from some moment to its end.
//!
//! ## The commands
//!
//! A command line is one or more commands parted by the word `;`. They run in order and stop at the
//! first status other than 0, which is the line's status; what they print is joined. Words are cut
//! at spaces, tabs and newlines, and paths are cleaned.
//!
//! | Command | What it does |
//! |---|---|
//! | `put P w1 .. wn` | writes to P the words with spaces between them, and a newline |
//! | `cat P S1 .. Sn` | looks at each S, and writes their contents to P; n is at least 1 |
//! | `copy A B` | looks at A, and writes its contents to B |
//! | `move A B` | looks at A, and gives it the path B |
//! | `del A` | looks at A, and removes it |
//! | `show S` | looks at S, and prints its contents |
//! | `say w1 .. wn` | prints the words with spaces between them, and a newline |
//! | `pick P N S` | looks at S, and writes to P its line N with a newline, if there is one |
//! | `probe P Q` | looks at Q, and writes to P a line `yes` or `no`, as Q stands |
//! | `fail N` | ends with status N, 1 to 255 |
//!
//! Where a file is missing, a command but `probe` ends with status 1 and does nothing more. A wrong
//! number of words and a wrong N give status 2, an unknown word 127, before anything is done. A
//! number has 1 to 9 decimal digits, and N is not 0. A command without words does nothing.
#![tactic(auto)]

mod below;
mod change;
mod clock;
mod command;
mod copy;
mod files;
mod language;
mod rest;
mod turn;
mod verb;
mod word;

pub use change::Change;
pub use clock::{all_taken, numbers_taken, taken_by_step, timed};
pub use copy::{copy_bytes, copy_cmd, copy_deed};
pub use files::{Files, Stored};
pub use language::next;
pub use rest::{Rest, answers_with, deed_after, is_over, records_of, rest_of};
