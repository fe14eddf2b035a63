//! Directive lines of makefiles: their words, and the forms of what follows these (NetBSD make(1),
//! "INCLUDE STATEMENTS, CONDITIONALS AND FOR LOOPS").
//!
//! A directive is a line that begins with `.` and one of the words that [`directive_on`] knows.
//! What its argument means is left to the reader of makefiles.
#![tactic(auto)]

mod argument;
mod directive;

pub use argument::{Heading, Wanted, heading_in, wanted_by};
pub use directive::{Directed, Directive, directive_on};
pub use mk_bytes::{is_white, without_blanks_before as without_blanks, words};
