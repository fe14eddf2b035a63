//! The command line of make: what each of its words asks for (NetBSD make(1), "SYNOPSIS" and
//! "OPTIONS").
#![tactic(auto)]

mod argument;
mod assignment;
mod command_line;
mod letter;
mod number;
mod order;
mod reading;

pub use command_line::words;
pub use order::{AssignOp, Order, Print, Prints, Set, Sets, Usage};
