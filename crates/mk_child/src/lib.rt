//! The children of make: the command of a line is started, one is waited for, and what it printed
//! is written. Beside it stands what ends a build before it is over.
#![tactic(auto)]

mod child;
mod halt;
mod joined;

pub use child::{Place, command, line_fails, print_end, start_child, wait_child};
pub use halt::{Halt, note_failure};
