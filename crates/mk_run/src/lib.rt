//! Runs of what a command line asks for: makefiles are read, and then printed from, asked of or
//! built. All that the program does, but for `--generate`, which makes runs of its own.
#![tactic(auto)]

mod running;

pub use mk_modes::{End, Event, Events, PlanNames, Report, Went, asked, unbuilt};
pub use running::{close, run_order};
