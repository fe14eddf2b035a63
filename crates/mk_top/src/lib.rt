//! The top call: all that the program does, but for the few lines that make the real world.
#![tactic(auto)]

mod running;

pub use mk_run::{End, Event, Events, PlanNames, Report};
pub use running::run;
