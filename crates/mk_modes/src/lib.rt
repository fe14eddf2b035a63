//! What a run does before the line of its end is written: it reads the makefiles, and then prints
//! from them, audits, explains, asks, shows or builds; and the texts of its ends.
#![tactic(auto)]

mod auditing;
mod building;
mod explaining;
mod following;
mod message;
mod print;
mod querying;
mod report;
mod showing;
mod words;

pub use auditing::Audit;
pub use building::{Went, unbuilt};
pub use following::follow;
pub use message::write_line;
pub use mk_plan::PlanNames;
pub use mk_trace::{Event, Events};
pub use report::{End, Report};
pub use words::asked;
