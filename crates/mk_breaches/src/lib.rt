//! What an audit tells: where what is found of a plan, or what the records of its jobs say,
//! breaches what a build stands on. Where nothing is breached, all that the records say is
//! declared, and they are those of what the jobs would do.
//!
//! Nodes go in as values, each with what is found of it and the records of its job; the breaches
//! come out as a list, and each has a line.
#![tactic(auto)]

mod breach;
mod found;
mod law;
mod line;
mod node;
mod path;
mod reach;
mod read;
mod table;
mod written;

pub use breach::{Breach, Breaches, breaches};
pub use law::nothing_is_breached;
pub use line::{push_line, push_lines};
pub use node::{NodeFacts, Nodes, PlanFacts};
