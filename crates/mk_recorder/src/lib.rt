//! From what the processes of a command did to the records of the command.
#![tactic(auto)]

mod judgement;
mod known;
mod law;
mod place;
mod record;
mod scratch;
mod state;
mod table;
mod touch;

pub use judgement::judge;
pub use known::{Change, Known, Touch};
pub use law::reads_are_told;
pub use place::Place;
pub use record::{Record, Records};
pub use scratch::{is_left_out, is_of_make, runs_make};
pub use table::{Table, Touched, Touches};
