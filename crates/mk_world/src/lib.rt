//! The outside as make sees it: a world of files and children, and sinks that take what make
//! prints.
//!
//! A world may tell its history: its files at the beginning, and everything that has happened
//! since, each step of each child included. Then each call says what it adds to the history, and
//! its answers are tied to the files at their moment. A world that does not tell, as that of real
//! files, only counts its faults.
#![tactic(auto)]

mod command;
mod fault;
mod history;
mod kids;
mod law;
mod listing;
mod progress;
mod shared;
mod sink;
mod step;
mod time;
mod world;

pub use command::{Cmd, Lines, Task, TaskLine};
pub use fault::{SinkFault, WorldFault};
pub use history::{Bases, Child, Children, File, Happening, Happenings, History, Timed, Timeds};
pub use kids::Kids;
pub use law::{one_listing, records_may_tell, runs_stay_lawful, same_doing};
pub use listing::Names;
pub use progress::Progress;
pub use shared::SharedPairs;
pub use sink::{Sink, write_all};
pub use step::{Answer, Answers, Deed, Deeds, Ended, Next, Op, Ops, Request};
pub use time::{Ticket, Time, When};
pub use world::World;
