//! Builds: each node of a plan is decided, and what is out of date is made by its commands
//! (NetBSD make(1), "FILE DEPENDENCY SPECIFICATIONS").
//!
//! Several jobs run at once. In meta mode a job begins with the head of its target's meta file, and
//! where it has ended well the whole file is written (make(1), "META MODE").
#![tactic(auto)]

mod building;
mod collected;
mod course;
mod ending;
mod job;
mod line;
mod meta;
mod node;

pub use building::build;
