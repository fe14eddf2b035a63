//! Dry runs: what a build would do is shown, and only lines with `+` are started (NetBSD make(1),
//! the option `-n`).
//!
//! Nodes are decided in the order of the plan, as a build with one job decides them. Of one that is
//! out of date each line is printed, and from then on it counts as new for all that is made from
//! it. Make itself changes no file.
#![tactic(auto)]

mod course;
mod law;
mod line;
mod node;
mod running;

pub use law::dry_runs_stay_true;
pub use running::dry_run;
