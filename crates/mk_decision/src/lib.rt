//! Decisions: what is to be done with a node of a plan, by looks at files (NetBSD make(1), "FILE
//! DEPENDENCY SPECIFICATIONS" and "META MODE").
//!
//! A node is looked at part by part, and no further than its decision needs:
//!
//! 1. The time of its file, and, unless this is missing, the times of its sources and of the nodes
//!    from which these have their ages.
//! 2. Its command lines are expanded, and `exists` is asked of the paths that their conditions
//!    name. A line that cannot be expanded refuses the node.
//! 3. In meta mode, and only where times give no reason to make it: its meta file is read, and its
//!    time is asked.
//! 4. Only where the meta file gives no reason either, and where it has records that count: the
//!    time at which each path that the job found outside was changed last, then each that it missed
//!    there, then each that it left written, without the ignored paths. Such a path may be a source
//!    too, whose own time was asked before: that is another look.
//!
//! A node is made exactly where the test of `mk_oodate` gives a reason by what was seen. A meta
//! file that is missing, that is not of the form of `mk_meta`, or that is of another target counts
//! as none.
#![tactic(auto)]

mod age;
mod decision;
mod judgement;
mod maker;
mod newest;
mod opening;
mod paths;
mod reason;
mod sight;
mod test;
mod wanted;

pub use decision::{Decision, decide_on};
pub use judgement::{Judgement, Verdict, judge, judge_on, task_in};
pub use maker::{Maker, jobs_in};
pub use newest::raise;
pub use opening::{MetaFile, open_meta};
pub use paths::{RecordTimes, look_at_records};
pub use reason::Found;
pub use sight::{NodeTimes, Sighting, Sightings, look};
pub use test::{newer_names, node_mode};
