//! Runs: what a build does, as one list of items, which its report tells and the world's history
//! holds (NetBSD make(1), "FILE DEPENDENCY SPECIFICATIONS").
//!
//! Here stands what a build is: which events may follow one another, why each node is kept, refused
//! or started, what is printed, and how it ends. No loop stands here.
#![tactic(auto)]

mod collected;
mod event;
mod law;
mod result;

pub use collected::Collected;
pub use event::{Event, Events, put, tell};
pub use law::{
    children_belong_to_nodes, cut_runs_are_begun_runs, decided_nodes_depend_on_settled_ones,
    meta_files_stay_true, questions_keep_meta_files_true, runs_that_are_over_are_settled,
    the_first_ready_node_is_decided,
};
pub use result::{BuildEnd, BuildResult, Failure};
