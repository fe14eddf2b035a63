//! What a build without any record would make: jobs on files alone, and the clean build; that a
//! target for which the test gives no reason stands as its job would leave it now; and that a build
//! in which all is settled has the files of the clean build.
//!
//! No code stands here but the laws, each the contract of a function.
#![tactic(auto)]

mod law;

pub use law::{
    clean_builds_forget_what_builds_leave, jobs_with_the_same_reads_are_the_same,
    nodes_without_a_reason_may_be_kept, recorded_jobs_do_the_same,
    settled_builds_have_the_clean_files, steps_are_those_of_the_clean_build,
    targets_without_a_reason_stand,
};
