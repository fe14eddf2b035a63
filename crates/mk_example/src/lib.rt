//! Two makefiles in the world in memory, of one target and of a program, for which all that is
//! asked of a run is shown: so what runs of them leave follows from the contract of the top call
//! alone, whatever was edited and built before.
//!
//! No code stands here but the laws, each the contract of a function.
#![tactic(auto)]

mod law;

pub use law::{
    changes_may_share_a_time, copied_files_are_sound, copies_are_right, copies_are_right_again,
    edited_worlds_are_ready, new_programs_may_run, new_worlds_are_ready, program_edits_may_follow,
    program_runs_may_follow, programs_are_right, programs_are_right_again, sources_are_sound,
};
