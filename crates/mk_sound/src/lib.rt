//! That what the theorem asks of a run may be asked of the makefiles and the files at its entry.
//!
//! No code stands here but the laws, each the contract of a function.
#![tactic(auto)]

mod law;

pub use law::{
    builds_have_clean_tasks, runs_leave_clean_files, runs_may_follow, sound_files_make_sound_runs,
    sound_runs_leave_clean, sound_runs_stay_true,
};
