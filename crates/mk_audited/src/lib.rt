//! That the files are sound where an audit finds nothing, and what a build leaves behind it.
//!
//! No code stands here but the laws, each the contract of a function.
#![tactic(auto)]

mod law;

pub use law::{
    audited_builds_leave_clean, clean_audits_are_audited, clean_audits_are_sound,
    edits_keep_true_starts, runs_find_nothing, runs_find_sound_files,
};
