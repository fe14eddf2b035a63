//! That what the theorem asks of what jobs read and change follows from the files and the meta
//! files that stand.
//!
//! No code stands here but the laws, each the contract of a function.
#![tactic(auto)]

mod law;

pub use law::{
    audited_files_are_sound, recorded_files_are_declared, up_to_date_files_are_sound,
    up_to_date_nodes_stand,
};
