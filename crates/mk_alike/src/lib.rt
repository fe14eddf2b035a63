//! Whether makefiles that are read twice ask for the same work: the plan, the variables, the known
//! suffixes, what conditions may ask of the makefiles, and how the build goes.
//!
//! The audit reads and plans once on the files as they stand, and once where made files and meta
//! files are away.
#![tactic(auto)]

mod lists;
mod marks;
mod mode;
mod plan;
mod work;

pub use work::is_same_work;
