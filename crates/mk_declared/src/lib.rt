//! A test of whether what the jobs of a clean build read and change is declared: by the paths that
//! each took from outside itself and those that it changed.
//!
//! No code stands here but the law, the contract of a function.
#![tactic(auto)]

mod law;

pub use law::{present_jobs_are_clean, recorded_jobs_are_declared, tested_jobs_are_declared};
