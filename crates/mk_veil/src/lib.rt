//! A world over another one in which what builds leave does not stand: some paths are hidden, and
//! the rest of the files is what it is below. Nothing is started or changed through it.
#![tactic(auto)]

mod hidden;
mod names;
mod veil;

pub use hidden::Hidden;
pub use veil::Veil;
