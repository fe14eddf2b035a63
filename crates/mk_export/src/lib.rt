//! Exported variables, which commands find in their environment (make(1), `.export`): the names so
//! far, and the values that commands are given.
#![tactic(auto)]

mod exported;
mod exports;

pub use exported::Exported;
pub use exports::Exports;
