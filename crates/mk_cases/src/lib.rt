//! Cases as they stand in files, what they give their runs, and what is found and told of them.
#![tactic(auto)]

mod body;
pub mod case;
pub mod directive;
pub mod fault;
pub mod found;
pub mod given;
pub mod kinds;
pub mod said;
pub mod tally;
pub mod words;
