//! What values are by: the names that are looked up in a text or a condition.
//!
//! No code stands here but the law, the contract of a function. Rows of values and truths, computed
//! by their definitions, stand among the proofs.
#![tactic(auto)]

mod law;

pub use law::values_are_by_names;
