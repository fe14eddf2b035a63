//! The value of a text with references to variables (make(1), "VARIABLE ASSIGNMENTS"), the names
//! that are looked up for it, and the truth of a condition.
//!
//! What conditions ask of the outside is asked of [`Facts`]. What is defined here, and the parts of
//! an evaluation in which nothing is evaluated, stand in mk_values.
#![tactic(auto)]

mod conditions;
mod evaluation;
mod modifiers;
mod noted;
mod whole;
mod words;

pub use mk_values::{Asked, ExpandFault, FactFault, Facts, Locals};
pub use noted::{names, names_behind};
pub use whole::{eval_cond, expand, name_tree, value_of_text};
