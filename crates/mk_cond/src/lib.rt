//! Conditions of make: their grammar, and the truth of a value and of a comparison.
//!
//! A condition is what NetBSD make(1) describes under the directive `.if`. A text has one condition
//! or one first fault. Both are read by [`parse_cond`]. In which order its parts are evaluated is
//! told by [`entered`] and [`left_behind`]; the evaluation of each is left to a higher crate.
#![tactic(auto)]

mod bytes;
mod comparison;
mod cond;
mod fault;
mod read;
mod term;
mod walk;
mod whole;

pub use comparison::{compare, truth};
pub use cond::{CmpOp, Cond, Conds, Form, Fun, Side};
pub use fault::{CondFault, NoNumber};
pub use walk::{Leaf, Outer, Step, entered, left_behind};
pub use whole::parse_cond;
