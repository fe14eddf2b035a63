//! The variables of make: three classes of them, and which class a name is looked up in first
//! (make(1), "VARIABLE ASSIGNMENTS").
#![tactic(auto)]

mod scopes;
mod table;

pub use scopes::{Class, Env, Scopes};
