//! What makefiles mean (make(1)): what each line is, its parts, what it does by the answers of the
//! outside, and what can be wrong with it; and so all makefiles of a run (`specs/Reading.antt`).
//!
//! The definitions are all here, with the calls that need no reader; mk_reader reads by them.
#![tactic(auto)]

mod block;
mod dependency;
mod export;
mod facts;
mod fault;
mod inclusion;
mod kind;
mod law;
mod message;
mod note;
mod order;
mod sign;
mod state;
mod variable;

pub use block::{argument_on, condition_on, divide};
pub use dependency::{add_line, parted};
pub use export::{add_exports, are_export_names, reference_to, remove_exports};
pub use facts::ReadFacts;
pub use fault::{Fault, Outside, ReadFault, Refusal, Stop, What, refused, refused_at_end};
pub use inclusion::{candidates, may_miss, required};
pub use kind::{command_in, is_only_white, line_kind, without_spaces};
pub use law::turns_keep_kinds;
pub use message::write_message;
pub use note::Note;
pub use order::spaced;
pub use sign::{Parts, assignment};
pub use state::{Draft, State, first_state, made_of};
pub use variable::{is_own_value, on_one_line, remove_all, set_default};
