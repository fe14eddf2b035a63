//! What texts with references to variables mean (make(1), "VARIABLE ASSIGNMENTS"), and what
//! conditions do; and the parts of their evaluation in which nothing is evaluated.
//!
//! A value is defined in `specs/Value.antt`, by what names stand for (`specs/Names.antt`), what
//! modifiers do (`specs/Chains.antt`) and what conditions ask of [`Facts`]. The functions look up
//! names, keep to the limits, read how modifiers are written, and answer the functions of
//! conditions. mk_expand evaluates.
#![tactic(auto)]

mod answer;
mod bound;
mod chain;
mod facts;
mod fault;
mod limit;
mod local;
mod name;
mod plain;
mod run;
mod separator;
mod substitution;
mod trim;

pub use answer::{answer_of, if_defined, lone_reference};
pub use bound::{Binding, bind, lent_word, unbind};
pub use chain::{
    Chain, Found, append_found, compacted, given, nothing_found, plain_found, textless,
};
pub use facts::{Asked, FactFault, Facts};
pub use fault::ExpandFault;
pub use limit::{MAX_OPEN, MAX_TEXT, append, open_reference};
pub use local::Locals;
pub use name::{Names, known, raw_above};
pub use plain::{double, has_dollar, plain_bytes, plain_value};
pub use run::{Run, note};
pub use substitution::{append_with_old, at_end, at_start, has_flag, starting, without_end};
