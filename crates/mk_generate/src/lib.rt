//! The runs that `--generate` asks for: a world in memory with generated targets, in which all is
//! built, a source is changed, and all is built again; and what is told of these runs.
#![tactic(auto)]

mod counts;
mod generating;
mod input;
mod inside;

pub use generating::generate;
