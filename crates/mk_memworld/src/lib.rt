//! A world in memory: files, children that act step by step, and commands of a small language.
//!
//! A [`MemWorld`] keeps its files at the beginning and all that has happened since, and this is the
//! history that it tells. Each change, an edit, a write or a removal by make, a step of a child or
//! of a command that is asked, takes the next number of the clock as its time: a move takes one
//! number, a look none, and the removal of a missing file one. `World::stamp` and `World::put` are
//! given a time that theirs must pass: where the next number does not, they take the one after that
//! time, and the clock goes on from there. A [`MemSink`] holds what was written. In both, calls
//! that [`Fails`] names fail.
//!
//! ## The schedule
//!
//! A child does nothing by itself. Each call but `World::abandon` takes the next number of the
//! world's schedule, [`Turns`], 0 at its end. Where it is 1 to the number of running children that
//! have not come to their end, that one of them, in the order of start, does its next step before
//! the call does anything of its own. A child comes to its end with its last step, and one that has
//! none at its first turn.
//!
//! `World::wait_any` then takes a second number, and takes in one of the children that have come to
//! their end, in the order of coming to it: the one at the place of this number, counted from 0 and
//! round. Where none has come to its end, the oldest child does all its remaining steps and is
//! taken in. So under an empty schedule children are run one after the other, in the order of
//! start.
//!
//! A call that fails takes its number too. Where fewer numbers of the clock are left than the step
//! of the child and the changes of the call behind it take, the call fails, and nobody goes on; so
//! do `stamp` and `put` where no number is later than the time that they must pass. Else a call
//! that [`Fails`] names lets the child go on, and then fails; of the new file of a `stamp` or a
//! `put` as much stands then as the first entry for the call says. A `wait_any` that fails takes no
//! second number, and nobody is taken in.
//!
//! Where memory runs out in a call, nothing has happened, or the child went on and nothing else.
//!
//! ## The commands
//!
//! Its commands are those of `mk_commands`.
#![tactic(auto)]

mod base;
mod chronicle;
mod going;
mod outage;
mod schedule;
mod sink;
mod world;
mod writing;

pub use base::are_clean;
pub use outage::{CallKind, Fail, Fails};
pub use schedule::Turns;
pub use sink::{MemSink, ROOM};
pub use world::MemWorld;
