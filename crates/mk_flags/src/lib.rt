//! How a build is to be run: the options of NetBSD make(1) that say so.
#![tactic(auto)]

use mk_bytes::Texts;

/// The options of a build (make(1), "OPTIONS"), and the targets that it is asked for.
#[derive(Drop)]
pub struct Flags {
    /// `-j`: how many jobs may run at once, 1 to 256.
    pub jobs: u32,
    /// `-k`: after an error, the targets that do not depend on it are still made.
    pub keep_going: bool,
    /// `-i`: a command that fails is passed over.
    pub ignore: bool,
    /// `-s`: commands are not printed before they run.
    pub silent: bool,
    /// `-n`: commands are printed and not run.
    pub dry: bool,
    /// `-q`: nothing is made; the answer is whether the targets are up to date.
    pub query: bool,
    /// `--progress`: while make waits for commands, a line on a terminal tells how far it has come.
    pub progress: bool,
    /// The targets asked for, in their order. Where there are none, the makefile's own are made.
    pub requested: Texts,
}
