use crate::shared::SharedPairs;
use mk_bytes::{Items, Text};

/// A command: its text, the directory that it runs in, and the variables that its environment is
/// given.
#[derive(Drop)]
pub struct Cmd {
    pub text: Text,
    pub cwd: Text,
    pub exports: SharedPairs,
}

/// One command line of a target, without its prefix bytes.
#[derive(Drop)]
pub struct TaskLine {
    pub text: Text,
    /// A status other than 0 does not count.
    pub ignore: bool,
    /// The line is not printed.
    pub silent: bool,
    /// The line runs even in a dry run.
    pub always: bool,
    /// The line counts where the commands of two builds are compared.
    pub compared: bool,
}

/// The lines of a task.
pub type Lines = Items<TaskLine>;

/// What it takes to make a target.
#[derive(Drop)]
pub struct Task {
    pub lines: Lines,
    pub cwd: Text,
    pub target: Text,
    pub exports: SharedPairs,
}
