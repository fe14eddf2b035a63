use crate::event::Events;
use mk_expand::ExpandFault;

/// How a build ends. Nodes are named by their places in the plan, lines by their numbers from 1.
#[derive(Drop)]
pub enum BuildResult {
    /// Every node is up to date or was made.
    Done,
    /// This line of this node, the first that failed, ended with this status.
    JobFailed(u32, u32, u8),
    /// This line of this node, the first that failed, could not be expanded.
    Expand(u32, u32, ExpandFault),
    /// A call of the world failed.
    World,
    /// A write to standard output failed.
    Sink,
    /// Memory ran out.
    NoMemory,
}

/// What has failed in a build, by the node's place in the plan and the line's number from 1.
#[derive(Drop)]
pub enum Failure {
    /// This line of this node ended with this status.
    JobFailed(u32, u32, u8),
    /// This line of this node could not be expanded.
    Expand(u32, u32, ExpandFault),
}

/// How a build ended, and what it did.
#[derive(Drop)]
pub struct BuildEnd {
    pub result: BuildResult,
    pub events: Events,
}

impl From<Failure> for BuildResult {
    ghost use Rattle.std.specs.Prelude.{◌≡◌};
    ghost use Rattle.mk_trace.specs.Ends.{of_failure};

    ghost from_gives = { λ given result. result ≡ of_failure given };

    fn from(failure: Failure) -> BuildResult {
        match failure {
            Failure::JobFailed(node, number, status) => BuildResult::JobFailed(
                node, number, status,
            ),
            Failure::Expand(node, number, what) => BuildResult::Expand(node, number, what),
        }
    }
}
