use mk_expand::ExpandFault;
use mk_trace::Events;
use mk_world::WorldFault;

/// How a query ends. Nodes are named by their places in the plan, lines by their numbers from 1.
#[derive(Drop)]
pub enum QueryResult {
    /// Every node is up to date.
    UpToDate,
    /// This node, the first in the plan that is not kept, is out of date.
    OutOfDate(u32),
    /// This line of this node, the first in the plan that is not kept, could not be expanded.
    Expand(u32, u32, ExpandFault),
    /// A call of the world failed.
    World,
    /// Memory ran out.
    NoMemory,
}

/// How a query ended, and what was found of the nodes: those that are kept, and one that is
/// refused.
#[derive(Drop)]
pub struct QueryEnd {
    pub result: QueryResult,
    pub events: Events,
}

impl From<WorldFault> for QueryResult {
    ghost use Rattle.std.specs.Prelude.{◌≡◌};
    ghost use Rattle.mk_query.specs.Answers.{of_world};

    ghost from_gives = { λ given result. result ≡ of_world given };

    fn from(fault: WorldFault) -> QueryResult {
        match fault {
            WorldFault::Failed => QueryResult::World,
            WorldFault::NoMemory => QueryResult::NoMemory,
        }
    }
}
