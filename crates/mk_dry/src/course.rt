use mk_plan::{NodeState, Plan};
use mk_trace::{Event, Failure};

/// How far a dry run has come.
#[derive(Drop)]
pub struct Course {
    /// What is made, with the nodes that were shown as new ones.
    pub plan: Plan,
    /// How each node stands.
    pub nodes: Vec<NodeState>,
    pub events: Vec<Event>,
    /// The first failure.
    pub failure: Option<Failure>,
}
