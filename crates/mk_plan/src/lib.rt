//! What is to be made, in which order, and with which commands (NetBSD make(1), "FILE DEPENDENCY
//! SPECIFICATIONS").
//!
//! A plan has the nodes that the wanted names need, each behind those that it is made from.
#![tactic(auto)]

mod facts;
mod fault;
mod law;
mod lookups;
mod making;
mod metas;
mod names;
mod oodate;
mod plan;
mod plan_law;
mod tasks;

pub use facts::MadeFacts;
pub use fault::{PlanFault, TaskFault};
pub use law::newer_sources_do_not_count;
pub use lookups::task_names;
pub use making::make_plan;
pub use metas::is_meta;
pub use names::PlanNames;
pub use plan::{NodeState, Nodes, Plan, PlanNode};
pub use plan_law::{
    dependence_goes_back, planned_names_differ, planned_nodes_are_reached, plans_have_their_sources,
};
pub use tasks::{names_at, task};
