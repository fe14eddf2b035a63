//! What holds of plans.
ghost use Rattle.mk_plan.specs.PlanLaws.{DependenceGoesBack, PlannedNamesDiffer, PlansAreReached};
ghost use Rattle.mk_plan.specs.PlanLaws.{PlansAreSourced};

/// A node of a plan stands behind all that it depends on through sources.
pub fn dependence_goes_back()
    ensures { DependenceGoesBack }
{}

/// A node of a plan waits for all its sources.
pub fn plans_have_their_sources()
    ensures { PlansAreSourced }
{}

/// A plan has exactly the nodes that are reached from the wanted names, each once, and perhaps
/// `.BEGIN` before and `.END` behind them.
pub fn planned_nodes_are_reached()
    ensures { PlansAreReached }
{}

/// No two nodes of a plan have one path.
pub fn planned_names_differ()
    ensures { PlannedNamesDiffer }
{}
