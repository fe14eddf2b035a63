//! Of which nodes something is found, and by which reasons a phony node is out of date.
ghost use Rattle.mk_audit.specs.Laws.{AuditedNodesAreOfThePlan, PhonyNodesAreByRecords};

/// What an audit finds is found of each node of the plan, in its place: by its name, its sources,
/// whether it has commands, and whether it makes a file.
pub fn audited_nodes_are_of_the_plan()
    ensures { AuditedNodesAreOfThePlan }
{}

/// A phony node in meta mode is out of date for an audit by its commands and by its records, and by
/// no time of its own or of its sources.
pub fn phony_nodes_are_by_records()
    ensures { PhonyNodesAreByRecords }
{}
