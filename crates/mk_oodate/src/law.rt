//! What it means that no reason is found.
ghost use Rattle.mk_oodate.specs.Fresh.{NoReasonIsFresh, FreshAtPaths};

/// In a build that goes by records, a target for which the test gives no reason is fresh by its
/// meta file; and where the times are those of the paths that the records give, each path is, at a
/// look, as it was when the job ended.
pub fn no_reason_is_fresh()
    ensures fresh { NoReasonIsFresh }
    ensures paths { FreshAtPaths }
{}
