//! What tasks are by.
ghost use Rattle.mk_plan.specs.Newer.{NewerDoNotCount};

/// A node in whose commands no name of `.OODATE` is looked up has one task, whichever of its
/// sources are newer.
pub fn newer_sources_do_not_count()
    ensures { NewerDoNotCount }
{}
