//! What holds of all dry runs, beside what happens in the world.
ghost use Rattle.mk_dry.specs.TrueRuns.{DryRunsStayTrue};

/// Where meta files tell what happened before a dry run, they do so at every moment of it up to
/// which no child has changed a meta file.
pub fn dry_runs_stay_true()
    ensures { DryRunsStayTrue }
{}
