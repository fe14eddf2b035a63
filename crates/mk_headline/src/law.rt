//! What holds of builds beside the clean one.
ghost use Rattle.mk_headline.specs.Laws.{BuildsAreClean, BuildsAreTurns, BuildsKeepApart};
ghost use Rattle.mk_headline.specs.Laws.{BuildsStayTrue, DoneBuildsAreClean, FirstBuildsAreTurns};
ghost use Rattle.mk_headline.specs.Laws.{SettledHaveJudgedLines};

/// A build that keeps no node with commands is one of turns, whatever has failed so far.
pub fn first_builds_are_turns()
    ensures { FirstBuildsAreTurns }
{}

/// A build in meta mode is one of turns, whatever nodes it kept, whatever has failed so far, and
/// whichever children were given up: each item is one or a few turns that may follow those before
/// them, or none, and the files are those that the turns leave.
pub fn builds_are_turns()
    ensures { BuildsAreTurns }
{}

/// In a build in meta mode jobs have kept apart, whatever has failed so far, and whichever children
/// were given up: no child changed a meta file, and while a job was open, nothing but its own
/// children changed its target, or what these changed.
pub fn builds_keep_apart()
    ensures { BuildsKeepApart }
{}

/// So meta files tell what happened at every moment of a build in meta mode: whatever has failed,
/// and however the build ends.
pub fn builds_stay_true()
    ensures { BuildsStayTrue }
{}

/// Where a build in meta mode is over and nothing failed, it leaves what the clean build leaves,
/// and meta files that tell what happened.
pub fn builds_are_clean()
    ensures { BuildsAreClean }
{}

/// So does each build as the driver's contract states it, where the world tells its history.
pub fn done_builds_are_clean()
    ensures { DoneBuildsAreClean }
{}

/// Each node that is settled in a build has the lines with which it was kept or begun, by what was
/// seen.
pub fn settled_nodes_have_judged_lines()
    ensures { SettledHaveJudgedLines }
{}
