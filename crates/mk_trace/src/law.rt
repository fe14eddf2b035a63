//! What holds of runs, by their rules alone, and of builds beside what happens in the world.
ghost use Rattle.mk_trace.specs.Together.{ChildrenBelongToNodes};
ghost use Rattle.mk_trace.specs.RunLaws.{CutRunsAreBegun, DecidedDependOnSettled};
ghost use Rattle.mk_trace.specs.RunLaws.{DecidesFirstReady, OverIsSettled};
ghost use Rattle.mk_trace.specs.TrueBuilds.{MetaFilesStayTrue, QuestionsKeepTruth};

/// What is called a cut run is the beginning of a legal run: whatever has happened so far, the run
/// can still come to its end.
pub fn cut_runs_are_begun_runs()
    ensures { CutRunsAreBegun }
{}

/// In every run a node that was decided depends on settled nodes alone, directly or through others.
pub fn decided_nodes_depend_on_settled_ones()
    ensures { DecidedDependOnSettled }
{}

/// The node that may be decided is the first that is ready: undecided, with all its predecessors
/// made or failed, and dependent on none that has failed.
pub fn the_first_ready_node_is_decided()
    ensures { DecidesFirstReady }
{}

/// Where a run is over and nothing failed, every node is settled.
pub fn runs_that_are_over_are_settled()
    ensures { OverIsSettled }
{}

/// While a build goes on, each running child is that of one node, whose line it runs under the
/// node's ticket, and no two nodes have one ticket.
pub fn children_belong_to_nodes()
    ensures { ChildrenBelongToNodes }
{}

/// Where meta files tell what happened before a build, they do so behind it, as far as jobs have
/// kept apart: whatever was built, and however the build ended.
pub fn meta_files_stay_true()
    ensures { MetaFilesStayTrue }
{}

/// Where meta files tell what happened, they do so behind looks, and behind commands that make asks
/// and that change no file.
pub fn questions_keep_meta_files_true()
    ensures { QuestionsKeepTruth }
{}
