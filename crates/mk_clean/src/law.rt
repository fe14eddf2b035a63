//! What holds of jobs, of targets that are kept, and of builds beside the clean one.
ghost use Rattle.mk_clean.specs.Clean.{CleanBuildsForget};
ghost use Rattle.mk_clean.specs.Jobs.{SameJobs};
ghost use Rattle.mk_clean.specs.Kept.{KeptTargetsStand};
ghost use Rattle.mk_clean.specs.Repeated.{ExactRecordsAreOfSteps, RecordedJobsRepeat};
ghost use Rattle.mk_clean.specs.Same.{BuildsAreClean, StepsAreClean};
ghost use Rattle.mk_clean.specs.Tested.{NoReasonMayKeep};

/// Two sets of files that agree on what a job takes from outside itself let it do the same.
pub fn jobs_with_the_same_reads_are_the_same()
    ensures { SameJobs }
{}

/// What stands at made files and meta files does not count in a clean build.
pub fn clean_builds_forget_what_builds_leave()
    ensures { CleanBuildsForget }
{}

/// Where a meta file tells what happened, its target was left alone since it was written, and what
/// its job found outside is older than the job, and what it missed is missing, the job would do now
/// what it did then, and its target stands as it would leave it. The looks at these paths may stand
/// at moments of their own.
pub fn targets_without_a_reason_stand()
    ensures { KeptTargetsStand }
{}

/// Where the test gives no reason to make a node again, in a build that goes by records, and the
/// node's meta file tells what happened, its job would go well on the files that the looks saw, and
/// what it leaves at the node's path stands there. So the node may be kept.
pub fn nodes_without_a_reason_may_be_kept()
    ensures { NoReasonMayKeep }
{}

/// Where a meta file tells what happened, a node's task is as it is recorded there, and what its
/// job found and missed stands so by the looks, the node's job does on the files that these saw
/// what that job did, whatever stands at the node's own path. Exact records of it are those of its
/// steps.
pub fn recorded_jobs_do_the_same()
    ensures same { RecordedJobsRepeat }
    ensures exact { ExactRecordsAreOfSteps }
{}

/// Where what the jobs of a plan read and change is declared, a build of it in which all is settled
/// has the files that a clean build gives, whatever it kept by looks, whichever nodes it made, and
/// in whatever order its children did their steps; and the clean build goes well.
pub fn settled_builds_have_the_clean_files()
    ensures { BuildsAreClean }
{}

/// Where what the jobs of a plan read and change is declared, each step of a build is a step of the
/// same node in the clean build: at every moment a node's job has done nothing, or the first steps
/// that it does there; where the node is settled, nothing or all of them; and where it has failed,
/// all of them, and its job fails there, too.
pub fn steps_are_those_of_the_clean_build()
    ensures { StepsAreClean }
{}
