//! What the test tells.
ghost use Rattle.mk_declared.specs.Present.{PresentJobsAreClean};
ghost use Rattle.mk_declared.specs.Recorded.{RecordedJobsAreDeclared};
ghost use Rattle.mk_declared.specs.Testing.{TestedJobsAreDeclared};

/// Where the test passes, what the jobs read and change is declared.
pub fn tested_jobs_are_declared()
    ensures { TestedJobsAreDeclared }
{}

/// Where each made file stands as its job would leave it on the files that stand, and what these
/// jobs read and change is declared, the clean build does what they do, and leaves what stands.
pub fn present_jobs_are_clean()
    ensures { PresentJobsAreClean }
{}

/// Where records are exactly those of what the jobs do on the files that stand, and what they say
/// is declared, what the jobs read and change there is declared.
pub fn recorded_jobs_are_declared()
    ensures { RecordedJobsAreDeclared }
{}
