//! What follows from the clean build.
ghost use Rattle.mk_sound.specs.Files.{RunsLeaveCleanFiles, RunsMayFollow, SoundFilesMakeSoundRuns};
ghost use Rattle.mk_sound.specs.Sound.{BuildsHaveCleanTasks, SoundRunsLeaveClean};
ghost use Rattle.mk_sound.specs.Sound.{SoundRunsStayTrue};

/// A build has the tasks of the clean build, in whatever order its jobs run, whatever it keeps, and
/// whatever has failed.
pub fn builds_have_clean_tasks()
    ensures { BuildsHaveCleanTasks }
{}

/// A run that ends with all made leaves what the clean build leaves, where that is sound: what is
/// asked of tasks is asked of the clean build alone.
pub fn sound_runs_leave_clean()
    ensures { SoundRunsLeaveClean }
{}

/// Each run from files that are sound is sound: what is asked of it may be asked of the makefiles
/// and the files at its entry, before it begins.
pub fn sound_files_make_sound_runs()
    ensures { SoundFilesMakeSoundRuns }
{}

/// The theorem in one sentence: when a run from files that are sound has built all, each made file
/// that the requested targets need has the bytes that the clean build gives it.
pub fn runs_leave_clean_files()
    ensures { RunsLeaveCleanFiles }
{}

/// Behind a run from files that are sound, whatever failed in it and however it ended, the next run
/// begins as it did.
pub fn runs_may_follow()
    ensures { RunsMayFollow }
{}

/// So runs chain behind failures: behind a run whose clean build is sound each meta file that
/// stands tells what happened, whatever failed, whoever was given up, and however the run ended,
/// and each source as it did before.
pub fn sound_runs_stay_true()
    ensures { SoundRunsStayTrue }
{}
