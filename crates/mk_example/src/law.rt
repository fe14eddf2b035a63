//! What runs of the makefile leave.
ghost use Rattle.mk_example.specs.Copies.{ChangesMayShareATime, CopiedFilesAreSound};
ghost use Rattle.mk_example.specs.Copies.{CopiesAreRight, CopiesAreRightAgain};
ghost use Rattle.mk_example.specs.Copies.{EditedWorldsAreReady, NewWorldsAreReady};
ghost use Rattle.mk_example.specs.Programs.{NewProgramsMayRun, ProgramEditsMayFollow};
ghost use Rattle.mk_example.specs.Programs.{ProgramRunsMayFollow, ProgramsAreRight};
ghost use Rattle.mk_example.specs.Programs.{ProgramsAreRightAgain, SourcesAreSound};

/// Each run of the makefile that ends with all made leaves in its target the bytes of its source,
/// and the makefile and the source as they were: by the contract of `run` and no other.
pub fn copies_are_right()
    ensures { CopiesAreRight }
{}

/// A new world in memory that holds the makefile and its source is ready for such a run.
pub fn new_worlds_are_ready()
    ensures { NewWorldsAreReady }
{}

/// Where the source is changed behind a run, the world is ready for the next one.
pub fn edited_worlds_are_ready()
    ensures { EditedWorldsAreReady }
{}

/// A run, a change of the source and a second run leave a copy of the source as it was changed.
pub fn copies_are_right_again()
    ensures { CopiesAreRightAgain }
{}

/// Files may have one time, and so may changes: only stamps have each a later one.
pub fn changes_may_share_a_time()
    ensures { ChangesMayShareATime }
{}

/// The premises of the theorem that are on the makefiles and the files are met where the makefile
/// and its source stand.
pub fn copied_files_are_sound()
    ensures { CopiedFilesAreSound }
{}

/// All that is asked of makefiles and files holds of the makefile of a program and its sources,
/// whatever else stands.
pub fn sources_are_sound()
    ensures { SourcesAreSound }
{}

/// So each run of it that ends with all made leaves the program of the sources as they stand,
/// whatever was edited and built before.
pub fn programs_are_right()
    ensures { ProgramsAreRight }
{}

/// A new world in memory that holds them is ready for such a run.
pub fn new_programs_may_run()
    ensures { NewProgramsMayRun }
{}

/// Behind each run of it, however it ended, another may follow.
pub fn program_runs_may_follow()
    ensures { ProgramRunsMayFollow }
{}

/// And so it may behind an edit of a source, not earlier than all else was.
pub fn program_edits_may_follow()
    ensures { ProgramEditsMayFollow }
{}

/// A run with whatever end, an edit of a source and a run that ends with all made leave the program
/// of the sources as they were edited.
pub fn programs_are_right_again()
    ensures { ProgramsAreRightAgain }
{}
