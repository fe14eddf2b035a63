//! What follows where all made files are up to date.
ghost use Rattle.mk_uptodate.specs.Audited.{AuditedFilesAreSound};
ghost use Rattle.mk_uptodate.specs.Recorded.{RecordedFilesAreDeclared, RecordedNodesDoTheSame};
ghost use Rattle.mk_uptodate.specs.UpToDate.{UpToDateFilesAreSound, UpToDateNodesStand};

/// A made node that is up to date by its meta file stands: its job goes well on the files that
/// stand, and what it leaves stands.
pub fn up_to_date_nodes_stand()
    ensures { UpToDateNodesStand }
{}

/// Where all made nodes are up to date, and what their jobs read and change on the files that stand
/// is declared, the files are sound, and the made files are those of the clean build.
pub fn up_to_date_files_are_sound()
    ensures { UpToDateFilesAreSound }
{}

/// The job of a node whose meta file tells what happened, with exact records, and whose task and
/// recorded reads and misses stand as they are recorded, does on the files that stand what is
/// recorded. So where all nodes with jobs are recorded so, and what is recorded is declared, what
/// their jobs read and change is declared.
pub fn recorded_files_are_declared()
    ensures nodes { RecordedNodesDoTheSame }
    ensures files { RecordedFilesAreDeclared }
{}

/// Where the makefiles, the meta files, what these record and the times of files tell that all is
/// up to date and that what is recorded is declared, and where meta files tell what happened, with
/// exact records, the files are sound, and the made files are those of the clean build.
pub fn audited_files_are_sound()
    ensures { AuditedFilesAreSound }
{}
