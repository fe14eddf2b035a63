//! What follows for edited files.
ghost use Rattle.mk_edited.specs.Edited.{EditedBuildsAreDeclared};

/// Where what the jobs of a clean build read and change is declared, and files are edited, jobs
/// that the edits do not reach do what they did; and where what is left to be asked of the others
/// holds, what all jobs of the clean build of the edited files read and change is declared.
pub fn edited_builds_are_declared()
    ensures { EditedBuildsAreDeclared }
{}
