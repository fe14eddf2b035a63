//! What follows where makefiles ask for nothing that builds leave.
ghost use Rattle.mk_plain.specs.Names.{PlansAreAlikeByNames};
ghost use Rattle.mk_plain.specs.Plain.{PlainFilesAreSound};

/// The plan is the same by two maps of files, where all names that it comes to are made in the same
/// way by both.
pub fn plans_are_alike_by_names()
    ensures { PlansAreAlikeByNames }
{}

/// Makefiles without `!=`, without `exists` and the newer sources in commands, and without chains
/// over made files meet what the theorem asks of `!=` and of plans.
pub fn plain_files_are_sound()
    ensures { PlainFilesAreSound }
{}
