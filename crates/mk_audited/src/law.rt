//! What follows where an audit finds nothing.
ghost use Rattle.mk_audited.specs.Audits.{CleanAuditsAreAudited, CleanAuditsAreSound};
ghost use Rattle.mk_audited.specs.Runs.{AuditedBuildsLeaveClean, EditsKeepTrueStarts};
ghost use Rattle.mk_audited.specs.Runs.{RunsFindNothing, RunsFindSoundFiles};

/// Where an audit of the files that stand finds nothing of which a breach is told, all is so that
/// is asked of makefiles, meta files, records and times.
pub fn clean_audits_are_audited()
    ensures { CleanAuditsAreAudited }
{}

/// And where meta files tell what happened, with exact records, the files are then sound, and each
/// made file has the bytes of the clean build.
pub fn clean_audits_are_sound()
    ensures { CleanAuditsAreSound }
{}

/// A run with `--audit` that ends with status 0 has found nothing of which a breach is told.
pub fn runs_find_nothing()
    ensures { RunsFindNothing }
{}

/// So the files that stood before it are sound, where meta files tell what happened, with exact
/// records, and where that is so of the makefiles which an audit does not look at.
pub fn runs_find_sound_files()
    ensures { RunsFindSoundFiles }
{}

/// Edits of files that are no meta files leave meta files true.
pub fn edits_keep_true_starts()
    ensures { EditsKeepTrueStarts }
{}

/// Where an audit ends with status 0, files are edited behind it, and then a build ends with status
/// 0, each made file has the bytes that the clean build gives it from the edited files, where that
/// holds which is left to be asked of these.
pub fn audited_builds_leave_clean()
    ensures { AuditedBuildsLeaveClean }
{}
