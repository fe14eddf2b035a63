//! What holds of the texts of meta files.
ghost use Rattle.mk_meta.specs.Jobs.{JobsAreLawful};
ghost use Rattle.mk_meta.specs.Laws.{NoneBegins, HeadIsNone};
ghost use Rattle.mk_meta.specs.TrueHistory.{NothingToTell};

/// Of the texts of two values none is a proper beginning of the other, so a file that was cut off
/// while it was written is no meta file.
pub fn no_text_begins_another()
    ensures { NoneBegins }
{}

/// The head that stands while a job is open is the text of no value.
pub fn the_head_is_no_text()
    ensures { HeadIsNone }
{}

/// The value that a job leaves, by its stamp, its task, its output and what its children recorded,
/// has a meta file.
pub fn jobs_are_lawful()
    ensures { JobsAreLawful }
{}

/// A history in which no meta file stands is true.
pub fn nothing_to_tell()
    ensures { NothingToTell }
{}
