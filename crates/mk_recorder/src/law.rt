//! No read of a command is left out.
ghost use Rattle.mk_recorder.specs.Soundness.{ReadsAreFound, RunsKeepReads, FoundIsRecorded};

/// Each file that a command read and had not itself changed before is among the records of what it
/// read: a read finds its path, what is found stays found to the end, and it is recorded.
pub fn reads_are_told()
    ensures found { ReadsAreFound }
    ensures kept { RunsKeepReads }
    ensures recorded { FoundIsRecorded }
{}
