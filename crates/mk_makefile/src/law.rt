//! What the kinds of lines are by.
ghost use Rattle.mk_makefile.specs.LoopNames.{TurnsKeepKinds};

/// The blocks of a file are found in its lines before names of loops are replaced in them. That is
/// as well done behind it: no name of a loop makes a directive, hides one, or makes another of it.
pub fn turns_keep_kinds()
    ensures { TurnsKeepKinds }
{}
