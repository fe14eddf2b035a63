ghost use Rattle.mk_wild.specs.Wild.{PatternsAreExact};

/// A law of patterns: by the names in its directory, a pattern stands for all paths that match it,
/// and for no others.
pub fn patterns_are_exact()
    ensures { PatternsAreExact }
{}
