//! What holds of closures.
ghost use Rattle.mk_closure.specs.ClosureLaws.{ClosuresAreNamed, ClosuresAreNeeded};

/// The nodes of a closure are those of its graph and of the names that were added, each name once,
/// and the targets around a build were not met.
pub fn closures_are_named()
    ensures { ClosuresAreNamed }
{}

/// A closure has met exactly the nodes that are needed: those of wanted names, and the sources of
/// nodes that are needed.
pub fn closures_are_what_is_needed()
    ensures { ClosuresAreNeeded }
{}
