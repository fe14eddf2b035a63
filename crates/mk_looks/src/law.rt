//! What values are by.
ghost use Rattle.mk_looks.specs.Looks.{ConditionsAreByNames, NewerDoNotCount, TreesAreByNames};

/// What a tree or a condition gives is by the raw values of the names alone that are looked up in
/// it. So a tree in which no name of `.OODATE` is looked up has one value, whichever sources are
/// newer.
pub fn values_are_by_names()
    ensures trees { TreesAreByNames }
    ensures conditions { ConditionsAreByNames }
    ensures newer { NewerDoNotCount }
{}
