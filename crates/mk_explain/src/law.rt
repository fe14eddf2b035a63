//! What it means that a node which has a reason counts as new.
ghost use Rattle.mk_explain.specs.Laws.{CountsAsNew, OthersStay};

/// Where a node counts as new, its age as a source is that of a new one, whatever was seen of
/// files; every other node is what it was, so its age goes by the same rule.
pub fn reasons_count_as_new()
    ensures new { CountsAsNew }
    ensures others { OthersStay }
{}
