//! The choice of words: by a pattern, and of those that are not empty.
ghost use Rattle.std.specs.Prelude.{◌≡◌, ◌≤◌, length};
ghost use Rattle.std.specs.List.{filter};
ghost use Rattle.mk_mods.specs.State.{filled};
ghost use Rattle.mk_pieces.specs.Pieces.{texts_of, furthest, Shows};
ghost use Rattle.mk_mods.specs.Steps as steps;

use mk_glob::matches;
use mk_pieces::shown;
use mk_pool::{Piece, Region};

/// Keeps the words that are not empty.
pub fn keep_filled(region: &Region, words: &mut Vec<Piece>)
    ensures words { texts_of region.now.bytes words.new.items
        ≡ filled (texts_of region.now.bytes words.old.items) }
    ensures within { furthest words.new.items ≤ furthest words.old.items }
{
    words.retain(|word| !shown(region, *word).is_empty());
}

/// The words that match a pattern, or those that do not.
pub fn matching(region: &Region, pattern: &[u8], wanted: bool, words: Vec<Piece>) -> Vec<Piece>
    requires { furthest words.items ≤ length region.now.bytes }
    ensures { Shows region.now.bytes result.items
        (filter (steps.is_wanted pattern.now wanted) (texts_of region.now.bytes words.items)) }
{
    let mut kept = words;
    kept.retain(|word| matches(pattern, shown(region, *word)) == wanted);
    kept
}
