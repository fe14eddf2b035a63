//! The order of words.
ghost use Rattle.std.specs.Prelude.{◌≡◌, ◌≤◌, length, reverse, IfOk};
ghost use Rattle.std.specs.List.{dedup, dedup_from};
ghost use Rattle.std.specs.Str.{bytes_eq};
ghost use Rattle.mk_mods.specs.Order as spec;
ghost use Rattle.mk_pieces.specs.Pieces.{bytes_of, texts_of, furthest, Shows};

use mk_bytes::NoMemory;
use mk_pieces::shown;
use mk_pool::{Piece, Region};
use std::alloc::Global;

/// The words in the order of their bytes.
pub fn sorted(region: &Region, words: Vec<Piece>) -> Vec<Piece>
    requires { furthest words.items ≤ length region.now.bytes }
    ensures { Shows region.now.bytes result.items
        (spec.sorted (texts_of region.now.bytes words.items)) }
{
    let mut sorted = words;
    sorted.sort_unstable_by(|word, other| shown(region, *word).cmp(shown(region, *other)));
    sorted
}

fn reversed(words: Vec<Piece>) -> Vec<Piece>
    ensures { result.items ≡ reverse words.items }
{
    let mut back = words;
    back.as_mut_slice().reverse();
    back
}

/// The words in the reverse order.
pub fn sorted_back(region: &Region, words: Vec<Piece>) -> Vec<Piece>
    requires { furthest words.items ≤ length region.now.bytes }
    ensures { Shows region.now.bytes result.items
        (reverse (spec.sorted (texts_of region.now.bytes words.items))) }
{
    reversed(sorted(region, words))
}

// A word, and those behind it without each that is the same as the one before it.
fn distinct_from(
    alloc: Global,
    region: &Region,
    first: Piece,
    rest: &[Piece],
) -> Result<Vec<Piece>, NoMemory>
    requires first { first.end ≤ length region.now.bytes }
    requires rest { furthest rest.now ≤ length region.now.bytes }
    ensures { IfOk result (λ kept. Shows region.now.bytes kept.items
        (dedup_from bytes_eq (bytes_of region.now.bytes first)
        (texts_of region.now.bytes rest.now))) }
{
    let mut kept = Vec::new(alloc);
    let mut last = first;
    for word in rest {
        if shown(region, *word) == shown(region, last) {
            continue;
        }
        kept.push(last)?;
        last = *word;
    }
    kept.push(last)?;
    Ok(kept)
}

/// The words without each that is the same as the one before it.
pub fn without_repeats(
    alloc: Global,
    region: &Region,
    words: &[Piece],
) -> Result<Vec<Piece>, NoMemory>
    requires { furthest words.now ≤ length region.now.bytes }
    ensures { IfOk result (λ kept. Shows region.now.bytes kept.items
        (dedup bytes_eq (texts_of region.now.bytes words.now))) }
{
    match words {
        [] => Ok(Vec::new(alloc)),
        [first, rest @ ..] => distinct_from(alloc, region, *first, rest),
    }
}
