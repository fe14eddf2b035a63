//! Pieces of a region, and the words and texts of several.
ghost use Rattle.std.specs.Prelude.{◌≡◌, ◌≤◌, ◌++◌, length, IfOk, OnOk};
ghost use Rattle.std.specs.List.{flat_map};
ghost use Rattle.mk_pieces.specs.Pieces.{bytes_of, texts_of, furthest, Shows, Begins};
ghost use Rattle.mk_mods.specs.State as spec;

use mk_bytes::{Items, NoMemory, Text, Texts, next_word};
use mk_pieces::{place, shown};
use mk_pool::{Piece, Region};
use std::alloc::Global;

/// The texts of pieces.
pub fn texts(alloc: Global, region: &Region, pieces: &[Piece]) -> Result<Texts, NoMemory>
    ensures { IfOk result (λ texts. texts ≡ texts_of region.now.bytes pieces.now) }
{
    let mut texts = Items::new(alloc, pieces.len())?;
    for piece in pieces {
        texts.push(Text::from_bytes(alloc, shown(region, *piece))?)?;
    }
    Ok(texts)
}

/// Places texts in a region, one after the other.
pub fn place_all(alloc: Global, region: &mut Region, texts: &[Text]) -> Result<Vec<Piece>, NoMemory>
    ensures shown { IfOk result (λ pieces. Shows region.new.bytes pieces.items texts.now) }
    ensures begins { Begins region.old.bytes region.new.bytes }
{
    let mut pieces = Vec::with_capacity(alloc, texts.len())?;
    for text in texts {
        pieces.push(place(region, text.bytes())?)?;
    }
    Ok(pieces)
}

// Appends the words of an item.
fn push_words(region: &Region, item: Piece, words: &mut Vec<Piece>) -> Result<(), NoMemory>
    requires item { item.end ≤ length region.now.bytes }
    requires words { furthest words.old.items ≤ length region.now.bytes }
    ensures { OnOk result (Shows region.now.bytes words.new.items
        (texts_of region.now.bytes words.old.items
        ++ spec.words_in (bytes_of region.now.bytes item))) }
{
    let text = shown(region, item);
    let mut from = 0;
    'words: while let Some(word) = next_word(text, from) {
        words.push(Piece {
            start: item.start + word.start as u32,
            end: item.start + word.end as u32,
        })?;
        from = word.end;
    }
    Ok(())
}

/// The words of items, in order.
pub fn cut_words(alloc: Global, region: &Region, items: &[Piece]) -> Result<Vec<Piece>, NoMemory>
    requires { furthest items.now ≤ length region.now.bytes }
    ensures { IfOk result (λ words. Shows region.now.bytes words.items
        (flat_map spec.words_in (texts_of region.now.bytes items.now))) }
{
    let mut words = Vec::new(alloc);
    for item in items {
        push_words(region, *item, &mut words)?;
    }
    Ok(words)
}
