ghost use Rattle.std.specs.Prelude.{◌≡◌, ◌≤◌, ◌+◌, ◌-◌, ◌++◌, length, take, option_to_list};
ghost use Rattle.std.specs.Prelude.{SomeIff};
ghost use Rattle.std.specs.Prelude.{IfOk, OnOk};
ghost use Rattle.mk_mods.specs.State as spec;
ghost use Rattle.mk_mods.specs.Limits.{fits};
ghost use Rattle.mk_pieces.specs.Limits.{total};
ghost use Rattle.mk_pieces.specs.Pieces.{texts_of, Shows, Begins};
ghost use Rattle.mk_mods.specs.Pieces.{seen, end_of};

use crate::piece::{cut_words, place_all, texts};
use mk_bytes::{Items, NoMemory, Text, Texts};
use mk_pieces::{MAX_TEXT, piece_between, place, shown};
use mk_pool::{Piece, Region};
use std::alloc::Global;

/// What stands between two items in the printed text.
#[derive(Clone, Copy, PartialEq, Eq)]
pub enum Separator {
    /// A space, left out beside a newline: as it is until `:ts` sets another.
    FirstSpace,
    Byte(u8),
    Nothing,
}

/// The state of a chain of modifiers. Its items are pieces of a region, which each call is lent.
#[derive(Drop)]
pub struct Val {
    pub(crate) pieces: Vec<Piece>,
    pub(crate) separator: Separator,
    pub(crate) one_word: bool,
}

impl Val {
    /// The state of a plain text, which is placed in the region: one item, or none where it is
    /// empty.
    pub fn new(alloc: Global, region: &mut Region, text: &[u8]) -> Result<Val, NoMemory>
        ensures state { IfOk result (λ val. seen region.new.bytes val ≡ spec.plain text.now) }
        ensures within { IfOk result (λ val. end_of val ≤ length region.new.bytes) }
        ensures begins { Begins region.old.bytes region.new.bytes }
    {
        let mut pieces = Vec::new(alloc);
        if !text.is_empty() {
            pieces.push(place(region, text)?)?;
        }
        Ok(Val {
            pieces,
            separator: Separator::FirstSpace,
            one_word: false,
        })
    }

    /// The greatest end of its pieces, 0 without pieces. Takes no memory.
    pub fn end(&self) -> usize
        ensures { result ≡ end_of self.now }
    {
        let mut end = 0;
        for piece in self.pieces.as_slice() {
            end = end.max(piece.end as usize);
        }
        end
    }
}

// The byte that is printed between two items.
fn between(separator: Separator, left: &[u8], right: &[u8]) -> Option<u8>
    ensures { option_to_list result ≡ spec.between separator left.now right.now }
{
    match separator {
        Separator::FirstSpace => {
            if left.ends_with(b"\n") || right.starts_with(b"\n") {
                None
            } else {
                Some(b' ')
            }
        }
        Separator::Byte(byte) => Some(byte),
        Separator::Nothing => None,
    }
}

fn push_item(out: &mut Text, separator: Separator, left: &[u8], item: &[u8]) -> Result<(), NoMemory>
    ensures { OnOk result
        (out.new ≡ out.old ++ spec.between separator left.now item.now ++ item.now) }
{
    if let Some(byte) = between(separator, left, item) {
        out.push(&[byte])?;
    }
    out.push(item)?;
    Ok(())
}

/// The room that an item leaves with what stands before it.
pub(crate) fn room_behind(
    room: usize,
    separator: Separator,
    left: &[u8],
    item: &[u8],
) -> Option<usize>
    ensures { SomeIff result
        (length (spec.between separator left.now item.now ++ item.now) ≤ room)
        (room - length (spec.between separator left.now item.now ++ item.now)) }
{
    let mut room = room;
    if between(separator, left, item).is_some() {
        room = room.checked_sub(1)?;
    }
    room.checked_sub(item.len())
}

/// The printed text of a value.
pub fn text(alloc: Global, region: &Region, val: &Val) -> Result<Text, NoMemory>
    ensures { IfOk result (λ text. text ≡ spec.text_of (seen region.now.bytes val.now)) }
{
    let mut out = Text::new(alloc);
    let [first, rest @ ..] = val.pieces.as_slice() else {
        return Ok(out);
    };
    let mut left = shown(region, *first);
    out.push(left)?;
    for piece in rest {
        let item = shown(region, *piece);
        push_item(&mut out, val.separator, left, item)?;
        left = item;
    }
    Ok(out)
}

/// Whether the printed text has at most 4,194,304 bytes.
pub fn has_fitting_text(region: &Region, val: &Val) -> bool
    ensures { result ≡ fits (seen region.now.bytes val.now) }
{
    let [first, rest @ ..] = val.pieces.as_slice() else {
        return true;
    };
    let mut left = shown(region, *first);
    let Some(mut room) = MAX_TEXT.checked_sub(left.len()) else {
        return false;
    };
    for piece in rest {
        let item = shown(region, *piece);
        let Some(less) = room_behind(room, val.separator, left, item) else {
            return false;
        };
        room = less;
        left = item;
    }
    true
}

/// The words that a modifier of words works on: those of the items, or the printed text where it is
/// one word.
pub fn words_of(alloc: Global, region: &Region, val: &Val) -> Result<Texts, NoMemory>
    requires { end_of val.now ≤ length region.now.bytes }
    ensures { IfOk result (λ words. words ≡ spec.words_of (seen region.now.bytes val.now)) }
{
    if val.one_word {
        let mut words = Items::new(alloc, 1)?;
        words.push(text(alloc, region, val)?)?;
        return Ok(words);
    }
    let words = cut_words(alloc, region, val.pieces.as_slice())?;
    texts(alloc, region, words.as_slice())
}

/// The state with other items, and with the separator and the flag of `val`. It is given up on a
/// refusal.
pub fn with_items(
    alloc: Global,
    region: &mut Region,
    val: Val,
    items: &Texts,
) -> Result<Val, NoMemory>
    ensures state { IfOk result (λ new.
        seen region.new.bytes new ≡ spec.with_items (seen region.old.bytes val) items.now) }
    ensures within { IfOk result (λ new. end_of new ≤ length region.new.bytes) }
    ensures begins { Begins region.old.bytes region.new.bytes }
{
    let pieces = place_all(alloc, region, items.as_slice())?;
    Ok(Val {
        pieces,
        separator: val.separator,
        one_word: val.one_word,
    })
}

// The texts of pieces one behind the other, and where each of them lies once these stand behind the
// first `len` bytes of the region.
fn lined_up(
    alloc: Global,
    region: &Region,
    pieces: &[Piece],
    len: usize,
) -> Result<(Text, Vec<Piece>), NoMemory>
    requires { len ≤ length region.now.bytes }
    ensures shown { IfOk result (λ new. Shows (take len region.now.bytes ++ new.0) new.1.items
        (texts_of region.now.bytes pieces.now)) }
    ensures small { IfOk result
        (λ new. length new.0 ≡ total (texts_of region.now.bytes pieces.now)) }
{
    let mut bytes = Text::new(alloc);
    let mut moved = Vec::with_capacity(alloc, pieces.len())?;
    for piece in pieces {
        let text = shown(region, *piece);
        let start = len + bytes.len();
        bytes.push(text)?;
        let end = len + bytes.len();
        moved.push(piece_between(start, end)?)?;
    }
    Ok((bytes, moved))
}

/// The same state, with its items placed anew behind the first `len` bytes of the region. What lies
/// behind those is given up, and so is the state on a refusal.
pub fn placed_anew(
    alloc: Global,
    region: &mut Region,
    val: Val,
    len: usize,
) -> Result<Val, NoMemory>
    requires least { 2 ≤ len }
    requires within { len ≤ length region.old.bytes }
    ensures state { IfOk result (λ new. seen region.new.bytes new ≡ seen region.old.bytes val) }
    ensures within { IfOk result (λ new. end_of new ≤ length region.new.bytes) }
    ensures begins { Begins (take len region.old.bytes) region.new.bytes }

    // Nothing but the items stands there then.
    ensures small { OnOk result
        (length region.new.bytes ≡ len + total (seen region.old.bytes val).items) }
{
    let (bytes, pieces) = lined_up(alloc, region, val.pieces.as_slice(), len)?;
    region.back(len);
    place(region, bytes.bytes())?;
    Ok(Val { pieces, ..val })
}
