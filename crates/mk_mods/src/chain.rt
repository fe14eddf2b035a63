//! One modifier after the other.
ghost use Rattle.std.specs.Prelude.{◌≡◌, ◌≤◌, [], ◌∷◌, length, codes, false, unwrap_or, IsTrue};
ghost use Rattle.std.specs.Prelude.{IfOk, IfErr, Err};
ghost use Rattle.std.specs.Str.{bytes_eq};
ghost use Rattle.mk_bytes.specs.Agrees.{Agrees, AgreesBut};
ghost use Rattle.mk_pieces.specs.Limits.{IsEarly, AreTooLong};
ghost use Rattle.mk_pieces.specs.Pieces.{bytes_of, texts_of, furthest, Shows, Begins};
ghost use Rattle.mk_pieces.specs.declared.fault.ModFault.TheVariants.{
  NoMemory as no_memory,
  TooLong as too_long,
};
ghost use Rattle.mk_mods.specs.Limits.{or_bad_place, limited};
ghost use Rattle.mk_mods.specs.Modifiers as spec;
ghost use Rattle.mk_mods.specs.Places as places;
ghost use Rattle.mk_mods.specs.State as state;
ghost use Rattle.mk_mods.specs.Steps as steps;
ghost use Rattle.mk_mods.specs.Pieces.{seen, end_of, has_words, places_no_words, places_nothing};

use crate::choice::{keep_filled, matching};
use crate::modifier::Mod;
use crate::order::{sorted, sorted_back, without_repeats};
use crate::part::{Part, parts};
use crate::piece::cut_words;
use crate::places::{ends, from_to, how_many, only_number, place_numbers};
use crate::quote::{doubled, quoted};
use crate::val::{Separator, Val, has_fitting_text, text};
use mk_bytes::NoMemory;
use mk_pieces::{Change, ModFault, change_words, place};
use mk_pool::{Piece, Region};
use std::alloc::Global;

// The printed text as a piece. It is placed where it is no piece yet.
fn one_piece(alloc: Global, region: &mut Region, val: &Val) -> Result<Piece, NoMemory>
    requires { end_of val.now ≤ length region.old.bytes }
    ensures shown { IfOk result (λ piece.
        bytes_of region.new.bytes piece ≡ state.text_of (seen region.old.bytes val.now)) }
    ensures within { IfOk result (λ piece. piece.end ≤ length region.new.bytes) }
    ensures begins { Begins region.old.bytes region.new.bytes }
    ensures unchanged { length val.now.pieces.items ≤ 1 → region.new.bytes ≡ region.old.bytes }
{
    match val.pieces.as_slice() {
        [] => Ok(Piece { start: 0, end: 0 }),
        [piece] => Ok(*piece),
        _ => {
            let text = text(alloc, region, val)?;
            place(region, text.bytes())
        }
    }
}

fn one_word(alloc: Global, region: &mut Region, val: &Val) -> Result<Vec<Piece>, NoMemory>
    requires { end_of val.now ≤ length region.old.bytes }
    ensures shown { IfOk result (λ words.
        Shows region.new.bytes words.items (steps.one_text (seen region.old.bytes val.now))) }
    ensures begins { Begins region.old.bytes region.new.bytes }
    ensures unchanged { length val.now.pieces.items ≤ 1 → region.new.bytes ≡ region.old.bytes }
{
    let mut words = Vec::new(alloc);
    words.push(one_piece(alloc, region, val)?)?;
    Ok(words)
}

// The words that a modifier works on.
fn words_or_text(
    alloc: Global,
    region: &mut Region,
    val: &Val,
    whole: bool,
) -> Result<Vec<Piece>, NoMemory>
    requires { end_of val.now ≤ length region.old.bytes }
    ensures shown { IfOk result (λ words. Shows region.new.bytes words.items
        (spec.words_or_text whole (seen region.old.bytes val.now))) }
    ensures begins { Begins region.old.bytes region.new.bytes }
    ensures unchanged { whole ≡ false → IsTrue (has_words val.now)
        → region.new.bytes ≡ region.old.bytes }
    ensures many { whole ≡ false → val.now.one_word ≡ false → region.new.bytes ≡ region.old.bytes }
{
    if whole || val.one_word {
        return one_word(alloc, region, val);
    }
    cut_words(alloc, region, val.pieces.as_slice())
}

/// The words of [`words_of`](crate::words_of), as pieces: a printed text that is one word is placed
/// in the region where it is no piece yet. No word is copied.
pub fn word_pieces(alloc: Global, region: &mut Region, val: &Val) -> Result<Vec<Piece>, NoMemory>
    requires { end_of val.now ≤ length region.old.bytes }
    ensures shown { IfOk result (λ words. Shows region.new.bytes words.items
        (state.words_of (seen region.old.bytes val.now))) }
    ensures begins { Begins region.old.bytes region.new.bytes }
{
    words_or_text(alloc, region, val, false)
}

// What becomes of words that are chosen, cut or ordered.
fn picked(
    alloc: Global,
    region: &Region,
    modifier: &Mod,
    words: Vec<Piece>,
) -> Result<Vec<Piece>, NoMemory>
    requires { furthest words.items ≤ length region.now.bytes }
    ensures { IfOk result (λ new. Shows region.now.bytes new.items
        (steps.picked modifier.now (texts_of region.now.bytes words.items))) }
{
    match modifier {
        Mod::Keep(pattern) => Ok(matching(region, pattern.bytes(), true, words)),
        Mod::Without(pattern) => Ok(matching(region, pattern.bytes(), false, words)),
        Mod::Head => Ok(parts(region, Part::Head, words)),
        Mod::Tail => Ok(parts(region, Part::Tail, words)),
        Mod::Root => Ok(parts(region, Part::Root, words)),
        Mod::Extension => Ok(parts(region, Part::Extension, words)),
        Mod::Sort => Ok(sorted(region, words)),
        Mod::SortBack => Ok(sorted_back(region, words)),
        Mod::Unique => without_repeats(alloc, region, words.as_slice()),
        _ => Ok(words),
    }
}

fn asks_for_count(text: &[u8]) -> bool
    ensures { result ≡ bytes_eq text.now (codes "#") }
{
    text == b"#".as_slice()
}

// The words at places, or their number.
fn select(
    alloc: Global,
    region: &mut Region,
    text: &[u8],
    words: &[Piece],
) -> Result<Vec<Piece>, ModFault>
    requires { furthest words.now ≤ length region.old.bytes }
    ensures shown { Agrees no_memory (λ new. texts_of region.new.bytes new.items) result
        (or_bad_place (places.chosen text.now (texts_of region.old.bytes words.now))) }
    ensures within { IfOk result (λ new. furthest new.items ≤ length region.new.bytes) }
    ensures begins { Begins region.old.bytes region.new.bytes }
    ensures unchanged { bytes_eq text.now (codes "#") ≡ false
        → region.new.bytes ≡ region.old.bytes }
{
    if asks_for_count(text) {
        return Ok(only_number(alloc, region, words.len())?);
    }
    let Some(ends) = ends(words.len(), text) else {
        return Err(ModFault::BadPlace);
    };
    Ok(from_to(alloc, words, ends)?)
}

fn range(
    alloc: Global,
    region: &mut Region,
    text: &[u8],
    words: &[Piece],
) -> Result<Vec<Piece>, ModFault>
    ensures shown { Agrees no_memory (λ new. texts_of region.new.bytes new.items) result
        (or_bad_place (places.counted text.now (texts_of region.old.bytes words.now))) }
    ensures within { IfOk result (λ new. furthest new.items ≤ length region.new.bytes) }
    ensures begins { Begins region.old.bytes region.new.bytes }
{
    let Some(count) = how_many(words.len(), text) else {
        return Err(ModFault::BadPlace);
    };
    Ok(place_numbers(alloc, region, count)?)
}

fn replaced_or_picked(
    alloc: Global,
    region: &mut Region,
    modifier: &Mod,
    words: Vec<Piece>,
) -> Result<Vec<Piece>, ModFault>
    requires { furthest words.items ≤ length region.old.bytes }
    ensures shown { IfOk result (λ new. Shows region.new.bytes new.items
        (steps.replaced_or_picked modifier.now (texts_of region.old.bytes words.items))) }
    ensures begins { Begins region.old.bytes region.new.bytes }
    ensures long { result ≡ Err too_long
        → AreTooLong (steps.replaced_or_picked modifier.now (texts_of region.old.bytes words.items)) }
    ensures early { IfErr result IsEarly }
    ensures unchanged { steps.replaces modifier.now ≡ false → region.new.bytes ≡ region.old.bytes }
{
    match modifier {
        Mod::Subst {
            from,
            to,
            at_start,
            at_end,
            all,
            once,
            whole: _,
        } => {
            let change = Change::Subst {
                from: from.bytes(),
                to: to.bytes(),
                at_start: *at_start,
                at_end: *at_end,
                all: *all,
            };
            change_words(alloc, region, change, *once, words.as_slice())
        }
        Mod::Suffix(from, to) => {
            let change = Change::Suffix {
                from: from.bytes(),
                to: to.bytes(),
            };
            change_words(alloc, region, change, false, words.as_slice())
        }
        _ => Ok(picked(alloc, region, modifier, words)?),
    }
}

// What becomes of the words that a modifier works on.
fn words_behind(
    alloc: Global,
    region: &mut Region,
    modifier: &Mod,
    words: Vec<Piece>,
) -> Result<Vec<Piece>, ModFault>
    requires { furthest words.items ≤ length region.old.bytes }
    ensures shown { AgreesBut IsEarly (λ new. texts_of region.new.bytes new.items) result
        (or_bad_place (steps.words_behind modifier.now (texts_of region.old.bytes words.items))) }
    ensures long { result ≡ Err too_long
        → AreTooLong (unwrap_or
        (steps.words_behind modifier.now (texts_of region.old.bytes words.items)) []) }
    ensures within { IfOk result (λ new. furthest new.items ≤ length region.new.bytes) }
    ensures begins { Begins region.old.bytes region.new.bytes }
    ensures unchanged { IsTrue (places_no_words modifier.now)
        → region.new.bytes ≡ region.old.bytes }
{
    match modifier {
        Mod::Select(text) => select(alloc, region, text.bytes(), words.as_slice()),
        Mod::Range(text) => range(alloc, region, text.bytes(), words.as_slice()),
        _ => replaced_or_picked(alloc, region, modifier, words),
    }
}

// A state with words in place of its items: empty ones are dropped, unless the text is one word.
fn with_words(region: &Region, separator: Separator, one_word: bool, words: Vec<Piece>) -> Val
    requires { furthest words.items ≤ length region.now.bytes }
    ensures shown { seen region.now.bytes result
        ≡ state.state_of separator one_word (texts_of region.now.bytes words.items) }
    ensures within { end_of result ≤ length region.now.bytes }
{
    let mut pieces = words;
    if !one_word {
        keep_filled(region, &mut pieces);
    }
    Val {
        pieces,
        separator,
        one_word,
    }
}

fn is_whole(modifier: &Mod) -> bool
    ensures { result ≡ steps.is_whole modifier.now }
{
    match modifier {
        Mod::Subst { whole, .. } => *whole,
        _ => false,
    }
}

// The state in which the words that a modifier works on are changed.
fn with_words_behind(
    alloc: Global,
    region: &mut Region,
    val: Val,
    modifier: &Mod,
) -> Result<Val, ModFault>
    requires { end_of val ≤ length region.old.bytes }
    ensures shown { AgreesBut IsEarly (seen region.new.bytes) result
        (or_bad_place (steps.with_words_behind modifier.now (seen region.old.bytes val))) }
    ensures long { result ≡ Err too_long
        → limited (steps.with_words_behind modifier.now (seen region.old.bytes val)) ≡ Err too_long }
    ensures within { IfOk result (λ new. end_of new ≤ length region.new.bytes) }
    ensures begins { Begins region.old.bytes region.new.bytes }
    ensures unchanged { IsTrue (places_no_words modifier.now) → IsTrue (has_words val)
        → region.new.bytes ≡ region.old.bytes }
{
    let words = words_or_text(alloc, region, &val, is_whole(modifier))?;
    let words = words_behind(alloc, region, modifier, words)?;
    Ok(with_words(region, val.separator, val.one_word, words))
}

// The printed text, quoted, as the one item.
fn quote(
    alloc: Global,
    region: &mut Region,
    val: &Val,
    dollars: bool,
) -> Result<Vec<Piece>, NoMemory>
    ensures shown { IfOk result (λ items. Shows region.new.bytes items.items
        (steps.quoted_text dollars (state.text_of (seen region.old.bytes val.now)) ∷ [])) }
    ensures begins { Begins region.old.bytes region.new.bytes }
{
    let mut text = text(alloc, region, val)?;
    if dollars {
        text = doubled(alloc, text.bytes())?;
    }
    let mut items = Vec::new(alloc);
    items.push(place(region, quoted(alloc, text.bytes())?.bytes())?)?;
    Ok(items)
}

fn sign_of(byte: Option<u8>) -> Separator
    ensures { result ≡ spec.sign_of byte }
{
    match byte {
        None => Separator::Nothing,
        Some(byte) => Separator::Byte(byte),
    }
}

// The items of the text, where a modifier changes it as a whole.
fn items_behind(
    alloc: Global,
    region: &mut Region,
    val: &Val,
    modifier: &Mod,
) -> Result<Vec<Piece>, ModFault>
    requires { end_of val.now ≤ length region.old.bytes }
    ensures shown { IfOk result (λ items. Shows region.new.bytes items.items
        (steps.items_behind modifier.now (seen region.old.bytes val.now))) }
    ensures long { result ≡ Err too_long
        → limited (steps.state_by_steps modifier.now (seen region.old.bytes val.now)) ≡ Err too_long }
    ensures early { IfErr result IsEarly }
    ensures begins { Begins region.old.bytes region.new.bytes }
{
    let items = val.pieces.as_slice();
    match modifier {
        Mod::Lower => change_words(alloc, region, Change::Case { small: true }, false, items),
        Mod::Upper => change_words(alloc, region, Change::Case { small: false }, false, items),
        Mod::Quote => Ok(quote(alloc, region, val, false)?),
        Mod::QuoteDollar => Ok(quote(alloc, region, val, true)?),
        _ => Ok(one_word(alloc, region, val)?),
    }
}

// The state behind a modifier, whatever the limit.
fn state_behind(
    alloc: Global,
    region: &mut Region,
    val: Val,
    modifier: &Mod,
) -> Result<Val, ModFault>
    requires { end_of val ≤ length region.old.bytes }
    ensures shown { AgreesBut IsEarly (seen region.new.bytes) result
        (or_bad_place (steps.state_by_steps modifier.now (seen region.old.bytes val))) }
    ensures long { result ≡ Err too_long
        → limited (steps.state_by_steps modifier.now (seen region.old.bytes val)) ≡ Err too_long }
    ensures within { IfOk result (λ new. end_of new ≤ length region.new.bytes) }
    ensures begins { Begins region.old.bytes region.new.bytes }
    ensures unchanged { IsTrue (places_nothing modifier.now val)
        → region.new.bytes ≡ region.old.bytes }
{
    match modifier {
        Mod::Lower | Mod::Upper | Mod::Quote | Mod::QuoteDollar => {
            let pieces = items_behind(alloc, region, &val, modifier)?;
            Ok(Val { pieces, ..val })
        }
        Mod::OneWord => {
            let pieces = items_behind(alloc, region, &val, modifier)?;
            Ok(Val {
                pieces,
                separator: val.separator,
                one_word: true,
            })
        }
        Mod::ManyWords => Ok(Val {
            one_word: false,
            ..val
        }),
        Mod::Separator(byte) => {
            let words = words_or_text(alloc, region, &val, false)?;
            Ok(Val {
                separator: sign_of(*byte),
                ..with_words(region, val.separator, val.one_word, words)
            })
        }
        _ => with_words_behind(alloc, region, val, modifier),
    }
}

/// The state behind a modifier of make(1). `TooLong` exactly where its printed text would pass
/// 4,194,304 bytes, and `BadPlace` exactly where the text of `:[..]` or `:range=` is none of the
/// stated forms. The state is given up on a refusal. Old bytes of the region stay its beginning,
/// after refusals too.
#[tactic(auto, using(crate::proofs::StepLemmas::steps_are_rows))]
pub fn apply(alloc: Global, region: &mut Region, val: Val, modifier: &Mod) -> Result<Val, ModFault>
    requires { end_of val ≤ length region.old.bytes }
    ensures state { Agrees no_memory (seen region.new.bytes) result
        (spec.apply modifier.now (seen region.old.bytes val)) }
    ensures within { IfOk result (λ new. end_of new ≤ length region.new.bytes) }
    ensures begins { Begins region.old.bytes region.new.bytes }

    // Words are chosen, cut and ordered without a copy.
    ensures unchanged { IsTrue (places_nothing modifier.now val)
        → region.new.bytes ≡ region.old.bytes }
{
    let new = state_behind(alloc, region, val, modifier)?;
    if !has_fitting_text(region, &new) {
        return Err(ModFault::TooLong);
    }
    Ok(new)
}
