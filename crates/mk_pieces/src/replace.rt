//! Words in which texts are replaced by others, or letters by those of the other case.
ghost use Rattle.std.specs.Prelude.{◌≡◌, ◌<◌, ◌≤◌, ◌+◌, ◌++◌, ◌&&◌, not, is_some, length, drop};
ghost use Rattle.std.specs.Prelude.{position, false, IfOk, IfErr, IfSome, OnOk, Err};
ghost use Rattle.mk_bytes.specs.Agrees.{Agrees};
ghost use Rattle.mk_pieces.specs.Change.{changed_word, IsSearchFor};
ghost use Rattle.mk_pieces.specs.Limits.{max_text, pushed, pushed_if, IsEarly, AreTooLong};
ghost use Rattle.mk_pieces.specs.Substitution as spec;
ghost use Rattle.mk_pieces.specs.Pieces.{bytes_of, texts_of, furthest, Shows, Begins};
ghost use Rattle.mk_pieces.specs.declared.fault.ModFault.TheVariants.{
  NoMemory as no_memory,
  TooLong as too_long,
};

use crate::fault::ModFault;
use crate::fresh::{push, push_both, push_three};
use crate::letters::recased;
use crate::piece::{piece_between, place, shown};
use memchr::memchr;
use memchr::memmem::Finder;
use mk_pool::{Piece, Region};
use std::alloc::Global;

/// How a word is changed. A word that does not match stays.
#[derive(Clone, Copy)]
pub enum Change<'m> {
    /// `from` becomes `to`: at its first place, or with `all` at each from the left; with
    /// `at_start` only at the start of the word, with `at_end` only at its end. An empty `from` is
    /// at no place within a word.
    Subst {
        from: &'m [u8],
        to: &'m [u8],
        at_start: bool,
        at_end: bool,
        all: bool,
    },
    /// The end of a word that is `from` becomes `to`, or where `from` has a `%`, what stands around
    /// the middle that the first `%` is.
    Suffix {
        from: &'m [u8],
        to: &'m [u8],
    },
    /// ASCII letters become small ones, or capitals. A word that has none to change stays.
    Case {
        small: bool,
    },
}

// What is found out of a change once, for all words. Else each word would cost what its texts do.
#[derive(Drop)]
struct Search<'m> {
    // A search for the text that may stand anywhere in a word.
    finder: Finder<'m>,
    // The first `%` of the end of a word.
    percent: Option<usize>,
}

fn search_for(change: Change<'_>) -> Search<'_>
    ensures { IsSearchFor change.entry result.finder result.percent }
{
    match change {
        Change::Subst {
            from,
            to: _,
            at_start: false,
            at_end: false,
            all: _,
        } => Search {
            finder: Finder::new(from),
            percent: None,
        },
        Change::Suffix { from, to: _ } => Search {
            finder: Finder::new(b""),
            percent: first_percent(from),
        },
        _ => Search {
            finder: Finder::new(b""),
            percent: None,
        },
    }
}

fn first_place(finder: &Finder<'_>, text: &[u8], word: &[u8]) -> Option<usize>
    requires { finder.now ≡ text.now }
    ensures value { result ≡ spec.first_place text.now word.now }
    ensures fits { IfSome result (λ at. at + length text.now ≤ length word.now) }
{
    match text {
        [byte] => memchr(*byte, word),
        _ => finder.find(word),
    }
}

fn behind(text: &[u8], at: usize) -> &[u8]
    requires { at ≤ length text.now }
    ensures { result.now ≡ drop at text.now }
{
    &text[at..]
}

// Puts a word behind other bytes, with each place of `from` replaced, from the left.
fn push_replaced(
    out: &mut Vec<u8>,
    finder: &Finder<'_>,
    from: &[u8],
    to: &[u8],
    word: &[u8],
) -> Result<(), ModFault>
    requires finder { finder.now ≡ from.now }
    requires some { 0 < length from.now }
    ensures { Agrees no_memory (λ _. out.new.items) result
        (pushed out.old.items (spec.replaced (length word.now) from.now to.now word.now)) }
{
    let mut rest = word;
    'places: while let Some(at) = first_place(finder, from, rest) {
        push_both(out, &rest[..at], to)?;
        rest = behind(rest, at + from.len());
    }
    push(out, rest)
}

fn replaced_within(
    out: &mut Vec<u8>,
    finder: &Finder<'_>,
    from: &[u8],
    to: &[u8],
    all: bool,
    word: &[u8],
) -> Result<bool, ModFault>
    requires { finder.now ≡ from.now }
    ensures { Agrees no_memory (λ is. (is, out.new.items)) result
        (pushed_if out.old.items (spec.replaced_within from.now to.now all word.now)) }
{
    if from.is_empty() {
        return Ok(false);
    }
    let Some(at) = first_place(finder, from, word) else {
        return Ok(false);
    };
    let rest = behind(word, at + from.len());
    if all {
        push_both(out, &word[..at], to)?;
        push_replaced(out, finder, from, to, rest)?;
    } else {
        push_three(out, &word[..at], to, rest)?;
    }
    Ok(true)
}

fn start_replaced(out: &mut Vec<u8>, from: &[u8], to: &[u8], word: &[u8]) -> Result<bool, ModFault>
    ensures { Agrees no_memory (λ is. (is, out.new.items)) result
        (pushed_if out.old.items (spec.start_replaced from.now to.now word.now)) }
{
    if !word.starts_with(from) {
        return Ok(false);
    }
    push_both(out, to, behind(word, from.len()))?;
    Ok(true)
}

fn end_replaced(out: &mut Vec<u8>, from: &[u8], to: &[u8], word: &[u8]) -> Result<bool, ModFault>
    ensures { Agrees no_memory (λ is. (is, out.new.items)) result
        (pushed_if out.old.items (spec.end_replaced from.now to.now word.now)) }
{
    if !word.ends_with(from) {
        return Ok(false);
    }
    push_both(out, &word[..word.len() - from.len()], to)?;
    Ok(true)
}

fn whole_replaced(out: &mut Vec<u8>, from: &[u8], to: &[u8], word: &[u8]) -> Result<bool, ModFault>
    ensures { Agrees no_memory (λ is. (is, out.new.items)) result
        (pushed_if out.old.items (spec.whole_replaced from.now to.now word.now)) }
{
    if word != from {
        return Ok(false);
    }
    push(out, to)?;
    Ok(true)
}

fn first_percent(text: &[u8]) -> Option<usize>
    ensures { result ≡ position spec.is_percent text.now }
{
    text.iter().position(|byte| *byte == b'%')
}

// Puts a text behind other bytes, with another in place of its first `%`.
fn push_with_middle(out: &mut Vec<u8>, to: &[u8], middle: &[u8]) -> Result<(), ModFault>
    ensures { Agrees no_memory (λ _. out.new.items) result (pushed out.old.items
        (spec.with_middle (position spec.is_percent to.now) to.now middle.now)) }
{
    match first_percent(to) {
        None => push(out, to),
        Some(at) => push_three(out, &to[..at], middle, behind(to, at + 1)),
    }
}

fn around_replaced(
    out: &mut Vec<u8>,
    before: &[u8],
    after: &[u8],
    to: &[u8],
    word: &[u8],
) -> Result<bool, ModFault>
    ensures { Agrees no_memory (λ is. (is, out.new.items)) result
        (pushed_if out.old.items (spec.around_replaced before.now after.now to.now word.now)) }
{
    let Some(len) = word.len().checked_sub(before.len() + after.len()) else {
        return Ok(false);
    };
    if !word.starts_with(before) || !word.ends_with(after) {
        return Ok(false);
    }
    let middle = &behind(word, before.len())[..len];
    push_with_middle(out, to, middle)?;
    Ok(true)
}

fn suffixed(
    out: &mut Vec<u8>,
    search: &Search<'_>,
    from: &[u8],
    to: &[u8],
    word: &[u8],
) -> Result<bool, ModFault>
    requires { search.now.percent ≡ position spec.is_percent from.now }
    ensures { Agrees no_memory (λ is. (is, out.new.items)) result
        (pushed_if out.old.items (spec.suffixed from.now to.now word.now)) }
{
    match search.percent {
        None => end_replaced(out, from, to, word),
        Some(at) => around_replaced(out, &from[..at], behind(from, at + 1), to, word),
    }
}

fn substituted(
    out: &mut Vec<u8>,
    search: &Search<'_>,
    from: &[u8],
    to: &[u8],
    at_start: bool,
    at_end: bool,
    all: bool,
    word: &[u8],
) -> Result<bool, ModFault>
    requires { at_start ≡ false → at_end ≡ false → search.now.finder ≡ from.now }
    ensures { Agrees no_memory (λ is. (is, out.new.items)) result (pushed_if out.old.items
        (spec.substituted from.now to.now at_start at_end all word.now)) }
{
    match (at_start, at_end) {
        (true, true) => whole_replaced(out, from, to, word),
        (true, false) => start_replaced(out, from, to, word),
        (false, true) => end_replaced(out, from, to, word),
        (false, false) => replaced_within(out, &search.finder, from, to, all, word),
    }
}

// Puts what a word becomes behind other bytes, unless it stays, and tells whether it did.
fn changed_word(
    out: &mut Vec<u8>,
    change: Change<'_>,
    search: &Search<'_>,
    word: &[u8],
) -> Result<bool, ModFault>
    requires { IsSearchFor change search.now.finder search.now.percent }
    ensures { Agrees no_memory (λ is. (is, out.new.items)) result
        (pushed_if out.old.items (changed_word change.entry word.now)) }
{
    match change {
        Change::Subst {
            from,
            to,
            at_start,
            at_end,
            all,
        } => substituted(out, search, from, to, at_start, at_end, all, word),
        Change::Suffix { from, to } => suffixed(out, search, from, to, word),
        Change::Case { small } => recased(out, small, word),
    }
}

// The piece of a word that may be changed, and whether it is another one. It lies in the region, or
// in the bytes that are made, which come behind it.
fn changed_piece(
    region: &Region,
    out: &mut Vec<u8>,
    change: Change<'_>,
    search: &Search<'_>,
    ready: bool,
    word: Piece,
) -> Result<(Piece, bool), ModFault>
    requires word { word.end ≤ length region.now.bytes }
    requires search { IsSearchFor change search.now.finder search.now.percent }
    ensures shown { IfOk result (λ new. bytes_of (region.now.bytes ++ out.new.items) new.0
        ≡ spec.word_changed ready (changed_word change.entry) (bytes_of region.now.bytes word)) }
    ensures changed { IfOk result (λ new. new.1
        ≡ (ready && is_some (changed_word change.entry (bytes_of region.now.bytes word)))) }
    ensures within { IfOk result
        (λ new. new.0.end ≤ length (region.now.bytes ++ out.new.items)) }
    ensures begins { OnOk result (Begins out.old.items out.new.items) }
    ensures long { result ≡ Err too_long → max_text < length out.old.items + length
        (spec.word_changed ready (changed_word change.entry) (bytes_of region.now.bytes word)) }
    ensures early { IfErr result IsEarly }
    ensures room { OnOk result (length out.new.items ≤ length out.old.items + length
        (spec.word_changed ready (changed_word change.entry) (bytes_of region.now.bytes word))) }
{
    if !ready {
        return Ok((word, false));
    }
    let start = region.len() + out.len();
    if !changed_word(out, change, search, shown(region, word))? {
        return Ok((word, false));
    }
    let end = region.len() + out.len();
    Ok((piece_between(start, end)?, true))
}

fn is_ready_for_more(ready: bool, once: bool, is_changed: bool) -> bool
    ensures { result ≡ (ready && not (once && is_changed)) }
{
    ready && !(once && is_changed)
}

/// Changes each word that matches, or with `once` the first one, and gives the pieces of all words
/// in order. Words that stay keep their pieces; the others are placed in the region behind its old
/// bytes, which stay its beginning, after refusals too. `TooLong` comes only where the words that
/// it would give have more than 4,194,304 bytes together, `NoMemory` where memory runs out, and
/// `BadPlace` never.
pub fn change_words(
    alloc: Global,
    region: &mut Region,
    change: Change<'_>,
    once: bool,
    words: &[Piece],
) -> Result<Vec<Piece>, ModFault>
    requires { furthest words.now ≤ length region.old.bytes }
    ensures words { IfOk result (λ new. Shows region.new.bytes new.items
        (spec.words_changed once (changed_word change.entry)
        (texts_of region.old.bytes words.now))) }
    ensures begins { Begins region.old.bytes region.new.bytes }
    ensures long { result ≡ Err too_long
        → AreTooLong (spec.words_changed once (changed_word change.entry)
        (texts_of region.old.bytes words.now)) }
    ensures early { IfErr result IsEarly }
{
    let search = search_for(change);
    let mut out = Vec::new(alloc);
    let mut pieces = Vec::with_capacity(alloc, words.len())?;
    let mut ready = true;
    for word in words {
        let (piece, is_changed) = changed_piece(region, &mut out, change, &search, ready, *word)?;
        pieces.push(piece)?;
        ready = is_ready_for_more(ready, once, is_changed);
    }
    place(region, out.as_slice())?;
    Ok(pieces)
}
