//! Words of texts, which are cut at spaces, tabs and newlines.
ghost use Rattle.std.specs.Prelude.{◌≡◌, ◌<◌, ◌≤◌, ◌∷◌, length, position, IfOk, IfSome};
ghost use Rattle.std.specs.Option.{option_copied};
ghost use Rattle.mk_bytes.specs.Words as spec;

use crate::fault::NoMemory;
use crate::items::Items;
use crate::pair::Texts;
use crate::text::Text;
use std::alloc::Global;

/// Where a word stands in a text: from the byte at `start` to before the byte at `end`.
#[derive(Clone, Copy, PartialEq, Eq)]
pub struct Span {
    pub start: usize,
    pub end: usize,
}

/// Whether words are cut at a byte.
pub fn is_white(byte: u8) -> bool
    ensures { result ≡ spec.is_white byte }
{
    byte == b' ' || byte == b'\t' || byte == b'\n'
}

// How many bytes of white space a text begins with; `None` where there is nothing else.
fn skipped_white(text: &[u8]) -> Option<usize>
    ensures { result ≡ position spec.is_no_white text.now }
{
    text.iter().position(|byte| !is_white(*byte))
}

// The place of the first white space in a text.
fn first_white(text: &[u8]) -> Option<usize>
    ensures { result ≡ position spec.is_white text.now }
{
    text.iter().position(|byte| is_white(*byte))
}

/// The first word at or after `from`, where words are cut at spaces, tabs and newlines and the text
/// is cut at `from` too. `None` exactly where only white space is left. Takes no memory.
pub fn next_word(text: &[u8], from: usize) -> Option<Span>
    requires { from ≤ length text.now }
    ensures { result ≡ spec.next_word text.now from }
{
    let Some(skipped) = skipped_white(&text[from..]) else {
        return None;
    };
    let start = from + skipped;
    let word = &text[start..];
    let len = first_white(word).unwrap_or(word.len());
    Some(Span {
        start,
        end: start + len,
    })
}

/// A law of words: what [`next_word`] finds at a place is the first of the words from there on, and
/// it finds nothing where there are none. So the words that are found one after the other are those
/// that stand between the white space.
pub fn next_word_is_first(text: &[u8], from: usize)
    requires { from ≤ length text.now }
    ensures { spec.FindsNext text.now from (spec.next_word text.now from) }
{}

/// The first piece of a text, which ends at the first white byte, and what follows that byte, or
/// `None` where there is none. Takes no memory.
pub fn first_piece<'t>(text: &'t [u8]) -> (&'t [u8], Option<&'t [u8]>)
    ensures pieces { spec.pieces text.now
        ≡ result.0.now ∷ spec.pieces_behind (option_copied result.1) }
    ensures shorter { IfSome result.1 (λ rest. length rest.now < length text.now) }
{
    match first_white(text) {
        Some(at) => (&text[..at], Some(&text[at + 1..])),
        None => (text, None),
    }
}

/// The words of a text, which are cut at spaces, tabs and newlines. `NoMemory` where memory ran
/// out.
pub fn words(alloc: Global, text: &[u8]) -> Result<Texts, NoMemory>
    ensures { IfOk result (λ words. words ≡ spec.words_of text.now) }
{
    let mut words = Items::new(alloc, 0)?;
    let mut from = 0;
    'words: while let Some(word) = next_word(text, from) {
        words.push(Text::from_bytes(alloc, &text[word.start..word.end])?)?;
        from = word.end;
    }
    Ok(words)
}
