//! The match of a pattern with a word.
ghost use Rattle.std.specs.Prelude.{◌≡◌};
ghost use Rattle.std.specs.List.{list_any};
ghost use Rattle.mk_glob.specs.Patterns as spec;
ghost use Rattle.mk_glob.specs.Heads.{TellsOf, IsShorter};

use crate::part::{Part, Pattern};
use mk_bytes::Text;

// How far a pattern goes with a word before its next `*`.
enum Head<'p, 'w> {
    // No `*` is met: whether the word matches.
    Settled(bool),
    // What is left of the pattern behind a `*`, and of the word.
    AtStar(Pattern<'p>, &'w [u8]),
}

// Takes a byte of the word for each part of the pattern up to its next `*`. Reads each byte of the
// pattern a fixed number of times at most.
fn match_head<'p, 'w>(pattern: Pattern<'p>, word: &'w [u8]) -> Head<'p, 'w>
    ensures tells { TellsOf pattern.entry.bytes.now word.now result }
    ensures shorter { IsShorter pattern.entry.bytes.now word.now result }
{
    let mut pattern = pattern;
    let mut left = word;
    'parts: loop {
        match pattern.split_first() {
            None => return Head::Settled(left.is_empty()),
            Some((Part::Star, after)) => return Head::AtStar(after, left),
            Some((Part::One(class), after)) => match left {
                [byte, rest @ ..] if class.takes(*byte) => {
                    pattern = after;
                    left = rest;
                }
                _ => return Head::Settled(false),
            },
        }
    }
}

// Whether some end of a word matches a pattern, the word itself and the empty end included. Only
// the last `*` takes more bytes where the parts behind it do not fit, since it can take what an
// earlier one could. So at each byte of the word at most one head of the pattern is tried in vain.
fn matches_some_end(pattern: Pattern<'_>, word: &[u8]) -> bool
    ensures { result ≡ spec.some_end (spec.matches pattern.entry.bytes.now) word.now }
{
    let mut pattern = pattern;
    let mut end = word;
    'ends: loop {
        match match_head(pattern, end) {
            Head::Settled(true) => return true,
            Head::AtStar(after, left) => {
                pattern = after;
                end = left;
            }
            Head::Settled(false) => match end {
                [] => return false,
                [_, rest @ ..] => end = rest,
            },
        }
    }
}

/// Whether a pattern matches the whole of a word, as NetBSD make(1) has it in the modifiers `:M`
/// and `:N`.
///
/// `*` takes any bytes, `?` takes one byte, `[..]` takes one byte of a set with ranges, `[^..]`
/// takes one byte outside it, and `\c` takes the byte `c`. A `]` directly behind `[` or `[^` is a
/// member, and so is a backslash in a set. A `[` that no `]` closes, and a `\` at the end, are
/// themselves.
///
/// Takes no memory. The steps are at most the product of the two lengths, up to a factor.
pub fn matches(pattern: &[u8], word: &[u8]) -> bool
    ensures { result ≡ spec.matches pattern.now word.now }
{
    match match_head(Pattern::new(pattern), word) {
        Head::Settled(answer) => answer,
        Head::AtStar(after, left) => matches_some_end(after, left),
    }
}

/// Whether a pattern matches one of these texts. Takes no memory.
pub fn matches_one_of(pattern: &[u8], texts: &[Text]) -> bool
    ensures { result ≡ list_any (spec.matches pattern.now) texts.now }
{
    texts.iter().any(|text| matches(pattern, text.bytes()))
}
