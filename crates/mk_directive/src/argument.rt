//! What follows the words of `.for` and `.include`.
ghost use Rattle.std.specs.Prelude.{◌≡◌, ◌+◌, ◌<◌, ◌≤◌, ◌==◌, true, length, position, IfOk, IfSome};
ghost use Rattle.std.specs.Option.{option_copied, option_map};
ghost use Rattle.mk_directive.specs.Arguments as spec;

use mk_bytes::{NoMemory, Texts, is_white, without_blanks_before, words};
use std::alloc::Global;

/// The names of a loop, of which there is one at least, and the text that its words are cut from.
#[derive(Drop)]
pub struct Heading<'t> {
    pub names: Texts,
    pub text: &'t [u8],
    pub ghost named: { 0 < length names },
}

/// A file that is to be included.
#[derive(Clone, Copy)]
pub struct Wanted<'t> {
    /// Whether its name stood in angle brackets, and not in quotes.
    pub system: bool,
    pub name: &'t [u8],
}

fn ends_word(text: &[u8]) -> bool
    ensures { result ≡ spec.ends_word text.now }
{
    match text {
        [] => true,
        [first, ..] => is_white(*first),
    }
}

// Whether the word `in` stands at the start of a text.
fn begins_with_in(text: &[u8]) -> bool
    ensures { result ≡ spec.begins_with_in text.now }
{
    match text {
        [b'i', b'n', rest @ ..] => ends_word(rest),
        _ => false,
    }
}

// The same where a word may not begin there.
fn is_in(begins: bool, text: &[u8]) -> bool
    ensures { result ≡ spec.is_in begins text.now }
{
    begins && begins_with_in(text)
}

// The place of the first word `in`.
fn in_place(text: &[u8]) -> Option<usize>
    ensures value { result ≡ spec.in_at true text.now }
    ensures within { IfSome result (λ at. at + 2 ≤ length text.now) }
{
    let mut begins = true;
    for (at, byte) in text.iter().enumerate() {
        if is_in(begins, &text[at..]) {
            return Some(at);
        }
        begins = is_white(*byte);
    }
    None
}

/// The names of a loop and the text that its words are cut from: what follows the first word `in`
/// and its blanks. `None` where there is no word `in`, or no name before it. `NoMemory` where
/// memory ran out.
pub fn heading_in<'t>(alloc: Global, text: &'t [u8]) -> Result<Option<Heading<'t>>, NoMemory>
    ensures { IfOk result (λ found.
        option_map (λ h. (h.names, h.text.now)) found ≡ spec.heading_in text.now) }
{
    let Some(at) = in_place(text) else {
        return Ok(None);
    };
    let names = words(alloc, &text[..at])?;
    if names.is_empty() {
        return Ok(None);
    }
    Ok(Some(Heading {
        names,
        text: without_blanks_before(&text[at + 2..]),
    }))
}

// Whether a place is that of the last byte, and bytes stand before it.
fn is_end(at: usize, len: usize) -> bool
    requires { at < len }
    ensures { result ≡ spec.is_end at len }
{
    at != 0 && at + 1 == len
}

fn first_closer(text: &[u8], closer: u8) -> Option<usize>
    ensures { result ≡ position (λ byte. byte == closer) text.now }
{
    text.iter().position(|byte| *byte == closer)
}

// The bytes before a closing byte that stands at the end and nowhere else.
fn ended<'t>(text: &'t [u8], closer: u8) -> Option<&'t [u8]>
    ensures { option_copied result ≡ spec.ended closer text.now }
{
    let at = first_closer(text, closer)?;
    if is_end(at, text.len()) {
        return Some(&text[..at]);
    }
    None
}

/// The file that a text names: in quotes or in angle brackets, not empty, and without the sign that
/// ends it. `None` for every other text. Takes no memory.
pub fn wanted_by<'t>(text: &'t [u8]) -> Option<Wanted<'t>>
    ensures { option_map (λ w. (w.system, w.name.now)) result ≡ spec.wanted_by text.now }
{
    match text {
        [b'"', rest @ ..] => Some(Wanted {
            system: false,
            name: ended(rest, b'"')?,
        }),
        [b'<', rest @ ..] => Some(Wanted {
            system: true,
            name: ended(rest, b'>')?,
        }),
        _ => None,
    }
}
