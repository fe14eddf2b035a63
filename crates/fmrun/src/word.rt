//! Numbers and lines of words.
ghost use Rattle.std.specs.Prelude.{◌≡◌, ◌∷◌, ◌++◌, slice_get, IfOk, OnOk};
ghost use Rattle.std.specs.Option.{option_copied};
ghost use Rattle.std.specs.List.{slice_split};
ghost use Rattle.fmrun.specs.Words as spec;

use mk_bytes::{NoMemory, Text, number_up_to};
use mk_filemon::cut_at;
use std::alloc::Global;

/// A line of words with spaces between them.
pub fn line_of(alloc: Global, words: &[Text]) -> Result<Text, NoMemory>
    ensures { IfOk result (λ line. line ≡ spec.line_of words.now) }
{
    let mut line = Text::new(alloc);
    if let [first, rest @ ..] = words {
        line.push(first.bytes())?;
        push_spaced(&mut line, rest)?;
    }
    line.push(b"\n")?;
    Ok(line)
}

// Appends words with a space before each.
fn push_spaced(line: &mut Text, words: &[Text]) -> Result<(), NoMemory>
    ensures { OnOk result (line.new ≡ line.old ++ spec.spaced words.now) }
{
    for word in words {
        line.push(b" ")?;
        line.push(word.bytes())?;
    }
    Ok(())
}

// A number of 1 to 9 decimal digits.
fn number_of(word: &[u8]) -> Option<u32>
    ensures { result ≡ spec.number_of word.now }
{
    if word.len() > 9 {
        return None;
    }
    Some(number_up_to(999_999_999, word)? as u32)
}

/// The place of a line, counted from 0, where its number, counted from 1, has 1 to 9 digits.
pub fn place_of(word: &[u8]) -> Option<u32>
    ensures { result ≡ spec.place_of word.now }
{
    number_of(word)?.checked_sub(1)
}

/// A status from 1 to 255.
pub fn status_of(word: &[u8]) -> Option<u8>
    ensures { result ≡ spec.status_of word.now }
{
    match number_of(word) {
        Some(status @ 1..=255) => Some(status as u8),
        _ => None,
    }
}

// The first line of a text, and what follows its newline.
#[tactic(auto, using(crate::proofs::LineLemmas::split_cut))]
fn first_line<'t>(text: &'t [u8]) -> (&'t [u8], Option<&'t [u8]>)
    ensures { slice_split spec.is_newline text.now
        ≡ result.0.now ∷ spec.lines_after (option_copied result.1) }
{
    match cut_at(b'\n', text) {
        Some((line, rest)) => (line, Some(rest)),
        None => (text, None),
    }
}

// The line at a place, counted from 0, without its newline.
#[tactic(auto, using(crate::proofs::LineLemmas::lines_in_more))]
fn line_at<'t>(text: &'t [u8], place: u32) -> Option<&'t [u8]>
    ensures { option_copied result ≡ slice_get (spec.lines_of text.now) place }
{
    let mut rest = text;
    for _ in 0..place {
        let (_, after) = first_line(rest);
        rest = after?;
    }
    match first_line(rest) {
        ([], None) => None,
        (line, _) => Some(line),
    }
}

/// The line at a place, counted from 0, with a newline; nothing where there is no such line.
pub fn picked(alloc: Global, place: u32, text: &[u8]) -> Result<Text, NoMemory>
    ensures { IfOk result (λ line. line ≡ spec.picked place text.now) }
{
    let mut line = Text::new(alloc);
    if let Some(found) = line_at(text, place) {
        line.push(found)?;
        line.push(b"\n")?;
    }
    Ok(line)
}
