//! The words, numbers and lines of texts.
ghost use Rattle.std.specs.Prelude.{◌≡◌, ◌∷◌, ◌++◌, position, slice_get, IfOk, OnOk};
ghost use Rattle.std.specs.Option.{option_copied};
ghost use Rattle.std.specs.List.{slice_split};
ghost use Rattle.mk_commands.specs.Words as spec;

use mk_bytes::{NoMemory, Text, is_white};
use std::alloc::Global;

/// The words of a text, cut at spaces, tabs and newlines.
pub fn words_of<'t>(alloc: Global, text: &'t [u8]) -> Result<Vec<&'t [u8]>, NoMemory>
    ensures { IfOk result (λ words. spec.held words.items ≡ spec.words_of text.now) }
{
    let words = text
        .split(|byte| is_white(*byte))
        .filter(|part| !part.is_empty())
        .collect(alloc)?;
    Ok(words)
}

/// A line of words with spaces between them.
pub fn line_of(alloc: Global, words: &[&[u8]]) -> Result<Text, NoMemory>
    ensures { IfOk result (λ line. line ≡ spec.line_of (spec.held words.now)) }
{
    let mut line = Text::new(alloc);
    if let [first, rest @ ..] = words {
        line.push(first)?;
        push_spaced(&mut line, rest)?;
    }
    line.push(b"\n")?;
    Ok(line)
}

// Appends words with a space before each.
fn push_spaced(line: &mut Text, words: &[&[u8]]) -> Result<(), NoMemory>
    ensures { OnOk result (line.new ≡ line.old ++ spec.spaced (spec.held words.now)) }
{
    for word in words {
        line.push(b" ")?;
        line.push(word)?;
    }
    Ok(())
}

/// A number of 1 to 9 decimal digits.
pub fn number_of(word: &[u8]) -> Option<u32>
    ensures { result ≡ spec.number_of word.now }
{
    if word.is_empty() || word.len() > 9 {
        return None;
    }
    let mut number = 0;
    for byte in word {
        if !byte.is_ascii_digit() {
            return None;
        }
        number = 10 * number + (*byte - b'0') as u32;
    }
    Some(number)
}

/// The place of a line, counted from 0, where its number, counted from 1, has 1 to 9 digits.
pub fn place_of(word: &[u8]) -> Option<u32>
    ensures { result ≡ spec.place_of word.now }
{
    number_of(word)?.checked_sub(1)
}

fn first_newline(text: &[u8]) -> Option<usize>
    ensures { result ≡ position spec.is_newline text.now }
{
    text.iter().position(|byte| *byte == b'\n')
}

// The first line of a text, and what follows its newline.
fn first_line<'t>(text: &'t [u8]) -> (&'t [u8], Option<&'t [u8]>)
    ensures { slice_split spec.is_newline text.now
        ≡ result.0.now ∷ spec.lines_after (option_copied result.1) }
{
    match first_newline(text) {
        Some(at) => (&text[..at], Some(&text[at + 1..])),
        None => (text, None),
    }
}

// The line at a place, counted from 0, without its newline.
#[tactic(auto, using(crate::proofs::LineLemmas::lines_in_more))]
fn line_at<'t>(text: &'t [u8], place: u32) -> Option<&'t [u8]>
    ensures { option_copied result ≡ slice_get (spec.lines_of text.now) place }
{
    let mut rest = text;
    for _ in 0..place {
        let (_, after) = first_line(rest);
        rest = after?;
    }
    match first_line(rest) {
        ([], None) => None,
        (line, _) => Some(line),
    }
}

/// The line at a place, counted from 0, with a newline; nothing where there is no such line.
pub fn picked(alloc: Global, place: u32, text: &[u8]) -> Result<Text, NoMemory>
    ensures { IfOk result (λ line. line ≡ spec.picked place text.now) }
{
    let mut line = Text::new(alloc);
    if let Some(found) = line_at(text, place) {
        line.push(found)?;
        line.push(b"\n")?;
    }
    Ok(line)
}
