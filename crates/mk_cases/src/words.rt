//! The words of a run.
use crate::case::Item;
use crate::fault::Trouble;
use mk_bytes::{Items, NoMemory, Text, Texts};
use std::alloc::Global;

fn push_word(words: &mut Texts, alloc: Global, word: &[u8]) -> Result<(), NoMemory> {
    words.push(Text::from_bytes(alloc, word)?)
}

// The word up to the next quote, and what stands behind that and its blank.
fn cut_quoted(quoted: &str) -> Option<(&str, &str)> {
    let (word, behind) = quoted.split_once('\'')?;
    if behind.is_empty() {
        return Some((word, ""));
    }
    Some((word, behind.strip_prefix(' ')?))
}

// The first word, and what stands behind it and its blank.
fn cut(text: &str) -> Option<(&str, &str)> {
    if let Some(quoted) = text.strip_prefix('\'') {
        return cut_quoted(quoted);
    }
    match text.split_once(' ') {
        Some(both) => Some(both),
        None => Some((text, "")),
    }
}

// The words of a line, parted by single blanks.
fn push_line(words: &mut Texts, alloc: Global, line: u32, text: &str) -> Result<(), Trouble> {
    let mut rest = text;
    for _ in 0..text.len() {
        if rest.is_empty() {
            break;
        }
        let Some((word, behind)) = cut(rest) else {
            return Err(Trouble::Bad(line));
        };
        push_word(words, alloc, word.as_bytes())?;
        rest = behind;
    }
    Ok(())
}

// Each line of a body is a word.
fn push_lines(words: &mut Texts, alloc: Global, body: &[u8]) -> Result<(), NoMemory> {
    let Some(lines) = body.strip_suffix(b"\n") else {
        return Ok(());
    };
    for word in lines.split(|byte| *byte == b'\n') {
        push_word(words, alloc, word)?;
    }
    Ok(())
}

/// The words of a run: those behind it on its line, and the lines of its body.
pub fn words_of(alloc: Global, item: &Item) -> Result<Texts, Trouble> {
    let mut words = Items::new(alloc, 0)?;
    push_line(&mut words, alloc, item.line, item.rest)?;
    push_lines(&mut words, alloc, item.body.as_slice())?;
    Ok(words)
}
