//! Assignments on the command line (make(1), "VARIABLE ASSIGNMENTS").
ghost use Rattle.std.specs.Prelude.{◌≡◌, position, is_some, IfOk};
ghost use Rattle.std.specs.List.{before_first, after_first};
ghost use Rattle.mk_cli.specs.Assignments as spec;

use crate::order::{AssignOp, Set};
use mk_bytes::{NoMemory, Text, without_blanks, without_blanks_before};
use mk_scopes::Class;
use std::alloc::Global;

// The place of the first `=`.
fn first_equals(word: &[u8]) -> Option<usize>
    ensures { result ≡ position spec.is_equals word.now }
{
    word.iter().position(|byte| *byte == b'=')
}

/// Whether a word is an assignment, which may still be refused: it has an `=` after its first byte.
pub fn is_assignment(word: &[u8]) -> bool
    ensures { result ≡ spec.is_assignment word.now }
{
    match word {
        [] => false,
        [_, rest @ ..] => first_equals(rest).is_some(),
    }
}

// The bytes before the first `=`, or all, and those after it, or none.
fn split_at_equals(word: &[u8]) -> (&[u8], &[u8])
    ensures before { result.0.now ≡ before_first spec.is_equals word.now }
    ensures after { result.1.now ≡ after_first spec.is_equals word.now }
{
    match first_equals(word) {
        Some(at) => (&word[..at], &word[at + 1..]),
        None => (word, &word[word.len()..]),
    }
}

// The name and the operator, of what stands before the `=`.
fn name_and_op(text: &[u8]) -> (&[u8], AssignOp)
    ensures name { result.0.now ≡ (spec.name_and_op text.now).0 }
    ensures op { result.1 ≡ (spec.name_and_op text.now).1 }
{
    if let Some(name) = text.strip_suffix(b"+".as_slice()) {
        return (name, AssignOp::Append);
    }
    if let Some(name) = text.strip_suffix(b"?".as_slice()) {
        return (name, AssignOp::Default);
    }
    if let Some(name) = text.strip_suffix(b":".as_slice()) {
        return (name, AssignOp::Now);
    }
    if let Some(name) = text.strip_suffix(b"!".as_slice()) {
        return (name, AssignOp::Shell);
    }
    (text, AssignOp::Plain)
}

fn is_shell(op: AssignOp) -> bool
    ensures { result ≡ spec.is_shell op }
{
    matches!(op, AssignOp::Shell)
}

/// The assignment that a word with an `=` is, of the command line's own class. `None` where it is
/// refused: without a name, and with the sign `!=`.
pub fn assignment(alloc: Global, word: &[u8]) -> Result<Option<Set>, NoMemory>
    ensures { IfOk result (λ set. set ≡ spec.assignment word.now) }
{
    let (before, after) = split_at_equals(word);
    let (name, op) = name_and_op(before);
    let name = without_blanks(name);
    if name.is_empty() || is_shell(op) {
        return Ok(None);
    }
    Ok(Some(Set {
        class: Class::Command,
        op,
        name: Text::from_bytes(alloc, name)?,
        value: Text::from_bytes(alloc, without_blanks_before(after))?,
    }))
}
