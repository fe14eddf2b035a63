//! The lines of a trace.
ghost use Rattle.std.specs.Prelude.{◌≡◌, ◌++◌, IfOk};
ghost use Rattle.std.specs.Option.{option_copied, option_map};
ghost use Rattle.mk_strace.specs.Seen.{kind_now};
ghost use Rattle.mk_strace.specs.Lines as spec;

use crate::act::{Act, act_of, is_number};
use crate::scan::{behind, without_spaces};
use mk_bytes::{NoMemory, Text};
use mk_filemon::cut_at;
use std::alloc::Global;

/// What a line of a process is.
#[derive(Clone, Copy)]
pub enum Kind<'t> {
    /// A call that ended at once.
    Whole,
    /// A call that goes on behind lines of other processes, as far as it came.
    Begun(&'t [u8]),
    /// What follows of such a call.
    Resumed(&'t [u8]),
    /// The process ended.
    Ends,
    /// A thread with this number took its place.
    Takes(&'t [u8]),
    /// A signal came.
    Signal,
}

/// The process of a line, and its text. `None` for a line of another form.
pub fn parts_of<'t>(line: &'t [u8]) -> Option<(&'t [u8], &'t [u8])>
    ensures { option_map (λ parts. (parts.0.now, parts.1.now)) result ≡ spec.parts_of line.now }
{
    let (process, rest) = cut_at(b' ', line)?;
    if !is_number(process) {
        return None;
    }
    Some((process, without_spaces(rest)))
}

// What stands before the end of a line that says that its call goes on.
fn begun_in<'t>(text: &'t [u8]) -> Option<&'t [u8]>
    ensures { option_copied result ≡ spec.begun_in text.now }
{
    if !text.ends_with(b" <unfinished ...>") {
        return None;
    }
    Some(&text[..text.len() - 17])
}

fn without_space<'t>(text: &'t [u8]) -> &'t [u8]
    ensures { result.now ≡ spec.without_space text.now }
{
    match text {
        [b' ', rest @ ..] => rest,
        _ => text,
    }
}

fn is_end(text: &[u8]) -> bool
    ensures { result ≡ spec.is_end text.now }
{
    text.starts_with(b"+++ exited with ") || text.starts_with(b"+++ killed by ")
}

// The number of the thread that took the place of a process.
fn taken_by<'t>(text: &'t [u8]) -> Option<&'t [u8]>
    ensures { option_copied result ≡ spec.taken_by text.now }
{
    let rest = behind(b"+++ superseded by execve in pid ", text)?;
    let (from, _) = cut_at(b' ', rest)?;
    Some(from)
}

// What a line of a call is.
fn kind_of_call<'t>(text: &'t [u8]) -> Kind<'t>
    ensures { kind_now result ≡ spec.kind_of_call text.now }
{
    match begun_in(text) {
        Some(start) => Kind::Begun(start),
        None => Kind::Whole,
    }
}

/// What the text of a line is. `None` for a text of another form.
pub fn kind_of<'t>(text: &'t [u8]) -> Option<Kind<'t>>
    ensures { option_map kind_now result ≡ spec.kind_of text.now }
{
    if is_end(text) {
        Some(Kind::Ends)
    } else if text.starts_with(b"+++ ") {
        Some(Kind::Takes(taken_by(text)?))
    } else if text.starts_with(b"--- ") {
        Some(Kind::Signal)
    } else if text.starts_with(b"<... ") {
        Some(Kind::Resumed(without_space(behind(b" resumed>", text)?)))
    } else {
        Some(kind_of_call(text))
    }
}

/// What a call did, by its whole text: its name, a bracket, its words and its result.
pub fn act_in(alloc: Global, text: &[u8]) -> Result<Option<Act>, NoMemory>
    ensures { IfOk result (λ act. act ≡ spec.act_in text.now) }
{
    match cut_at(b'(', text) {
        Some((name, words)) => act_of(alloc, name, words),
        None => Ok(None),
    }
}

/// What a call did of which the text stands in two lines.
pub fn act_joined(alloc: Global, start: &[u8], rest: &[u8]) -> Result<Option<Act>, NoMemory>
    ensures { IfOk result (λ act. act ≡ spec.act_in (start.now ++ rest.now)) }
{
    let mut text = Text::from_bytes(alloc, start)?;
    text.push(rest)?;
    let act = act_in(alloc, text.bytes());
    drop(text);
    act
}
