//! What a call did, by its words and its result.
ghost use Rattle.std.specs.Prelude.{◌≡◌, IfOk};
ghost use Rattle.std.specs.List.{list_all};
ghost use Rattle.mk_bytes.specs.Bytes.{is_digit as is_digit_byte};
ghost use Rattle.mk_strace.specs.Acts as spec;

use crate::call::{Call, Form, form_of};
use crate::how::{How, Sort, how_of, sort_in};
use crate::name::{Name, name_at, open_in};
use crate::scan::{cut, has};
use mk_bytes::{NoMemory, Text};
use std::alloc::Global;

/// What a process did.
#[derive(Drop)]
pub enum Act {
    /// Nothing that says something of files.
    Nothing,
    /// It opened a file; the name is as it was given, and what is open as it is shown.
    Opens { name: Name, open: Name, how: How },
    /// It looked for something that was not there.
    Misses(Name),
    /// It runs this program.
    Runs(Name),
    /// It looked, and this sort of file was there.
    Looks { name: Name, sort: Sort },
    /// It made a file, whatever stood there, or gave one a new time.
    Makes(Name),
    /// It changed a file of which old bytes may stay.
    Updates(Name),
    /// It cut a file that is open to nothing.
    Empties(Name),
    /// It made a directory.
    MakesFolder(Name),
    Removes { name: Name, is_folder: bool },
    Moves { from: Name, to: Name, is_swap: bool },
    Links { from: Name, to: Name },
    /// It has another directory.
    Enters(Name),
    /// It listed a directory.
    Lists(Name),
    /// It began another process, with which it may share its directory.
    Forks { child: Text, is_shared: bool },
    /// It did this, behind which what is done is not seen by paths.
    Hides(Text),
    /// It ended.
    Ends,
    /// Another one of its threads took its place, and has that number no more.
    Takes { from: Text },
}

/// How a call went.
#[derive(Clone, Copy)]
pub enum Outcome {
    Done,
    /// It failed, since something was not there.
    Missed,
    /// It failed otherwise, or did not end.
    Failed,
}

// Whether nothing was there: an error of the system says so by one of these two names.
fn is_miss(end: &[u8]) -> bool
    ensures { result ≡ spec.is_miss end.now }
{
    end.starts_with(b"-1 ENOENT") || end.starts_with(b"-1 ENOTDIR")
}

fn is_digit(byte: u8) -> bool
    ensures { result ≡ is_digit_byte byte }
{
    b'0' <= byte && byte <= b'9'
}

fn are_digits(text: &[u8]) -> bool
    ensures { result ≡ list_all is_digit_byte text.now }
{
    text.iter().all(|byte| is_digit(*byte))
}

/// Whether a text is decimal digits.
pub fn is_number(text: &[u8]) -> bool
    ensures { result ≡ spec.is_number text.now }
{
    !text.is_empty() && are_digits(text)
}

/// How a call went, by its result. `None` for a result of no known form.
pub fn outcome_of(end: &[u8]) -> Option<Outcome>
    ensures { result ≡ spec.outcome_of end.now }
{
    let Some(first) = end.first() else {
        return None;
    };
    if is_miss(end) {
        return Some(Outcome::Missed);
    }
    match *first {
        b'-' | b'?' => Some(Outcome::Failed),
        b'0'..=b'9' => Some(Outcome::Done),
        _ => None,
    }
}

// Whether a miss of a call says something of the path that it names first.
fn is_look(call: Call) -> bool
    ensures { result ≡ spec.is_look call }
{
    match call {
        Call::Points
        | Call::EntersOpen
        | Call::CutsOpen
        | Call::Lists
        | Call::Forks
        | Call::Parts
        | Call::Hides
        | Call::Other => false,
        _ => true,
    }
}

fn missed(alloc: Global, form: Form, words: &[u8]) -> Result<Option<Act>, NoMemory>
    ensures { IfOk result (λ act. act ≡ spec.missed form words.now) }
{
    if !is_look(form.call) {
        return Ok(Some(Act::Nothing));
    }
    match name_at(alloc, form.by_open, words)? {
        Some((name, _)) => Ok(Some(Act::Misses(name))),
        None => Ok(None),
    }
}

// What opening a file did, by the words behind its name and the result.
fn opened(alloc: Global, name: Name, words: &[u8], end: &[u8]) -> Result<Option<Act>, NoMemory>
    ensures { IfOk result (λ act. act ≡ spec.opened name words.now end.now) }
{
    let Some((flags, _, _)) = cut(true, words) else {
        return Ok(None);
    };
    let how = how_of(flags);
    match open_in(alloc, end) {
        Ok(open) => Ok(Some(Act::Opens { name, open, how })),
        Err(fault) => Err(fault),
    }
}

// A file that is cut at its beginning is new.
fn cuts(name: Name, words: &[u8]) -> Act
    ensures { result ≡ spec.cuts name words.now }
{
    if words.starts_with(b"0)") {
        Act::Makes(name)
    } else {
        Act::Updates(name)
    }
}

// A device or a pipe is passed over.
fn nodes(name: Name, words: &[u8]) -> Act
    ensures { result ≡ spec.nodes name words.now }
{
    if has(b"S_IF", words) && !has(b"S_IFREG", words) {
        Act::Nothing
    } else {
        Act::Makes(name)
    }
}

fn removes(name: Name, is_folder: bool) -> Act
    ensures { result ≡ spec.removes name is_folder }
{
    Act::Removes { name, is_folder }
}

fn looks(name: Name, sort: Sort) -> Act
    ensures { result ≡ spec.looks name sort }
{
    Act::Looks { name, sort }
}

// What a call with one name did, by the words behind the name.
fn done_to(call: Call, name: Name, words: &[u8]) -> Act
    ensures { result ≡ spec.done_to call name words.now }
{
    match call {
        Call::Makes => Act::Makes(name),
        Call::Runs => Act::Runs(name),
        Call::Looks => looks(name, sort_in(words)),
        Call::Asks => looks(name, Sort::File),
        Call::Cuts => cuts(name, words),
        Call::Nodes => nodes(name, words),
        Call::Folders => Act::MakesFolder(name),
        Call::Removes => removes(name, has(b"AT_REMOVEDIR", words)),
        Call::RemovesFolder => removes(name, true),
        Call::Enters => Act::Enters(name),
        _ => Act::Nothing,
    }
}

fn moves(from: Name, to: Name, words: &[u8]) -> Act
    ensures { result ≡ spec.moves from to words.now }
{
    let is_swap = has(b"RENAME_EXCHANGE", words);
    Act::Moves { from, to, is_swap }
}

fn done_to_both(call: Call, from: Name, to: Name, words: &[u8]) -> Act
    ensures { result ≡ spec.done_to_both call from to words.now }
{
    match call {
        Call::Moves => moves(from, to, words),
        _ => Act::Links { from, to },
    }
}

// What a call with two names did, by the words behind the first one.
fn both(alloc: Global, form: Form, from: Name, words: &[u8]) -> Result<Option<Act>, NoMemory>
    ensures { IfOk result (λ act. act ≡ spec.both form from words.now) }
{
    match name_at(alloc, form.by_open, words) {
        Ok(Some((to, rest))) => Ok(Some(done_to_both(form.call, from, to, rest))),
        Ok(None) => Ok(None),
        Err(fault) => Err(fault),
    }
}

// A call whose names stand first.
fn done_by_names(
    alloc: Global,
    form: Form,
    words: &[u8],
    end: &[u8],
) -> Result<Option<Act>, NoMemory>
    ensures { IfOk result (λ act. act ≡ spec.done_by_names form words.now end.now) }
{
    let Some((name, rest)) = name_at(alloc, form.by_open, words)? else {
        return Ok(None);
    };
    match form.call {
        Call::Opens => opened(alloc, name, rest, end),
        Call::Moves | Call::Links => both(alloc, form, name, rest),
        call => Ok(Some(done_to(call, name, rest))),
    }
}

// A symbolic link is made: where it leads stands before its name.
fn pointed(alloc: Global, by_open: bool, words: &[u8]) -> Result<Option<Act>, NoMemory>
    ensures { IfOk result (λ act. act ≡ spec.pointed by_open words.now) }
{
    let Some((_, _, rest)) = cut(true, words) else {
        return Ok(None);
    };
    match name_at(alloc, by_open, rest)? {
        Some((name, _)) => Ok(Some(Act::Makes(name))),
        None => Ok(None),
    }
}

// A file that is open is cut.
fn cuts_open(name: Name, words: &[u8]) -> Act
    ensures { result ≡ spec.cuts_open name words.now }
{
    if words.starts_with(b"0)") {
        Act::Empties(name)
    } else {
        Act::Updates(name)
    }
}

fn done_in(call: Call, name: Name, words: &[u8]) -> Act
    ensures { result ≡ spec.done_in call name words.now }
{
    match call {
        Call::Lists => Act::Lists(name),
        Call::CutsOpen => cuts_open(name, words),
        _ => Act::Enters(name),
    }
}

// What was done to a file or a directory that is open.
fn done_to_open(alloc: Global, call: Call, words: &[u8]) -> Result<Option<Act>, NoMemory>
    ensures { IfOk result (λ act. act ≡ spec.done_to_open call words.now) }
{
    let Some((first, _, rest)) = cut(true, words) else {
        return Ok(None);
    };
    Ok(Some(done_in(call, open_in(alloc, first)?, rest)))
}

fn is_hidden(words: &[u8]) -> bool
    ensures { result ≡ spec.is_hidden words.now }
{
    has(b"CLONE_NEWNS", words) || has(b"CLONE_NEWUSER", words)
}

// What is told of a call behind which nothing is seen.
fn hides(alloc: Global, name: &[u8]) -> Result<Option<Act>, NoMemory>
    ensures { IfOk result (λ act. act ≡ spec.hides name.now) }
{
    Ok(Some(Act::Hides(Text::from_bytes(alloc, name)?)))
}

// Another process begins, with this number.
fn forked(alloc: Global, name: &[u8], words: &[u8], end: &[u8]) -> Result<Option<Act>, NoMemory>
    ensures { IfOk result (λ act. act ≡ spec.forked name.now words.now end.now) }
{
    if is_hidden(words) {
        return hides(alloc, name);
    }
    if !is_number(end) {
        return Ok(None);
    }
    let child = Text::from_bytes(alloc, end)?;
    let is_shared = has(b"CLONE_FS", words);
    Ok(Some(Act::Forks { child, is_shared }))
}

// The process gets what it shared for itself: another directory, or other files.
fn parted(alloc: Global, name: &[u8], words: &[u8]) -> Result<Option<Act>, NoMemory>
    ensures { IfOk result (λ act. act ≡ spec.parted name.now words.now) }
{
    if is_hidden(words) || has(b"CLONE_FS", words) {
        return hides(alloc, name);
    }
    Ok(Some(Act::Nothing))
}

// What a call did that went well.
fn done(alloc: Global, name: &[u8], words: &[u8], end: &[u8]) -> Result<Option<Act>, NoMemory>
    ensures { IfOk result (λ act. act ≡ spec.done name.now words.now end.now) }
{
    let form = form_of(name);
    match form.call {
        Call::Points => pointed(alloc, form.by_open, words),
        Call::EntersOpen | Call::CutsOpen | Call::Lists => done_to_open(alloc, form.call, words),
        Call::Forks => forked(alloc, name, words, end),
        Call::Parts => parted(alloc, name, words),
        Call::Hides => hides(alloc, name),
        Call::Other => Ok(Some(Act::Nothing)),
        _ => done_by_names(alloc, form, words, end),
    }
}

/// What a call did, by its name, its words and its result. `None` where they have no known form.
pub fn act_of(alloc: Global, name: &[u8], words: &[u8]) -> Result<Option<Act>, NoMemory>
    ensures { IfOk result (λ act. act ≡ spec.act_of name.now words.now) }
{
    let Some((_, _, end)) = cut(false, words) else {
        return Ok(None);
    };
    match outcome_of(end) {
        Some(Outcome::Done) => done(alloc, name, words, end),
        Some(Outcome::Missed) => missed(alloc, form_of(name), words),
        Some(Outcome::Failed) => Ok(Some(Act::Nothing)),
        None => Ok(None),
    }
}
