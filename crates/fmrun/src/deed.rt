//! What a request comes to, by what its looks found.
ghost use Rattle.std.specs.Prelude.{◌≡◌, ◌++◌, ◌∷◌, [], IfOk};
ghost use Rattle.std.specs.List.{list_all, list_any};
ghost use Rattle.mk_bytes.specs.Bytes.{newline};
ghost use Rattle.fmrun.specs.Deeds as spec;

use crate::request::Act;
use crate::word::picked;
use mk_bytes::{Items, NoMemory, Text};
use std::alloc::Global;

/// What a look found.
#[derive(Clone, Copy)]
pub enum Sight {
    /// The file stands.
    Found,
    /// There is no such file.
    Missing,
    /// The system refuses the look.
    Refused,
}

/// What several looks found, in order.
pub type Sights = Items<Sight>;

/// What changes.
#[derive(Drop)]
pub enum Change {
    Nothing,
    Write { path: Text, text: Text },
    Delete { path: Text },
    Move { from: Text, to: Text, text: Text },
}

/// What a request comes to: a change, what is printed, and the exit status.
#[derive(Drop)]
pub struct Deed {
    pub change: Change,
    pub output: Text,
    pub status: u8,
}

fn ends(alloc: Global, status: u8) -> Deed
    ensures { result ≡ spec.ends status }
{
    let output = Text::new(alloc);
    Deed {
        change: Change::Nothing,
        output,
        status,
    }
}

fn changes(alloc: Global, change: Change) -> Deed
    ensures { result ≡ spec.changes change }
{
    let output = Text::new(alloc);
    Deed {
        change,
        output,
        status: 0,
    }
}

fn writes(alloc: Global, path: Text, text: Text) -> Deed
    ensures { result ≡ spec.writes path text }
{
    changes(alloc, Change::Write { path, text })
}

fn prints(output: Text) -> Deed
    ensures { result ≡ spec.prints output }
{
    Deed {
        change: Change::Nothing,
        output,
        status: 0,
    }
}

/// Whether a look found its file.
pub fn is_found(sight: Sight) -> bool
    ensures { result ≡ spec.is_found sight }
{
    matches!(sight, Sight::Found)
}

fn is_refused(sight: Sight) -> bool
    ensures { result ≡ spec.is_refused sight }
{
    matches!(sight, Sight::Refused)
}

fn are_found(sights: &[Sight]) -> bool
    ensures { result ≡ list_all spec.is_found sights.now }
{
    sights.iter().all(|sight| is_found(*sight))
}

// Whether a missing file ends it.
fn needs_all(act: &Act) -> bool
    ensures { result ≡ spec.needs_all act.now }
{
    !matches!(act, Act::Probe { .. } | Act::Env { .. })
}

fn is_any_refused(sights: &[Sight]) -> bool
    ensures { result ≡ list_any spec.is_refused sights.now }
{
    sights.iter().any(|sight| is_refused(*sight))
}

fn is_stopped(act: &Act, sights: &[Sight]) -> bool
    ensures { result ≡ spec.is_stopped act.now sights.now }
{
    is_any_refused(sights) || (needs_all(act) && !are_found(sights))
}

fn yes_or_no(alloc: Global, stands: bool) -> Result<Text, NoMemory>
    ensures { IfOk result (λ text. text ≡ spec.yes_or_no stands) }
{
    if stands {
        Text::from_bytes(alloc, b"yes\n")
    } else {
        Text::from_bytes(alloc, b"no\n")
    }
}

fn with_newline(text: Text) -> Result<Text, NoMemory>
    ensures { IfOk result (λ line. line ≡ text ++ newline ∷ []) }
{
    let mut line = text;
    line.push(b"\n")?;
    Ok(line)
}

// What is done where nothing stops it.
fn done(alloc: Global, act: Act, sights: &[Sight], text: Text) -> Result<Deed, NoMemory>
    ensures { IfOk result (λ deed. deed ≡ spec.done act sights.now text) }
{
    match act {
        Act::Write { target, text: own } => Ok(writes(alloc, target, own)),
        Act::Join { target } => Ok(writes(alloc, target, text)),
        Act::Pick { target, place } => {
            let line = picked(alloc, place, text.bytes())?;
            Ok(writes(alloc, target, line))
        }
        Act::Probe { target } => {
            let answer = yes_or_no(alloc, are_found(sights))?;
            Ok(writes(alloc, target, answer))
        }
        Act::Env { target, .. } => {
            let line = with_newline(text)?;
            Ok(writes(alloc, target, line))
        }
        Act::Move { from, to } => Ok(changes(alloc, Change::Move { from, to, text })),
        Act::Delete { path } => Ok(changes(alloc, Change::Delete { path })),
        Act::Show => Ok(prints(text)),
        Act::Say { text: own } => Ok(prints(own)),
        Act::Meet { .. } => Ok(ends(alloc, 0)),
        Act::End { status } => Ok(ends(alloc, status)),
    }
}

/// What a request comes to, where its looks found this, and these contents one behind the other. A
/// variable of the environment counts as a look. Where a look is refused, or a file is missing that
/// is needed, it is the end with status 1 and nothing else.
pub fn deed_of(alloc: Global, act: Act, sights: &[Sight], text: Text) -> Result<Deed, NoMemory>
    ensures { IfOk result (λ deed. deed ≡ spec.deed_of act sights.now text) }
{
    if is_stopped(&act, sights) {
        return Ok(ends(alloc, 1));
    }
    done(alloc, act, sights, text)
}
