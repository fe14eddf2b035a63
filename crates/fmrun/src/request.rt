//! What the words of a command line ask for.
ghost use Rattle.std.specs.Prelude.{◌≡◌, IfOk};
ghost use Rattle.fmrun.specs.Requests as spec;

use crate::verb::{Verb, verb_of};
use crate::word::{line_of, place_of, status_of};
use mk_bytes::{Items, NoMemory, Text, Texts, copy_texts};
use std::alloc::Global;

/// What is done with the contents of the files that a request looks at.
#[derive(Drop)]
pub enum Act {
    /// Writes this text.
    Write { target: Text, text: Text },
    /// Writes the contents of the files, in order.
    Join { target: Text },
    /// Writes one line of the file, by its place, counted from 0.
    Pick { target: Text, place: u32 },
    /// Writes whether the file stands.
    Probe { target: Text },
    /// Writes the value of a variable of the environment.
    Env { target: Text, name: Text },
    /// Gives the file another path.
    Move { from: Text, to: Text },
    /// Removes the file.
    Delete { path: Text },
    /// Prints the contents of the file.
    Show,
    /// Prints this text.
    Say { text: Text },
    /// Writes this file first, and waits until the other one stands.
    Meet { own: Text },
    /// Ends with this status.
    End { status: u8 },
}

/// What a command line asks for: the files that it looks at first, in order, and what it does then.
#[derive(Drop)]
pub struct Request {
    pub looks: Texts,
    pub act: Act,
}

// A request that looks at no file.
fn at_once(alloc: Global, act: Act) -> Result<Request, NoMemory>
    ensures { IfOk result (λ request. request ≡ spec.at_once act) }
{
    let looks = Items::new(alloc, 0)?;
    Ok(Request { looks, act })
}

// A request that looks at one file.
fn behind(alloc: Global, path: &Text, act: Act) -> Result<Request, NoMemory>
    ensures { IfOk result (λ request. request ≡ spec.behind path.now act) }
{
    let mut looks = Items::new(alloc, 1)?;
    looks.push(path.copy(alloc)?)?;
    Ok(Request { looks, act })
}

fn ends(alloc: Global, status: u8) -> Result<Request, NoMemory>
    ensures { IfOk result (λ request. request ≡ spec.ends status) }
{
    at_once(alloc, Act::End { status })
}

fn misused(alloc: Global) -> Result<Request, NoMemory>
    ensures { IfOk result (λ request. request ≡ spec.misused) }
{
    ends(alloc, 2)
}

/// What the words of a command line ask for, of which the first says what it is about. No words ask
/// for nothing, a wrong number of words or a bad number ends with status 2, and an unknown first
/// word with 127.
pub fn asked(alloc: Global, words: &[Text]) -> Result<Request, NoMemory>
    ensures { IfOk result (λ request. request ≡ spec.asked words.now) }
{
    let [verb, words @ ..] = words else {
        return ends(alloc, 0);
    };
    match verb_of(verb.bytes()) {
        None => ends(alloc, 127),
        Some(Verb::Put) => put(alloc, words),
        Some(Verb::Cat) => cat(alloc, words),
        Some(Verb::Copy) => copy(alloc, words),
        Some(Verb::Move) => move_file(alloc, words),
        Some(Verb::Del) => del(alloc, words),
        Some(Verb::Show) => show(alloc, words),
        Some(Verb::Say) => say(alloc, words),
        Some(Verb::Pick) => pick(alloc, words),
        Some(Verb::Probe) => probe(alloc, words),
        Some(Verb::Fail) => fail(alloc, words),
        Some(Verb::Env) => env(alloc, words),
        Some(Verb::Meet) => meet(alloc, words),
    }
}

fn put(alloc: Global, words: &[Text]) -> Result<Request, NoMemory>
    ensures { IfOk result (λ request. request ≡ spec.put words.now) }
{
    let [target, words @ ..] = words else {
        return misused(alloc);
    };
    let target = target.copy(alloc)?;
    let text = line_of(alloc, words)?;
    at_once(alloc, Act::Write { target, text })
}

fn cat(alloc: Global, words: &[Text]) -> Result<Request, NoMemory>
    ensures { IfOk result (λ request. request ≡ spec.cat words.now) }
{
    match words {
        [target, sources @ ..] if !sources.is_empty() => {
            let looks = copy_texts(alloc, sources)?;
            let target = target.copy(alloc)?;
            Ok(Request {
                looks,
                act: Act::Join { target },
            })
        }
        _ => misused(alloc),
    }
}

fn copy(alloc: Global, words: &[Text]) -> Result<Request, NoMemory>
    ensures { IfOk result (λ request. request ≡ spec.copy words.now) }
{
    let [source, target] = words else {
        return misused(alloc);
    };
    let target = target.copy(alloc)?;
    behind(alloc, source, Act::Join { target })
}

fn move_file(alloc: Global, words: &[Text]) -> Result<Request, NoMemory>
    ensures { IfOk result (λ request. request ≡ spec.move words.now) }
{
    let [source, target] = words else {
        return misused(alloc);
    };
    let from = source.copy(alloc)?;
    let to = target.copy(alloc)?;
    behind(alloc, source, Act::Move { from, to })
}

fn del(alloc: Global, words: &[Text]) -> Result<Request, NoMemory>
    ensures { IfOk result (λ request. request ≡ spec.del words.now) }
{
    let [file] = words else {
        return misused(alloc);
    };
    let path = file.copy(alloc)?;
    behind(alloc, file, Act::Delete { path })
}

fn show(alloc: Global, words: &[Text]) -> Result<Request, NoMemory>
    ensures { IfOk result (λ request. request ≡ spec.show words.now) }
{
    let [file] = words else {
        return misused(alloc);
    };
    behind(alloc, file, Act::Show)
}

fn say(alloc: Global, words: &[Text]) -> Result<Request, NoMemory>
    ensures { IfOk result (λ request. request ≡ spec.say words.now) }
{
    let text = line_of(alloc, words)?;
    at_once(alloc, Act::Say { text })
}

fn pick(alloc: Global, words: &[Text]) -> Result<Request, NoMemory>
    ensures { IfOk result (λ request. request ≡ spec.pick words.now) }
{
    let [target, number, source] = words else {
        return misused(alloc);
    };
    let Some(place) = place_of(number.bytes()) else {
        return misused(alloc);
    };
    let target = target.copy(alloc)?;
    behind(alloc, source, Act::Pick { target, place })
}

fn probe(alloc: Global, words: &[Text]) -> Result<Request, NoMemory>
    ensures { IfOk result (λ request. request ≡ spec.probe words.now) }
{
    let [target, file] = words else {
        return misused(alloc);
    };
    let target = target.copy(alloc)?;
    behind(alloc, file, Act::Probe { target })
}

fn fail(alloc: Global, words: &[Text]) -> Result<Request, NoMemory>
    ensures { IfOk result (λ request. request ≡ spec.fail words.now) }
{
    let [number] = words else {
        return misused(alloc);
    };
    match status_of(number.bytes()) {
        Some(status) => ends(alloc, status),
        None => misused(alloc),
    }
}

fn env(alloc: Global, words: &[Text]) -> Result<Request, NoMemory>
    ensures { IfOk result (λ request. request ≡ spec.env words.now) }
{
    let [target, name] = words else {
        return misused(alloc);
    };
    let target = target.copy(alloc)?;
    let name = name.copy(alloc)?;
    at_once(alloc, Act::Env { target, name })
}

fn meet(alloc: Global, words: &[Text]) -> Result<Request, NoMemory>
    ensures { IfOk result (λ request. request ≡ spec.meet words.now) }
{
    let [own, other] = words else {
        return misused(alloc);
    };
    let own = own.copy(alloc)?;
    behind(alloc, other, Act::Meet { own })
}

/// Whether what is done for a command line is recorded: for all but `meet`.
pub fn is_recorded(words: &[Text]) -> bool
    ensures { result ≡ spec.is_recorded words.now }
{
    match words {
        [] => true,
        [verb, ..] => verb.bytes() != b"meet".as_slice(),
    }
}
