//! What each command does.
ghost use Rattle.std.specs.Prelude.{◌≡◌, [], Some, is_some, IfOk};
ghost use Rattle.mk_commands.specs.Commands as spec;
ghost use Rattle.mk_commands.specs.Seen.{contents_of, turn_of};
ghost use Rattle.mk_commands.specs.Turns.{found};
ghost use Rattle.mk_commands.specs.Words.{held};

use crate::turn::{Turn, ended, look, write};
use crate::verb::{Verb, verb_of};
use crate::word::{line_of, number_of, picked, place_of};
use mk_bytes::{NoMemory, Pair, Text, clean_path};
use mk_world::{Answer, Cmd, Request};
use std::alloc::Global;

/// Where one of the commands of a line stands after these answers: its verb and the words after it.
pub fn obey<'a>(
    alloc: Global,
    cmd: &Cmd,
    words: &[&[u8]],
    seen: &'a [Answer],
) -> Result<Turn<'a>, NoMemory>
    ensures { IfOk result
        (λ turn. turn_of turn ≡ spec.command cmd.now (held words.now) seen.now) }
{
    let cwd = cmd.cwd.bytes();
    let [verb, words @ ..] = words else {
        return Ok(ended(alloc, 0, seen));
    };
    match verb_of(verb) {
        None => Ok(ended(alloc, 127, seen)),
        Some(Verb::Put) => put(alloc, cwd, words, seen),
        Some(Verb::Cat) => cat(alloc, cwd, words, seen),
        Some(Verb::Copy) => copy(alloc, cwd, words, seen),
        Some(Verb::Move) => move_file(alloc, cwd, words, seen),
        Some(Verb::Del) => del(alloc, cwd, words, seen),
        Some(Verb::Show) => show(alloc, cwd, words, seen),
        Some(Verb::Say) => say(alloc, words, seen),
        Some(Verb::Pick) => pick(alloc, cwd, words, seen),
        Some(Verb::Probe) => probe(alloc, cwd, words, seen),
        Some(Verb::Env) => env(alloc, cmd, words, seen),
        Some(Verb::Fail) => Ok(fail(alloc, words, seen)),
    }
}

fn misused<'a>(alloc: Global, seen: &'a [Answer]) -> Turn<'a>
    ensures { turn_of result ≡ spec.misused seen.now }
{
    ended(alloc, 2, seen)
}

fn put<'a>(
    alloc: Global,
    cwd: &[u8],
    words: &[&[u8]],
    seen: &'a [Answer],
) -> Result<Turn<'a>, NoMemory>
    ensures { IfOk result (λ turn. turn_of turn ≡ spec.put cwd.now (held words.now) seen.now) }
{
    let [path, words @ ..] = words else {
        return Ok(misused(alloc, seen));
    };
    match seen {
        [] => write(alloc, cwd, path, line_of(alloc, words)?),
        [_, rest @ ..] => Ok(ended(alloc, 0, rest)),
    }
}

fn cat<'a>(
    alloc: Global,
    cwd: &[u8],
    words: &[&[u8]],
    seen: &'a [Answer],
) -> Result<Turn<'a>, NoMemory>
    ensures { IfOk result (λ turn. turn_of turn ≡ spec.cat cwd.now (held words.now) seen.now) }
{
    match words {
        [target, sources @ ..] if !sources.is_empty() => join(alloc, cwd, target, sources, seen),
        _ => Ok(misused(alloc, seen)),
    }
}

fn copy<'a>(
    alloc: Global,
    cwd: &[u8],
    words: &[&[u8]],
    seen: &'a [Answer],
) -> Result<Turn<'a>, NoMemory>
    ensures { IfOk result (λ turn. turn_of turn ≡ spec.copy cwd.now (held words.now) seen.now) }
{
    match words {
        [source, target] => join(alloc, cwd, target, &[*source], seen),
        _ => Ok(misused(alloc, seen)),
    }
}

// The contents of the sources are looked at one after the other, and joined for the write alone.
fn join<'a>(
    alloc: Global,
    cwd: &[u8],
    target: &[u8],
    sources: &[&[u8]],
    seen: &'a [Answer],
) -> Result<Turn<'a>, NoMemory>
    ensures { IfOk result
        (λ turn. turn_of turn ≡ spec.joins cwd.now target.now [] (held sources.now) seen.now) }
{
    let mut rest = seen;
    for source in sources {
        let Some((answer, more)) = rest.split_first() else {
            return look(alloc, cwd, source);
        };
        if !is_found(answer) {
            return Ok(ended(alloc, 1, more));
        }
        rest = more;
    }
    match rest {
        [] => write(alloc, cwd, target, contents(alloc, seen)?),
        [_, more @ ..] => Ok(ended(alloc, 0, more)),
    }
}

fn is_found(answer: &Answer) -> bool
    ensures { result ≡ is_some (found answer.now) }
{
    matches!(answer, Answer::Found { .. })
}

// All bytes that looks have found, in order.
fn contents(alloc: Global, seen: &[Answer]) -> Result<Text, NoMemory>
    ensures { IfOk result (λ text. text ≡ contents_of seen.now) }
{
    let mut text = Text::new(alloc);
    for answer in seen {
        if let Answer::Found { bytes } = answer {
            text.push(bytes.bytes())?;
        }
    }
    Ok(text)
}

fn move_file<'a>(
    alloc: Global,
    cwd: &[u8],
    words: &[&[u8]],
    seen: &'a [Answer],
) -> Result<Turn<'a>, NoMemory>
    ensures { IfOk result (λ turn. turn_of turn ≡ spec.move cwd.now (held words.now) seen.now) }
{
    let [from, to] = words else {
        return Ok(misused(alloc, seen));
    };
    match seen {
        [] => look(alloc, cwd, from),
        [Answer::Found { .. }] => {
            let from = clean_path(alloc, cwd, from)?;
            let to = clean_path(alloc, cwd, to)?;
            Ok(Turn::Asks {
                request: Request::Move { from, to },
            })
        }
        [Answer::Found { .. }, Answer::Stands, rest @ ..] => Ok(ended(alloc, 0, rest)),
        [Answer::Found { .. }, _, rest @ ..] => Ok(ended(alloc, 1, rest)),
        [_, rest @ ..] => Ok(ended(alloc, 1, rest)),
    }
}

fn del<'a>(
    alloc: Global,
    cwd: &[u8],
    words: &[&[u8]],
    seen: &'a [Answer],
) -> Result<Turn<'a>, NoMemory>
    ensures { IfOk result (λ turn. turn_of turn ≡ spec.del cwd.now (held words.now) seen.now) }
{
    let [path] = words else {
        return Ok(misused(alloc, seen));
    };
    match seen {
        [] => look(alloc, cwd, path),
        [Answer::Found { .. }] => {
            let path = clean_path(alloc, cwd, path)?;
            Ok(Turn::Asks {
                request: Request::Delete { path },
            })
        }
        [Answer::Found { .. }, _, rest @ ..] => Ok(ended(alloc, 0, rest)),
        [_, rest @ ..] => Ok(ended(alloc, 1, rest)),
    }
}

fn show<'a>(
    alloc: Global,
    cwd: &[u8],
    words: &[&[u8]],
    seen: &'a [Answer],
) -> Result<Turn<'a>, NoMemory>
    ensures { IfOk result (λ turn. turn_of turn ≡ spec.show cwd.now (held words.now) seen.now) }
{
    let [path] = words else {
        return Ok(misused(alloc, seen));
    };
    match seen {
        [] => look(alloc, cwd, path),
        [Answer::Found { bytes }, rest @ ..] => Ok(Turn::Ends {
            status: 0,
            output: bytes.copy(alloc)?,
            rest,
        }),
        [_, rest @ ..] => Ok(ended(alloc, 1, rest)),
    }
}

fn say<'a>(alloc: Global, words: &[&[u8]], seen: &'a [Answer]) -> Result<Turn<'a>, NoMemory>
    ensures { IfOk result (λ turn. turn_of turn ≡ spec.say (held words.now) seen.now) }
{
    Ok(Turn::Ends {
        status: 0,
        output: line_of(alloc, words)?,
        rest: seen,
    })
}

fn pick<'a>(
    alloc: Global,
    cwd: &[u8],
    words: &[&[u8]],
    seen: &'a [Answer],
) -> Result<Turn<'a>, NoMemory>
    ensures { IfOk result (λ turn. turn_of turn ≡ spec.pick cwd.now (held words.now) seen.now) }
{
    let [target, number, source] = words else {
        return Ok(misused(alloc, seen));
    };
    match place_of(number) {
        Some(place) => picks(alloc, cwd, target, source, place, seen),
        None => Ok(misused(alloc, seen)),
    }
}

fn picks<'a>(
    alloc: Global,
    cwd: &[u8],
    target: &[u8],
    source: &[u8],
    place: u32,
    seen: &'a [Answer],
) -> Result<Turn<'a>, NoMemory>
    ensures { IfOk result
        (λ turn. turn_of turn ≡ spec.picks cwd.now target.now source.now (Some place) seen.now) }
{
    match seen {
        [] => look(alloc, cwd, source),
        [Answer::Found { bytes }] => {
            write(alloc, cwd, target, picked(alloc, place, bytes.bytes())?)
        }
        [Answer::Found { .. }, _, rest @ ..] => Ok(ended(alloc, 0, rest)),
        [_, rest @ ..] => Ok(ended(alloc, 1, rest)),
    }
}

fn probe<'a>(
    alloc: Global,
    cwd: &[u8],
    words: &[&[u8]],
    seen: &'a [Answer],
) -> Result<Turn<'a>, NoMemory>
    ensures { IfOk result (λ turn. turn_of turn ≡ spec.probe cwd.now (held words.now) seen.now) }
{
    let [target, path] = words else {
        return Ok(misused(alloc, seen));
    };
    match seen {
        [] => look(alloc, cwd, path),
        [Answer::Found { .. }] => write(alloc, cwd, target, Text::from_bytes(alloc, b"yes\n")?),
        [_] => write(alloc, cwd, target, Text::from_bytes(alloc, b"no\n")?),
        [_, _, rest @ ..] => Ok(ended(alloc, 0, rest)),
    }
}

// The value of an exported variable, or nothing.
fn exported_in<'e>(exports: &'e [Pair], name: &[u8]) -> &'e [u8]
    ensures { result.now ≡ spec.exported_in exports.now name.now }
{
    for pair in exports {
        if pair.name.bytes() == name {
            return pair.value.bytes();
        }
    }
    b""
}

fn env<'a>(
    alloc: Global,
    cmd: &Cmd,
    words: &[&[u8]],
    seen: &'a [Answer],
) -> Result<Turn<'a>, NoMemory>
    ensures { IfOk result (λ turn. turn_of turn ≡ spec.env cmd.now (held words.now) seen.now) }
{
    let [path, name] = words else {
        return Ok(misused(alloc, seen));
    };
    match seen {
        [] => {
            let value = exported_in(cmd.exports.as_slice(), name);
            write(alloc, cmd.cwd.bytes(), path, line_of(alloc, &[value])?)
        }
        [_, rest @ ..] => Ok(ended(alloc, 0, rest)),
    }
}

fn fail<'a>(alloc: Global, words: &[&[u8]], seen: &'a [Answer]) -> Turn<'a>
    ensures { turn_of result ≡ spec.fail (held words.now) seen.now }
{
    let [number] = words else {
        return misused(alloc, seen);
    };
    match number_of(number) {
        Some(status @ 1..=255) => ended(alloc, status as u8, seen),
        _ => misused(alloc, seen),
    }
}
