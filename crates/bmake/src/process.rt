//! What the process is given: its words, its environment and its directory, all as bytes.
use itoa::Buffer;
use mk_bytes::{Items, NoMemory, Pair, Pairs, Text, Texts, clean_path};
use mk_realworld::Place;
use std::alloc::Global;
use std::env::{Env, FillError};
use std::fs::Files;
use std::io::{Error, ErrorKind};
use std::{fs, process};

// Where the system has the environment that the process began with.
const ENVIRONMENT: &str = "/proc/self/environ";

// So many variables are asked for one by one.
const FEW: usize = 4096;

// The system gives no directory longer than this.
const MAX_PATH: usize = 4096;

// A word of the command line or an entry of the environment, by its place.
#[derive(Clone, Copy)]
enum Query {
    Word(usize),
    Entry(usize),
}

// The bytes that the system has there, or `None` behind the last. The buffer doubles until they
// fit.
fn bytes_of<R: Env + AllocGlobal>(rt: &R, query: Query) -> Result<Option<Vec<u8>>, NoMemory> {
    let mut len = 256usize;
    for _ in 0..usize::BITS {
        let mut bytes = vec![in rt.alloc(); 0u8; len]?;
        let filled = match query {
            Query::Word(i) => rt.arg(i, bytes.as_mut_slice()),
            Query::Entry(i) => rt.var_at(i, bytes.as_mut_slice()),
        };
        match filled {
            Ok(count) => {
                bytes.truncate(count);
                return Ok(Some(bytes));
            }
            Err(FillError::NotPresent) => return Ok(None),
            Err(FillError::TooLong) => len = len.saturating_mul(2),
        }
    }
    Err(NoMemory)
}

/// The words of the command line, without the program's name.
pub fn words<R: Env + AllocGlobal>(rt: &R) -> Result<Texts, NoMemory> {
    let mut words = Items::new(rt.alloc(), 0)?;
    for i in 1..usize::MAX {
        let Some(word) = bytes_of(rt, Query::Word(i))? else {
            break;
        };
        words.push(Text::from_bytes(rt.alloc(), word.as_slice())?)?;
    }
    Ok(words)
}

// The name and the value of an entry, which are parted by its first `=`; `None` without a name.
fn variable(alloc: Global, entry: &[u8]) -> Result<Option<Pair>, NoMemory> {
    let Some(at) = entry.iter().position(|byte| *byte == b'=') else {
        return Ok(None);
    };
    if at == 0 {
        return Ok(None);
    }
    let name = Text::from_bytes(alloc, &entry[..at])?;
    let value = Text::from_bytes(alloc, &entry[at + 1..])?;
    Ok(Some(Pair { name, value }))
}

// Adds the variables of these places, up to the end of the environment, and tells whether that was
// met.
fn ask<R: Env + AllocGlobal>(
    rt: &R,
    vars: &mut Pairs,
    first: usize,
    end: usize,
) -> Result<bool, NoMemory> {
    for i in first..end {
        let Some(entry) = bytes_of(rt, Query::Entry(i))? else {
            return Ok(true);
        };
        if let Some(pair) = variable(rt.alloc(), entry.as_slice())? {
            vars.push(pair)?;
        }
    }
    Ok(false)
}

// Whether entries with a byte 0 between them are still the environment: a library that stands
// before the program's own may have taken some away or added some. There are as many, and the last
// is the same.
fn are_now<R: Env + AllocGlobal>(rt: &R, entries: &[u8]) -> Result<bool, NoMemory> {
    let mut count = 0usize;
    let mut last = entries;
    for entry in entries.split(|byte| *byte == 0) {
        count = count.saturating_add(1);
        last = entry;
    }
    let is_last = match bytes_of(rt, Query::Entry(count.saturating_sub(1)))? {
        Some(entry) => entry.as_slice() == last,
        None => false,
    };
    Ok(is_last && bytes_of(rt, Query::Entry(count))?.is_none())
}

// Adds the variables of entries with a byte 0 between them, but for the first few.
fn take(alloc: Global, vars: &mut Pairs, entries: &[u8]) -> Result<(), NoMemory> {
    for (place, entry) in entries.split(|byte| *byte == 0).enumerate() {
        if place < FEW {
            continue;
        }
        if let Some(pair) = variable(alloc, entry)? {
            vars.push(pair)?;
        }
    }
    Ok(())
}

// What stands in the system's file of the environment, without its last byte 0; `None` where nobody
// may read it here.
fn entries_in_file<R: Files + AllocGlobal>(rt: &R) -> Result<Option<Vec<u8>>, Error> {
    match fs::read(rt, ENVIRONMENT) {
        Ok(mut entries) => {
            entries.pop();
            Ok(Some(entries))
        }
        Err(error) => match error.kind() {
            ErrorKind::NotFound | ErrorKind::PermissionDenied => Ok(None),
            _ => Err(error),
        },
    }
}

// The variables of the environment, entry by entry; `None` where the system fails. To ask for one
// by its number takes a walk from the first, so that those behind the first few are taken from one
// file.
fn variables<R: Env + Files + AllocGlobal>(rt: &R) -> Result<Option<Pairs>, NoMemory> {
    let mut vars = Items::new(rt.alloc(), 0)?;
    if ask(rt, &mut vars, 0, FEW)? {
        return Ok(Some(vars));
    }
    match entries_in_file(rt) {
        Ok(Some(entries)) if are_now(rt, entries.as_slice())? => {
            take(rt.alloc(), &mut vars, entries.as_slice())?;
        }
        Ok(_) => {
            ask(rt, &mut vars, FEW, usize::MAX)?;
        }
        Err(error) if error.kind() == ErrorKind::OutOfMemory => return Err(NoMemory),
        Err(_) => return Ok(None),
    }
    Ok(Some(vars))
}

/// A path made absolute from a directory, without `.`, `..` and empty names.
pub fn absolute(alloc: Global, cwd: &[u8], path: &[u8]) -> Result<Text, NoMemory> {
    let mut whole = Text::new(alloc);
    if !path.starts_with(b"/") {
        whole.push(cwd)?;
        whole.push(b"/")?;
    }
    whole.push(path)?;
    let mut absolute = Text::from_bytes(alloc, b"/")?;
    absolute.push(clean_path(alloc, b"/", whole.bytes())?.bytes())?;
    Ok(absolute)
}

// The name by which the program was called: as it stands where it has no slash, and else an
// absolute path.
fn program<R: Env + AllocGlobal>(rt: &R, cwd: &[u8]) -> Result<Text, NoMemory> {
    let Some(name) = bytes_of(rt, Query::Word(0))? else {
        return Text::from_bytes(rt.alloc(), b"bmake");
    };
    let name = name.as_slice();
    if name.starts_with(b"/") || !name.contains(&b'/') {
        return Text::from_bytes(rt.alloc(), name);
    }
    absolute(rt.alloc(), cwd, name)
}

/// The environment, entry by entry, with the current directory and the program's name; `None` where
/// the system gives no directory, or fails.
pub fn environment<R: Env + Files + AllocGlobal>(
    rt: &R,
) -> Result<Option<mk_scopes::Env>, NoMemory> {
    let Some(vars) = variables(rt)? else {
        return Ok(None);
    };
    let mut buffer = [0u8; MAX_PATH];
    let Ok(count) = rt.current_dir(&mut buffer) else {
        return Ok(None);
    };
    let cwd = Text::from_bytes(rt.alloc(), &buffer[..count])?;
    let program = program(rt, cwd.bytes())?;
    Ok(Some(mk_scopes::Env { vars, cwd, program }))
}

/// The value of a variable of the environment; of several of one name it is the last.
pub fn value_of<'e>(env: &'e mk_scopes::Env, name: &[u8]) -> Option<&'e [u8]> {
    let mut value = None;
    for pair in env.vars.as_slice() {
        if pair.name.bytes() == name {
            value = Some(pair.value.bytes());
        }
    }
    value
}

// The directory for temporary files: that of `TMPDIR`, taken from the current directory, or else
// `/tmp`.
fn temporary_directory(alloc: Global, env: &mk_scopes::Env) -> Result<Text, NoMemory> {
    let directory = value_of(env, b"TMPDIR").filter(|path| !path.is_empty());
    let Some(directory) = directory else {
        return Text::from_bytes(alloc, b"/tmp");
    };
    let mut path = Text::new(alloc);
    if !directory.starts_with(b"/") {
        path.push(env.cwd.bytes())?;
        path.push(b"/")?;
    }
    path.push(directory)?;
    Ok(path)
}

/// Where the directory for the logs of children is made: below that for temporary files, with the
/// number of the process in its name.
pub fn place_of_children(rt: &HostRuntime, env: &mk_scopes::Env) -> Result<Place, NoMemory> {
    let above = temporary_directory(rt.alloc(), env)?;
    let mut name = Text::from_bytes(rt.alloc(), b"bmake.")?;
    name.push(Buffer::new().format(process::id(rt.process())).as_bytes())?;
    Ok(Place { above, name })
}
