//! Single files, by their paths.
use crate::deed::{Change, Sight};
use crate::refusal::Refusal;
use mk_bytes::{NoMemory, Text, clean_path};
use std::fs::{Files, OpenOptions};
use std::io::{Error, ErrorKind, Write};
use std::{fs, str};

// How often `meet` looks for the other file.
const LOOKS: u32 = 1_000_000;

// Whether an error says that there is no file: below a plain file there is none either.
fn is_missing(error: &Error) -> bool {
    error.kind() == ErrorKind::NotFound || error.kind() == ErrorKind::NotADirectory
}

// What a look comes to that ended with an error.
fn sight_of(error: &Error) -> Result<Sight, NoMemory> {
    if error.kind() == ErrorKind::OutOfMemory {
        return Err(NoMemory);
    }
    if is_missing(error) {
        Ok(Sight::Missing)
    } else {
        Ok(Sight::Refused)
    }
}

/// Looks for the contents of a file, and appends them to a text.
pub fn read<R: Files + AllocGlobal>(
    rt: &R,
    path: &[u8],
    text: &mut Text,
) -> Result<Sight, NoMemory> {
    let Ok(path) = str::from_utf8(path) else {
        return Ok(Sight::Refused);
    };
    match fs::read(rt, path) {
        Ok(bytes) => {
            text.push(bytes.as_slice())?;
            Ok(Sight::Found)
        }
        Err(error) => sight_of(&error),
    }
}

/// Looks whether a file stands.
pub fn exists<R: Files>(rt: &R, path: &[u8]) -> Result<Sight, NoMemory> {
    let Ok(path) = str::from_utf8(path) else {
        return Ok(Sight::Refused);
    };
    match fs::metadata(rt, path) {
        Ok(_) => Ok(Sight::Found),
        Err(error) => sight_of(&error),
    }
}

/// Looks for a file until it stands, but no more than a million times.
pub fn wait_for<R: Files>(rt: &R, path: &[u8]) -> Result<Sight, NoMemory> {
    for _ in 0..LOOKS {
        let sight = exists(rt, path)?;
        if !matches!(sight, Sight::Missing) {
            return Ok(sight);
        }
    }
    Ok(Sight::Missing)
}

/// Writes a whole file.
pub fn write<R: Files + AllocGlobal>(rt: &R, path: &[u8], text: &[u8]) -> Result<(), Refusal> {
    let Ok(name) = str::from_utf8(path) else {
        return Err(Refusal::of(rt.alloc(), path));
    };
    match fs::write(rt, name, text) {
        Ok(()) => Ok(()),
        Err(error) => Err(Refusal::at(rt.alloc(), &error, path)),
    }
}

// Removes a file; one that is gone already is no fault.
fn remove<R: Files + AllocGlobal>(rt: &R, path: &[u8]) -> Result<(), Refusal> {
    let Ok(name) = str::from_utf8(path) else {
        return Err(Refusal::of(rt.alloc(), path));
    };
    match fs::remove_file(rt, name) {
        Ok(()) => Ok(()),
        Err(error) => {
            if is_missing(&error) {
                return Ok(());
            }
            Err(Refusal::at(rt.alloc(), &error, path))
        }
    }
}

/// Makes a change. A moved file is written anew, so that its time is new, and then removed where it
/// was; one that is moved onto itself stays.
pub fn make<R: Files + AllocGlobal>(
    rt: &R,
    directory: &[u8],
    change: &Change,
) -> Result<(), Refusal> {
    match change {
        Change::Nothing => Ok(()),
        Change::Write { path, text } => write(rt, path.bytes(), text.bytes()),
        Change::Delete { path } => remove(rt, path.bytes()),
        Change::Move { from, to, text } => {
            write(rt, to.bytes(), text.bytes())?;
            let old = clean_path(rt.alloc(), directory, from.bytes())?;
            let new = clean_path(rt.alloc(), directory, to.bytes())?;
            if old.bytes() == new.bytes() {
                return Ok(());
            }
            remove(rt, from.bytes())
        }
    }
}

/// Appends a text to a file, which is made where it is missing.
pub fn append<R: Files + AllocGlobal>(rt: &R, path: &[u8], text: &[u8]) -> Result<(), Refusal> {
    let Ok(name) = str::from_utf8(path) else {
        return Err(Refusal::of(rt.alloc(), path));
    };
    let mut options = OpenOptions::new();
    options.append(true).create(true);
    match options.open(rt, name) {
        Ok(file) => {
            let mut file = file;
            match file.write_all(text) {
                Ok(()) => Ok(()),
                Err(error) => Err(Refusal::at(rt.alloc(), &error, path)),
            }
        }
        Err(error) => Err(Refusal::at(rt.alloc(), &error, path)),
    }
}
