//! Single files, by their paths.
ghost use Rattle.std.specs.Prelude.{◌≡◌};
ghost use Rattle.mk_realworld.specs.Sights as spec;

use crate::refusal::{Reason, Refusal};
use mk_bytes::Text;
use mk_world::{Time, When};
use std::alloc::Global;
use std::fs::{Files, Metadata};
use std::io::{Error, ErrorKind, Read};
use std::os::unix::fs::{FileTypeExt, MetadataExt};
use std::{fs, str};

// Of a second.
const NANOSECONDS: u64 = 1_000_000_000;

/// A file above 64 MiB counts as a fault.
pub const MAX_FILE: usize = 67_108_864;

/// Whether an error says that there is no file: below a plain file there is none either.
pub fn is_missing(error: &Error) -> bool {
    error.kind() == ErrorKind::NotFound || error.kind() == ErrorKind::NotADirectory
}

/// All bytes of a reader, of which there are no more than a file may have. Each call of the system
/// asks for as many as the buffer holds, which must not be empty.
pub fn read_all<F: Read>(alloc: Global, buffer: &mut [u8], file: &mut F) -> Result<Text, Refusal> {
    let mut text = Text::new(alloc);
    for _ in 0..u64::MAX {
        let count = match file.read(buffer) {
            Ok(0) => return Ok(text),
            Ok(count) => count,
            Err(error) if error.kind() == ErrorKind::Interrupted => continue,
            Err(error) => return Err(Refusal::from(error)),
        };
        if count > MAX_FILE.saturating_sub(text.len()) {
            return Err(Refusal::Outside(Reason::TooLong));
        }
        text.push(&buffer[..count])?;
    }
    Err(Refusal::Outside(Reason::Other))
}

/// A file for reading, or `None` where it is missing.
pub fn open<R: Files>(rt: &R, path: &[u8]) -> Result<Option<R::File>, Refusal> {
    match fs::open(rt, str::from_utf8(path)?) {
        Ok(file) => Ok(Some(file)),
        Err(error) => {
            if is_missing(&error) {
                return Ok(None);
            }
            Err(Refusal::from(error))
        }
    }
}

/// The bytes of a file, or `None` where it is missing. They are read by way of a buffer, which must
/// not be empty.
pub fn file_text<R: Files + AllocGlobal>(
    rt: &R,
    buffer: &mut [u8],
    path: &[u8],
) -> Result<Option<Text>, Refusal> {
    match open(rt, path)? {
        Some(mut file) => Ok(Some(read_all(rt.alloc(), buffer, &mut file)?)),
        None => Ok(None),
    }
}

/// The bytes of a plain file; `None` where something else stands at its path, or nothing.
pub fn plain_text<R: Files + AllocGlobal>(
    rt: &R,
    buffer: &mut [u8],
    path: &[u8],
) -> Result<Option<Text>, Refusal> {
    match fs::metadata(rt, str::from_utf8(path)?) {
        Ok(metadata) if metadata.is_file() => file_text(rt, buffer, path),
        _ => Ok(None),
    }
}

/// What was seen at a path: when its bytes were changed last, when it was changed last in any way,
/// and whether a pipe with a name stands there.
#[derive(Clone, Copy, PartialEq, Eq)]
pub struct Sight {
    pub time: When,
    pub changed: When,
    pub is_pipe: bool,
}

// What is seen where the system tells nothing else.
fn unclear(when: When) -> Sight
    ensures time { result.time ≡ when }
    ensures changed { result.changed ≡ when }
{
    Sight {
        time: when,
        changed: when,
        is_pipe: false,
    }
}

/// What stands at a path. What the system does not tell is unknown: below a folder that is closed,
/// at a name that is too long or is not UTF-8, in a loop of links.
pub fn look<R: Files>(rt: &R, path: &[u8]) -> Result<Sight, Refusal> {
    let Ok(path) = str::from_utf8(path) else {
        return Ok(unclear(When::Unknown));
    };
    match fs::metadata(rt, path) {
        Ok(metadata) => Ok(sight_of(&metadata)),
        Err(error) => {
            if error.kind() == ErrorKind::OutOfMemory {
                return Err(Refusal::NoMemory);
            }
            if is_missing(&error) {
                return Ok(unclear(When::Missing));
            }
            Ok(unclear(When::Unknown))
        }
    }
}

fn sight_of(metadata: &Metadata) -> Sight {
    let time = at(metadata.mtime(), metadata.mtime_nsec());
    Sight {
        time,
        changed: later(time, at(metadata.ctime(), metadata.ctime_nsec())),
        is_pipe: metadata.file_type().is_fifo(),
    }
}

// The later of two times of a file.
fn later(one: When, other: When) -> When
    ensures { result ≡ spec.later one other }
{
    match (one, other) {
        (When::At(first), When::At(second)) => { if first.0 < second.0 { other } else { one } }
        _ => When::Unknown,
    }
}

// A time of the system in nanoseconds; one before 1970 or far in the future is not known.
fn at(seconds: i64, nanoseconds: i64) -> When {
    let (Ok(seconds), Ok(rest)) = (u64::try_from(seconds), u64::try_from(nanoseconds)) else {
        return When::Unknown;
    };
    let Some(whole) = seconds.checked_mul(NANOSECONDS) else {
        return When::Unknown;
    };
    match whole.checked_add(rest) {
        Some(time) => When::At(Time(time)),
        None => When::Unknown,
    }
}

/// Removes a file; a missing one is no fault.
pub fn remove_file<R: Files>(rt: &R, path: &[u8]) -> Result<(), Refusal> {
    match fs::remove_file(rt, str::from_utf8(path)?) {
        Ok(()) => Ok(()),
        Err(error) => {
            if is_missing(&error) {
                return Ok(());
            }
            Err(Refusal::from(error))
        }
    }
}
