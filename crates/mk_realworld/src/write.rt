//! Files that are written whole. At every moment such a file is as before, or holds bytes of the
//! new ones from their beginning: it is cut to what it has in common with them, and not to nothing,
//! which costs a system far more, and then grows.
ghost use Rattle.std.specs.Prelude.{◌≡◌, ◌<◌, ◌≤◌, IfOk, length, take};
ghost use Rattle.mk_realworld.specs.Known.{IsForgotten};

use crate::file::{MAX_FILE, look, remove_file};
use crate::refusal::{Reason, Refusal};
use crate::system::System;
use mk_world::{Time, When};
use std::fs::{Files, OpenFile, OpenOptions};
use std::io::{Error, ErrorKind, Read, Seek, SeekFrom, Write};
use std::os::unix::fs::FileTypeExt;
use std::path::Path;
use std::time::{Clock, Duration};
use std::{fs, str, thread};

// How often a file is written for a later time, at most.
const TRIES: u32 = 1_048_576;

// For how long it is tried, once the system's clock is later, in nanoseconds: a little more than a
// second, since the clocks of some file systems go in whole seconds.
const PATIENCE: u64 = 1_250_000_000;

// The pause between two tries behind the second, in microseconds.
const PAUSE: u64 = 100;

// A file for reading and writing, which is made where it is missing.
fn open<R: Files>(rt: &R, path: &str) -> Result<R::File, Error> {
    let mut options = OpenOptions::new();
    options.read(true).write(true).create(true);
    options.open(rt, path)
}

// The directories above a file are made where they are missing.
fn make_above<R: Files>(rt: &R, path: &str) -> Result<(), Error> {
    match Path::new(path).parent() {
        Some(above) => fs::create_dir_all(rt, above),
        None => Ok(()),
    }
}

// A file for reading and writing, which is made where it is missing, with the directories above it.
fn open_or_make<R: Files>(rt: &R, path: &str) -> Result<R::File, Error> {
    match open(rt, path) {
        Ok(file) => Ok(file),
        Err(error) => {
            if error.kind() != ErrorKind::NotFound {
                return Err(error);
            }
            make_above(rt, path)?;
            open(rt, path)
        }
    }
}

// A file for reading and writing. A pipe with a name that stands there gives way to a plain file.
fn open_plain<R: Files>(rt: &R, path: &str) -> Result<R::File, Error> {
    let file = open_or_make(rt, path)?;
    // The system may give a file a time of its own where the last one was asked for.
    if !file.metadata()?.file_type().is_fifo() {
        return Ok(file);
    }
    drop(file);
    fs::remove_file(rt, path)?;
    open_or_make(rt, path)
}

// How many bytes two texts have in common from their beginning.
fn in_common(first: &[u8], second: &[u8]) -> usize
    ensures first { result ≤ length first.now }
    ensures second { result ≤ length second.now }
    ensures same { take result first.now ≡ take result second.now }
{
    let most = first.len().min(second.len());
    for place in 0..most {
        if first[place] != second[place] {
            return place;
        }
    }
    most
}

// The beginning of a file that was read up to where it differs from other bytes.
#[derive(Clone, Copy)]
struct Beginning {
    // How many bytes it has in common with them.
    same: usize,
    // Whether it has no bytes behind these.
    is_all: bool,
}

// What a file has in common with these bytes from its beginning. Where that is all of it, its place
// is behind that.
fn beginning_of<F: Read>(
    buffer: &mut [u8],
    file: &mut F,
    bytes: &[u8],
) -> Result<Beginning, Refusal>
    ensures { IfOk result (λ beginning. beginning.same ≤ length bytes.now) }
{
    let mut rest = bytes;
    for _ in 0..u64::MAX {
        let count = match file.read(buffer) {
            Ok(count) => count,
            Err(error) if error.kind() == ErrorKind::Interrupted => continue,
            Err(error) => return Err(Refusal::from(error)),
        };
        let same = in_common(&buffer[..count], rest);
        rest = &rest[same..];
        if count == 0 || same < count {
            return Ok(Beginning {
                same: bytes.len().saturating_sub(rest.len()),
                is_all: count == 0,
            });
        }
    }
    Err(Refusal::Outside(Reason::Other))
}

// Cuts a file to what it has in common with these bytes, where it has more, and writes what
// follows, the last byte at least, so that its time is new.
fn rewrite<F: Read + Write + Seek + OpenFile>(
    buffer: &mut [u8],
    file: &mut F,
    bytes: &[u8],
) -> Result<(), Refusal> {
    let Beginning { same, is_all } = beginning_of(buffer, file, bytes)?;
    let kept = same.min(bytes.len().saturating_sub(1));
    if !is_all {
        file.set_len(kept as u64)?;
    }
    if !is_all || kept < same {
        file.seek(SeekFrom::Start(kept as u64))?;
    }
    file.write_all(&bytes[kept..])?;
    Ok(())
}

// Writes a file, and gives its time. Its time is asked for before, since a system whose clock for
// files is coarse may give a file a time of its own where the last one was asked for; and it is
// closed before it is asked for its new time.
fn write_once<R: Files>(
    rt: &R,
    buffer: &mut [u8],
    path: &[u8],
    bytes: &[u8],
) -> Result<Time, Refusal> {
    let mut file = open_plain(rt, str::from_utf8(path)?)?;
    rewrite(buffer, &mut file, bytes)?;
    drop(file);
    match look(rt, path)?.time {
        When::At(time) => Ok(time),
        When::Missing | When::Unknown => Err(Refusal::Outside(Reason::Other)),
    }
}

// The system's clock in nanoseconds; the end of all times where it cannot be read.
fn clock<R: Clock>(rt: &R) -> u64 {
    match rt.since_1970() {
        Ok(since) => u64::try_from(since.as_nanos()).unwrap_or(u64::MAX),
        Err(_) => u64::MAX,
    }
}

// Writes a whole file until its time is later than `after`, and gives this time.
fn write_until<R: Files + Clock>(
    system: &mut System<R>,
    path: &[u8],
    bytes: &[u8],
    after: Time,
) -> Result<Time, Refusal>
    ensures later { IfOk result (λ time. after.0 < time.0) }
    ensures times { system.new.times ≡ system.old.times }
{
    let end = clock(&system.rt).max(after.0).saturating_add(PATIENCE);
    for tries in 0..TRIES {
        let time = write_once(&system.rt, system.buffer.as_mut_slice(), path, bytes)?;
        if time.0 > after.0 {
            return Ok(time);
        }
        if clock(&system.rt) >= end {
            break;
        }
        // A system that may give a file a time of its own has been asked for the last one by now.
        if tries > 0 {
            thread::sleep(&system.rt, Duration::from_micros(PAUSE));
        }
    }
    Err(Refusal::Outside(Reason::NoLaterTime))
}

/// Writes a whole file until its time is later than `after`, and gives this time. From then on no
/// time of a file is known that was known before.
pub fn write_later<R: Files + Clock>(
    system: &mut System<R>,
    path: &[u8],
    bytes: &[u8],
    after: Time,
) -> Result<Time, Refusal>
    ensures later { IfOk result (λ time. after.0 < time.0) }
    ensures known { IsForgotten system.new.times }
{
    system.times.forget();
    if bytes.len() > MAX_FILE {
        return Err(Refusal::Outside(Reason::TooLong));
    }
    write_until(system, path, bytes, after)
}

/// Removes a file; a missing one is no fault. From then on no time of a file is known that was
/// known before.
pub fn remove<R: Files>(system: &mut System<R>, path: &[u8]) -> Result<(), Refusal>
    ensures { IsForgotten system.new.times }
{
    system.times.forget();
    remove_file(&system.rt, path)
}
