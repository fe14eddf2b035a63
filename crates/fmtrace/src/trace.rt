//! Records of a trace.
use crate::file::{Stand, stands_at};
use crate::interpreter::push_interpreters;
use crate::log::{Log, NO_FORM, has_newline, keeps_deleted, keeps_read, keeps_written};
use crate::refusal::Refusal;
use mk_bytes::{Items, NoMemory, Text, Texts};
use mk_filemon::push_decimal;
use mk_recorder::{Record, Records, Touches, is_left_out, judge, runs_make};
use mk_strace::read_trace;
use std::alloc::Global;
use std::io::{Print, Read};

// How many of a program's first bytes are read for its interpreter.
const HEAD: usize = 4096;

/// The records of a trace of a command that began in a directory, behind these touches. `None`
/// where the trace is cut, or has another form.
pub fn records_in(
    alloc: Global,
    directory: &[u8],
    before: &Touches,
    trace: &[u8],
) -> Result<Option<Records>, NoMemory> {
    let Some(events) = read_trace(alloc, trace)? else {
        return Ok(None);
    };
    let records = judge(alloc, directory, before, &events);
    drop(events);
    records
}

// Adds the lines of a record, by what stands at its path in the end.
fn push_record(log: &mut Log, record: &Record, stand: Stand) -> Result<(), NoMemory> {
    let path = record.path.bytes();
    if record.is_read && keeps_read(record.is_folder, stand) {
        log.push(b"R", path)?;
    }
    if record.is_missed {
        log.push(b"# N", path)?;
    }
    if record.is_written && keeps_written(stand) {
        log.push(b"W", path)?;
    }
    if record.is_deleted && keeps_deleted(stand) {
        log.push(b"D", path)?;
    }
    Ok(())
}

// Adds reads of the interpreters of the programs that were run.
fn push_programs(rt: &HostRuntime, log: &mut Log, records: &[Record]) -> Result<(), NoMemory> {
    let alloc = rt.alloc();
    let mut buffer = vec![in alloc; 0u8; HEAD]?;
    let mut paths: Texts = Items::new(alloc, 0)?;
    for record in records {
        if record.is_run {
            let path = record.path.bytes();
            push_interpreters(rt, alloc, buffer.as_mut_slice(), path, &mut paths)?;
        }
    }
    for path in paths.as_slice() {
        log.push(b"R", path.bytes())?;
    }
    Ok(())
}

/// Where makes have the files for their children: that of the log, and below which directory for
/// temporary files others may have theirs.
#[derive(Drop)]
pub struct Scratch {
    pub own: Text,
    pub temporary: Text,
}

/// Adds the records of a command to a log, as far as what stands at their paths agrees, but for
/// those of the files of makes for their children.
pub fn push_all(
    rt: &HostRuntime,
    log: &mut Log,
    scratch: &Scratch,
    records: &[Record],
) -> Result<(), NoMemory> {
    let (own, temporary) = (scratch.own.bytes(), scratch.temporary.bytes());
    let has_make = runs_make(temporary, records);
    for record in records {
        if !is_left_out(own, temporary, has_make, record) {
            push_record(log, record, stands_at(rt, record.path.bytes()))?;
        }
    }
    push_programs(rt, log, records)
}

fn push_line(text: &mut Text, letter: &[u8], path: &[u8]) -> Result<(), NoMemory> {
    text.push_both(letter, b" ")?;
    text.push_both(path, b"\n")
}

fn line_up(text: &mut Text, record: &Record) -> Result<(), NoMemory> {
    let path = record.path.bytes();
    if has_newline(path) {
        return push_line(text, b"R", NO_FORM);
    }
    if record.is_read {
        push_line(text, b"R", path)?;
    }
    if record.is_missed {
        push_line(text, b"N", path)?;
    }
    if record.is_written {
        push_line(text, b"W", path)?;
    }
    if record.is_deleted {
        push_line(text, b"D", path)?;
    }
    Ok(())
}

fn input(rt: &HostRuntime) -> Result<Text, Refusal> {
    let mut bytes = Vec::new(rt.alloc());
    match rt.stdin().read_to_end(&mut bytes) {
        Ok(_) => Ok(Text::from_bytes(rt.alloc(), bytes.as_slice())?),
        Err(_) => Err(Refusal::of(rt.alloc(), b"standard input cannot be read", 1)),
    }
}

/// Prints the records of the trace on standard input, a line of a letter and a path for each.
pub fn print_records(rt: &HostRuntime, directory: &[u8]) -> Result<u8, Refusal> {
    let alloc = rt.alloc();
    let trace = input(rt)?;
    let none = Items::new(alloc, 0)?;
    let mut text = Text::new(alloc);
    match records_in(alloc, directory, &none, trace.bytes())? {
        Some(records) => {
            for record in records.as_slice() {
                line_up(&mut text, record)?;
            }
        }
        None => push_line(&mut text, b"R", UNREAD)?,
    }
    if rt.stdout().write_all(text.bytes()).is_err() {
        return Err(Refusal::of(alloc, b"standard output cannot be written", 1));
    }
    Ok(0)
}

/// The path that stands for what a trace does not tell: it is never there.
pub const UNREAD: &[u8] =
    b"/what cannot be seen (a trace that is cut, or of a process that runs on)";
