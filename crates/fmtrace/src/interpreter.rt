//! The interpreters of programs: the system opens them, and strace shows nothing of it.
use crate::file::head_of;
use mk_bytes::{NoMemory, Text, Texts};
use mk_filemon::cut_at;
use std::alloc::Global;
use std::fs::Files;

// How many interpreters of interpreters the system takes at most.
const DEPTH: usize = 4;

// A number of these bytes, the lowest first.
fn number(bytes: &[u8], at: usize, count: usize) -> Option<usize> {
    let end = at.checked_add(count)?;
    let mut value: usize = 0;
    for byte in bytes.get(at..end)?.iter().rev() {
        value = value.checked_mul(256)?.checked_add(usize::from(*byte))?;
    }
    Some(value)
}

// The bytes up to the first one of these.
fn until<'t>(end: u8, text: &'t [u8]) -> &'t [u8] {
    match cut_at(end, text) {
        Some((before, _)) => before,
        None => text,
    }
}

// The interpreter of a script, by its first bytes.
fn of_script<'t>(head: &'t [u8]) -> Option<&'t [u8]> {
    let [b'#', b'!', rest @ ..] = head else {
        return None;
    };
    let line = mk_bytes::without_blanks_before(until(b'\n', rest));
    Some(until(b'\t', until(b' ', line)))
}

// The interpreter of a program (elf(5)) of 64 bits, by its first bytes.
fn of_program<'t>(head: &'t [u8]) -> Option<&'t [u8]> {
    if !head.starts_with(b"\x7fELF\x02\x01") {
        return None;
    }
    let table = number(head, 32, 8)?;
    let size = number(head, 54, 2)?;
    let count = number(head, 56, 2)?;
    for place in 0..count {
        let at = table.checked_add(place.checked_mul(size)?)?;
        if number(head, at, 4)? == 3 {
            let start = number(head, at.checked_add(8)?, 8)?;
            return Some(until(0, head.get(start..)?));
        }
    }
    None
}

fn interpreter_in<'t>(head: &'t [u8]) -> Option<&'t [u8]> {
    match of_script(head) {
        Some(path) => Some(path),
        None => of_program(head),
    }
}

/// Adds the interpreters of a program, and those of these.
pub fn push_interpreters<R: Files>(
    rt: &R,
    alloc: Global,
    buffer: &mut [u8],
    program: &[u8],
    paths: &mut Texts,
) -> Result<(), NoMemory> {
    let mut path = Text::from_bytes(alloc, program)?;
    for _ in 0..DEPTH {
        let Some(found) = interpreter_in(head_of(rt, path.bytes(), buffer)) else {
            return Ok(());
        };
        path = Text::from_bytes(alloc, found)?;
        paths.push(path.copy(alloc)?)?;
    }
    Ok(())
}
