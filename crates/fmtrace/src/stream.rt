//! The standard streams that a command has from its beginning.
use crate::file::{Stand, bytes_of, stands_at};
use crate::refusal::Refusal;
use mk_bytes::{Text, begins};
use mk_filemon::cut_at;
use mk_recorder::{Touch, Touched, Touches};
use std::{fs, str};

const LINKS: [&str; 3] = ["/proc/self/fd/0", "/proc/self/fd/1", "/proc/self/fd/2"];

const FACTS: [&str; 3] = [
    "/proc/self/fdinfo/0",
    "/proc/self/fdinfo/1",
    "/proc/self/fdinfo/2",
];

// The flags of a stream, by what the system tells of it (proc(5)): an octal number.
fn flags_in(facts: &[u8]) -> Option<u64> {
    let (_, behind) = cut_at(b'\n', facts)?;
    let rest = behind.strip_prefix(b"flags:\t")?;
    let (digits, _) = cut_at(b'\n', rest)?;
    let mut value: u64 = 0;
    for digit in digits {
        if *digit < b'0' || *digit > b'7' {
            return None;
        }
        value = value.checked_mul(8)?.checked_add(u64::from(*digit - b'0'))?;
    }
    Some(value)
}

// What a stream that is open with these flags does to its file: it reads it, or writes it, and
// where old bytes stay both.
fn touch_by(flags: u64) -> Touch {
    match (flags % 4, flags / 1024 % 2) {
        (0, _) => Touch::Read,
        (1, 0) => Touch::Make,
        _ => Touch::Update,
    }
}

// The path of a stream that is a regular file outside of a directory.
fn path_of(rt: &HostRuntime, link: &str, own: &[u8]) -> Result<Option<Text>, Refusal> {
    let Ok(path) = fs::read_link(rt, link) else {
        return Ok(None);
    };
    let bytes = path.as_str().as_bytes();
    if !begins(b"/", bytes) || begins(own, bytes) || !matches!(stands_at(rt, bytes), Stand::File) {
        return Ok(None);
    }
    Ok(Some(Text::from_bytes(rt.alloc(), bytes)?))
}

/// Adds what the standard streams of this process do to regular files, but for those whose paths
/// begin with `own`.
pub fn push_streams(rt: &HostRuntime, own: &[u8], touches: &mut Touches) -> Result<(), Refusal> {
    for place in 0..3 {
        let Some(path) = path_of(rt, LINKS[place], own)? else {
            continue;
        };
        let facts = bytes_of(rt, FACTS[place].as_bytes())?;
        let flags = match &facts {
            Some(facts) => flags_in(facts.bytes()),
            None => None,
        };
        let touch = match flags {
            Some(flags) => touch_by(flags),
            None => Touch::Update,
        };
        touches.push(Touched { path, touch })?;
    }
    Ok(())
}
