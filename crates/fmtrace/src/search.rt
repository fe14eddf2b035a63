//! Where a command is looked for.
use crate::file::{Stand, stands_at};
use crate::refusal::Refusal;
use mk_bytes::{Items, Text};
use mk_filemon::{cut_at, directory_from};
use mk_recorder::{Touch, Touched, Touches};
use std::env;

// A word against a directory of `PATH`, where the empty one is the current one.
fn candidate(rt: &HostRuntime, cwd: &[u8], part: &[u8], word: &[u8]) -> Result<Text, Refusal> {
    let directory = directory_from(rt.alloc(), cwd, part)?;
    Ok(directory_from(rt.alloc(), directory.bytes(), word)?)
}

/// Whether a command is found, by the word that names it; where it was missed is added.
pub fn found(
    rt: &HostRuntime,
    cwd: &[u8],
    word: &[u8],
    misses: &mut Touches,
) -> Result<bool, Refusal> {
    if word.iter().any(|byte| *byte == b'/') {
        let path = directory_from(rt.alloc(), cwd, word)?;
        return Ok(!matches!(stands_at(rt, path.bytes()), Stand::Missing));
    }
    let Ok(variable) = env::var(rt, "PATH") else {
        return Ok(true);
    };
    let mut rest = variable.as_bytes();
    for _ in 0..u64::MAX {
        let (part, after) = match cut_at(b':', rest) {
            Some((part, after)) => (part, Some(after)),
            None => (rest, None),
        };
        let path = candidate(rt, cwd, part, word)?;
        match stands_at(rt, path.bytes()) {
            Stand::File => return Ok(true),
            Stand::Missing => misses.push(Touched {
                path,
                touch: Touch::Miss,
            })?,
            _ => {}
        }
        let Some(after) = after else {
            return Ok(false);
        };
        rest = after;
    }
    Ok(false)
}
