//! The looks of a request, at real files and the environment.
ghost use Rattle.std.specs.Prelude.{◌≡◌, true, IfOk};
ghost use Rattle.fmrun.specs.Deeds.{are_looks};

use crate::deed::{Sight, Sights, is_found};
use crate::file;
use crate::refusal::Refusal;
use crate::request::Act;
use mk_bytes::{Items, NoMemory, Text};
use std::alloc::Global;
use std::env::{Env, VarError};
use std::fs::Files;
use std::{env, str};

/// What the looks of a request found, and the contents, one behind the other.
#[derive(Drop)]
pub struct Seen {
    pub sights: Sights,
    pub text: Text,
}

// Looks at a file, as a request asks for.
fn look_at<R: Files + AllocGlobal>(
    rt: &R,
    act: &Act,
    path: &[u8],
    text: &mut Text,
) -> Result<Sight, NoMemory> {
    match act {
        Act::Probe { .. } => file::exists(rt, path),
        Act::Meet { .. } => file::wait_for(rt, path),
        _ => file::read(rt, path, text),
    }
}

// Looks at the files in order, up to the first that does not stand.
fn look_at_all<R: Files + AllocGlobal>(rt: &R, act: &Act, looks: &[Text]) -> Result<Seen, NoMemory>
    ensures { IfOk result (λ seen. are_looks looks.now seen.sights ≡ true) }
{
    let mut sights = Items::new(rt.alloc(), looks.len())?;
    let mut text = Text::new(rt.alloc());
    for path in looks {
        let sight = look_at(rt, act, path.bytes(), &mut text)?;
        sights.push(sight)?;
        if !is_found(sight) {
            return Ok(Seen { sights, text });
        }
    }
    Ok(Seen { sights, text })
}

// What a single look found, with these contents.
fn one_sight(alloc: Global, sight: Sight, contents: &[u8]) -> Result<Seen, NoMemory> {
    let text = Text::from_bytes(alloc, contents)?;
    match sights_of(alloc, sight) {
        Ok(sights) => Ok(Seen { sights, text }),
        Err(fault) => {
            drop(text);
            Err(fault)
        }
    }
}

fn sights_of(alloc: Global, sight: Sight) -> Result<Sights, NoMemory> {
    let mut sights = Items::new(alloc, 1)?;
    sights.push(sight)?;
    Ok(sights)
}

// The value of a variable of the environment.
fn value_of<R: Env + AllocGlobal>(rt: &R, name: &[u8]) -> Result<Seen, Refusal> {
    let Ok(variable) = str::from_utf8(name) else {
        return Err(Refusal::of(rt.alloc(), name));
    };
    match env::var(rt, variable) {
        Ok(value) => Ok(one_sight(rt.alloc(), Sight::Found, value.as_bytes())?),
        Err(VarError::NotPresent) => Ok(one_sight(rt.alloc(), Sight::Missing, b"")?),
        Err(VarError::NotUnicode) => Err(Refusal::of(rt.alloc(), name)),
        Err(VarError::OutOfMemory) => Err(Refusal::NoMemory),
    }
}

/// The path at which a look is refused.
pub fn refused_at<'t>(looks: &'t [Text], sights: &[Sight]) -> Option<&'t Text> {
    for (path, sight) in looks.iter().zip(sights) {
        if matches!(sight, Sight::Refused) {
            return Some(path);
        }
    }
    None
}

/// Looks at what a request asks for. `meet` writes its own file first.
pub fn see<R: Files + Env + AllocGlobal>(
    rt: &R,
    act: &Act,
    looks: &[Text],
) -> Result<Seen, Refusal> {
    if let Act::Env { name, .. } = act {
        return value_of(rt, name.bytes());
    }
    if let Act::Meet { own } = act {
        file::write(rt, own.bytes(), b"1")?;
    }
    Ok(look_at_all(rt, act, looks)?)
}
