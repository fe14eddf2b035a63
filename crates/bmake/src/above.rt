//! What a make is given by the one above it, and by who runs it: options in `BMAKE_FLAGS`, and a
//! recorder in `BMAKE_RECORDER`; and what it gives to the makes below.
use crate::process::{absolute, value_of};
use mk_bytes::{Items, NoMemory, Pair, Pairs, Text, Texts, words};
use mk_inherit::{flags_of, passed_on, words_in};
use mk_realworld::Setting;
use mk_scopes::Env;
use std::alloc::Global;

const FLAGS: &[u8] = b"BMAKE_FLAGS";

const RECORDER: &[u8] = b"BMAKE_RECORDER";

/// The words that the make above hands on, where there are any; `None` where their text is not of
/// the form in which a make writes it.
pub fn inherited(alloc: Global, env: &Env) -> Result<Option<Texts>, NoMemory> {
    match value_of(env, FLAGS) {
        Some(text) => words_in(alloc, text),
        None => Ok(Some(Items::new(alloc, 0)?)),
    }
}

/// The words of the make above, and behind them those of the command line.
pub fn all_words(alloc: Global, above: Texts, own: &Texts) -> Result<Texts, NoMemory> {
    let mut all = above;
    for word in own.as_slice() {
        all.push(word.copy(alloc)?)?;
    }
    Ok(all)
}

// The options for the makes below, where there are any.
fn flags(alloc: Global, all: &Texts) -> Result<Option<Text>, NoMemory> {
    let passed = passed_on(alloc, all)?;
    if passed.is_empty() {
        return Ok(None);
    }
    Ok(Some(flags_of(alloc, &passed)?))
}

// The words of the recorder. The first is an absolute path where it has a slash, so that it serves
// in each directory.
fn recorder(alloc: Global, env: &Env) -> Result<Texts, NoMemory> {
    let mut recorder = Items::new(alloc, 0)?;
    for word in words(alloc, value_of(env, RECORDER).unwrap_or(b""))?.as_slice() {
        if recorder.is_empty() && word.bytes().contains(&b'/') {
            recorder.push(absolute(alloc, env.cwd.bytes(), word.bytes())?)?;
        } else {
            recorder.push(word.copy(alloc)?)?;
        }
    }
    Ok(recorder)
}

// The variable by which the makes below find the recorder, where there is one.
fn variables(alloc: Global, recorder: &Texts) -> Result<Pairs, NoMemory> {
    let mut variables = Items::new(alloc, 0)?;
    if recorder.is_empty() {
        return Ok(variables);
    }
    let mut value = Text::new(alloc);
    for word in recorder.as_slice() {
        if !value.is_empty() {
            value.push(b" ")?;
        }
        value.push(word.bytes())?;
    }
    let name = Text::from_bytes(alloc, RECORDER)?;
    variables.push(Pair { name, value })?;
    Ok(variables)
}

/// What each child is given, by the words of the make.
pub fn setting(alloc: Global, env: &Env, all: &Texts) -> Result<Setting, NoMemory> {
    let recorder = recorder(alloc, env)?;
    let flags = flags(alloc, all)?;
    let variables = variables(alloc, &recorder)?;
    Ok(Setting {
        recorder,
        flags,
        variables,
    })
}
