//! What a case gives its runs: files, variables, a directory and schedules.
ghost use Rattle.std.specs.Prelude.{IsTrue, IfOk};
ghost use Rattle.mk_bytes.specs.Paths.{is_clean_directory as is_clean};

use crate::case::{Case, Item, find};
use crate::directive::Directive;
use crate::fault::Trouble;
use mk_bytes::{Items, NoMemory, Pair, Pairs, Text, is_clean_directory};
use mk_memworld::Turns;
use mk_scopes::Env;
use std::alloc::Global;

// The environment where a case names none.
const ENVIRONMENT: [(&str, &str); 4] = [("A", "first"), ("A", "last"), ("E", "<$C>"), ("S", " s ")];

// How many numbers a generated schedule has.
const TURNS: u32 = 200;

fn pair(alloc: Global, name: &str, value: &[u8]) -> Result<Pair, NoMemory> {
    Ok(Pair {
        name: Text::from_bytes(alloc, name.as_bytes())?,
        value: Text::from_bytes(alloc, value)?,
    })
}

// Adds a name with its bytes.
fn push_pair(pairs: &mut Pairs, alloc: Global, name: &str, value: &[u8]) -> Result<(), NoMemory> {
    pairs.push(pair(alloc, name, value)?)
}

fn push_files(files: &mut Pairs, alloc: Global, case: &Case) -> Result<(), NoMemory> {
    for item in case.setup.as_slice() {
        if item.directive == Directive::File {
            push_pair(files, alloc, item.rest, item.body.as_slice())?;
        }
    }
    Ok(())
}

/// The files of the world of a case, the oldest first.
pub fn files_of(alloc: Global, case: &Case) -> Result<Pairs, NoMemory> {
    let mut files = Items::new(alloc, 0)?;
    push_files(&mut files, alloc, case)?;
    Ok(files)
}

fn push_default_variables(variables: &mut Pairs, alloc: Global) -> Result<(), NoMemory> {
    for row in &ENVIRONMENT {
        let (name, value) = *row;
        push_pair(variables, alloc, name, value.as_bytes())?;
    }
    Ok(())
}

// A variable, or nothing where nothing is named.
fn push_variable(variables: &mut Pairs, alloc: Global, item: &Item) -> Result<(), Trouble> {
    match item.rest.split_once('=') {
        Some((name, value)) => Ok(push_pair(variables, alloc, name, value.as_bytes())?),
        None if item.rest.is_empty() => Ok(()),
        None => Err(Trouble::Bad(item.line)),
    }
}

fn push_named_variables(variables: &mut Pairs, alloc: Global, case: &Case) -> Result<(), Trouble> {
    for item in case.setup.as_slice() {
        if item.directive == Directive::Environment {
            push_variable(variables, alloc, item)?;
        }
    }
    Ok(())
}

fn push_variables(variables: &mut Pairs, alloc: Global, case: &Case) -> Result<(), Trouble> {
    match find(case.setup.as_slice(), Directive::Environment) {
        Some(_) => push_named_variables(variables, alloc, case),
        None => Ok(push_default_variables(variables, alloc)?),
    }
}

fn variables_of(alloc: Global, case: &Case) -> Result<Pairs, Trouble> {
    let mut variables = Items::new(alloc, 0)?;
    push_variables(&mut variables, alloc, case)?;
    Ok(variables)
}

/// The current directory of a case.
pub fn directory_of(alloc: Global, case: &Case) -> Result<Text, NoMemory> {
    match find(case.setup.as_slice(), Directive::Directory) {
        Some(item) => Text::from_bytes(alloc, item.rest.as_bytes()),
        None => Text::from_bytes(alloc, b"/w"),
    }
}

/// The environment of the runs of a case.
pub fn environment_of(alloc: Global, case: &Case) -> Result<Env, Trouble>
    ensures { IfOk result (λ env. IsTrue (is_clean env.cwd)) }
{
    let cwd = directory_of(alloc, case)?;
    if !is_clean_directory(cwd.bytes()) {
        return Err(Trouble::Bad(case.head.line));
    }
    let vars = variables_of(alloc, case)?;
    let program = Text::from_bytes(alloc, b"bmake")?;
    Ok(Env { vars, cwd, program })
}

// A number of a line.
fn number(item: &Item, word: &str) -> Result<u32, Trouble> {
    match word.parse::<u32>() {
        Ok(number) => Ok(number),
        Err(_) => Err(Trouble::Bad(item.line)),
    }
}

fn push_turns(turns: &mut Turns, item: &Item) -> Result<(), Trouble> {
    for word in item.rest.split_whitespace() {
        let number = number(item, word)?;
        turns.push(number)?;
    }
    Ok(())
}

fn push_schedule(turns: &mut Turns, case: &Case) -> Result<(), Trouble> {
    for item in case.setup.as_slice() {
        if item.directive == Directive::Schedule {
            push_turns(turns, item)?;
        }
    }
    Ok(())
}

/// The schedule that a case names.
pub fn schedule_of(alloc: Global, case: &Case) -> Result<Turns, Trouble> {
    let mut turns = Items::new(alloc, 0)?;
    push_schedule(&mut turns, case)?;
    Ok(turns)
}

/// Under how many generated schedules a case is run again.
pub fn schedules_of(case: &Case) -> Result<u32, Trouble> {
    match find(case.setup.as_slice(), Directive::Schedules) {
        Some(item) => number(item, item.rest),
        None => Ok(0),
    }
}

fn push_generated(turns: &mut Turns, seed: u32) -> Result<(), NoMemory> {
    let mut state = seed;
    for _ in 0..TURNS {
        state = state.wrapping_mul(1_664_525).wrapping_add(1_013_904_223);
        turns.push((state >> 16) % 4)?;
    }
    Ok(())
}

/// Numbers from 0 to 3, which follow from a seed.
pub fn generated(alloc: Global, seed: u32) -> Result<Turns, NoMemory> {
    let mut turns = Items::new(alloc, 0)?;
    push_generated(&mut turns, seed)?;
    Ok(turns)
}
