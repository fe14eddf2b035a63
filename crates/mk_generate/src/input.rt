//! The files of a generated world.
ghost use Rattle.std.specs.Prelude.{◌≡◌, ◌++◌, ◌<◌, codes, decimal, map, IfOk, OnOk};
ghost use Rattle.std.specs.List.{concat};
ghost use Rattle.mk_world.specs.Sinks.{all_of};
ghost use Rattle.mk_generate.specs.Input as spec;

use itoa::Buffer;
use mk_bytes::{Items, NoMemory, Pair, Pairs, Text};
use std::alloc::Global;

// What the makefile begins with: meta mode, and the name of its first target.
const HEAD: &[u8] = b".MAKE.MODE=meta curdirOk=yes missing-meta=yes missing-filemon=yes\nall:";

/// Appends pieces, one after the other.
pub fn push_all(text: &mut Text, pieces: &[&[u8]]) -> Result<(), NoMemory>
    ensures { OnOk result (text.new ≡ text.old ++ all_of pieces.now) }
{
    for piece in pieces {
        text.push(piece)?;
    }
    Ok(())
}

// Appends the names of all targets, each behind a space.
fn push_targets(text: &mut Text, n: u32) -> Result<(), NoMemory>
    ensures { OnOk result
        (text.new ≡ text.old ++ concat (map (λ i. spec.spaced (spec.target i)) (spec.below n))) }
{
    let mut numbers = Buffer::new();
    for i in 0..n {
        text.push_both(b" o", numbers.format(i).as_bytes())?;
    }
    Ok(())
}

fn push_rule(text: &mut Text, n: u32, i: u32) -> Result<(), NoMemory>
    requires { i < n }
    ensures { OnOk result (text.new ≡ text.old ++ spec.rule n i) }
{
    let mut numbers = Buffer::new();
    let mut others = Buffer::new();
    let own = numbers.format(i).as_bytes();
    let other = (7 * u64::from(i) + 3) % u64::from(n);
    let other = others.format(other).as_bytes();
    push_all(
        text,
        &[
            b"o",
            own,
            b": s",
            own,
            b"\n\tcat o",
            own,
            b" s",
            own,
            b" s",
            other,
            b"\n",
        ],
    )
}

fn push_rules(text: &mut Text, n: u32) -> Result<(), NoMemory>
    ensures { OnOk result (text.new ≡ text.old ++ concat (map (spec.rule n) (spec.below n))) }
{
    for i in 0..n {
        push_rule(text, n, i)?;
    }
    Ok(())
}

fn makefile(alloc: Global, n: u32) -> Result<Text, NoMemory>
    ensures { IfOk result (λ text. text ≡ spec.makefile_of n) }
{
    let mut text = Text::from_bytes(alloc, HEAD)?;
    push_targets(&mut text, n)?;
    text.push(b"\n.PHONY: all\n")?;
    push_rules(&mut text, n)?;
    Ok(text)
}

/// A letter and a number.
pub fn name(alloc: Global, letter: &[u8], i: u32) -> Result<Text, NoMemory>
    ensures { IfOk result (λ name. name ≡ letter.now ++ decimal i) }
{
    let mut numbers = Buffer::new();
    let mut name = Text::from_bytes(alloc, letter)?;
    name.push(numbers.format(i).as_bytes())?;
    Ok(name)
}

fn source_file(alloc: Global, i: u32) -> Result<Pair, NoMemory>
    ensures { IfOk result (λ file. file ≡ spec.source_file i) }
{
    let mut numbers = Buffer::new();
    let number = u64::from(i) * u64::from(i) % 1000;
    let mut value = Text::new(alloc);
    value.push_both(numbers.format(number).as_bytes(), b"\n")?;
    Ok(Pair {
        name: name(alloc, b"s", i)?,
        value,
    })
}

/// The makefile with so many targets, and their sources.
pub fn files(alloc: Global, n: u32) -> Result<Pairs, NoMemory>
    ensures { IfOk result (λ files. files ≡ spec.files_of n) }
{
    let mut files = Items::new(alloc, 0)?;
    files.push(Pair {
        name: Text::from_bytes(alloc, b"makefile")?,
        value: makefile(alloc, n)?,
    })?;
    for i in 0..n {
        files.push(source_file(alloc, i)?)?;
    }
    Ok(files)
}
