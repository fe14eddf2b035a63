//! The compilations among commands.
ghost use Rattle.std.specs.Prelude.{◌≡◌, ◌≤◌, ◌++◌, codes, length, map, flat_map, take_while};
ghost use Rattle.std.specs.Prelude.{reverse, IfOk, OnOk};
ghost use Rattle.mk_listing.specs.Commands as spec;

use crate::text::{array_of, push_json};
use mk_bytes::{Items, NoMemory, Text, Texts, words};
use mk_meta::Meta;
use mk_world::TaskLine;
use std::alloc::Global;

fn is_in_name(byte: u8) -> bool
    ensures { result ≡ spec.is_in_name byte }
{
    byte != b'/'
}

// How long the last name of a path is.
fn name_length(path: &[u8]) -> usize
    ensures len { result ≡ length (take_while spec.is_in_name (reverse path.now)) }
    ensures within { result ≤ length path.now }
{
    path.iter()
        .rev()
        .take_while(|byte| is_in_name(**byte))
        .count()
}

fn last_name<'t>(path: &'t [u8]) -> &'t [u8]
    ensures { result.now ≡ spec.last_name path.now }
{
    &path[path.len() - name_length(path)..]
}

fn is_compiler(name: &[u8]) -> bool
    ensures { result ≡ spec.is_compiler name.now }
{
    name == b"cc".as_slice()
        || name == b"c++".as_slice()
        || name == b"c99".as_slice()
        || name == b"gcc".as_slice()
        || name == b"g++".as_slice()
        || name == b"clang".as_slice()
        || name == b"clang++".as_slice()
}

fn ends_as_source(word: &[u8]) -> bool
    ensures { result ≡ spec.ends_as_source word.now }
{
    word.ends_with(b".c")
        || word.ends_with(b".cc")
        || word.ends_with(b".cpp")
        || word.ends_with(b".cxx")
        || word.ends_with(b".C")
        || word.ends_with(b".m")
        || word.ends_with(b".s")
        || word.ends_with(b".S")
}

fn is_source(before: &[u8], word: &[u8]) -> bool
    ensures { result ≡ spec.is_source before.now word.now }
{
    ends_as_source(word) && !word.starts_with(b"-") && before != b"-o".as_slice()
}

fn push_sources(
    alloc: Global,
    files: &mut Texts,
    first: &Text,
    words: &[Text],
) -> Result<(), NoMemory>
    ensures { OnOk result (files.new ≡ files.old ++ spec.sources first.now words.now) }
{
    let mut before = first;
    let mut rest = words;
    'words: while let Some((word, more)) = rest.split_first() {
        if is_source(before.bytes(), word.bytes()) {
            files.push(word.copy(alloc)?)?;
        }
        before = word;
        rest = more;
    }
    Ok(())
}

// The source files of a command.
fn compiled(alloc: Global, words: &[Text]) -> Result<Texts, NoMemory>
    ensures { IfOk result (λ files. files ≡ spec.compiled words.now) }
{
    let mut files = Items::new(alloc, 0)?;
    if let Some((first, rest)) = words.split_first() {
        if is_compiler(last_name(first.bytes())) {
            push_sources(alloc, &mut files, first, rest)?;
        }
    }
    Ok(files)
}

fn object(alloc: Global, meta: &Meta, command: &[u8], file: &[u8]) -> Result<Text, NoMemory>
    ensures { IfOk result (λ text. text ≡ spec.object meta.now command.now file.now) }
{
    let mut text = Text::from_bytes(alloc, b"{\"directory\":")?;
    push_json(&mut text, meta.cwd.bytes())?;
    text.push(b",\"command\":")?;
    push_json(&mut text, command)?;
    text.push(b",\"file\":")?;
    push_json(&mut text, file)?;
    text.push(b",\"output\":")?;
    push_json(&mut text, meta.target.bytes())?;
    text.push(b"}")?;
    Ok(text)
}

fn push_each(
    alloc: Global,
    objects: &mut Texts,
    meta: &Meta,
    command: &[u8],
    files: &[Text],
) -> Result<(), NoMemory>
    ensures { OnOk result
        (objects.new ≡ objects.old ++ map (spec.object meta.now command.now) files.now) }
{
    for file in files {
        objects.push(object(alloc, meta, command, file.bytes())?)?;
    }
    Ok(())
}

fn push_objects(
    alloc: Global,
    objects: &mut Texts,
    meta: &Meta,
    command: &[u8],
) -> Result<(), NoMemory>
    ensures { OnOk result (objects.new ≡ objects.old ++ spec.objects_on meta.now command.now) }
{
    let words = words(alloc, command)?;
    let files = compiled(alloc, words.as_slice())?;
    push_each(alloc, objects, meta, command, files.as_slice())
}

fn push_lines(
    alloc: Global,
    objects: &mut Texts,
    meta: &Meta,
    lines: &[TaskLine],
) -> Result<(), NoMemory>
    ensures { OnOk result (objects.new
        ≡ objects.old ++ flat_map (λ line. spec.objects_on meta.now line.text) lines.now) }
{
    for line in lines {
        push_objects(alloc, objects, meta, line.text.bytes())?;
    }
    Ok(())
}

fn push_all(alloc: Global, objects: &mut Texts, metas: &[Meta]) -> Result<(), NoMemory>
    ensures { OnOk result (objects.new ≡ objects.old ++ flat_map spec.objects_of metas.now) }
{
    for meta in metas {
        push_lines(alloc, objects, meta, meta.lines.as_slice())?;
    }
    Ok(())
}

/// The JSON compilation database of Clang: an object for each source file that a command line
/// compiles, where its first word is a compiler. A text that is not UTF-8 has the character U+FFFD
/// in place of each byte from 128 on.
pub fn database(alloc: Global, metas: &[Meta]) -> Result<Text, NoMemory>
    ensures { IfOk result (λ text. text ≡ spec.database metas.now) }
{
    let mut objects = Items::new(alloc, 0)?;
    push_all(alloc, &mut objects, metas)?;
    array_of(alloc, objects.as_slice())
}
