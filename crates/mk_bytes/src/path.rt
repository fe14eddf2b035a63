//! Paths as make names its files: cleaned against the current directory, without `.`, empty names
//! and `..`, and relative to that directory where they lie in it.
ghost use Rattle.std.specs.Prelude.{◌≡◌, ◌<◌, ◌∷◌, ◌++◌, length, map, position, IfOk, IfSome, OnOk};
ghost use Rattle.std.specs.Option.{option_copied, option_map};
ghost use Rattle.std.specs.List.{list_all};
ghost use Rattle.mk_bytes.specs.Paths as spec;

use crate::fault::NoMemory;
use crate::text::Text;
use std::alloc::Global;

fn is_name(name: &[u8]) -> bool
    ensures { result ≡ spec.is_name name.now }
{
    !matches!(name, [] | [b'.'] | [b'.', b'.'])
}

/// Whether a path is named from the root. Takes no memory.
pub fn is_absolute(path: &[u8]) -> bool
    ensures { result ≡ spec.is_absolute path.now }
{
    match path {
        [] => false,
        [first, ..] => *first == b'/',
    }
}

fn first_slash(path: &[u8]) -> Option<usize>
    ensures { result ≡ position spec.is_slash path.now }
{
    path.iter().position(|byte| *byte == b'/')
}

// The first name on a path, and what follows its slash.
fn first_name<'t>(path: &'t [u8]) -> (&'t [u8], Option<&'t [u8]>)
    ensures names { spec.names_on path.now ≡ result.0.now ∷ spec.names_after (option_copied result.1) }
    ensures shorter { IfSome result.1 (λ rest. length rest.now < length path.now) }
{
    match first_slash(path) {
        Some(at) => (&path[..at], Some(&path[at + 1..])),
        None => (path, None),
    }
}

/// Whether a path is names with one slash between them, none of them `.` or `..`. Such a path is
/// clean, whatever the current directory is. Takes no memory.
pub fn are_names(path: &[u8]) -> bool
    ensures { result ≡ list_all spec.is_name (spec.names_on path.now) }
{
    let mut rest = path;
    'names: loop {
        let (name, more) = first_name(rest);
        if !is_name(name) {
            return false;
        }
        match more {
            Some(after) => rest = after,
            None => return true,
        }
    }
}

/// Whether a path is absolute and clean: `/`, or names with one slash before each, none of them
/// `.` or `..`. Takes no memory.
pub fn is_clean_directory(path: &[u8]) -> bool
    ensures { result ≡ spec.is_clean_directory path.now }
{
    match path {
        [] => false,
        [first, rest @ ..] => *first == b'/' && (rest.is_empty() || are_names(rest)),
    }
}

// Takes one step from a directory, which is the names that lead to it from the root.
fn step<'t>(dir: &mut Vec<&'t [u8]>, name: &'t [u8]) -> Result<(), NoMemory>
    ensures { OnOk result (spec.seen dir.new.items ≡ spec.step (spec.seen dir.old.items) name.now) }
{
    if name == b"".as_slice() || name == b".".as_slice() {
        return Ok(());
    }
    if name == b"..".as_slice() {
        dir.pop();
        return Ok(());
    }
    dir.push(name)?;
    Ok(())
}

// Goes from a directory along a path.
fn walk<'t>(dir: &mut Vec<&'t [u8]>, path: &'t [u8]) -> Result<(), NoMemory>
    ensures { OnOk result
        (spec.seen dir.new.items ≡ spec.walk (spec.seen dir.old.items) (spec.names_on path.now)) }
{
    let mut rest = path;
    'names: loop {
        let (name, more) = first_name(rest);
        step(dir, name)?;
        match more {
            Some(after) => rest = after,
            None => return Ok(()),
        }
    }
}

// What follows a directory's names, where a place lies in it.
fn below<'v, 't>(dir: &[&'t [u8]], place: &'v [&'t [u8]]) -> Option<&'v [&'t [u8]]>
    ensures { option_map spec.seen (option_copied result)
        ≡ spec.below (spec.seen dir.now) (spec.seen place.now) }
{
    let mut rest = place;
    for name in dir {
        let [first, more @ ..] = rest else {
            return None;
        };
        if *name != *first {
            return None;
        }
        rest = more;
    }
    Some(rest)
}

// Appends names with a slash before each.
fn push_names(text: &mut Text, names: &[&[u8]]) -> Result<(), NoMemory>
    ensures { OnOk result (text.new ≡ text.old ++ spec.from_root (spec.seen names.now)) }
{
    for name in names {
        text.push_both(b"/", name)?;
    }
    Ok(())
}

// A text with names behind it, a slash before each.
fn with_names(text: Text, names: &[&[u8]]) -> Result<Text, NoMemory>
    ensures { IfOk result (λ whole. whole ≡ text ++ spec.from_root (spec.seen names.now)) }
{
    let mut text = text;
    push_names(&mut text, names).and(Ok(text))
}

// The text of a place, seen from a directory.
fn spelled(alloc: Global, dir: &[&[u8]], place: &[&[u8]]) -> Result<Text, NoMemory>
    ensures { IfOk result
        (λ text. text
        ≡ spec.spelled (spec.seen place.now)
        (spec.below (spec.seen dir.now) (spec.seen place.now))) }
{
    match below(dir, place) {
        Some([]) => Text::from_bytes(alloc, b"."),
        Some([first, rest @ ..]) => with_names(Text::from_bytes(alloc, first)?, rest),
        None => {
            if place.is_empty() {
                return Text::from_bytes(alloc, b"/");
            }
            with_names(Text::new(alloc), place)
        }
    }
}

/// A path as it is named from the current directory `cwd`: made absolute against `cwd`, without `.`
/// and empty names, each `..` taking away the name before it; `.` where it is `cwd`, relative where
/// it lies below `cwd`, and absolute elsewhere. A relative path without `.`, `..` and empty names
/// is named so already.
pub fn clean_path<'t>(alloc: Global, cwd: &'t [u8], path: &'t [u8]) -> Result<Text, NoMemory>
    ensures { IfOk result (λ text. text ≡ spec.clean cwd.now path.now) }
{
    if are_names(path) {
        return Text::from_bytes(alloc, path);
    }
    let mut dir = Vec::new(alloc);
    walk(&mut dir, cwd)?;
    let mut place = Vec::new(alloc);
    if !is_absolute(path) {
        place.extend_from_slice(dir.as_slice())?;
    }
    walk(&mut place, path)?;
    spelled(alloc, dir.as_slice(), place.as_slice())
}
