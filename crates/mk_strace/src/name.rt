//! How calls name files.
ghost use Rattle.std.specs.Prelude.{◌≡◌, ◌++◌, ◌∷◌, IfOk};
ghost use Rattle.std.specs.Option.{option_map};
ghost use Rattle.mk_strace.specs.Names as spec;

use crate::quoted::unquoted;
use crate::scan::cut;
use mk_bytes::{NoMemory, Text, is_absolute};
use std::alloc::Global;

/// How a call names a file.
#[derive(Drop)]
pub enum Name {
    /// By an absolute path.
    Path(Text),
    /// By a path against the directory of the process.
    Here(Text),
    /// As what is open, whose path is shown.
    Open(Text),
    /// It has no name: a pipe, a socket, or a file whose last name is gone.
    Nameless,
    /// The trace does not show it.
    Unclear,
}

// What is shown of an open file: what stands between the brackets, and whether its name is gone.
fn shown_in(alloc: Global, piece: &[u8]) -> Result<Option<(Text, bool)>, NoMemory>
    ensures { IfOk result (λ found. found ≡ spec.shown_in piece.now) }
{
    let Some((_, shown)) = mk_filemon::cut_at(b'<', piece) else {
        return Ok(None);
    };
    let Some((text, rest)) = mk_filemon::cut_at(b'>', shown) else {
        return Ok(None);
    };
    match unquoted(alloc, text)? {
        Some(path) => Ok(Some((path, rest.starts_with(b"(deleted)")))),
        None => Ok(None),
    }
}

fn open_name(path: Text, is_gone: bool) -> Name
    ensures { result ≡ spec.open_name path is_gone }
{
    if is_gone || !is_absolute(path.bytes()) {
        return Name::Nameless;
    }
    Name::Open(path)
}

fn is_here(piece: &[u8]) -> bool
    ensures { result ≡ spec.is_here piece.now }
{
    piece == b"AT_FDCWD".as_slice()
}

/// What is open, by a word of a call or by its result. Where the directory of the process stands
/// for it and is not shown, this is told by an empty path there.
pub fn open_in(alloc: Global, piece: &[u8]) -> Result<Name, NoMemory>
    ensures { IfOk result (λ name. name ≡ spec.open_in piece.now) }
{
    if is_here(piece) {
        return Ok(Name::Here(Text::new(alloc)));
    }
    match shown_in(alloc, piece)? {
        Some((path, is_gone)) => Ok(open_name(path, is_gone)),
        None => Ok(Name::Unclear),
    }
}

// A path behind a directory.
fn joined(directory: Text, path: Text) -> Result<Text, NoMemory>
    ensures { IfOk result (λ text. text ≡ spec.joined directory path) }
{
    let mut text = directory;
    text.push_both(b"/", path.bytes())?;
    Ok(text)
}

// A path against what is open. An empty one is what is open.
fn against(base: Name, path: Text) -> Result<Name, NoMemory>
    ensures { IfOk result (λ name. name ≡ spec.against base path) }
{
    if is_absolute(path.bytes()) {
        return Ok(Name::Path(path));
    }
    if path.is_empty() {
        return Ok(base);
    }
    match base {
        Name::Open(directory) => Ok(Name::Path(joined(directory, path)?)),
        Name::Here(_) => Ok(Name::Here(path)),
        other => Ok(other),
    }
}

// The text of a word in quotes.
fn text_of(alloc: Global, piece: &[u8]) -> Result<Option<Text>, NoMemory>
    ensures { IfOk result (λ found. found ≡ spec.text_of piece.now) }
{
    match piece {
        [b'"', text @ .., b'"'] => unquoted(alloc, text),
        _ => Ok(None),
    }
}

fn is_null(piece: &[u8]) -> bool
    ensures { result ≡ spec.is_null piece.now }
{
    piece == b"NULL".as_slice()
}

// What a word names against what is open. Without a path it is what is open.
fn named(alloc: Global, base: Name, piece: &[u8]) -> Result<Name, NoMemory>
    ensures { IfOk result (λ name. name ≡ spec.named base piece.now) }
{
    if is_null(piece) {
        return Ok(base);
    }
    match text_of(alloc, piece) {
        Ok(Some(path)) => against(base, path),
        Ok(None) => Ok(Name::Unclear),
        Err(fault) => Err(fault),
    }
}

/// What a call names first, and the words behind it: by one word against the directory of its
/// process, or by two of which the first is an open directory. `None` where there are no such
/// words.
pub fn name_at<'t>(
    alloc: Global,
    by_open: bool,
    words: &'t [u8],
) -> Result<Option<(Name, &'t [u8])>, NoMemory>
    ensures { IfOk result (λ found.
        option_map (λ name. (name.0, name.1.now)) found ≡ spec.name_at by_open words.now) }
{
    let Some((first, is_last, rest)) = cut(true, words) else {
        return Ok(None);
    };
    if !by_open {
        let name = named(alloc, Name::Here(Text::new(alloc)), first)?;
        return Ok(Some((name, rest)));
    }
    if is_last {
        return Ok(None);
    }
    let Some((second, _, behind)) = cut(true, rest) else {
        return Ok(None);
    };
    let name = named(alloc, open_in(alloc, first)?, second)?;
    Ok(Some((name, behind)))
}
