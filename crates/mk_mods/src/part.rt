//! The parts of words as paths.
ghost use Rattle.std.specs.Prelude.{◌≡◌, ◌≤◌, ◌<◌, ◌+◌, length, take, drop, map, IfSome};
ghost use Rattle.mk_mods.specs.Parts as spec;
ghost use Rattle.mk_pieces.specs.Pieces.{bytes_of, texts_of, furthest, Shows};

use memchr::memrchr;
use mk_pieces::shown;
use mk_pool::{Piece, Region};

/// A part of a word.
#[derive(Clone, Copy)]
pub enum Part {
    Head,
    Tail,
    Root,
    Extension,
}

// The texts `.` and `/`, with which each region begins.
const DOT: Piece = Piece { start: 0, end: 1 };

const SLASH: Piece = Piece { start: 1, end: 2 };

const NOTHING: Piece = Piece { start: 0, end: 0 };

fn last_slash(word: &[u8]) -> Option<usize>
    ensures value { result ≡ spec.last_place spec.is_slash word.now }
    ensures within { IfSome result (λ at. at < length word.now) }
{
    memrchr(b'/', word)
}

fn last_dot(word: &[u8]) -> Option<usize>
    ensures value { result ≡ spec.last_place spec.is_dot word.now }
    ensures within { IfSome result (λ at. at < length word.now) }
{
    memrchr(b'.', word)
}

// What stands before a place of a word.
fn before(region: &Region, word: Piece, at: usize) -> Piece
    requires word { word.end ≤ length region.now.bytes }
    requires at { at < length (bytes_of region.now.bytes word) }
    ensures shown { bytes_of region.now.bytes result ≡ take at (bytes_of region.now.bytes word) }
    ensures within { result.end ≤ length region.now.bytes }
{
    prove!(word.end as usize <= region.len());
    Piece {
        start: word.start,
        end: word.start + at as u32,
    }
}

// What follows a place of a word.
fn behind(region: &Region, word: Piece, at: usize) -> Piece
    requires word { word.end ≤ length region.now.bytes }
    requires at { at < length (bytes_of region.now.bytes word) }
    ensures shown { bytes_of region.now.bytes result
        ≡ drop (at + 1) (bytes_of region.now.bytes word) }
    ensures within { result.end ≤ length region.now.bytes }
{
    prove!(word.end as usize <= region.len());
    Piece {
        start: word.start + at as u32 + 1,
        end: word.end,
    }
}

fn head(region: &Region, word: Piece) -> Piece
    requires { word.end ≤ length region.now.bytes }
    ensures shown { bytes_of region.now.bytes result ≡ spec.head (bytes_of region.now.bytes word) }
    ensures within { result.end ≤ length region.now.bytes }
{
    match last_slash(shown(region, word)) {
        None => DOT,
        Some(0) => SLASH,
        Some(at) => before(region, word, at),
    }
}

fn tail(region: &Region, word: Piece) -> Piece
    requires { word.end ≤ length region.now.bytes }
    ensures shown { bytes_of region.now.bytes result ≡ spec.tail (bytes_of region.now.bytes word) }
    ensures within { result.end ≤ length region.now.bytes }
{
    match last_slash(shown(region, word)) {
        None => word,
        Some(at) => behind(region, word, at),
    }
}

fn root(region: &Region, word: Piece) -> Piece
    requires { word.end ≤ length region.now.bytes }
    ensures shown { bytes_of region.now.bytes result ≡ spec.root (bytes_of region.now.bytes word) }
    ensures within { result.end ≤ length region.now.bytes }
{
    match last_dot(shown(region, word)) {
        None => word,
        Some(at) => before(region, word, at),
    }
}

fn extension(region: &Region, word: Piece) -> Piece
    requires { word.end ≤ length region.now.bytes }
    ensures shown { bytes_of region.now.bytes result
        ≡ spec.extension (bytes_of region.now.bytes word) }
    ensures within { result.end ≤ length region.now.bytes }
{
    match last_dot(shown(region, word)) {
        None => NOTHING,
        Some(at) => behind(region, word, at),
    }
}

fn part_of(region: &Region, part: Part, word: Piece) -> Piece
    requires { word.end ≤ length region.now.bytes }
    ensures shown { bytes_of region.now.bytes result
        ≡ spec.part_of part (bytes_of region.now.bytes word) }
    ensures within { result.end ≤ length region.now.bytes }
{
    match part {
        Part::Head => head(region, word),
        Part::Tail => tail(region, word),
        Part::Root => root(region, word),
        Part::Extension => extension(region, word),
    }
}

/// A part of each word.
pub fn parts(region: &Region, part: Part, words: Vec<Piece>) -> Vec<Piece>
    requires { furthest words.items ≤ length region.now.bytes }
    ensures { Shows region.now.bytes result.items
        (map (spec.part_of part) (texts_of region.now.bytes words.items)) }
{
    let mut parts = words;
    for word in parts.iter_mut() {
        *word = part_of(region, part, *word);
    }
    parts
}
