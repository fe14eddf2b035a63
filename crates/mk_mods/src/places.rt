//! The choice of words by their places, and the numbers of words.
ghost use Rattle.std.specs.Prelude.{◌≡◌, ◌≤◌, ◌<◌, ◌-◌, ◌^◌, [], ◌∷◌, length, take, drop};
ghost use Rattle.std.specs.Prelude.{decimal, position, IfOk, IfSome};
ghost use Rattle.mk_mods.specs.Places as spec;
ghost use Rattle.mk_pieces.specs.Pieces.{bytes_of, texts_of, furthest, Shows, Begins};

use itoa::Buffer;
use mk_bytes::{NoMemory, number_up_to};
use mk_pieces::place;
use mk_pool::{Piece, Region};
use std::alloc::Global;

fn unsigned(text: &[u8]) -> Option<usize>
    ensures value { result ≡ spec.unsigned text.now }
    ensures most { IfSome result (λ number. number ≤ 999999999) }
{
    if text.len() > 9 {
        return None;
    }
    match number_up_to(999_999_999, text) {
        None | Some(0) => None,
        Some(number) => Some(number as usize),
    }
}

// The place that a text names among so many words, 0 where it lies in front of them.
fn place_of(count: usize, text: &[u8]) -> Option<usize>
    requires { count < 2 ^ 63 }
    ensures { result ≡ spec.place count text.now }
{
    let (sign, rest) = text.split_first()?;
    match *sign {
        b'-' => {
            let back = unsigned(rest)?;
            Some((count + 1).saturating_sub(back))
        }
        b'+' => unsigned(rest),
        _ => unsigned(text),
    }
}

fn both_ends(count: usize, from: &[u8], to: &[u8]) -> Option<(usize, usize)>
    requires { count < 2 ^ 63 }
    ensures { result ≡ spec.both_ends count from.now to.now }
{
    let first = place_of(count, from)?;
    let last = place_of(count, to)?;
    Some((first, last))
}

fn first_dot(text: &[u8]) -> Option<usize>
    ensures { result ≡ position spec.is_dot text.now }
{
    text.iter().position(|byte| *byte == b'.')
}

fn behind(text: &[u8], at: usize) -> &[u8]
    requires { at ≤ length text.now }
    ensures { result.now ≡ drop at text.now }
{
    &text[at..]
}

/// The places that a text names among so many words, from the one to the other. `None` where it is
/// no choice of places.
pub fn ends(count: usize, text: &[u8]) -> Option<(usize, usize)>
    requires { count < 2 ^ 63 }
    ensures { result ≡ spec.ends count text.now }
{
    let Some(at) = first_dot(text) else {
        return both_ends(count, text, text);
    };
    if !behind(text, at).starts_with(b"..") {
        return None;
    }
    both_ends(count, &text[..at], behind(text, at + 2))
}

// The items from a place up to another.
fn upwards(alloc: Global, items: &[Piece], low: usize, high: usize) -> Result<Vec<Piece>, NoMemory>
    ensures { IfOk result (λ chosen. chosen.items ≡ drop (low - 1) (take high items.now)) }
{
    let high = high.min(items.len());
    let low = low.saturating_sub(1).min(high);
    Ok(Vec::from_slice(alloc, &items[low..high])?)
}

/// The items from one place to another, in this direction.
pub fn from_to(alloc: Global, items: &[Piece], ends: (usize, usize)) -> Result<Vec<Piece>, NoMemory>
    ensures { IfOk result (λ chosen. chosen.items ≡ spec.from_to items.now ends) }
{
    if ends.0 <= ends.1 {
        return upwards(alloc, items, ends.0, ends.1);
    }
    let mut chosen = upwards(alloc, items, ends.1, ends.0)?;
    chosen.as_mut_slice().reverse();
    Ok(chosen)
}

// Places a number in decimal.
fn place_number(region: &mut Region, number: usize) -> Result<Piece, NoMemory>
    ensures shown { IfOk result (λ piece. bytes_of region.new.bytes piece ≡ decimal number) }
    ensures within { IfOk result (λ piece. piece.end ≤ length region.new.bytes) }
    ensures begins { Begins region.old.bytes region.new.bytes }
{
    let mut buffer = Buffer::new();
    place(region, buffer.format(number).as_bytes())
}

/// How many numbers a text asks for, among so many words. `None` where it is no number up to a
/// million.
pub fn how_many(count: usize, text: &[u8]) -> Option<usize>
    ensures { result ≡ spec.how_many count text.now }
{
    match number_up_to(1_000_000, text)? {
        0 => Some(count),
        some => Some(some as usize),
    }
}

/// Places the numbers from 1 on, so many.
pub fn place_numbers(
    alloc: Global,
    region: &mut Region,
    count: usize,
) -> Result<Vec<Piece>, NoMemory>
    ensures shown { IfOk result
        (λ pieces. Shows region.new.bytes pieces.items (spec.numbers count)) }
    ensures begins { Begins region.old.bytes region.new.bytes }
{
    let mut pieces = Vec::new(alloc);
    for before in 0..count {
        pieces.push(place_number(region, before + 1)?)?;
    }
    Ok(pieces)
}

/// Places one number.
pub fn only_number(
    alloc: Global,
    region: &mut Region,
    number: usize,
) -> Result<Vec<Piece>, NoMemory>
    ensures shown { IfOk result
        (λ pieces. Shows region.new.bytes pieces.items (decimal number ∷ [])) }
    ensures begins { Begins region.old.bytes region.new.bytes }
{
    let mut pieces = Vec::new(alloc);
    pieces.push(place_number(region, number)?)?;
    Ok(pieces)
}
