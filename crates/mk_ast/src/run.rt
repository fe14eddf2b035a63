//! Runs of plain bytes.
ghost use Rattle.std.specs.Prelude.{◌≡◌, ◌+◌, ◌^◌, ◌<◌, ◌≤◌, true, length, slice_index, take, drop};
ghost use Rattle.std.specs.Prelude.{Ok, IfOk, IfSome};
ghost use Rattle.mk_bytes.specs.Agrees.{Agrees};
ghost use Rattle.mk_ast.specs.Places as places;
ghost use Rattle.mk_ast.specs.Places.{nesting};
ghost use Rattle.mk_ast.specs.Text as spec;
ghost use Rattle.mk_ast.specs.Tree.{end, part, plain};
ghost use Rattle.mk_ast.specs.View.{part_view};
ghost use Rattle.mk_ast.specs.declared.fault.AstFault.TheVariants.{NoMemory as no_memory};

use crate::fault::AstFault;
use crate::place::{Piece, Place, after, is_escape, is_over};
use crate::tree::Part;
use mk_bytes::{Text, skip};
use std::alloc::Global;

#[inline(always)]
fn begins_plain(place: Place, text: &[u8]) -> bool
    ensures same { result ≡ spec.begins_plain place text.now }
    ensures some { result ≡ true → 0 < length text.now }
{
    match text {
        [] => false,
        [first, rest @ ..] => {
            !(is_over(place, text) || *first == b'$' || is_escape(place, *first, rest))
        }
    }
}

// How many plain bytes a text begins with, and the place behind them.
#[inline(always)]
fn run_from(place: Place, text: &[u8]) -> (usize, Place)
    requires { nesting place + length text.now < 2 ^ 64 }
    ensures run { spec.plain_run place text.now
        ≡ (take result.0 text.now, result.1, drop result.0 text.now) }
    ensures within { result.0 ≤ length text.now }
    ensures nesting { nesting result.1 ≤ nesting place + result.0 }
{
    let mut place = place;
    let mut len = 0;
    'run: while begins_plain(place, skip(text, len)) {
        place = after(place, text[len]);
        len += 1;
    }
    (len, place)
}

// The same. Each place of many texts has a search of its own, which does not ask for the place at
// every byte.
fn plain_run(place: Place, text: &[u8]) -> (usize, Place)
    requires { nesting place + length text.now < 2 ^ 64 }
    ensures run { spec.plain_run place text.now
        ≡ (take result.0 text.now, result.1, drop result.0 text.now) }
    ensures within { result.0 ≤ length text.now }
    ensures nesting { nesting result.1 ≤ nesting place + result.0 }
{
    match place {
        Place::Whole => run_from(Place::Whole, text),
        Place::Name { round, nested } => run_from(Place::Name { round, nested }, text),
        Place::Piece(Piece::Word) => run_from(Place::Piece(Piece::Word), text),
        Place::Piece(Piece::Quoted) => run_from(Place::Piece(Piece::Quoted), text),
        Place::Piece(Piece::Argument) => run_from(Place::Piece(Piece::Argument), text),
        _ => run_from(place, text),
    }
}

/// How many bytes the text up to its end is, where it is plain bytes alone and at least one.
pub fn plain_text_len(place: Place, text: &[u8]) -> Option<usize>
    requires { nesting place + length text.now < 2 ^ 64 }
    ensures plain { IfSome result (λ len. (refs : spec.Refs) → spec.text_in refs place text.now
        ≡ Ok (part (plain (take len text.now)) end, drop len text.now)) }
    ensures within { IfSome result (λ len. len ≤ length text.now) }
{
    let (len, next) = plain_run(place, text);
    if len > 0 && is_over(next, skip(text, len)) {
        Some(len)
    } else {
        None
    }
}

/// Whether a `$` before this byte is itself.
pub fn is_lone_before(byte: u8) -> bool
    ensures { result ≡ spec.is_lone_before byte }
{
    byte == b' ' || byte == b'\t' || byte == b'\n' || byte == b')' || byte == b'}' || byte == b':'
}

/// The plain bytes from the first byte on, with the place behind them.
#[tactic(auto, using(crate::proofs::Views::views))]
pub fn plain_at<'t>(
    alloc: Global,
    place: Place,
    text: &'t [u8],
) -> Result<(Part, Place, &'t [u8]), AstFault>
    requires some { 0 < length text.now }
    requires counted { nesting place + length text.now < 2 ^ 64 }
    ensures gives { let first = slice_index text.now 0 in
        Agrees no_memory (λ x. (part_view x.0, x.1, x.2.now)) result
        (Ok (spec.plain_part (spec.with_first first (spec.plain_run (places.after place first)
        (drop 1 text.now))))) }
    ensures shorter { IfOk result (λ x. length x.2.now < length text.now) }
    ensures nesting { IfOk result (λ x.
        nesting x.1 + length x.2.now ≤ nesting place + length text.now) }
{
    let (len, next) = plain_run(after(place, text[0]), &text[1..]);
    let (plain, rest) = text.split_at(len + 1);
    Ok((Part::Plain(Text::from_bytes(alloc, plain)?), next, rest))
}
