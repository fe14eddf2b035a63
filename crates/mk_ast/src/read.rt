//! The parser. It goes forwards only, and each function gives what it read and the bytes behind it.
//! At most 256 references are open at once, which bounds how deep the functions call one another.
ghost use Rattle.std.specs.Prelude.{◌+◌, ◌<◌, ◌≤◌, length, slice_index, drop, IfOk};
ghost use Rattle.mk_bytes.specs.Agrees.{Agrees};
ghost use Rattle.mk_ast.specs.Places.{nesting};
ghost use Rattle.mk_ast.specs.References as references;
ghost use Rattle.mk_ast.specs.Text as texts;
ghost use Rattle.mk_ast.specs.View.{part_view, tree_view, mods_view};
ghost use Rattle.mk_ast.specs.declared.fault.AstFault.TheVariants.{NoMemory as no_memory};

use crate::fault::AstFault;
use crate::modifier::modifier_at;
use crate::place::{Place, after, is_anchor, is_escape, is_over};
use crate::run::{is_lone_before, plain_at, plain_text_len};
use crate::tree::{ModTrees, Part, Tree};
use mk_bytes::{Items, Text, skip};
use std::alloc::Global;

/// How deep a reading is in a text of `total` bytes: `depth` more references may be open at once.
#[derive(Clone, Copy)]
pub struct Level {
    pub total: usize,
    pub depth: usize,
}

// Most texts have one part, and most references one modifier at most: a list of one has room for
// one.
fn part_room(place: Place, text: &[u8]) -> usize {
    if is_over(place, text) { 0 } else { 1 }
}

fn mod_room(text: &[u8]) -> usize {
    if text.starts_with(b":") { 1 } else { 0 }
}

/// The text up to its end.
#[cycle(read)]
pub fn text_at<'t>(
    alloc: Global,
    level: Level,
    place: Place,
    text: &'t [u8],
) -> Result<(Tree, &'t [u8]), AstFault>
    requires { nesting place + length text.now ≤ level.total }
    ensures gives { Agrees no_memory (λ x. (tree_view x.0, x.1.now)) result
        (texts.text_in (references.ref_at level.total level.depth) place text.now) }
    ensures shorter { IfOk result (λ x. length x.1.now ≤ length text.now) }
{
    let mut tree = Items::new(alloc, part_room(place, text))?;
    let mut place = place;
    let mut rest = text;
    'parts: while !is_over(place, rest) {
        let (part, next, left) = part_at(alloc, level, place, rest)?;
        tree.push(part)?;
        place = next;
        rest = left;
    }
    Ok((tree, rest))
}

// The part that a text begins with, and the place behind it.
#[cycle(read)]
fn part_at<'t>(
    alloc: Global,
    level: Level,
    place: Place,
    text: &'t [u8],
) -> Result<(Part, Place, &'t [u8]), AstFault>
    requires some { 0 < length text.now }
    requires counted { nesting place + length text.now ≤ level.total }
    ensures gives { Agrees no_memory (λ x. (part_view x.0, x.1, x.2.now)) result
        (texts.part_at (references.ref_at level.total level.depth) place (slice_index text.now 0)
        (drop 1 text.now)) }
    ensures shorter { IfOk result (λ x. length x.2.now < length text.now) }
    ensures nesting { IfOk result (λ x.
        nesting x.1 + length x.2.now ≤ nesting place + length text.now) }
{
    let first = text[0];
    let behind = &text[1..];
    if first == b'$' {
        let (part, rest) = dollar_at(alloc, level, place, behind)?;
        return Ok((part, after(place, first), rest));
    }
    if is_escape(place, first, behind) {
        return Ok((Part::Escaped(behind[0]), after(place, first), &behind[1..]));
    }
    plain_at(alloc, place, text)
}

/// What a `$` begins, behind it.
#[cycle(read)]
pub fn dollar_at<'t>(
    alloc: Global,
    level: Level,
    place: Place,
    text: &'t [u8],
) -> Result<(Part, &'t [u8]), AstFault>
    requires { length text.now + 1 ≤ level.total }
    ensures gives { Agrees no_memory (λ x. (part_view x.0, x.1.now)) result
        (texts.dollar_at (references.ref_at level.total level.depth) place text.now) }
    ensures shorter { IfOk result (λ x. length x.1.now ≤ length text.now) }
{
    if text.is_empty() {
        return Ok((Part::Lone, text));
    }
    let byte = text[0];
    let behind = skip(text, 1);
    if is_anchor(place, byte) || is_lone_before(byte) {
        return Ok((Part::Lone, text));
    }
    if byte == b'$' {
        return Ok((Part::Double, behind));
    }
    if byte == b'{' {
        return ref_at(alloc, level, false, behind);
    }
    if byte == b'(' {
        return ref_at(alloc, level, true, behind);
    }
    Ok((Part::Short(byte), behind))
}

// A reference, behind its opener.
#[cycle(read)]
fn ref_at<'t>(
    alloc: Global,
    level: Level,
    round: bool,
    text: &'t [u8],
) -> Result<(Part, &'t [u8]), AstFault>
    requires { length text.now + 2 ≤ level.total }
    ensures gives { Agrees no_memory (λ x. (part_view x.0, x.1.now)) result
        (references.ref_at level.total level.depth round text.now) }
    ensures shorter { IfOk result (λ x. length x.1.now ≤ length text.now) }
{
    let opened = level.total - (text.len() + 2);
    if level.depth == 0 {
        return Err(AstFault::TooDeep(opened));
    }
    let inner = Level {
        total: level.total,
        depth: level.depth - 1,
    };
    let place = Place::Name { round, nested: 0 };
    if let Some(len) = plain_text_len(place, text) {
        let (name, rest) = text.split_at(len);
        let name = Text::from_bytes(alloc, name)?;
        let (mods, rest) = mods_at(alloc, inner, opened, round, rest)?;
        return Ok((Part::Named { round, name, mods }, rest));
    }
    let (name, rest) = text_at(alloc, inner, place, text)?;
    let (mods, rest) = mods_at(alloc, inner, opened, round, rest)?;
    Ok((Part::Ref { round, name, mods }, rest))
}

/// The modifiers of the reference at `opened`, up to its closer, which is passed.
#[cycle(read)]
pub fn mods_at<'t>(
    alloc: Global,
    level: Level,
    opened: usize,
    round: bool,
    text: &'t [u8],
) -> Result<(ModTrees, &'t [u8]), AstFault>
    requires { length text.now ≤ level.total }
    ensures gives { Agrees no_memory (λ x. (mods_view x.0, x.1.now)) result
        (references.mods_in (references.ref_at level.total level.depth)
        level.total opened round text.now) }
    ensures shorter { IfOk result (λ x. length x.1.now ≤ length text.now) }
{
    let mut mods = Items::new(alloc, mod_room(text))?;
    let mut rest = text;
    'mods: while !rest.is_empty() {
        let behind = skip(rest, 1);
        if rest[0] != b':' {
            return Ok((mods, behind));
        }
        let (one, left) = modifier_at(alloc, level, opened, round, behind)?;
        mods.push(one)?;
        rest = left;
    }
    Err(AstFault::Unclosed(opened))
}
