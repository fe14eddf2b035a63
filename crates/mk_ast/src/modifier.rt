//! Modifiers, row by row. Each function gives what it read and the bytes behind it.
ghost use Rattle.std.specs.Prelude.{◌≡◌, ◌-◌, ◌+◌, ◌≤◌, length, IfOk};
ghost use Rattle.mk_bytes.specs.Agrees.{Agrees};
ghost use Rattle.mk_ast.specs.Modifiers as spec;
ghost use Rattle.mk_ast.specs.Places.{nesting};
ghost use Rattle.mk_ast.specs.References as references;
ghost use Rattle.mk_ast.specs.View.{tree_view, mod_view};
ghost use Rattle.mk_ast.specs.declared.fault.AstFault.TheVariants.{NoMemory as no_memory};

use crate::fault::AstFault;
use crate::literal::{flags_at, separator_at, word_tree};
use crate::place::{Place, ends_modifier};
use crate::read::{Level, text_at};
use crate::row::{Argument, Row, is_end, row_of, word_text};
use crate::separator::name_len;
use crate::tree::{ModTree, Tree};
use mk_bytes::{Text, skip};
use std::alloc::Global;

/// A modifier of the reference at `opened`, behind its `:`.
#[cycle(read)]
pub fn modifier_at<'t>(
    alloc: Global,
    level: Level,
    opened: usize,
    round: bool,
    text: &'t [u8],
) -> Result<(ModTree, &'t [u8]), AstFault>
    requires { length text.now ≤ level.total }
    ensures gives { Agrees no_memory (λ x. (mod_view x.0, x.1.now)) result
        (spec.modifier_at (references.ref_at level.total level.depth)
        level.total opened round text.now) }
    ensures shorter { IfOk result (λ x. length x.1.now ≤ length text.now) }
{
    let start = level.total - text.len();
    match row_of(round, text) {
        Row::LeftOut => Err(AstFault::UnknownModifier(start)),
        Row::Empty => Ok((ModTree::Empty, text)),
        Row::Word(word) => {
            let one = word_tree(alloc, word)?;
            Ok((one, skip(text, word_text(word).len())))
        }
        Row::Argument(argument) => argument_at(alloc, level, round, argument, text),
        Row::Subst => subst_at(alloc, level, start, round, skip(text, 1)),
        Row::Separator => separator_at(alloc, start, round, skip(text, 2)),
        Row::Select => select_at(alloc, level, start, round, skip(text, 1)),
        Row::Choose => choose_at(alloc, level, start, round, skip(text, 1)),
        Row::Each => each_at(alloc, level, start, round, skip(text, 1)),
        Row::Suffix => suffix_at(alloc, level, opened, round, text),
    }
}

// The place of the text behind a letter or a word, and how many bytes these are.
fn argument_place(round: bool, argument: Argument) -> (Place, usize)
    ensures place { result.0 ≡ spec.argument_place round argument }
    ensures len { result.1 ≡ spec.argument_len argument }
    ensures nesting { nesting result.0 ≡ 0 }
{
    match argument {
        Argument::Keep | Argument::Without => (Place::Pattern { round }, 1),
        Argument::RangeTo => (Place::Count { round }, 6),
        Argument::IfUndefined | Argument::IfDefined => (Place::Value { round }, 1),
    }
}

// The modifier that a letter or a word makes of its text.
#[tactic(auto, using(crate::proofs::Views::views))]
fn with_argument(argument: Argument, text: Tree) -> ModTree
    ensures { mod_view result ≡ spec.argument_mod argument (tree_view text) }
{
    match argument {
        Argument::Keep => ModTree::Keep(text),
        Argument::Without => ModTree::Without(text),
        Argument::RangeTo => ModTree::Range(Some(text)),
        Argument::IfUndefined => ModTree::IfUndefined(text),
        Argument::IfDefined => ModTree::IfDefined(text),
    }
}

// A letter or a word, and one text up to its end.
#[cycle(read)]
fn argument_at<'t>(
    alloc: Global,
    level: Level,
    round: bool,
    argument: Argument,
    text: &'t [u8],
) -> Result<(ModTree, &'t [u8]), AstFault>
    requires { length text.now ≤ level.total }
    ensures gives { Agrees no_memory (λ x. (mod_view x.0, x.1.now)) result
        (spec.argument_at (references.ref_at level.total level.depth) round argument text.now) }
    ensures shorter { IfOk result (λ x. length x.1.now ≤ length text.now) }
{
    let (place, len) = argument_place(round, argument);
    let (tree, rest) = text_at(alloc, level, place, skip(text, len))?;
    Ok((with_argument(argument, tree), rest))
}

// A text, and past the delimiter that ends it.
#[cycle(read)]
fn closed_at<'t>(
    alloc: Global,
    level: Level,
    start: usize,
    place: Place,
    text: &'t [u8],
) -> Result<(Tree, &'t [u8]), AstFault>
    requires { nesting place + length text.now ≤ level.total }
    ensures gives { Agrees no_memory (λ x. (tree_view x.0, x.1.now)) result
        (spec.closed_at (references.ref_at level.total level.depth) start place text.now) }
    ensures shorter { IfOk result (λ x. length x.1.now ≤ length text.now) }
{
    let (tree, rest) = text_at(alloc, level, place, text)?;
    if rest.is_empty() {
        return Err(AstFault::BadModifier(start));
    }
    Ok((tree, skip(rest, 1)))
}

// `S/from/to/flags`, behind the `S`.
#[cycle(read)]
fn subst_at<'t>(
    alloc: Global,
    level: Level,
    start: usize,
    round: bool,
    text: &'t [u8],
) -> Result<(ModTree, &'t [u8]), AstFault>
    requires { length text.now ≤ level.total }
    ensures gives { Agrees no_memory (λ x. (mod_view x.0, x.1.now)) result
        (spec.subst_at (references.ref_at level.total level.depth) start round text.now) }
    ensures shorter { IfOk result (λ x. length x.1.now ≤ length text.now) }
{
    if text.is_empty() || ends_modifier(round, text[0]) {
        return Err(AstFault::BadModifier(start));
    }
    let delim = text[0];
    let leading = true;
    let (from, rest) = closed_at(
        alloc,
        level,
        start,
        Place::From { delim, leading },
        skip(text, 1),
    )?;
    let (to, rest) = closed_at(alloc, level, start, Place::To { delim }, rest)?;
    let (flags, rest) = flags_at(alloc, start, round, rest)?;
    let one = ModTree::Subst {
        delim,
        from,
        to,
        flags,
    };
    Ok((one, rest))
}

// `[places]`, behind the bracket.
#[cycle(read)]
fn select_at<'t>(
    alloc: Global,
    level: Level,
    start: usize,
    round: bool,
    text: &'t [u8],
) -> Result<(ModTree, &'t [u8]), AstFault>
    requires { length text.now ≤ level.total }
    ensures gives { Agrees no_memory (λ x. (mod_view x.0, x.1.now)) result
        (spec.select_at (references.ref_at level.total level.depth) start round text.now) }
    ensures shorter { IfOk result (λ x. length x.1.now ≤ length text.now) }
{
    let (places, rest) = closed_at(alloc, level, start, Place::Select, text)?;
    if !is_end(round, rest) {
        return Err(AstFault::BadModifier(start));
    }
    Ok((ModTree::Select(places), rest))
}

// `?first:second`, behind the `?`.
#[cycle(read)]
fn choose_at<'t>(
    alloc: Global,
    level: Level,
    start: usize,
    round: bool,
    text: &'t [u8],
) -> Result<(ModTree, &'t [u8]), AstFault>
    requires { length text.now ≤ level.total }
    ensures gives { Agrees no_memory (λ x. (mod_view x.0, x.1.now)) result
        (spec.choose_at (references.ref_at level.total level.depth) start round text.now) }
    ensures shorter { IfOk result (λ x. length x.1.now ≤ length text.now) }
{
    let (first, rest) = closed_at(alloc, level, start, Place::IfTrue { round }, text)?;
    let (second, rest) = text_at(alloc, level, Place::IfFalse { round }, rest)?;
    if !is_end(round, rest) {
        return Err(AstFault::BadModifier(start));
    }
    Ok((ModTree::Choose(first, second), rest))
}

// `@name@body@`, behind the first `@`.
#[cycle(read)]
fn each_at<'t>(
    alloc: Global,
    level: Level,
    start: usize,
    round: bool,
    text: &'t [u8],
) -> Result<(ModTree, &'t [u8]), AstFault>
    requires { length text.now ≤ level.total }
    ensures gives { Agrees no_memory (λ x. (mod_view x.0, x.1.now)) result
        (spec.each_at (references.ref_at level.total level.depth) start round text.now) }
    ensures shorter { IfOk result (λ x. length x.1.now ≤ length text.now) }
{
    let Some(len) = name_len(text) else {
        return Err(AstFault::BadModifier(start));
    };
    let name = Text::from_bytes(alloc, &text[..len])?;
    let (body, rest) = closed_at(alloc, level, start, Place::Body, skip(text, len + 1))?;
    if !is_end(round, rest) {
        return Err(AstFault::BadModifier(start));
    }
    Ok((ModTree::Each(name, body), rest))
}

// `old=new`, and the end of what is no modifier.
#[cycle(read)]
fn suffix_at<'t>(
    alloc: Global,
    level: Level,
    opened: usize,
    round: bool,
    text: &'t [u8],
) -> Result<(ModTree, &'t [u8]), AstFault>
    requires { length text.now ≤ level.total }
    ensures gives { Agrees no_memory (λ x. (mod_view x.0, x.1.now)) result
        (spec.suffix_at (references.ref_at level.total level.depth)
        (level.total - length text.now) opened round text.now) }
    ensures shorter { IfOk result (λ x. length x.1.now ≤ length text.now) }
{
    let start = level.total - text.len();
    let (old, rest) = text_at(alloc, level, Place::Old { round }, text)?;
    if rest.is_empty() {
        return Err(AstFault::Unclosed(opened));
    }
    if rest[0] != b'=' {
        return Err(AstFault::UnknownModifier(start));
    }
    let (new, rest) = text_at(alloc, level, Place::New { round }, skip(rest, 1))?;
    Ok((ModTree::Suffix(old, new), rest))
}
