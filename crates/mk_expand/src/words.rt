//! The modifiers of words, with their texts evaluated.
ghost use Rattle.std.specs.Prelude.{◌≡◌, false, Some, OnOk};
ghost use Rattle.mk_ast.specs.View.{mod_view, part_view, tree_view};
ghost use Rattle.mk_values.specs.Calls.{AsksOf, Finds, FindsAs, Keeps};
ghost use Rattle.mk_values.specs.Chains as spec;
ghost use Rattle.mk_values.specs.Parts.{part_appended, tree_value};
ghost use Rattle.mk_values.specs.Substitutions.{old_in_part, old_in_tree, without_anchors};
ghost use Rattle.mk_values.specs.Value.{found_at};
ghost use Rattle.mk_mods.specs.declared.modifier.Mod.TheVariants.{Range};

use crate::evaluation::{append_part, joined, tree_value};
use mk_ast::{ModTree, Part, Tree};
use mk_bytes::Text;
use mk_mods::Mod;
use mk_values::{
    ExpandFault, Facts, Names, Run, append, append_with_old, at_end, at_start, has_flag, starting,
    textless, without_end,
};

/// A modifier with its texts evaluated, from left to right.
#[cycle(value)]
#[tactic(auto, using(mk_ast::proofs::Views::views))]
pub fn modifier<F: Facts>(
    names: &Names<'_>,
    run: &mut Run,
    facts: &mut F,
    room: usize,
    one: &ModTree,
) -> Result<Option<Mod>, ExpandFault>
    ensures value { Finds F.Facts names.now false run.old run.new facts.old facts.new result
        (λ c p. spec.mod_of (found_at room) c p (mod_view one.now)) }
    ensures run { OnOk result (Keeps run.old run.new) }
    ensures facts { AsksOf F.Facts facts.old facts.new result }
{
    match one {
        ModTree::Keep(pattern) => {
            Ok(Some(Mod::Keep(tree_value(names, run, facts, room, false, pattern)?)))
        }
        ModTree::Without(pattern) => {
            Ok(Some(Mod::Without(tree_value(names, run, facts, room, false, pattern)?)))
        }
        ModTree::Subst {
            delim: _,
            from,
            to,
            flags,
        } => Ok(Some(substitution(names, run, facts, room, from, to, flags.bytes())?)),
        ModTree::Select(places) => {
            Ok(Some(Mod::Select(tree_value(names, run, facts, room, false, places)?)))
        }
        ModTree::Range(Some(number)) => Ok(Some(range(names, run, facts, room, number)?)),
        ModTree::Suffix(from, to) => Ok(Some(suffix(names, run, facts, room, from, to)?)),
        _ => Ok(textless(names.alloc, one)?),
    }
}

// `:S` with its texts evaluated.
#[cycle(value)]
fn substitution<F: Facts>(
    names: &Names<'_>,
    run: &mut Run,
    facts: &mut F,
    room: usize,
    from: &Tree,
    to: &Tree,
    flags: &[u8],
) -> Result<Mod, ExpandFault>
    ensures value { FindsAs F.Facts names.now false run.old run.new facts.old facts.new
        (λ found. Some found) result (λ c p. spec.subst_of (found_at room) c p (tree_view from.now)
        (tree_view to.now) flags.now) }
    ensures run { OnOk result (Keeps run.old run.new) }
    ensures facts { AsksOf F.Facts facts.old facts.new result }
{
    let old = old_text(names, run, facts, room, from)?;
    let new = new_text(names, run, facts, room, old.bytes(), to)?;
    let parts = from.as_slice();
    Ok(Mod::Subst {
        from: old,
        to: new,
        at_start: at_start(parts),
        at_end: at_end(parts),
        all: has_flag(flags, b'g'),
        once: has_flag(flags, b'1'),
        whole: has_flag(flags, b'W'),
    })
}

// `:range=` with its text evaluated.
#[cycle(value)]
fn range<F: Facts>(
    names: &Names<'_>,
    run: &mut Run,
    facts: &mut F,
    room: usize,
    number: &Tree,
) -> Result<Mod, ExpandFault>
    ensures value { FindsAs F.Facts names.now false run.old run.new facts.old facts.new
        (λ found. Some found) result (λ c p. spec.with_text (found_at room) c p
        (tree_view number.now) Range) }
    ensures run { OnOk result (Keeps run.old run.new) }
    ensures facts { AsksOf F.Facts facts.old facts.new result }
{
    let text = tree_value(names, run, facts, room, false, number)?;
    Ok(Mod::Range(text))
}

// `:old=new` with its texts evaluated.
#[cycle(value)]
fn suffix<F: Facts>(
    names: &Names<'_>,
    run: &mut Run,
    facts: &mut F,
    room: usize,
    from: &Tree,
    to: &Tree,
) -> Result<Mod, ExpandFault>
    ensures value { FindsAs F.Facts names.now false run.old run.new facts.old facts.new
        (λ found. Some found) result (λ c p. spec.suffix_of (found_at room) c p (tree_view from.now)
        (tree_view to.now)) }
    ensures run { OnOk result (Keeps run.old run.new) }
    ensures facts { AsksOf F.Facts facts.old facts.new result }
{
    let old = tree_value(names, run, facts, room, false, from)?;
    let new = tree_value(names, run, facts, room, false, to)?;
    Ok(Mod::Suffix(old, new))
}

// What `:S` replaces, without its anchors.
#[cycle(value)]
#[tactic(auto, using(mk_values::proofs::ValueLemmas::old_text_start, mk_values::proofs::ValueLemmas::old_text_none))]
fn old_text<F: Facts>(
    names: &Names<'_>,
    run: &mut Run,
    facts: &mut F,
    room: usize,
    from: &Tree,
) -> Result<Text, ExpandFault>
    ensures value { Finds F.Facts names.now false run.old run.new facts.old facts.new result
        (λ c p. tree_value (found_at room) c p (without_anchors (tree_view from.now))) }
    ensures run { OnOk result (Keeps run.old run.new) }
    ensures facts { AsksOf F.Facts facts.old facts.new result }
{
    let parts = without_end(from.as_slice());
    let mut text = Text::new(names.alloc);
    match starting(parts) {
        Some((bytes, rest)) => {
            append(&mut text, bytes)?;
            joined(names, run, facts, room, false, text, rest)
        }
        None => joined(names, run, facts, room, false, text, parts),
    }
}

// What `:S` puts in its place.
#[cycle(value)]
fn new_text<F: Facts>(
    names: &Names<'_>,
    run: &mut Run,
    facts: &mut F,
    room: usize,
    old: &[u8],
    to: &Tree,
) -> Result<Text, ExpandFault>
    ensures value { Finds F.Facts names.now false run.old run.new facts.old facts.new result
        (λ c p. tree_value (found_at room) c p (old_in_tree old.now (tree_view to.now))) }
    ensures run { OnOk result (Keeps run.old run.new) }
    ensures facts { AsksOf F.Facts facts.old facts.new result }
{
    let mut text = Text::new(names.alloc);
    for part in to.as_slice() {
        append_new(names, run, facts, room, &mut text, old, part)?;
    }
    Ok(text)
}

// A part of what `:S` puts in, behind the text so far.
#[cycle(value)]
fn append_new<F: Facts>(
    names: &Names<'_>,
    run: &mut Run,
    facts: &mut F,
    room: usize,
    text: &mut Text,
    old: &[u8],
    part: &Part,
) -> Result<(), ExpandFault>
    ensures value { FindsAs F.Facts names.now false run.old run.new facts.old facts.new
        (λ done. text.new) result (λ c p. part_appended (found_at room) c p text.old
        (old_in_part old.now (part_view part.now))) }
    ensures run { OnOk result (Keeps run.old run.new) }
    ensures facts { AsksOf F.Facts facts.old facts.new result }
{
    match part {
        Part::Plain(bytes) => append_with_old(text, bytes.bytes(), old),
        _ => append_part(names, run, facts, room, false, text, part),
    }
}
