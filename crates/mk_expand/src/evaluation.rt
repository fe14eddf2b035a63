//! The value of a tree: the values of its parts, joined.
ghost use Rattle.std.specs.Prelude.{◌≡◌, ◌∷◌, [], OnOk};
ghost use Rattle.mk_ast.specs.Tree.{end, part, plain};
ghost use Rattle.mk_ast.specs.View.{mods_view, part_view, tree_view};
ghost use Rattle.mk_values.specs.Calls.{AsksOf, Finds, FindsAs, Keeps};
ghost use Rattle.mk_values.specs.Parts as joint;
ghost use Rattle.mk_values.specs.Steps.{named};
ghost use Rattle.mk_values.specs.Value as spec;
ghost use Rattle.mk_values.specs.Value.{found_at};

use crate::modifiers::chained;
use mk_ast::{ModTrees, Part, Tree, parse};
use mk_bytes::{Text, is_among};
use mk_values::{
    ExpandFault, Facts, Found, MAX_TEXT, Names, Run, append, append_found, double, has_dollar,
    known, lent_word, note, nothing_found, open_reference, plain_bytes, plain_found, plain_value,
    raw_above,
};

/// The value of a text, which is read as a whole first.
#[cycle(value)]
pub fn text_value<F: Facts>(
    names: &Names<'_>,
    run: &mut Run,
    facts: &mut F,
    room: usize,
    keep: bool,
    text: &[u8],
) -> Result<Text, ExpandFault>
    ensures value { Finds F.Facts names.now keep run.old run.new facts.old facts.new result
        (λ c p. joint.text_value (found_at room) c p text.now) }
    ensures run { OnOk result (Keeps run.old run.new) }
    ensures facts { AsksOf F.Facts facts.old facts.new result }
{
    if !has_dollar(text) {
        return plain_value(names.alloc, text);
    }
    let tree = parse(names.alloc, text)?;
    tree_value(names, run, facts, room, keep, &tree)
}

/// The value of a tree.
#[cycle(value)]
pub fn tree_value<F: Facts>(
    names: &Names<'_>,
    run: &mut Run,
    facts: &mut F,
    room: usize,
    keep: bool,
    tree: &Tree,
) -> Result<Text, ExpandFault>
    ensures value { Finds F.Facts names.now keep run.old run.new facts.old facts.new result
        (λ c p. joint.tree_value (found_at room) c p (tree_view tree.now)) }
    ensures run { OnOk result (Keeps run.old run.new) }
    ensures facts { AsksOf F.Facts facts.old facts.new result }
{
    let text = Text::new(names.alloc);
    joined(names, run, facts, room, keep, text, tree.as_slice())
}

/// The values of parts, behind the text so far.
#[cycle(value)]
pub fn joined<F: Facts>(
    names: &Names<'_>,
    run: &mut Run,
    facts: &mut F,
    room: usize,
    keep: bool,
    text: Text,
    parts: &[Part],
) -> Result<Text, ExpandFault>
    ensures value { Finds F.Facts names.now keep run.old run.new facts.old facts.new result
        (λ c p. joint.joined (found_at room) c p text (tree_view parts.now)) }
    ensures run { OnOk result (Keeps run.old run.new) }
    ensures facts { AsksOf F.Facts facts.old facts.new result }
{
    let mut text = text;
    for part in parts {
        append_part(names, run, facts, room, keep, &mut text, part)?;
    }
    Ok(text)
}

/// A part's value, behind the text so far.
#[cycle(value)]
pub fn append_part<F: Facts>(
    names: &Names<'_>,
    run: &mut Run,
    facts: &mut F,
    room: usize,
    keep: bool,
    text: &mut Text,
    part: &Part,
) -> Result<(), ExpandFault>
    ensures value { FindsAs F.Facts names.now keep run.old run.new facts.old facts.new
        (λ done. text.new) result (λ c p. joint.part_appended (found_at room) c p text.old
        (part_view part.now)) }
    ensures run { OnOk result (Keeps run.old run.new) }
    ensures facts { AsksOf F.Facts facts.old facts.new result }
{
    match part {
        Part::Plain(bytes) => append(text, bytes.bytes()),
        Part::Escaped(byte) => append(text, &[*byte]),
        Part::Double => append(text, double(keep)),
        Part::Lone => append(text, b"$"),
        Part::Short(_) => append_reference(names, run, facts, room, keep, text, part),
        Part::Named {
            round: _,
            name: _,
            mods: _,
        } => append_reference(names, run, facts, room, keep, text, part),
        Part::Ref {
            round: _,
            name: _,
            mods: _,
        } => append_reference(names, run, facts, room, keep, text, part),
    }
}

// A reference's value, behind the text so far.
#[cycle(value)]
fn append_reference<F: Facts>(
    names: &Names<'_>,
    run: &mut Run,
    facts: &mut F,
    room: usize,
    keep: bool,
    text: &mut Text,
    part: &Part,
) -> Result<(), ExpandFault>
    ensures value { FindsAs F.Facts names.now keep run.old run.new facts.old facts.new
        (λ done. text.new) result (λ c p. joint.reference_appended (found_at room) c p text.old
        (part_view part.now)) }
    ensures run { OnOk result (Keeps run.old run.new) }
    ensures facts { AsksOf F.Facts facts.old facts.new result }
{
    if let Some((name, word)) = lent_word(run.open_names.as_slice(), run.bound.as_slice(), part) {
        open_reference(&mut run.references, room)?;
        note(names.alloc, &mut run.noted, name)?;
        return append(text, word);
    }
    let found = found(names, run, facts, room, keep, part)?;
    append_found(names.alloc, text, keep, &found, part)
}

/// What a part finds that is a reference, which is counted and opened first.
#[cycle(value)]
pub fn found<F: Facts>(
    names: &Names<'_>,
    run: &mut Run,
    facts: &mut F,
    room: usize,
    keep: bool,
    part: &Part,
) -> Result<Found, ExpandFault>
    ensures value { Finds F.Facts names.now keep run.old run.new facts.old facts.new result
        (λ c p. found_at room c p (part_view part.now)) }
    ensures run { OnOk result (Keeps run.old run.new) }
    ensures facts { AsksOf F.Facts facts.old facts.new result }
{
    open_reference(&mut run.references, room)?;
    found_inside(names, run, facts, room - 1, keep, part)
}

// What a part finds that is an open reference.
#[cycle(value)]
fn found_inside<F: Facts>(
    names: &Names<'_>,
    run: &mut Run,
    facts: &mut F,
    room: usize,
    keep: bool,
    part: &Part,
) -> Result<Found, ExpandFault>
    ensures value { Finds F.Facts names.now keep run.old run.new facts.old facts.new result
        (λ c p. spec.found (found_at room) c p (part_view part.now)) }
    ensures run { OnOk result (Keeps run.old run.new) }
    ensures facts { AsksOf F.Facts facts.old facts.new result }
{
    match part {
        Part::Short(byte) => variable(names, run, facts, room, keep, &[*byte]),
        Part::Named {
            round: _,
            name,
            mods,
        } => plain_reference(names, run, facts, room, keep, name.bytes(), mods),
        Part::Ref {
            round: _,
            name,
            mods,
        } => reference(names, run, facts, room, keep, name, mods),
        _ => Ok(nothing_found(names.alloc)),
    }
}

// What a name of plain bytes with modifiers finds. The name is its own value.
#[cycle(value)]
fn plain_reference<F: Facts>(
    names: &Names<'_>,
    run: &mut Run,
    facts: &mut F,
    room: usize,
    keep: bool,
    name: &[u8],
    mods: &ModTrees,
) -> Result<Found, ExpandFault>
    ensures value { Finds F.Facts names.now keep run.old run.new facts.old facts.new result
        (λ c p. spec.reference (found_at room) c p (part (plain name.now) end)
        (mods_view mods.now)) }
    ensures run { OnOk result (Keeps run.old run.new) }
    ensures facts { AsksOf F.Facts facts.old facts.new result }
{
    if name.len() > MAX_TEXT {
        return Err(ExpandFault::TooLong);
    }
    named(names, run, facts, room, keep, name, mods)
}

// What a name with modifiers finds. Its name is expanded without `keep`.
#[cycle(value)]
fn reference<F: Facts>(
    names: &Names<'_>,
    run: &mut Run,
    facts: &mut F,
    room: usize,
    keep: bool,
    name: &Tree,
    mods: &ModTrees,
) -> Result<Found, ExpandFault>
    ensures value { Finds F.Facts names.now keep run.old run.new facts.old facts.new result
        (λ c p. spec.reference (found_at room) c p (tree_view name.now) (mods_view mods.now)) }
    ensures run { OnOk result (Keeps run.old run.new) }
    ensures facts { AsksOf F.Facts facts.old facts.new result }
{
    if let Some(name) = plain_bytes(name.as_slice()) {
        return named(names, run, facts, room, keep, name, mods);
    }
    let name = tree_value(names, run, facts, room, false, name)?;
    named(names, run, facts, room, keep, name.bytes(), mods)
}

// What a name finds, behind its modifiers.
#[cycle(value)]
fn named<F: Facts>(
    names: &Names<'_>,
    run: &mut Run,
    facts: &mut F,
    room: usize,
    keep: bool,
    name: &[u8],
    mods: &ModTrees,
) -> Result<Found, ExpandFault>
    ensures value { Finds F.Facts names.now keep run.old run.new facts.old facts.new result
        (λ c p. named (found_at room) c p name.now (mods_view mods.now)) }
    ensures run { OnOk result (Keeps run.old run.new) }
    ensures facts { AsksOf F.Facts facts.old facts.new result }
{
    let found = variable(names, run, facts, room, keep, name)?;
    chained(names, run, facts, room, name, found, mods)
}

// The value of a variable's raw value, whose name is kept. One without any `$` is its own value.
#[cycle(value)]
fn variable<F: Facts>(
    names: &Names<'_>,
    run: &mut Run,
    facts: &mut F,
    room: usize,
    keep: bool,
    name: &[u8],
) -> Result<Found, ExpandFault>
    ensures value { Finds F.Facts names.now keep run.old run.new facts.old facts.new result
        (λ c p. spec.variable (found_at room) c p name.now) }
    ensures run { OnOk result (Keeps run.old run.new) }
    ensures facts { AsksOf F.Facts facts.old facts.new result }
{
    note(names.alloc, &mut run.noted, name)?;
    if is_among(run.open_names.as_slice(), name) {
        return Err(ExpandFault::Recursive(Text::from_bytes(names.alloc, name)?));
    }
    if let Some(raw) = raw_above(names, run.bound.as_slice(), name)? {
        if !has_dollar(raw.bytes()) {
            return plain_found(raw);
        }
        return opened_value(names, run, facts, room, keep, name, raw.bytes());
    }
    match known(names.scopes, name) {
        Some(raw) => known_value(names, run, facts, room, keep, name, raw),
        None => Ok(nothing_found(names.alloc)),
    }
}

// The value of a raw value of a class.
#[cycle(value)]
fn known_value<F: Facts>(
    names: &Names<'_>,
    run: &mut Run,
    facts: &mut F,
    room: usize,
    keep: bool,
    name: &[u8],
    raw: &Text,
) -> Result<Found, ExpandFault>
    ensures value { Finds F.Facts names.now keep run.old run.new facts.old facts.new result
        (λ c p. spec.opened_value (found_at room) c p name.now raw.now) }
    ensures run { OnOk result (Keeps run.old run.new) }
    ensures facts { AsksOf F.Facts facts.old facts.new result }
{
    if !has_dollar(raw.bytes()) {
        return plain_found(raw.copy(names.alloc)?);
    }
    opened_value(names, run, facts, room, keep, name, raw.bytes())
}

// The value of a raw value, while its name is open.
#[cycle(value)]
fn opened_value<F: Facts>(
    names: &Names<'_>,
    run: &mut Run,
    facts: &mut F,
    room: usize,
    keep: bool,
    name: &[u8],
    raw: &[u8],
) -> Result<Found, ExpandFault>
    ensures value { Finds F.Facts names.now keep run.old run.new facts.old facts.new result
        (λ c p. spec.opened_value (found_at room) c p name.now raw.now) }
    ensures run { OnOk result (Keeps run.old run.new) }
    ensures facts { AsksOf F.Facts facts.old facts.new result }
{
    run.open_names.push(Text::from_bytes(names.alloc, name)?)?;
    let value = text_value(names, run, facts, room, keep, raw)?;
    run.open_names.drop_last();
    Ok(Found {
        value,
        defined: true,
    })
}
