//! Trees, written as texts.
ghost use Rattle.std.specs.Prelude.{◌≡◌, ◌++◌, [], ◌∷◌, IfOk, OnOk};
ghost use Rattle.mk_bytes.specs.Bytes.{at_sign, square_close, square_open};
ghost use Rattle.mk_ast.specs.References.{tree_of_text};
ghost use Rattle.mk_ast.specs.Spell as spec;
ghost use Rattle.mk_ast.specs.Tree.{Tree as PlainTree};
ghost use Rattle.mk_ast.specs.View.{part_view, tree_view, mod_view, mods_view};
ghost use Rattle.mk_ast.specs.WellFormed.{IsWellFormed};

use crate::place::{closer, opener};
use crate::tree::{ModTree, ModTrees, Part, Tree};
use mk_bytes::{NoMemory, Text};
use std::alloc::Global;

/// The text of a tree. Where [`parse`](crate::parse) gave the tree, it is the text that was parsed,
/// and parsing the text of a well-formed tree gives that tree.
pub fn print(alloc: Global, tree: &Tree) -> Result<Text, NoMemory>
    ensures spelled { IfOk result (λ text. text ≡ spec.spell (tree_view tree.now)) }
    ensures read { IfOk result (λ text.
        IsWellFormed (tree_view tree.now) → tree_of_text text ≡ Ok (tree_view tree.now)) }
    // So no other well-formed tree has this text.
    ensures alone { IfOk result (λ text. (other : PlainTree)
        → IsWellFormed other → spec.spell other ≡ text → IsWellFormed (tree_view tree.now)
        → other ≡ tree_view tree.now) }
{
    let mut out = Text::new(alloc);
    put_tree(&mut out, tree)?;
    Ok(out)
}

/// The text of one part of a tree.
pub fn print_part(alloc: Global, part: &Part) -> Result<Text, NoMemory>
    ensures { IfOk result (λ text. text ≡ spec.spell_part (part_view part.now)) }
{
    let mut out = Text::new(alloc);
    put_part(&mut out, part)?;
    Ok(out)
}

fn put(out: &mut Text, bytes: &[u8]) -> Result<(), NoMemory>
    ensures { OnOk result (out.new ≡ out.old ++ bytes.now) }
{
    out.push(bytes)?;
    Ok(())
}

#[cycle(put)]
fn put_tree(out: &mut Text, tree: &Tree) -> Result<(), NoMemory>
    ensures { OnOk result (out.new ≡ out.old ++ spec.spell (tree_view tree.now)) }
{
    for part in tree.as_slice() {
        put_part(out, part)?;
    }
    Ok(())
}

#[cycle(put)]
#[tactic(auto, using(crate::proofs::Spells::spells))]
fn put_part(out: &mut Text, part: &Part) -> Result<(), NoMemory>
    ensures { OnOk result (out.new ≡ out.old ++ spec.spell_part (part_view part.now)) }
{
    match part {
        Part::Plain(text) => put(out, text.bytes()),
        Part::Escaped(byte) => put(out, &[b'\\', *byte]),
        Part::Double => put(out, b"$$"),
        Part::Lone => put(out, b"$"),
        Part::Short(byte) => put(out, &[b'$', *byte]),
        Part::Named { round, name, mods } => {
            out.push(&[b'$', opener(*round)])?;
            out.push(name.bytes())?;
            put_mods(out, mods)?;
            out.push(&[closer(*round)])?;
            Ok(())
        }
        Part::Ref { round, name, mods } => {
            out.push(&[b'$', opener(*round)])?;
            put_tree(out, name)?;
            put_mods(out, mods)?;
            out.push(&[closer(*round)])?;
            Ok(())
        }
    }
}

#[cycle(put)]
fn put_mods(out: &mut Text, mods: &ModTrees) -> Result<(), NoMemory>
    ensures { OnOk result (out.new ≡ out.old ++ spec.spell_mods (mods_view mods.now)) }
{
    for one in mods.as_slice() {
        out.push(b":")?;
        put_mod(out, one)?;
    }
    Ok(())
}

#[cycle(put)]
#[tactic(auto, using(crate::proofs::Spells::spells))]
fn put_mod(out: &mut Text, one: &ModTree) -> Result<(), NoMemory>
    ensures { OnOk result (out.new ≡ out.old ++ spec.spell_mod (mod_view one.now)) }
{
    match one {
        ModTree::Keep(text) => put_after(out, b"M", text),
        ModTree::Without(text) => put_after(out, b"N", text),
        ModTree::Subst {
            delim,
            from,
            to,
            flags,
        } => {
            out.push(&[b'S', *delim])?;
            put_closed(out, from, *delim)?;
            put_closed(out, to, *delim)?;
            out.push(flags.bytes())?;
            Ok(())
        }
        ModTree::Head => put(out, b"H"),
        ModTree::Tail => put(out, b"T"),
        ModTree::Root => put(out, b"R"),
        ModTree::Extension => put(out, b"E"),
        ModTree::Sort => put(out, b"O"),
        ModTree::SortBack => put(out, b"Or"),
        ModTree::Unique => put(out, b"u"),
        ModTree::Lower => put(out, b"tl"),
        ModTree::Upper => put(out, b"tu"),
        ModTree::Quote => put(out, b"Q"),
        ModTree::QuoteDollar => put(out, b"q"),
        ModTree::Separator(written) => put_both(out, b"ts", written.bytes()),
        ModTree::OneWord(written) => put(out, written.bytes()),
        ModTree::ManyWords(written) => put(out, written.bytes()),
        ModTree::Select(places) => put_select(out, places),
        ModTree::Range(count) => match count {
            None => put(out, b"range"),
            Some(text) => put_after(out, b"range=", text),
        },
        ModTree::IfUndefined(text) => put_after(out, b"U", text),
        ModTree::IfDefined(text) => put_after(out, b"D", text),
        ModTree::NameOf => put(out, b"L"),
        ModTree::Choose(first, second) => {
            put_after(out, b"?", first)?;
            put_after(out, b":", second)?;
            Ok(())
        }
        ModTree::Each(name, body) => put_each(out, name.bytes(), body),
        ModTree::Suffix(old, new) => {
            put_closed(out, old, b'=')?;
            put_tree(out, new)?;
            Ok(())
        }
        ModTree::Empty => put(out, b""),
    }
}

// The places of `:[ ]`.
#[cycle(put)]
fn put_select(out: &mut Text, places: &Tree) -> Result<(), NoMemory>
    ensures { OnOk result (out.new
        ≡ out.old ++ (square_open ∷ (spec.spell (tree_view places.now) ++ square_close ∷ []))) }
{
    out.push(b"[")?;
    put_closed(out, places, b']')?;
    Ok(())
}

// The variable and the body of `:@`.
#[cycle(put)]
fn put_each(out: &mut Text, name: &[u8], body: &Tree) -> Result<(), NoMemory>
    ensures { OnOk result (out.new ≡ out.old ++ (at_sign
        ∷ (name.now ++ at_sign ∷ (spec.spell (tree_view body.now) ++ at_sign ∷ [])))) }
{
    put_both(out, b"@", name)?;
    out.push(b"@")?;
    put_closed(out, body, b'@')?;
    Ok(())
}

fn put_both(out: &mut Text, first: &[u8], second: &[u8]) -> Result<(), NoMemory>
    ensures { OnOk result (out.new ≡ out.old ++ (first.now ++ second.now)) }
{
    out.push(first)?;
    out.push(second)?;
    Ok(())
}

#[cycle(put)]
fn put_after(out: &mut Text, start: &[u8], text: &Tree) -> Result<(), NoMemory>
    ensures { OnOk result (out.new ≡ out.old ++ (start.now ++ spec.spell (tree_view text.now))) }
{
    out.push(start)?;
    put_tree(out, text)?;
    Ok(())
}

#[cycle(put)]
fn put_closed(out: &mut Text, text: &Tree, delim: u8) -> Result<(), NoMemory>
    ensures { OnOk result (out.new ≡ out.old ++ (spec.spell (tree_view text.now) ++ delim ∷ [])) }
{
    put_tree(out, text)?;
    out.push(&[delim])?;
    Ok(())
}
