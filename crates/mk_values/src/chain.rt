//! What a reference has found, and the modifiers whose texts are evaluated.
ghost use Rattle.std.specs.Prelude.{◌≡◌, ◌≤◌, ◌+◌, max, length, take, IfOk, OnOk};
ghost use Rattle.mk_ast.specs.View.{mod_view, part_view};
ghost use Rattle.mk_bytes.specs.Agrees.{Agrees};
ghost use Rattle.mk_values.specs.Chains as spec;
ghost use Rattle.mk_values.specs.Limits.{appended, max_text};
ghost use Rattle.mk_values.specs.Parts.{shown};
ghost use Rattle.mk_values.specs.Plain.{plain_found};
ghost use Rattle.mk_values.specs.View.{chain_view};
ghost use Rattle.mk_pieces.specs.Limits.{total};
ghost use Rattle.mk_pieces.specs.Pieces.{Begins};
ghost use Rattle.mk_mods.specs.Pieces.{end_of};
ghost use Rattle.mk_mods.specs.State.{items_of};
ghost use Rattle.mk_values.specs.declared.fault.ExpandFault.TheVariants.{NoMemory as no_memory};

use crate::fault::ExpandFault;
use crate::limit::{MAX_TEXT, append};
use crate::separator::separator_of;
use mk_ast::{ModTree, Part, print_part};
use mk_bytes::{Items, NoMemory, Text, Texts};
use mk_mods::{Mod, Val, placed_anew, with_items};
use mk_pool::Region;
use std::alloc::Global;

/// A value, and whether it is defined.
#[derive(Drop)]
pub struct Found {
    pub value: Text,
    pub defined: bool,
}

/// What a chain of modifiers works on: a value as pieces of a region, and whether it is defined.
#[derive(Drop)]
pub struct Chain {
    pub val: Val,
    pub defined: bool,
}

// The one item that a text is, or none where it is empty.
fn item_in(alloc: Global, text: Text) -> Result<Texts, NoMemory>
    ensures { IfOk result (λ items. items ≡ items_of text) }
{
    let mut items = Items::new(alloc, 1)?;
    if !text.is_empty() {
        items.push(text)?;
    }
    Ok(items)
}

/// A text in place of the value: its one item, or none where it is empty. It is defined.
pub fn given(
    alloc: Global,
    region: &mut Region,
    chain: Chain,
    text: Text,
) -> Result<Chain, NoMemory>
    ensures value { IfOk result (λ new. chain_view region.new.bytes new
        ≡ spec.given_as (chain_view region.old.bytes chain) text) }
    ensures within { IfOk result (λ new. end_of new.val ≤ length region.new.bytes) }
    ensures begins { Begins region.old.bytes region.new.bytes }
{
    let items = item_in(alloc, text)?;
    Ok(Chain {
        val: with_items(alloc, region, chain.val, &items)?,
        defined: true,
    })
}

/// A chain, whose items are placed anew behind the first `len` bytes of the region where the
/// modifiers so far have placed more bytes behind those than a text may have. So a long chain does
/// not keep the texts of all its modifiers: behind those bytes stand no more than a text may have,
/// or than the items have.
pub fn compacted(
    alloc: Global,
    region: &mut Region,
    len: usize,
    chain: Chain,
) -> Result<Chain, NoMemory>
    requires least { 2 ≤ len }
    requires within { len ≤ length region.old.bytes }
    requires items { end_of chain.val ≤ length region.old.bytes }
    ensures value { IfOk result (λ new. chain_view region.new.bytes new
        ≡ chain_view region.old.bytes chain) }
    ensures within { IfOk result (λ new. end_of new.val ≤ length region.new.bytes) }
    ensures begins { Begins (take len region.old.bytes) region.new.bytes }
    ensures small { OnOk result (length region.new.bytes
        ≤ len + max max_text (total (chain_view region.old.bytes chain).state.items)) }
{
    if region.len() - len <= MAX_TEXT {
        return Ok(chain);
    }
    Ok(Chain {
        val: placed_anew(alloc, region, chain.val, len)?,
        defined: chain.defined,
    })
}

/// What a raw value without any `$` finds: itself.
pub fn plain_found(raw: Text) -> Result<Found, ExpandFault>
    ensures { Agrees no_memory (λ found. found) result (plain_found raw) }
{
    if raw.len() > MAX_TEXT {
        return Err(ExpandFault::TooLong);
    }
    Ok(Found {
        value: raw,
        defined: true,
    })
}

/// What an undefined reference finds.
pub fn nothing_found(alloc: Global) -> Found
    ensures { result ≡ spec.undefined }
{
    Found {
        value: Text::new(alloc),
        defined: false,
    }
}

/// A modifier of words without a text that has to be evaluated. The others are none.
#[tactic(auto, using(mk_ast::proofs::Views::views))]
pub fn textless(alloc: Global, one: &ModTree) -> Result<Option<Mod>, NoMemory>
    ensures { IfOk result (λ found. found ≡ spec.textless (mod_view one.now)) }
{
    match one {
        ModTree::Head => Ok(Some(Mod::Head)),
        ModTree::Tail => Ok(Some(Mod::Tail)),
        ModTree::Root => Ok(Some(Mod::Root)),
        ModTree::Extension => Ok(Some(Mod::Extension)),
        ModTree::Sort => Ok(Some(Mod::Sort)),
        ModTree::SortBack => Ok(Some(Mod::SortBack)),
        ModTree::Unique => Ok(Some(Mod::Unique)),
        ModTree::Lower => Ok(Some(Mod::Lower)),
        ModTree::Upper => Ok(Some(Mod::Upper)),
        ModTree::Quote => Ok(Some(Mod::Quote)),
        ModTree::QuoteDollar => Ok(Some(Mod::QuoteDollar)),
        ModTree::Separator(written) => Ok(Some(Mod::Separator(separator_of(written.bytes())))),
        ModTree::OneWord(_) => Ok(Some(Mod::OneWord)),
        ModTree::ManyWords(_) => Ok(Some(Mod::ManyWords)),
        ModTree::Range(None) => Ok(Some(Mod::Range(Text::from_bytes(alloc, b"0")?))),
        ModTree::Keep(_) | ModTree::Without(_) | ModTree::Select(_) => Ok(None),
        ModTree::Subst {
            delim: _,
            from: _,
            to: _,
            flags: _,
        } => Ok(None),
        ModTree::Range(Some(_)) | ModTree::Suffix(_, _) => Ok(None),
        ModTree::IfUndefined(_) | ModTree::IfDefined(_) | ModTree::NameOf => Ok(None),
        ModTree::Choose(_, _) | ModTree::Each(_, _) | ModTree::Empty => Ok(None),
    }
}

/// What a reference has found, behind the text so far. One that is undefined in the end is empty,
/// and with `keep` it stays as it is written.
pub fn append_found(
    alloc: Global,
    text: &mut Text,
    keep: bool,
    found: &Found,
    part: &Part,
) -> Result<(), ExpandFault>
    ensures { Agrees no_memory (λ done. text.new) result
        (appended text.old (shown keep (part_view part.now) found.now)) }
{
    if found.defined {
        return append(text, found.value.bytes());
    }
    if !keep {
        return append(text, b"");
    }
    let written = print_part(alloc, part)?;
    append(text, written.bytes())
}
