//! The modifiers of a reference, of which only what is chosen is evaluated.
ghost use Rattle.std.specs.Prelude.{◌≡◌, ◌≤◌, length, take, false, IfOk, IfSome, OnOk};
ghost use Rattle.mk_ast.specs.Tree.{if_undefined, mod_then, no_mods};
ghost use Rattle.mk_ast.specs.View.{mod_view, mods_view, tree_view};
ghost use Rattle.mk_values.specs.Calls.{AsksOf, Extends, Finds, FindsAs, Keeps, Modifies};
ghost use Rattle.mk_values.specs.Chains as spec;
ghost use Rattle.mk_values.specs.Names.{while_bound};
ghost use Rattle.mk_values.specs.Parts.{tree_value};
ghost use Rattle.mk_values.specs.Value.{found_at};
ghost use Rattle.mk_values.specs.View.{chain_view};
ghost use Rattle.mk_pieces.specs.Pieces.{Begins, texts_of};
ghost use Rattle.mk_mods.specs.Pieces.{end_of, seen};
ghost use Rattle.mk_mods.specs.Results.{no_results};
ghost use Rattle.mk_mods.specs.State.{words_of};

use crate::conditions::truth_of;
use crate::evaluation::tree_value;
use crate::words::modifier;
use mk_ast::{ModTree, ModTrees, Tree};
use mk_bytes::{NoMemory, Text};
use mk_cond::{Form, parse_cond};
use mk_mods::{Results, Val, apply, shown, text, with_results, word_pieces};
use mk_pool::{Piece, Region};
use mk_values::{
    Binding, Chain, ExpandFault, Facts, Found, Names, Run, bind, compacted, given, unbind,
};
use std::alloc::Global;

// The text of a `:U`, where that is the one modifier.
#[tactic(auto, using(mk_ast::proofs::Views::views))]
fn lone_default<'t>(mods: &'t [ModTree]) -> Option<&'t Tree>
    ensures { IfSome result (λ text.
        mods_view mods.now ≡ mod_then (if_undefined (tree_view text.now)) no_mods) }
{
    match mods {
        [ModTree::IfUndefined(text)] => Some(text),
        _ => None,
    }
}

// A text that stands for a value.
#[cycle(value)]
fn default_found<F: Facts>(
    names: &Names<'_>,
    run: &mut Run,
    facts: &mut F,
    room: usize,
    text: &Tree,
) -> Result<Found, ExpandFault>
    ensures value { Finds F.Facts names.now false run.old run.new facts.old facts.new result
        (λ c p. spec.found_as (tree_value (found_at room) c p (tree_view text.now))) }
    ensures run { OnOk result (Keeps run.old run.new) }
    ensures facts { AsksOf F.Facts facts.old facts.new result }
{
    let value = tree_value(names, run, facts, room, false, text)?;
    Ok(Found {
        value,
        defined: true,
    })
}

/// A value behind its modifiers. What they place in the region is taken away again. A `:U` alone,
/// as loops write each of their words, needs no region.
#[cycle(value)]
#[tactic(auto, using(mk_values::proofs::ChainLemmas::chained_none))]
pub fn chained<F: Facts>(
    names: &Names<'_>,
    run: &mut Run,
    facts: &mut F,
    room: usize,
    name: &[u8],
    found: Found,
    mods: &ModTrees,
) -> Result<Found, ExpandFault>
    ensures value { Finds F.Facts names.now false run.old run.new facts.old facts.new result
        (λ c p. spec.chained (found_at room) c p name.now found (mods_view mods.now)) }
    ensures run { OnOk result (Keeps run.old run.new) }
    ensures facts { AsksOf F.Facts facts.old facts.new result }
{
    if mods.is_empty() {
        return Ok(found);
    }
    if !found.defined
        && let Some(text) = lone_default(mods.as_slice())
    {
        return default_found(names, run, facts, room, text);
    }
    let len = run.region.len();
    let start = placed(names.alloc, &mut run.region, found)?;
    let chain = all_modified(names, run, facts, room, name, len, start, mods)?;
    let value = text(names.alloc, &run.region, &chain.val)?;
    run.region.back(len);
    Ok(Found {
        value,
        defined: chain.defined,
    })
}

// What was found, as a chain. Its text stands in the region alone then.
fn placed(alloc: Global, region: &mut Region, found: Found) -> Result<Chain, NoMemory>
    ensures value { IfOk result (λ chain. chain_view region.new.bytes chain ≡ spec.chain_of found) }
    ensures within { IfOk result (λ chain. end_of chain.val ≤ length region.new.bytes) }
    ensures begins { Begins region.old.bytes region.new.bytes }
{
    let Found { value, defined } = found;
    let val = Val::new(alloc, region, value.bytes())?;
    Ok(Chain { val, defined })
}

// A chain behind all modifiers. What stands behind the first `len` bytes of the region may be
// given up.
#[cycle(value)]
fn all_modified<F: Facts>(
    names: &Names<'_>,
    run: &mut Run,
    facts: &mut F,
    room: usize,
    name: &[u8],
    len: usize,
    chain: Chain,
    mods: &ModTrees,
) -> Result<Chain, ExpandFault>
    requires least { 2 ≤ len }
    requires within { len ≤ length run.old.region.bytes }
    requires items { end_of chain.val ≤ length run.old.region.bytes }
    ensures value { Modifies F.Facts names.now run.old run.new facts.old facts.new result
        (λ c p. spec.all_modified (found_at room) c p name.now
        (chain_view run.old.region.bytes chain) (mods_view mods.now)) }
    ensures open_names { OnOk result (run.new.open_names ≡ run.old.open_names) }
    ensures bound { OnOk result (run.new.bound.items ≡ run.old.bound.items) }
    ensures begins { OnOk result
        (take len run.new.region.bytes ≡ take len run.old.region.bytes) }
    ensures facts { AsksOf F.Facts facts.old facts.new result }
{
    let mut chain = chain;
    for one in mods.as_slice() {
        let more = modified(names, run, facts, room, name, chain, one)?;
        chain = compacted(names.alloc, &mut run.region, len, more)?;
    }
    Ok(chain)
}

// A chain behind a modifier.
#[cycle(value)]
fn modified<F: Facts>(
    names: &Names<'_>,
    run: &mut Run,
    facts: &mut F,
    room: usize,
    name: &[u8],
    chain: Chain,
    one: &ModTree,
) -> Result<Chain, ExpandFault>
    requires { end_of chain.val ≤ length run.old.region.bytes }
    ensures value { Modifies F.Facts names.now run.old run.new facts.old facts.new result
        (λ c p. spec.modified (found_at room) c p name.now (chain_view run.old.region.bytes chain)
        (mod_view one.now)) }
    ensures run { OnOk result (Extends run.old run.new) }
    ensures facts { AsksOf F.Facts facts.old facts.new result }
    ensures within { IfOk result (λ chain. end_of chain.val ≤ length run.new.region.bytes) }
{
    match one {
        ModTree::Choose(yes, no) => choose(names, run, facts, room, name, chain, yes, no),
        ModTree::Each(variable, body) => {
            each(names, run, facts, room, chain, variable.bytes(), body)
        }
        _ => given_modified(names, run, facts, room, name, chain, one),
    }
}

// A chain behind a modifier that gives a text, or of words.
#[cycle(value)]
fn given_modified<F: Facts>(
    names: &Names<'_>,
    run: &mut Run,
    facts: &mut F,
    room: usize,
    name: &[u8],
    chain: Chain,
    one: &ModTree,
) -> Result<Chain, ExpandFault>
    requires { end_of chain.val ≤ length run.old.region.bytes }
    ensures value { Modifies F.Facts names.now run.old run.new facts.old facts.new result
        (λ c p. spec.given_modified (found_at room) c p name.now
        (chain_view run.old.region.bytes chain) (mod_view one.now)) }
    ensures run { OnOk result (Extends run.old run.new) }
    ensures facts { AsksOf F.Facts facts.old facts.new result }
    ensures within { IfOk result (λ chain. end_of chain.val ≤ length run.new.region.bytes) }
{
    match one {
        ModTree::IfUndefined(text) => if_undefined(names, run, facts, room, chain, text),
        ModTree::IfDefined(text) => if_defined(names, run, facts, room, chain, text),
        ModTree::NameOf => {
            let text = Text::from_bytes(names.alloc, name)?;
            Ok(given(names.alloc, &mut run.region, chain, text)?)
        }
        _ => word_modified(names, run, facts, room, chain, one),
    }
}

// A chain behind `:?`.
#[cycle(value)]
fn choose<F: Facts>(
    names: &Names<'_>,
    run: &mut Run,
    facts: &mut F,
    room: usize,
    name: &[u8],
    chain: Chain,
    yes: &Tree,
    no: &Tree,
) -> Result<Chain, ExpandFault>
    requires { end_of chain.val ≤ length run.old.region.bytes }
    ensures value { Modifies F.Facts names.now run.old run.new facts.old facts.new result
        (λ c p. spec.choose (found_at room) c p name.now (chain_view run.old.region.bytes chain)
        (tree_view yes.now) (tree_view no.now)) }
    ensures run { OnOk result (Extends run.old run.new) }
    ensures facts { AsksOf F.Facts facts.old facts.new result }
    ensures within { IfOk result (λ chain. end_of chain.val ≤ length run.new.region.bytes) }
{
    let text = chosen(names, run, facts, room, name, yes, no)?;
    Ok(given(names.alloc, &mut run.region, chain, text)?)
}

// A chain behind `:U`.
#[cycle(value)]
fn if_undefined<F: Facts>(
    names: &Names<'_>,
    run: &mut Run,
    facts: &mut F,
    room: usize,
    chain: Chain,
    text: &Tree,
) -> Result<Chain, ExpandFault>
    requires { end_of chain.val ≤ length run.old.region.bytes }
    ensures value { Modifies F.Facts names.now run.old run.new facts.old facts.new result
        (λ c p. spec.if_undefined (found_at room) c p (chain_view run.old.region.bytes chain)
        (tree_view text.now)) }
    ensures run { OnOk result (Extends run.old run.new) }
    ensures facts { AsksOf F.Facts facts.old facts.new result }
    ensures within { IfOk result (λ chain. end_of chain.val ≤ length run.new.region.bytes) }
{
    if chain.defined {
        return Ok(chain);
    }
    let text = tree_value(names, run, facts, room, false, text)?;
    Ok(given(names.alloc, &mut run.region, chain, text)?)
}

// A chain behind `:D`.
#[cycle(value)]
fn if_defined<F: Facts>(
    names: &Names<'_>,
    run: &mut Run,
    facts: &mut F,
    room: usize,
    chain: Chain,
    text: &Tree,
) -> Result<Chain, ExpandFault>
    ensures value { Modifies F.Facts names.now run.old run.new facts.old facts.new result
        (λ c p. spec.if_defined (found_at room) c p (chain_view run.old.region.bytes chain)
        (tree_view text.now)) }
    ensures run { OnOk result (Extends run.old run.new) }
    ensures facts { AsksOf F.Facts facts.old facts.new result }
    ensures within { IfOk result (λ chain. end_of chain.val ≤ length run.new.region.bytes) }
{
    if !chain.defined {
        let none = Text::new(names.alloc);
        return Ok(given(names.alloc, &mut run.region, chain, none)?);
    }
    let text = tree_value(names, run, facts, room, false, text)?;
    Ok(given(names.alloc, &mut run.region, chain, text)?)
}

// What `:?` chooses by the condition that the name is.
#[cycle(value)]
fn chosen<F: Facts>(
    names: &Names<'_>,
    run: &mut Run,
    facts: &mut F,
    room: usize,
    name: &[u8],
    yes: &Tree,
    no: &Tree,
) -> Result<Text, ExpandFault>
    ensures value { Finds F.Facts names.now false run.old run.new facts.old facts.new result
        (λ c p. spec.chosen (found_at room) c p name.now (tree_view yes.now) (tree_view no.now)) }
    ensures run { OnOk result (Keeps run.old run.new) }
    ensures facts { AsksOf F.Facts facts.old facts.new result }
{
    let cond = parse_cond(names.alloc, name, Form::Inner)?;
    if truth_of(names, run, facts, room, &cond)? {
        return tree_value(names, run, facts, room, false, yes);
    }
    tree_value(names, run, facts, room, false, no)
}

// A chain behind `:@`.
#[cycle(value)]
fn each<F: Facts>(
    names: &Names<'_>,
    run: &mut Run,
    facts: &mut F,
    room: usize,
    chain: Chain,
    variable: &[u8],
    body: &Tree,
) -> Result<Chain, ExpandFault>
    requires { end_of chain.val ≤ length run.old.region.bytes }
    ensures value { Modifies F.Facts names.now run.old run.new facts.old facts.new result
        (λ c p. spec.each (found_at room) c p (chain_view run.old.region.bytes chain) variable.now
        (tree_view body.now)) }
    ensures run { OnOk result (Extends run.old run.new) }
    ensures facts { AsksOf F.Facts facts.old facts.new result }
    ensures within { IfOk result (λ chain. end_of chain.val ≤ length run.new.region.bytes) }
{
    let results = all_results(names, run, facts, room, &chain.val, variable, body)?;
    Ok(Chain {
        val: with_results(names.alloc, &mut run.region, &results)?,
        defined: chain.defined,
    })
}

// The results of the body of `:@` for the words of a value.
#[cycle(value)]
fn all_results<F: Facts>(
    names: &Names<'_>,
    run: &mut Run,
    facts: &mut F,
    room: usize,
    val: &Val,
    variable: &[u8],
    body: &Tree,
) -> Result<Results, ExpandFault>
    requires { end_of val.now ≤ length run.old.region.bytes }
    ensures value { Finds F.Facts names.now false run.old run.new facts.old facts.new result
        (λ c p. spec.each_behind (found_at room) c p variable.now (tree_view body.now)
        (no_results (seen run.old.region.bytes val.now))
        (words_of (seen run.old.region.bytes val.now))) }
    ensures run { OnOk result (Extends run.old run.new) }
    ensures facts { AsksOf F.Facts facts.old facts.new result }
{
    let words = word_pieces(names.alloc, &mut run.region, val)?;
    let none = Results::new(names.alloc, val)?;
    each_behind(
        names,
        run,
        facts,
        room,
        variable,
        body,
        none,
        words.as_slice(),
    )
}

// The body of `:@` for each word, behind the results so far.
#[cycle(value)]
fn each_behind<F: Facts>(
    names: &Names<'_>,
    run: &mut Run,
    facts: &mut F,
    room: usize,
    variable: &[u8],
    body: &Tree,
    results: Results,
    words: &[Piece],
) -> Result<Results, ExpandFault>
    ensures value { Finds F.Facts names.now false run.old run.new facts.old facts.new result
        (λ c p. spec.each_behind (found_at room) c p variable.now (tree_view body.now) results
        (texts_of run.old.region.bytes words.now)) }
    ensures run { OnOk result (Keeps run.old run.new) }
    ensures facts { AsksOf F.Facts facts.old facts.new result }
{
    let mut results = results;
    let mut binding = Binding::new(names.alloc, variable)?;
    for word in words {
        binding.stand_for(shown(&run.region, *word))?;
        let (result, again) = word_result(names, run, facts, room, binding, body)?;
        binding = again;
        results.add(result)?;
    }
    Ok(results)
}

// The body of `:@` for the word for which its variable stands, and that variable again.
#[cycle(value)]
fn word_result<F: Facts>(
    names: &Names<'_>,
    run: &mut Run,
    facts: &mut F,
    room: usize,
    binding: Binding,
    body: &Tree,
) -> Result<(Text, Binding), ExpandFault>
    ensures value { FindsAs F.Facts names.now false run.old run.new facts.old facts.new
        (λ given. given.0) result (λ c p. tree_value (found_at room)
        (while_bound c binding.name binding.value) p (tree_view body.now)) }
    ensures binding { IfOk result (λ given. given.1 ≡ binding) }
    ensures run { OnOk result (Keeps run.old run.new) }
    ensures facts { AsksOf F.Facts facts.old facts.new result }
{
    bind(&mut run.bound, binding)?;
    let result = tree_value(names, run, facts, room, false, body)?;
    Ok((result, unbind(&mut run.bound)))
}

// A chain behind a modifier of words.
#[cycle(value)]
fn word_modified<F: Facts>(
    names: &Names<'_>,
    run: &mut Run,
    facts: &mut F,
    room: usize,
    chain: Chain,
    one: &ModTree,
) -> Result<Chain, ExpandFault>
    requires { end_of chain.val ≤ length run.old.region.bytes }
    ensures value { Modifies F.Facts names.now run.old run.new facts.old facts.new result
        (λ c p. spec.word_modified (found_at room) c p (chain_view run.old.region.bytes chain)
        (mod_view one.now)) }
    ensures run { OnOk result (Extends run.old run.new) }
    ensures facts { AsksOf F.Facts facts.old facts.new result }
    ensures within { IfOk result (λ chain. end_of chain.val ≤ length run.new.region.bytes) }
{
    match modifier(names, run, facts, room, one)? {
        Some(modifier) => Ok(Chain {
            val: apply(names.alloc, &mut run.region, chain.val, &modifier)?,
            defined: chain.defined,
        }),
        None => Ok(chain),
    }
}
