//! The answers of functions to the values of their arguments, and sides that have to be defined.
ghost use Rattle.std.specs.Prelude.{◌≡◌, false, IsTrue, Ok, OnOk};
ghost use Rattle.std.specs.Option.{option_copied, option_map};
ghost use Rattle.mk_ast.specs.View.{part_view, tree_view};
ghost use Rattle.mk_bytes.specs.Agrees.{Agrees};
ghost use Rattle.mk_bytes.specs.Paths.{clean};
ghost use Rattle.mk_values.specs.Calls.{AsksOf, Finds, Keeps};
ghost use Rattle.mk_values.specs.Conditions as spec;
ghost use Rattle.mk_values.specs.Facts.{Means, is_fact};
ghost use Rattle.mk_values.specs.Names.{is_defined, last_value, raw_in};
ghost use Rattle.mk_values.specs.declared.fault.ExpandFault.TheVariants.{NoMemory as no_memory};

use crate::bound::{Binding, last_value};
use crate::chain::Found;
use crate::facts::Facts;
use crate::fault::ExpandFault;
use crate::local::is_local;
use crate::name::{Names, known};
use crate::run::{Run, note};
use crate::trim::{is_white_alone, trimmed};
use mk_ast::Part;
use mk_bytes::{Text, clean_path};
use mk_cond::Fun;
use std::alloc::Global;

// Whether a name has a raw value. No value is put together for it.
#[tactic(auto, using(crate::proofs::NameLemmas::has_value_in))]
fn is_defined(names: &Names<'_>, bound: &[Binding], name: &[u8]) -> bool
    ensures { result ≡ is_defined (last_value bound.now name.now)
        (raw_in names.now.scopes.now names.now.locals.now name.now) }
{
    last_value(bound, name).is_some()
        || is_local(names.locals, name)
        || known(names.scopes, name).is_some()
}

// Asks for a fact.
fn ask<F: Facts>(
    alloc: Global,
    facts: &mut F,
    fun: Fun,
    argument: &[u8],
) -> Result<bool, ExpandFault>
    requires { IsTrue (is_fact fun) }
    ensures value { Means (F.asked facts.new) (λ answer. (answer, F.asked facts.new)) result
        (λ answers. Ok (spec.fact (F.lists facts.old) answers (F.asked facts.old) fun argument.now)) }
    ensures facts { AsksOf F.Facts facts.old facts.new result }
{
    Ok(facts.fact(alloc, fun, argument)?)
}

// Asks for a fact of a path, which is cleaned.
fn ask_path<F: Facts>(
    names: &Names<'_>,
    facts: &mut F,
    fun: Fun,
    name: &[u8],
) -> Result<bool, ExpandFault>
    requires { IsTrue (is_fact fun) }
    ensures value { Means (F.asked facts.new) (λ answer. (answer, F.asked facts.new)) result
        (λ answers. Ok (spec.fact (F.lists facts.old) answers (F.asked facts.old) fun
        (clean names.now.scopes.now.cwd name.now))) }
    ensures facts { AsksOf F.Facts facts.old facts.new result }
{
    let path = clean_path(names.alloc, names.scopes.cwd(), name)?;
    ask(names.alloc, facts, fun, path.bytes())
}

/// The answer of a function to the value of its argument.
pub fn answer_of<F: Facts>(
    names: &Names<'_>,
    run: &mut Run,
    facts: &mut F,
    fun: Fun,
    value: &[u8],
) -> Result<bool, ExpandFault>
    ensures value { Finds F.Facts names.now false run.old run.new facts.old facts.new result
        (λ c p. spec.answer_of c p fun value.now) }
    ensures run { OnOk result (Keeps run.old run.new) }
    ensures facts { AsksOf F.Facts facts.old facts.new result }
{
    match fun {
        Fun::Defined => {
            let name = trimmed(value);
            note(names.alloc, &mut run.noted, name)?;
            Ok(is_defined(names, run.bound.as_slice(), name))
        }
        Fun::Empty => Ok(is_white_alone(value)),
        Fun::Make => ask(names.alloc, facts, fun, trimmed(value)),
        Fun::Exists => ask_path(names, facts, fun, trimmed(value)),
        Fun::Target => ask_path(names, facts, fun, trimmed(value)),
        Fun::Commands => ask_path(names, facts, fun, trimmed(value)),
    }
}

fn is_reference(part: &Part) -> bool
    ensures { result ≡ spec.is_reference (part_view part.now) }
{
    match part {
        Part::Short(_) => true,
        Part::Named {
            round: _,
            name: _,
            mods: _,
        } => true,
        Part::Ref {
            round: _,
            name: _,
            mods: _,
        } => true,
        _ => false,
    }
}

// A part, where it is a reference.
fn reference_part<'t>(part: &'t Part) -> Option<&'t Part>
    ensures { option_map part_view (option_copied result)
        ≡ spec.reference_part (part_view part.now) }
{
    if !is_reference(part) {
        return None;
    }
    Some(part)
}

/// The one reference that a text is.
#[tactic(auto, using(crate::proofs::ConditionLemmas::lone_reference_many))]
pub fn lone_reference<'t>(parts: &'t [Part]) -> Option<&'t Part>
    ensures { option_map part_view (option_copied result)
        ≡ spec.lone_reference (tree_view parts.now) }
{
    match parts {
        [] => None,
        [part] => reference_part(part),
        [_, _, ..] => None,
    }
}

/// The value of what was found, which has to be defined.
pub fn if_defined(found: Found) -> Result<Text, ExpandFault>
    ensures { result ≡ spec.if_defined found }
{
    if !found.defined {
        return Err(ExpandFault::Undefined);
    }
    Ok(found.value)
}
