//! What options with an argument ask for.
ghost use Rattle.std.specs.Prelude.{◌≡◌, is_ok, IfOk, OnOk, OnErr};
ghost use Rattle.mk_bytes.specs.Agrees.{Agrees};
ghost use Rattle.mk_cli.specs.Options as spec;
ghost use Rattle.mk_cli.specs.Orders.{with_print};
ghost use Rattle.mk_cli.specs.declared.order.Order.{Order as AnyOrder};
ghost use Rattle.mk_cli.specs.declared.order.Usage.TheVariants.{NoMemory as no_memory};

use crate::letter::Argument;
use crate::number::number;
use crate::order::{AssignOp, Order, Print, Set, Usage};
use mk_bytes::{NoMemory, Text, Texts};
use mk_scopes::Class;
use std::alloc::Global;

const MOST_JOBS: u32 = 256;

const MOST_GENERATED: u32 = 10_000;

/// Whether a text is empty or a lone `-`, which names no file.
pub fn names_nothing(text: &[u8]) -> bool
    ensures { result ≡ spec.names_nothing text.now }
{
    text.is_empty() || text == b"-".as_slice()
}

// Adds a path, which is neither empty nor `-`.
fn push_path(alloc: Global, paths: &mut Texts, place: u32, text: &[u8]) -> Result<(), Usage>
    ensures { Agrees no_memory (λ _. paths.new) result
        (spec.with_path place paths.old text.now) }
{
    if names_nothing(text) {
        return Err(Usage::Word(place));
    }
    paths.push(Text::from_bytes(alloc, text)?)?;
    Ok(())
}

fn definition(alloc: Global, name: &[u8]) -> Result<Set, NoMemory>
    ensures { IfOk result (λ set. set ≡ spec.definition name.now) }
{
    Ok(Set {
        class: Class::Global,
        op: AssignOp::Plain,
        name: Text::from_bytes(alloc, name)?,
        value: Text::from_bytes(alloc, b"1")?,
    })
}

fn add_print(alloc: Global, order: &mut Order, full: bool, text: &[u8]) -> Result<(), NoMemory>
    ensures { OnOk result (order.new ≡ with_print order.old full text.now) }
{
    let text = Text::from_bytes(alloc, text)?;
    order.prints.push(Print { full, text })
}

/// Adds an option with its argument, which the word at `place` holds. That word is refused where
/// the argument is not what the option takes.
pub fn add_argument(
    alloc: Global,
    order: &mut Order,
    place: u32,
    argument: Argument,
    text: &[u8],
) -> Result<(), Usage>
    ensures { Agrees no_memory (λ _. order.new) result
        (spec.with_argument place order.old argument text.now) }
{
    match argument {
        Argument::Define => order.sets.push(definition(alloc, text)?)?,
        Argument::File => return push_path(alloc, &mut order.files, place, text),
        Argument::Generate => order.generate = Some(number(MOST_GENERATED, place, text)?),
        Argument::Jobs => order.flags.jobs = number(MOST_JOBS, place, text)?,
        Argument::Near => return push_path(alloc, &mut order.near, place, text),
        Argument::Print => add_print(alloc, order, false, text)?,
        Argument::PrintFull => add_print(alloc, order, true, text)?,
        Argument::System => return push_path(alloc, &mut order.system, place, text),
    }
    Ok(())
}
