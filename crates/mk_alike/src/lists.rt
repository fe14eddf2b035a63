//! What conditions may ask of makefiles, compared.
ghost use Rattle.std.specs.Prelude.{◌≡◌, ◌↔◌, true, IfOk};
ghost use Rattle.mk_graph.specs.Where.{has_commands, is_target, names_where};
ghost use Rattle.mk_plan.specs.Facts.{lists_of, wanted_of};

use mk_bytes::{Items, NoMemory, Text, Texts, same_texts};
use mk_graph::{Attr, Graph, Made};
use std::alloc::Global;

// The names of the nodes that stood as targets, in order.
fn targets_of(alloc: Global, graph: &Graph) -> Result<Texts, NoMemory>
    ensures { IfOk result (λ names. names ≡ names_where is_target graph.now) }
{
    let mut names = Items::new(alloc, 0)?;
    for n in 0..graph.len() as u32 {
        if graph.has(n, Attr::Target) {
            names.push(Text::from_bytes(alloc, graph.name(n))?)?;
        }
    }
    Ok(names)
}

// The names of the nodes that have commands, in order.
fn with_commands(alloc: Global, graph: &Graph) -> Result<Texts, NoMemory>
    ensures { IfOk result (λ names. names ≡ names_where has_commands graph.now) }
{
    let mut names = Items::new(alloc, 0)?;
    for n in 0..graph.len() as u32 {
        if !graph.commands(n).is_empty() {
            names.push(Text::from_bytes(alloc, graph.name(n))?)?;
        }
    }
    Ok(names)
}

// Whether the same names are wanted: those that are requested, or where there are none the main
// targets.
fn same_wanted(requested: &Texts, main: &Texts, other: &Texts) -> bool
    ensures { (result ≡ true)
        ↔ (wanted_of main.now requested.now ≡ wanted_of other.now requested.now) }
{
    !requested.is_empty() || same_texts(main.as_slice(), other.as_slice())
}

// Whether the same nodes stood as targets.
fn same_targets(alloc: Global, graph: &Graph, other: &Graph) -> Result<bool, NoMemory>
    ensures { IfOk result (λ is. (is ≡ true)
        ↔ (names_where is_target graph.now ≡ names_where is_target other.now)) }
{
    let names = targets_of(alloc, graph)?;
    let others = targets_of(alloc, other)?;
    Ok(same_texts(names.as_slice(), others.as_slice()))
}

// Whether the same nodes have commands.
fn same_with_commands(alloc: Global, graph: &Graph, other: &Graph) -> Result<bool, NoMemory>
    ensures { IfOk result (λ is. (is ≡ true)
        ↔ (names_where has_commands graph.now ≡ names_where has_commands other.now)) }
{
    let names = with_commands(alloc, graph)?;
    let others = with_commands(alloc, other)?;
    Ok(same_texts(names.as_slice(), others.as_slice()))
}

/// Whether `make`, `target` and `commands` are answered by the same lists in both.
pub fn same_lists(
    alloc: Global,
    made: &Made,
    other: &Made,
    requested: &Texts,
) -> Result<bool, NoMemory>
    ensures { IfOk result (λ is. (is ≡ true)
        ↔ (lists_of made.now requested.now ≡ lists_of other.now requested.now)) }
{
    if !same_wanted(requested, &made.main, &other.main) {
        return Ok(false);
    }
    if !same_targets(alloc, &made.graph, &other.graph)? {
        return Ok(false);
    }
    same_with_commands(alloc, &made.graph, &other.graph)
}
