//! Making a plan.
ghost use Rattle.std.specs.Prelude.{◌≡◌, ℕ, ◌+◌, ◌<◌, ◌≤◌, ◌^◌, [], ◌∷◌, ◌++◌, length, map, get_or};
ghost use Rattle.std.specs.Prelude.{IsTrue, Ok, IfOk, IfErr, OnOk};
ghost use Rattle.mk_bytes.specs.Agrees.{Agrees};
ghost use Rattle.mk_closure.specs.Members.{all_preds, listed, numbers_from, planned_of, sourced_of};
ghost use Rattle.mk_closure.specs.Members.{sources_in};
ghost use Rattle.mk_closure.specs.Names.{name_in};
ghost use Rattle.mk_graph.specs.Numbers.{AreBelow};
ghost use Rattle.mk_graph.specs.Orders.{IsOrder};
ghost use Rattle.mk_dirs.specs.Answered.{ByLooks};
ghost use Rattle.mk_plan.specs.Plans as spec;
ghost use Rattle.mk_plan.specs.Refusals.{IsOwnPlan, IsRefusedBy};
ghost use Rattle.mk_plan.specs.declared.fault.PlanFault.TheVariants.{
  Failed as failed,
  NoMemory as no_memory,
};
ghost use Rattle.mk_world.specs.Causes.{HasCause};

use crate::fault::PlanFault;
use crate::plan::{Nodes, Plan, PlanNode};
use mk_bytes::{Items, NoMemory, Text, Texts, copy_texts};
use mk_closure::{Closure, Sources, close};
use mk_graph::{Attr, Graph, Made, Marks, Ordered, depth_first};
use mk_world::World;
use std::alloc::Global;

fn wanted<'m>(requested: &'m Texts, main: &'m Texts) -> &'m [Text]
    ensures { result.now ≡ spec.wanted requested.now main.now }
{
    if requested.is_empty() {
        return main.as_slice();
    }
    requested.as_slice()
}

// The name of a number, or nothing where there is no such number.
fn name_of<'c>(closure: &'c Closure<'_>, n: u32) -> &'c [u8]
    ensures { result.now ≡ name_in closure.now n }
{
    if (n as usize) < closure.len() {
        return closure.name(n);
    }
    b""
}

fn names_of(alloc: Global, closure: &Closure<'_>, nodes: &[u32]) -> Result<Texts, NoMemory>
    ensures { IfOk result (λ names. names ≡ map (name_in closure.now) nodes.now) }
{
    let mut names = Items::new(alloc, nodes.len())?;
    for n in nodes {
        names.push(Text::from_bytes(alloc, name_of(closure, *n))?)?;
    }
    Ok(names)
}

// The planned nodes, each behind its predecessors.
fn order_of(alloc: Global, closure: &Closure<'_>, names: &[Text]) -> Result<Nodes, PlanFault>
    ensures value { Agrees no_memory (λ order. order) result (spec.order_of closure.now names.now) }
    ensures own { IfErr result IsOwnPlan }
    ensures order { IfOk result (IsOrder (all_preds closure.now)) }
{
    let preds = closure.all_preds(alloc)?;
    let roots = closure.roots(alloc, names)?;
    match depth_first(alloc, &preds, &roots)? {
        Ordered::Order(order) => Ok(order),
        Ordered::Cycle(nodes) => Err(PlanFault::Cycle(names_of(alloc, closure, nodes.as_slice())?)),
    }
}

// The place of each node by its number, where the first of the order has this place.
fn places_of(alloc: Global, count: usize, order: &[u32], first: usize) -> Result<Vec<u32>, NoMemory>
    requires within { AreBelow count order.now }
    requires short { first + length order.now ≤ 2 ^ 32 }
    ensures { IfOk result (λ places. (n : ℕ) → get_or places.items n 0
        ≡ spec.place_from first order.now n) }
{
    let mut places = vec![in alloc; 0u32; count]?;
    let mut left = order.len();
    'order: while left > 0 {
        left -= 1;
        places[order[left] as usize] = (first + left) as u32;
    }
    Ok(places)
}

fn place_in(places: &[u32], n: u32) -> u32
    ensures { result ≡ get_or places.now n 0 }
{
    match places.get(n as usize) {
        Some(place) => *place,
        None => 0,
    }
}

// Adds the place of a node, if it is planned.
fn add_place(
    closure: &Closure<'_>,
    places: &[u32],
    found: &mut Nodes,
    n: u32,
) -> Result<(), NoMemory>
    ensures { OnOk result (found.new ≡ found.old
        ++ map (λ m. get_or places.now m 0) (planned_of closure.now (n ∷ []))) }
{
    if closure.is_planned(n) {
        found.push(place_in(places, n))?;
    }
    Ok(())
}

// Adds the places of those of several nodes that are planned.
fn add_places(
    closure: &Closure<'_>,
    places: &[u32],
    found: &mut Nodes,
    nodes: &[u32],
) -> Result<(), NoMemory>
    ensures { OnOk result (found.new ≡ found.old
        ++ map (λ m. get_or places.now m 0) (planned_of closure.now nodes.now)) }
{
    for n in nodes {
        add_place(closure, places, found, *n)?;
    }
    Ok(())
}

// Adds the places of what is planned for several nodes.
fn add_sourced(
    closure: &Closure<'_>,
    places: &[u32],
    found: &mut Nodes,
    nodes: &[u32],
) -> Result<(), NoMemory>
    ensures { OnOk result (found.new ≡ found.old
        ++ map (λ m. get_or places.now m 0) (sourced_of closure.now nodes.now)) }
{
    for n in nodes {
        add_place(closure, places, found, closure.stand_in(*n))?;
    }
    Ok(())
}

// Adds the places of what is planned for a node's sources.
fn add_sources(
    closure: &Closure<'_>,
    places: &[u32],
    found: &mut Nodes,
    sources: Sources<'_>,
) -> Result<(), NoMemory>
    ensures { OnOk result (found.new ≡ found.old
        ++ map (λ m. get_or places.now m 0) (sourced_of closure.now (listed sources.entry))) }
{
    add_sourced(closure, places, found, sources.own)?;
    match sources.of_rule {
        Some(source) => add_place(closure, places, found, closure.stand_in(source)),
        None => Ok(()),
    }
}

// The places of what is planned for a node's sources.
fn sources_of(
    alloc: Global,
    closure: &Closure<'_>,
    places: &[u32],
    n: u32,
) -> Result<Nodes, NoMemory>
    requires { n < length closure.now.parts }
    ensures { IfOk result (λ found. found
        ≡ map (λ m. get_or places.now m 0) (sourced_of closure.now (sources_in closure.now n))) }
{
    let sources = closure.sources(n);
    let mut found = Items::new(alloc, sources.len())?;
    add_sources(closure, places, &mut found, sources)?;
    Ok(found)
}

// Adds places.
fn add_all(places: &mut Nodes, more: &[u32]) -> Result<(), NoMemory>
    ensures { OnOk result (places.new ≡ places.old ++ more.now) }
{
    for place in more {
        places.push(*place)?;
    }
    Ok(())
}

// Adds the places before a place.
fn add_earlier(places: &mut Nodes, count: usize) -> Result<(), NoMemory>
    requires { count < 2 ^ 32 }
    ensures { OnOk result (places.new ≡ places.old ++ numbers_from 0 count) }
{
    for place in 0..count {
        places.push(place as u32)?;
    }
    Ok(())
}

// The places that have to be settled before a node, of which these are those of its sources.
fn before_of(
    alloc: Global,
    closure: &Closure<'_>,
    places: &[u32],
    sources: &Nodes,
    first: usize,
    n: u32,
) -> Result<Nodes, NoMemory>
    requires within { n < length closure.now.parts }
    requires short { first < 2 ^ 32 }
    requires sources { sources.now
        ≡ map (λ m. get_or places.now m 0) (sourced_of closure.now (sources_in closure.now n)) }
    ensures { IfOk result (λ before. before
        ≡ (spec.plan_node closure.now (λ m. get_or places.now m 0) first n).before) }
{
    let mut before = Items::new(alloc, sources.len() + first)?;
    add_all(&mut before, sources.as_slice())?;
    add_places(closure, places, &mut before, closure.ordered(n))?;
    add_earlier(&mut before, first)?;
    Ok(before)
}

fn plan_node(
    alloc: Global,
    closure: &Closure<'_>,
    places: &[u32],
    first: usize,
    n: u32,
) -> Result<PlanNode, NoMemory>
    requires within { n < length closure.now.parts }
    requires short { first < 2 ^ 32 }
    ensures { IfOk result (λ node. node
        ≡ spec.plan_node closure.now (λ m. get_or places.now m 0) first n) }
{
    let sources = sources_of(alloc, closure, places, n)?;
    let before = before_of(alloc, closure, places, &sources, first, n)?;
    Ok(PlanNode {
        name: Text::from_bytes(alloc, closure.name(n))?,
        sources,
        before,
        commands: copy_texts(alloc, closure.commands(n))?,
        implied: Text::from_bytes(alloc, closure.implied(n))?,
        marks: closure.marks(n),
    })
}

// Adds the nodes in their order.
fn add_nodes(
    alloc: Global,
    closure: &Closure<'_>,
    order: &[u32],
    nodes: &mut Items<PlanNode>,
) -> Result<(), NoMemory>
    requires within { AreBelow (length closure.now.parts) order.now }
    requires short { length nodes.old + length order.now ≤ 2 ^ 32 }
    ensures { OnOk result (nodes.new
        ≡ nodes.old ++ spec.inner_nodes closure.now order.now (length nodes.old)) }
{
    let first = nodes.len();
    let places = places_of(alloc, closure.len(), order, first)?;
    for n in order {
        nodes.push(plan_node(alloc, closure, &places, first, *n)?)?;
    }
    Ok(())
}

fn frame_commands<'g>(graph: &'g Graph, name: &[u8], query: bool) -> &'g [Text]
    ensures { result.now ≡ spec.frame_commands graph.now name.now query }
{
    if query {
        return &[];
    }
    match graph.find(name) {
        Some(n) => graph.commands(n).as_slice(),
        None => &[],
    }
}

// Adds `.BEGIN` or `.END` behind all nodes so far, if it has commands.
fn add_frame(
    alloc: Global,
    nodes: &mut Items<PlanNode>,
    name: &[u8],
    commands: &[Text],
) -> Result<(), NoMemory>
    ensures { OnOk result (nodes.new
        ≡ nodes.old ++ spec.frame_node name.now (numbers_from 0 (length nodes.old)) commands.now) }
{
    if commands.is_empty() {
        return Ok(());
    }
    let mut before = Items::new(alloc, nodes.len())?;
    add_earlier(&mut before, nodes.len())?;
    nodes.push(PlanNode {
        name: Text::from_bytes(alloc, name)?,
        sources: Items::new(alloc, 0).unwrap(),
        before,
        commands: copy_texts(alloc, commands)?,
        implied: Text::new(alloc),
        marks: Marks::none().with(Attr::Phony),
    })?;
    Ok(())
}

// The nodes in their order, between `.BEGIN` and `.END`.
fn nodes_of(
    alloc: Global,
    closure: &Closure<'_>,
    order: &[u32],
    query: bool,
) -> Result<Items<PlanNode>, NoMemory>
    requires within { AreBelow (length closure.now.parts) order.now }
    requires short { length order.now < 2 ^ 32 }
    ensures { IfOk result (λ nodes. nodes ≡ spec.nodes_of closure.now query order.now) }
{
    let graph = closure.graph();
    let mut nodes = Items::new(alloc, order.len())?;
    let begin = b".BEGIN".as_slice();
    add_frame(
        alloc,
        &mut nodes,
        begin,
        frame_commands(graph, begin, query),
    )?;
    add_nodes(alloc, closure, order, &mut nodes)?;
    let end = b".END".as_slice();
    add_frame(alloc, &mut nodes, end, frame_commands(graph, end, query))?;
    Ok(nodes)
}

fn plan_of(
    alloc: Global,
    closure: &Closure<'_>,
    names: &[Text],
    query: bool,
) -> Result<Plan, PlanFault>
    ensures value { Agrees no_memory (λ plan. plan) result
        (spec.plan_of query names.now closure.now) }
    ensures own { IfErr result IsOwnPlan }
{
    let order = order_of(alloc, closure, names)?;
    let nodes = nodes_of(alloc, closure, order.as_slice(), query)?;
    Ok(Plan::of(nodes))
}

/// The plan of the requested names, or where there are none of the main targets: the nodes of their
/// closure, each behind its predecessors, which are its sources and then the nodes that are ordered
/// before it, a source that stands in a directory of `.PATH` by the node of its place; in the order
/// in which a walk over these from the names on is done with them. `.BEGIN` with commands stands
/// first and before all others, and `.END` with commands last and behind all, unless it is only
/// asked (`query`) what is to do.
///
/// `NoTarget` exactly where no name is requested and there is no main target; then `NoRule` and
/// `Limit`, as the closure is refused first; then `Cycle` for the first closed walk over
/// predecessors, its first name repeated at the end. All this is by what the world was asked and
/// answered: the plan, or its refusal, is that of all files that fit the answers. `Failed` comes
/// only where the world's count of faults rose or is at its end.
pub fn make_plan<W: World>(
    alloc: Global,
    made: &Made,
    requested: &Texts,
    query: bool,
    world: &mut W,
) -> Result<Plan, PlanFault>
    requires idle { W.runs world.old [] }
    ensures planned { IfOk result (λ plan. ByLooks (W.history world.old) (W.history world.new)
        (λ files. spec.planned files made.now requested.now query ≡ Ok plan)) }
    ensures refused { IfErr result (λ fault. ByLooks (W.history world.old) (W.history world.new)
        (λ files. IsRefusedBy fault (spec.planned files made.now requested.now query))) }
    ensures cause { HasCause failed (W.faults world.old) (W.faults world.new) result }
    ensures idle { W.runs world.new [] }
{
    let names = wanted(requested, &made.main);
    if names.is_empty() {
        return Err(PlanFault::NoTarget);
    }
    let closure = close(
        alloc,
        &made.graph,
        &made.suffixes,
        &made.paths,
        made.scopes.cwd(),
        names,
        world,
    )?;
    plan_of(alloc, &closure, names, query)
}
