//! The looks by which a node is decided.
ghost use Rattle.std.specs.Prelude.{◌≡◌, ◌<◌, ◌+◌, ◌==◌, ◌||◌, ◌&&◌, nat_lt, ℕ, List, [], Option};
ghost use Rattle.std.specs.Prelude.{true, length, IfOk, OnErr, OnOk};
ghost use Rattle.mk_decision.specs.Ages as spec;
ghost use Rattle.mk_decision.specs.Looks.{LooksAt};
ghost use Rattle.mk_decision.specs.Sights.{AreWanted, IsAt, Looked, OnWalk, SawAll, SawSome};
ghost use Rattle.mk_decision.specs.Sights.{look_at};
ghost use Rattle.mk_decision.specs.Wants.{has};
ghost use Rattle.mk_plan.specs.Plans.{node_at};
ghost use Rattle.mk_world.specs.Causes.{HasCause};
ghost use Rattle.mk_world.specs.declared.fault.WorldFault.TheVariants.{Failed as failed};
ghost use Rattle.mk_world.specs.declared.history.History.{History};

use crate::wanted::{Wanted, rise_below};
use mk_bytes::{Items, NoMemory};
use mk_graph::Attr;
use mk_plan::Plan;
use mk_world::{When, World, WorldFault};
use std::alloc::Global;

/// What was seen of a node: its place in the plan, and the time of its file. A phony node is no
/// file, so it is not looked at.
#[derive(Clone, Copy)]
pub struct Sighting {
    pub place: u32,
    pub when: When,
}

/// What was seen of several nodes, the later ones in the plan first.
pub type Sightings = Items<Sighting>;

/// The times by which a node is decided: that of its own file, and those of the nodes that count.
#[derive(Drop)]
pub struct NodeTimes {
    pub target: When,
    pub sources: Sightings,
}

// Looks at the time of a node's file, unless the node is phony.
fn time_of<W: World>(
    alloc: Global,
    world: &mut W,
    plan: &Plan,
    place: u32,
) -> Result<When, WorldFault>
    requires within { place < length plan.now }
    ensures seen { IfOk result (λ when. LooksAt W.meaning (W.history world.old)
        (W.history world.new) (look_at plan.now (record { place = place; when = when }))) }
    ensures no_file { IfOk result (λ when. spec.HasNoFile (node_at plan.now place) when) }
    ensures refused { OnErr result
        (LooksAt W.meaning (W.history world.old) (W.history world.new) []) }
    ensures cause { HasCause failed (W.faults world.old) (W.faults world.new) result }
    ensures children { (kids : List ℕ) → W.runs world.old kids → W.runs world.new kids }
{
    if plan.has(place, Attr::Phony) {
        return Ok(When::Missing);
    }
    let when = world.time(alloc, plan.name(place))?;
    Ok(when)
}

// Whether the age of a node is that of its sources.
fn is_by_sources(plan: &Plan, place: u32, when: When) -> bool
    requires { place < length plan.now }
    ensures { result ≡ spec.is_by_sources (node_at plan.now place) when }
{
    !plan.has(place, Attr::Phony)
        && !plan.has(place, Attr::Exec)
        && when.is_missing()
        && plan.commands(place).is_empty()
}

// Adds a node that stands before a place.
fn want_one(wanted: &mut Wanted, place: u32, source: u32) -> Result<(), NoMemory>
    ensures { OnOk result ((one : ℕ) → has wanted.new one
        ≡ (has wanted.old one || (source == one && nat_lt one place))) }
{
    if source >= place {
        return Ok(());
    }
    wanted.add(source)
}

// Adds those of some nodes that stand before a place.
fn want(wanted: &mut Wanted, place: u32, sources: &[u32]) -> Result<(), NoMemory>
    ensures { OnOk result ((one : ℕ) → has wanted.new one
        ≡ (has wanted.old one
        || (spec.is_one_of sources.now one && nat_lt one place))) }
{
    for source in sources {
        want_one(wanted, place, *source)?;
    }
    Ok(())
}

// Adds the sources of a node where its age is theirs.
fn want_counted(wanted: &mut Wanted, plan: &Plan, place: u32, when: When) -> Result<(), NoMemory>
    requires { place < length plan.now }
    ensures { OnOk result ((one : ℕ) → has wanted.new one
        ≡ (has wanted.old one
        || (spec.is_one_of (spec.counted (node_at plan.now place) when) one && nat_lt one place))) }
{
    if is_by_sources(plan, place, when) {
        want(wanted, place, plan.sources(place).as_slice())?;
    }
    Ok(())
}

// The sources of a node that is to be decided, or none where its file is missing. Those that rise,
// as sources do that are new to a plan, are lent.
fn decisive<'p>(
    alloc: Global,
    plan: &'p Plan,
    node: u32,
    target: When,
) -> Result<Wanted<'p>, NoMemory>
    requires { node < length plan.now }
    ensures { IfOk result (λ wanted. AreWanted node (has wanted)
        (spec.decisive (node_at plan.now node) target)) }
{
    if target.is_missing() {
        return Ok(Wanted::none(alloc));
    }
    let sources = plan.sources(node).as_slice();
    if rise_below(sources, node) {
        return Ok(Wanted::of_rising(alloc, sources));
    }
    let mut wanted = Wanted::none(alloc);
    want(&mut wanted, node, sources)?;
    Ok(wanted)
}

// Looks at a node that counts, and adds its sources where its age is theirs.
fn visit<W: World>(
    alloc: Global,
    world: &mut W,
    plan: &Plan,
    place: u32,
    wanted: &mut Wanted,
    seen: &mut Sightings,
) -> Result<(), WorldFault>
    requires within { place < length plan.now }
    requires below { (one : ℕ) → has wanted.old one ≡ true → one < place }
    ensures below { OnOk result
        ((one : ℕ) → has wanted.new one ≡ true → one < place) }
    ensures walk { OnOk result ((node : ℕ) (first : List ℕ)
        → IsAt plan.now node first place (has wanted.old) seen.old
        → OnWalk plan.now node first place (has wanted.new) seen.new) }
    ensures looked { OnOk result ((start : Option History)
        → Looked W.meaning start (W.history world.old) plan.now seen.old
        → Looked W.meaning start (W.history world.new) plan.now seen.new) }
    ensures more { OnOk result (length seen.new ≡ length seen.old + 1) }
    ensures some { OnErr result ((start : Option History)
        → Looked W.meaning start (W.history world.old) plan.now seen.old
        → SawSome W.meaning start (W.history world.new)) }
    ensures cause { HasCause failed (W.faults world.old) (W.faults world.new) result }
    ensures children { (kids : List ℕ) → W.runs world.old kids → W.runs world.new kids }
{
    let when = time_of(alloc, world, plan, place)?;
    want_counted(wanted, plan, place, when)?;
    seen.push(Sighting { place, when })?;
    Ok(())
}

// Looks at the nodes that count for one, the last one first.
fn look_back<W: World>(
    alloc: Global,
    world: &mut W,
    plan: &Plan,
    node: u32,
    wanted: &mut Wanted,
) -> Result<Sightings, WorldFault>
    requires within { node < length plan.now }
    requires below { (one : ℕ) → has wanted.old one ≡ true → one < node }
    ensures walk { IfOk result (λ seen. (first : List ℕ)
        → AreWanted node (has wanted.old) first
        → spec.AreSeen plan.now node first seen) }
    ensures looked { IfOk result (λ seen.
        Looked W.meaning (W.history world.old) (W.history world.new) plan.now seen) }
    ensures some { OnErr result
        (SawSome W.meaning (W.history world.old) (W.history world.new)) }
    ensures cause { HasCause failed (W.faults world.old) (W.faults world.new) result }
    ensures children { (kids : List ℕ) → W.runs world.old kids → W.runs world.new kids }
{
    let mut seen = Items::new(alloc, 0)?;
    'nodes: while let Some(place) = wanted.take_last() {
        visit(alloc, world, plan, place, wanted, &mut seen)?;
    }
    Ok(seen)
}

fn source_times<W: World>(
    alloc: Global,
    world: &mut W,
    plan: &Plan,
    node: u32,
    target: When,
) -> Result<Sightings, WorldFault>
    requires within { node < length plan.now }
    ensures walk { IfOk result (λ seen. spec.AreSeen plan.now node
        (spec.decisive (node_at plan.now node) target) seen) }
    ensures looked { IfOk result (λ seen.
        Looked W.meaning (W.history world.old) (W.history world.new) plan.now seen) }
    ensures some { OnErr result
        (SawSome W.meaning (W.history world.old) (W.history world.new)) }
    ensures cause { HasCause failed (W.faults world.old) (W.faults world.new) result }
    ensures children { (kids : List ℕ) → W.runs world.old kids → W.runs world.new kids }
{
    let mut wanted = decisive(alloc, plan, node, target)?;
    let seen = look_back(alloc, world, plan, node, &mut wanted)?;
    Ok(seen)
}

/// Looks at the target of a node, and then, unless it is missing, at the nodes by whose times the
/// node is decided: at its sources, and where the age of one is that of its own sources at these,
/// and so on. Each is looked at once, and a phony node never.
pub fn look<W: World>(
    alloc: Global,
    world: &mut W,
    plan: &Plan,
    node: u32,
) -> Result<NodeTimes, WorldFault>
    requires within { node < length plan.now }
    ensures walk { IfOk result (λ times.
        spec.IsWalk plan.now node times.target times.sources) }
    ensures seen { IfOk result (λ times. SawAll W.meaning (W.history world.old)
        (W.history world.new) plan.now node times) }
    ensures some { OnErr result
        (SawSome W.meaning (W.history world.old) (W.history world.new)) }
    ensures cause { HasCause failed (W.faults world.old) (W.faults world.new) result }
    ensures children { (kids : List ℕ) → W.runs world.old kids → W.runs world.new kids }
{
    let target = time_of(alloc, world, plan, node)?;
    let sources = source_times(alloc, world, plan, node, target)?;
    Ok(NodeTimes { target, sources })
}
