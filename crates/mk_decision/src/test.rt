//! What counts for the test whether a node is out of date.
ghost use Rattle.std.specs.Prelude.{◌≡◌, ◌<◌, [], ◌∷◌, ◌++◌, length, IfOk, OnOk};
ghost use Rattle.mk_decision.specs.Tests as spec;
ghost use Rattle.mk_plan.specs.Plans.{node_at};
ghost use Rattle.mk_plan.specs.Tasks.{names_at};

use mk_bytes::{Items, NoMemory, Text, Texts};
use mk_graph::{Attr, Mode};
use mk_oodate::{Age, NodeMode, is_newer};
use mk_plan::{Plan, is_meta};
use mk_world::When;
use std::alloc::Global;

// Whether a node is made whatever stands there.
fn is_always(plan: &Plan, node: u32) -> bool
    requires { node < length plan.now }
    ensures { result ≡ spec.is_always (node_at plan.now node).marks }
{
    plan.has(node, Attr::Phony) || plan.has(node, Attr::Exec) || plan.has(node, Attr::Remake)
}

/// What counts for a node.
pub fn node_mode(plan: &Plan, mode: &Mode, node: u32) -> NodeMode
    requires { node < length plan.now }
    ensures { result ≡ spec.node_mode mode.now (node_at plan.now node).marks }
{
    NodeMode {
        always: is_always(plan, node),
        meta: is_meta(plan, mode, node),
        missing_meta: mode.missing_meta,
        missing_filemon: mode.missing_filemon,
        nofilemon: mode.nofilemon,
        ignore_cmd: mode.ignore_cmd,
        count_only: plan.has(node, Attr::NoMetaCmp),
    }
}

fn counts_as_newer(target: When, source: Age) -> bool
    ensures { result ≡ spec.counts_as_newer target source }
{
    target.is_missing() || is_newer(target, source)
}

// Adds the name of a source that counts as newer.
fn add_newer(
    alloc: Global,
    plan: &Plan,
    place: u32,
    target: When,
    age: Age,
    newer: &mut Texts,
) -> Result<(), NoMemory>
    ensures { OnOk result (newer.new ≡ newer.old
        ++ spec.newer_names target ((node_at plan.now place).name ∷ []) (age ∷ [])) }
{
    if counts_as_newer(target, age) {
        newer.push(Text::from_bytes(alloc, plan.name_at(place))?)?;
    }
    Ok(())
}

/// The names of those nodes at these places that are newer than the target, by their ages, or of
/// all where it is missing. No other name is copied.
pub fn newer_names(
    alloc: Global,
    plan: &Plan,
    places: &[u32],
    target: When,
    ages: &[Age],
) -> Result<Texts, NoMemory>
    requires { length ages.now ≡ length places.now }
    ensures { IfOk result
        (λ newer. newer ≡ spec.newer_names target (names_at plan.now places.now) ages.now) }
{
    let mut newer = Items::new(alloc, 0)?;
    for (at, place) in places.iter().enumerate() {
        add_newer(alloc, plan, *place, target, ages[at], &mut newer)?;
    }
    Ok(newer)
}
