//! How old the sources of a node are.
ghost use Rattle.std.specs.Prelude.{◌≡◌, ◌≢◌, ◌<◌, ℕ, length, IfOk, OnOk};
ghost use Rattle.mk_decision.specs.Ages as spec;
ghost use Rattle.mk_decision.specs.Known.{HasRoom, known, known_earlier, known_few};
ghost use Rattle.mk_oodate.specs.declared.reason.Age.TheVariants.{Old as old};
ghost use Rattle.mk_plan.specs.Plans.{node_at};

use crate::sight::{Sighting, Sightings};
use mk_bytes::{Items, NoMemory};
use mk_graph::Attr;
use mk_oodate::{Age, Ages};
use mk_plan::Plan;
use mk_world::When;
use std::alloc::Global;
use std::collections::BTreeMap;

// Where so many nodes, and one in so many of all, are asked for, their ages stand in a list.
const MANY: usize = 8;

const PART: usize = 4;

// The newer of two ages.
fn newer(one: Age, other: Age) -> Age
    ensures { result ≡ spec.newer one other }
{
    match (one, other) {
        (Age::New, _) => Age::New,
        (_, Age::New) => Age::New,
        (Age::Old, _) => other,
        (_, Age::Old) => one,
        (Age::At(first), Age::At(second)) => { if first.0 < second.0 { other } else { one } }
    }
}

// The ages of some nodes, by their places; all others are old. The last that was added is at hand,
// so one alone takes no memory.
#[derive(Drop)]
struct Few {
    last: Option<(u32, Age)>,
    earlier: BTreeMap<u32, Age>,
}

// The ages of nodes, by their places; all others are old.
#[derive(Drop)]
enum Known {
    Few(Few),
    // Those of all places up to one.
    Each(Vec<Age>),
}

fn earlier_age(ages: &Few, place: u32) -> Age
    ensures { result ≡ known_earlier ages.now.earlier place }
{
    match ages.earlier.get(&place) {
        Some(age) => *age,
        None => Age::Old,
    }
}

fn age_of_few(ages: &Few, place: u32) -> Age
    ensures { result ≡ known_few ages.now place }
{
    match ages.last {
        Some((last, age)) if last == place => age,
        _ => earlier_age(ages, place),
    }
}

fn age_at(ages: &Known, place: u32) -> Age
    ensures { result ≡ known ages.now place }
{
    match ages {
        Known::Few(few) => age_of_few(few, place),
        Known::Each(ages) => match ages.get(place as usize) {
            Some(age) => *age,
            None => Age::Old,
        },
    }
}

fn add_to_few(ages: &mut Few, place: u32, age: Age) -> Result<(), NoMemory>
    ensures here { OnOk result (known_few ages.new place ≡ age) }
    ensures others { OnOk result ((one : ℕ) → one ≢ place
        → known_few ages.new one ≡ known_few ages.old one) }
{
    if let Some((last, before)) = ages.last {
        ages.earlier.insert(last, before)?;
    }
    ages.last = Some((place, age));
    Ok(())
}

// Adds the age of a node.
fn add_age(ages: &mut Known, place: u32, age: Age) -> Result<(), NoMemory>
    requires { HasRoom ages.old place }
    ensures here { OnOk result (known ages.new place ≡ age) }
    ensures others { OnOk result ((one : ℕ) → one ≢ place → known ages.new one ≡ known ages.old one) }
    ensures room { (one : ℕ) → HasRoom ages.old one → HasRoom ages.new one }
{
    match ages {
        Known::Few(few) => add_to_few(few, place, age),
        Known::Each(ages) => {
            ages[place as usize] = age;
            Ok(())
        }
    }
}

fn newest(ages: &Known, places: &[u32]) -> Age
    ensures { result ≡ spec.newest (known ages.now) old places.now }
{
    let mut newest = Age::Old;
    for place in places {
        newest = newer(newest, age_at(ages, *place));
    }
    newest
}

// The age of a node whose file is missing, by the ages of the nodes before it.
fn age_of_missing(plan: &Plan, place: u32, ages: &Known) -> Age
    requires { place < length plan.now }
    ensures { result ≡ spec.age_of_missing (node_at plan.now place)
        (known ages.now) }
{
    if plan.has(place, Attr::Exec) {
        return Age::Old;
    }
    let sources = plan.sources(place);
    if !plan.commands(place).is_empty() || sources.is_empty() {
        return Age::New;
    }
    newest(ages, sources.as_slice())
}

// The age of a node, by the time of its file and by the ages of the nodes before it.
fn age_of(plan: &Plan, seen: Sighting, ages: &Known) -> Age
    requires { seen.place < length plan.now }
    ensures { result ≡ spec.age_of (node_at plan.now seen.place) seen.when
        (known ages.now) }
{
    if plan.has(seen.place, Attr::Phony) {
        return Age::New;
    }
    match seen.when {
        When::Unknown => Age::New,
        When::At(time) => Age::At(time),
        When::Missing => age_of_missing(plan, seen.place, ages),
    }
}

// Whether so many nodes are a good part of those before a node.
fn are_most(count: usize, node: u32) -> bool {
    count >= MANY && node as usize / PART <= count
}

// No ages, with room for those of the nodes before one, of which so many come.
fn none_known(alloc: Global, node: u32, count: usize) -> Result<Known, NoMemory>
    ensures none { IfOk result (λ ages. (place : ℕ) → known ages place ≡ old) }
    ensures room { IfOk result (λ ages. (place : ℕ) → place < node → HasRoom ages place) }
{
    if are_most(count, node) {
        return Ok(Known::Each(vec![in alloc; Age::Old; node as usize]?));
    }
    Ok(Known::Few(Few {
        last: None,
        earlier: BTreeMap::new(alloc),
    }))
}

// The ages of the nodes before one, by what was seen of them, the later ones first.
fn ages_before(alloc: Global, plan: &Plan, node: u32, seen: &Sightings) -> Result<Known, NoMemory>
    requires node { node < length plan.now }
    requires seen { spec.AreBefore node seen.now }
    ensures { IfOk result (λ ages. (place : ℕ)
        → known ages place ≡ spec.age plan.now seen.now place) }
{
    let mut ages = none_known(alloc, node, seen.len())?;
    let mut left = seen.len();
    while left > 0 {
        left -= 1;
        let one = *seen.get(left);
        let age = age_of(plan, one, &ages);
        add_age(&mut ages, one.place, age)?;
    }
    Ok(ages)
}

/// The ages of the sources of a node, in order, by what was seen of the nodes before it.
pub fn source_ages(
    alloc: Global,
    plan: &Plan,
    node: u32,
    seen: &Sightings,
) -> Result<Ages, NoMemory>
    requires node { node < length plan.now }
    requires seen { spec.AreBefore node seen.now }
    ensures { IfOk result (λ ages. ages ≡ spec.source_ages plan.now node seen.now) }
{
    let before = ages_before(alloc, plan, node, seen)?;
    let sources = plan.sources(node);
    let mut ages = Items::new(alloc, sources.len())?;
    for place in sources.as_slice() {
        ages.push(age_at(&before, *place))?;
    }
    Ok(ages)
}
