//! The line of a reason.
ghost use Rattle.std.specs.Prelude.{◌≡◌, ◌<◌, ◌++◌, [], length, get_or, IfOk, OnOk};
ghost use Rattle.mk_decision.specs.Decisions.{source_names};
ghost use Rattle.mk_decision.specs.Makers.{work_of};
ghost use Rattle.mk_explain.specs.Changes.{command_text};
ghost use Rattle.mk_explain.specs.Lines as spec;
ghost use Rattle.mk_oodate.specs.Lists as lists;
ghost use Rattle.mk_oodate.specs.declared.reason.Age.TheVariants.{Old as old};
ghost use Rattle.mk_world.specs.declared.time.When.TheVariants.{Missing as missing};

use crate::change::push_command;
use crate::piece::{push_newer, push_path, push_read, push_touched};
use mk_bytes::{Items, NoMemory, Text, Texts};
use mk_decision::{Found, Maker};
use mk_filemon::{JobPaths, push_escaped};
use mk_meta::Meta;
use mk_oodate::{Age, Ages, Whens, Why, looked_at};
use mk_world::{Task, When};
use std::alloc::Global;

fn text_at(texts: &Texts, place: u32) -> &[u8]
    ensures { result.now ≡ get_or texts.now place [] }
{
    match texts.as_slice().get(place as usize) {
        Some(text) => text.bytes(),
        None => b"",
    }
}

fn age_at(ages: &Ages, place: u32) -> Age
    ensures { result ≡ get_or ages.now place old }
{
    match ages.as_slice().get(place as usize) {
        Some(age) => *age,
        None => Age::Old,
    }
}

fn when_at(whens: &Whens, place: u32) -> When
    ensures { result ≡ get_or whens.now place missing }
{
    match whens.as_slice().get(place as usize) {
        Some(when) => *when,
        None => When::Missing,
    }
}

// The name of the source of a node at a place.
fn source_at<'m>(maker: &Maker<'m>, node: u32, place: u32) -> &'m [u8]
    requires { node < length maker.now.plan.now }
    ensures { result.now ≡ get_or (source_names (work_of maker.now) node) place [] }
{
    match maker.plan.sources(node).as_slice().get(place as usize) {
        Some(source) => maker.plan.name_at(*source),
        None => b"",
    }
}

// The paths that the records of a meta file name, where it has some.
fn paths_of(alloc: Global, ignored: &Texts, meta: &Meta) -> Result<JobPaths, NoMemory>
    ensures found { IfOk result (λ paths.
        paths.found ≡ lists.read_paths ignored.now (spec.records_of meta.now)) }
    ensures missed { IfOk result (λ paths.
        paths.missed ≡ lists.missed_paths ignored.now (spec.records_of meta.now)) }
    ensures left { IfOk result (λ paths.
        paths.left ≡ lists.left_paths ignored.now (spec.records_of meta.now)) }
{
    match &meta.records {
        Some(records) => looked_at(alloc, ignored, records),
        None => Ok(JobPaths {
            found: Items::new(alloc, 0)?,
            missed: Items::new(alloc, 0)?,
            left: Items::new(alloc, 0)?,
        }),
    }
}

// Appends what has changed in the commands.
fn push_changes(text: &mut Text, task: &Task, value: &Option<Meta>) -> Result<(), NoMemory>
    ensures { OnOk result (text.new ≡ text.old
        ++ spec.by_meta (command_text task.now) value.now) }
{
    match value {
        Some(meta) => push_command(text, task, meta),
        None => Ok(()),
    }
}

// Appends the path at a place of those that the job found outside, and its time.
fn push_changed(
    alloc: Global,
    text: &mut Text,
    ignored: &Texts,
    value: &Option<Meta>,
    when: When,
    place: u32,
) -> Result<(), NoMemory>
    ensures { OnOk result (text.new ≡ text.old
        ++ spec.by_meta (spec.changed_text ignored.now when place) value.now) }
{
    let Some(meta) = value else {
        return Ok(());
    };
    let paths = paths_of(alloc, ignored, meta)?;
    let pushed = push_read(text, text_at(&paths.found, place), when, meta.stamp);
    drop(paths);
    pushed
}

// Appends the path at a place of those that the job missed.
fn push_appeared(
    alloc: Global,
    text: &mut Text,
    ignored: &Texts,
    value: &Option<Meta>,
    place: u32,
) -> Result<(), NoMemory>
    ensures { OnOk result (text.new ≡ text.old
        ++ spec.by_meta (spec.appeared_text ignored.now place) value.now) }
{
    let Some(meta) = value else {
        return Ok(());
    };
    let paths = paths_of(alloc, ignored, meta)?;
    let pushed = push_path(text, b"appeared ", text_at(&paths.missed, place));
    drop(paths);
    pushed
}

// Appends the path at a place of those that the job left written.
fn push_left(
    alloc: Global,
    text: &mut Text,
    ignored: &Texts,
    value: &Option<Meta>,
    place: u32,
) -> Result<(), NoMemory>
    ensures { OnOk result (text.new ≡ text.old
        ++ spec.by_meta (spec.left_text ignored.now place) value.now) }
{
    let Some(meta) = value else {
        return Ok(());
    };
    let paths = paths_of(alloc, ignored, meta)?;
    let pushed = push_path(text, b"left ", text_at(&paths.left, place));
    drop(paths);
    pushed
}

// Appends a reason.
fn push_reason(
    maker: &Maker,
    text: &mut Text,
    node: u32,
    task: &Task,
    found: &Found,
    why: Why,
) -> Result<(), NoMemory>
    requires { node < length maker.now.plan.now }
    ensures { OnOk result (text.new ≡ text.old ++ spec.reason_text
        (spec.names_of (work_of maker.now) node) task.now found.now.value found.now.times why) }
{
    let alloc = maker.alloc;
    let ignored = &maker.made.mode.ignore_paths;
    let times = &found.times;
    match why {
        Why::Always => text.push(b"always"),
        Why::Missing => text.push(b"missing"),
        Why::Newer(place) => {
            let age = age_at(&times.sources, place);
            push_newer(text, source_at(maker, node, place), age, times.target)
        }
        Why::NoMeta => text.push(b"no meta"),
        Why::Touched => push_touched(text, times.target, times.meta),
        Why::Command => push_changes(text, task, &found.value),
        Why::NoRecords => text.push(b"no records"),
        Why::Read(place) => {
            let when = when_at(&times.reads, place);
            push_changed(alloc, text, ignored, &found.value, when, place)
        }
        Why::Appeared(place) => push_appeared(alloc, text, ignored, &found.value, place),
        Why::Left(place) => push_left(alloc, text, ignored, &found.value, place),
    }
}

/// The line of a reason: the node's name, a space, and the reason.
pub fn line_of(
    maker: &Maker,
    node: u32,
    task: &Task,
    found: &Found,
    why: Why,
) -> Result<Text, NoMemory>
    requires { node < length maker.now.plan.now }
    ensures { IfOk result (λ line. line ≡ spec.line_of
        (spec.names_of (work_of maker.now) node) task.now found.now.value found.now.times why) }
{
    let mut text = Text::new(maker.alloc);
    push_escaped(&mut text, maker.plan.name(node))?;
    text.push(b" ")?;
    push_reason(maker, &mut text, node, task, found, why)?;
    text.push(b"\n")?;
    Ok(text)
}
