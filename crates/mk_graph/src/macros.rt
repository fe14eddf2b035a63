//! Macros, the nodes with `.USE` or `.USEBEFORE` (make(1), "SPECIAL SOURCES (ATTRIBUTES)").
ghost use Rattle.std.specs.Prelude.{◌≡◌, ◌+◌, ◌<◌, ◌≤◌, ℕ, suc, [], ◌++◌, length, get_or, is_some};
ghost use Rattle.std.specs.Prelude.{IfOk, OnOk, OnErr};
ghost use Rattle.std.specs.List.{list_any};
ghost use Rattle.mk_graph.specs.Macros as macros;
ghost use Rattle.mk_graph.specs.Numbers.{AreBelow};
ghost use Rattle.mk_graph.specs.PartView.{state_of, parted_of, with_parts};
ghost use Rattle.mk_graph.specs.Parts as spec;

use crate::attr::Marks;
use crate::links::Links;
use crate::lists::Nodes;
use mk_bytes::{Items, NoMemory, Text, Texts};
use std::alloc::Global;

// How far a target has come with its sources: all that were met, those of them that it keeps as
// they are no macros, and the macros that it takes.
#[derive(Drop)]
struct Parting {
    queue: Vec<u32>,
    kept: Nodes,
    taken: Nodes,
}

// Goes through one source. For each node `taken_by` has the last target that took it.
fn go_through(
    parting: &mut Parting,
    nodes: &[Links],
    stamp: usize,
    taken_by: &mut Vec<usize>,
    n: u32,
) -> Result<(), NoMemory>
    requires node { n < length nodes.now }
    requires stamps { length taken_by.old.items ≡ length nodes.now }
    ensures { OnOk result (state_of parting.new taken_by.new.items
        ≡ spec.gone (macros.macros_of nodes.now) stamp
        (state_of parting.old taken_by.old.items) n) }
{
    let links = &nodes[n as usize];
    if !links.marks.is_macro() {
        parting.kept.push(n)?;
        return Ok(());
    }
    if taken_by[n as usize] == stamp {
        return Ok(());
    }
    parting.taken.push(n)?;
    parting.queue.extend_from_slice(links.sources.as_slice())?;
    taken_by[n as usize] = stamp;
    Ok(())
}

// Appends copies of texts.
fn push_copies(texts: &mut Texts, alloc: Global, others: &[Text]) -> Result<(), NoMemory>
    ensures { OnOk result (texts.new ≡ texts.old ++ others.now) }
{
    for text in others {
        texts.push(text.copy(alloc)?)?;
    }
    Ok(())
}

// Appends the commands of a macro of `.USE`.
fn push_behind(commands: &mut Texts, alloc: Global, links: &Links) -> Result<(), NoMemory>
    ensures { OnOk result (commands.new ≡ commands.old ++ spec.behind_part links.now) }
{
    if links.marks.macro_behind {
        push_copies(commands, alloc, links.commands.as_slice())?;
    }
    Ok(())
}

// Appends the commands of a macro of `.USEBEFORE` alone.
fn push_before(commands: &mut Texts, alloc: Global, links: &Links) -> Result<(), NoMemory>
    ensures { OnOk result (commands.new ≡ commands.old ++ spec.before_part links.now) }
{
    if !links.marks.macro_behind {
        push_copies(commands, alloc, links.commands.as_slice())?;
    }
    Ok(())
}

// Appends the commands that go behind the target's own.
fn push_all_behind(
    commands: &mut Texts,
    alloc: Global,
    nodes: &[Links],
    taken: &[u32],
) -> Result<(), NoMemory>
    requires { spec.AreMacros (macros.macros_of nodes.now) taken.now }
    ensures { OnOk result
        (commands.new ≡ commands.old ++ spec.behind (macros.macros_of nodes.now) taken.now) }
{
    for n in taken {
        let links = &nodes[*n as usize];
        push_behind(commands, alloc, links)?;
    }
    Ok(())
}

// Appends the commands that go before the target's own, those of the last macro first.
fn push_all_before(
    commands: &mut Texts,
    alloc: Global,
    nodes: &[Links],
    taken: &[u32],
) -> Result<(), NoMemory>
    requires { spec.AreMacros (macros.macros_of nodes.now) taken.now }
    ensures { OnOk result
        (commands.new ≡ commands.old ++ spec.before (macros.macros_of nodes.now) taken.now) }
{
    let mut rest = taken;
    'macros: while let Some((n, earlier)) = rest.split_last() {
        let links = &nodes[*n as usize];
        push_before(commands, alloc, links)?;
        rest = earlier;
    }
    Ok(())
}

// The commands of a target with those of the macros that it takes.
fn commands_with(
    alloc: Global,
    nodes: &[Links],
    own: &Texts,
    taken: &Nodes,
) -> Result<Texts, NoMemory>
    requires { spec.AreMacros (macros.macros_of nodes.now) taken.now }
    ensures { IfOk result (λ commands. commands
        ≡ macros.all_commands (macros.macros_of nodes.now) own.now taken.now) }
{
    let mut commands = Items::new(alloc, 0)?;
    push_all_before(&mut commands, alloc, nodes, taken.as_slice())?;
    push_copies(&mut commands, alloc, own.as_slice())?;
    push_all_behind(&mut commands, alloc, nodes, taken.as_slice())?;
    Ok(commands)
}

// The attributes of a target with those of the macros that it takes.
fn marks_with(nodes: &[Links], own: Marks, taken: &[u32]) -> Marks
    requires { spec.AreMacros (macros.macros_of nodes.now) taken.now }
    ensures { result ≡ macros.all_marks (macros.macros_of nodes.now) own taken.now }
{
    let mut marks = own;
    for n in taken {
        let links = &nodes[*n as usize];
        marks = marks.with_taken(links.marks);
    }
    marks
}

// Parts the sources of a target. No node was taken by it before.
fn part(
    alloc: Global,
    nodes: &[Links],
    sources: &Nodes,
    stamp: usize,
    taken_by: &mut Vec<usize>,
) -> Result<Parting, NoMemory>
    requires nodes { spec.HaveBelow (length nodes.now) nodes.now }
    requires sources { AreBelow (length nodes.now) sources.now }
    requires stamps { length taken_by.old.items ≡ length nodes.now }
    requires fresh { (n : ℕ) → get_or taken_by.old.items n 0 < stamp }
    ensures parted { IfOk result (λ parting. parted_of parting
        ≡ macros.sources_parted (macros.macros_of nodes.now) sources.now) }
    ensures fit { IfOk result (λ parting. spec.IsFit (macros.macros_of nodes.now) stamp
        (state_of parting taken_by.new.items)) }
{
    let mut parting = Parting {
        queue: Vec::from_slice(alloc, sources.as_slice())?,
        kept: Items::new(alloc, 0).unwrap(),
        taken: Items::new(alloc, 0).unwrap(),
    };
    let mut next = 0;
    'sources: while next < parting.queue.len() {
        let n = parting.queue[next];
        next += 1;
        go_through(&mut parting, nodes, stamp, taken_by, n)?;
    }
    Ok(parting)
}

// Whether one of these sources is a macro.
fn has_macro(nodes: &[Links], sources: &[u32]) -> bool
    requires { AreBelow (length nodes.now) sources.now }
    ensures { result
        ≡ list_any (λ n. is_some (macros.macro_at (macros.macros_of nodes.now) n)) sources.now }
{
    for n in sources {
        let links = &nodes[*n as usize];
        if links.marks.is_macro() {
            return true;
        }
    }
    false
}

// What changes of a target that takes macros.
#[derive(Drop)]
struct Taken {
    sources: Nodes,
    commands: Texts,
    marks: Marks,
}

// What a target takes of the macros among its sources.
fn take_macros(
    alloc: Global,
    nodes: &[Links],
    own: &Links,
    stamp: usize,
    taken_by: &mut Vec<usize>,
) -> Result<Taken, NoMemory>
    requires nodes { spec.HaveBelow (length nodes.now) nodes.now }
    requires sources { AreBelow (length nodes.now) own.now.sources }
    requires stamps { length taken_by.old.items ≡ length nodes.now }
    requires fresh { (n : ℕ) → get_or taken_by.old.items n 0 < stamp }
    ensures taken { IfOk result (λ taken. with_parts own.now taken
        ≡ macros.with_taken (macros.macros_of nodes.now) own.now
        (macros.sources_parted (macros.macros_of nodes.now) own.now.sources)) }
    ensures below { IfOk result (λ taken. AreBelow (length nodes.now) taken.sources) }
    ensures stamps { OnOk result (length taken_by.new.items ≡ length nodes.now) }
    ensures old { OnOk result ((n : ℕ) → get_or taken_by.new.items n 0 ≤ stamp) }
{
    let Parting {
        queue: _,
        kept,
        taken,
    } = part(alloc, nodes, &own.sources, stamp, taken_by)?;
    let commands = commands_with(alloc, nodes, &own.commands, &taken)?;
    let marks = marks_with(nodes, own.marks, taken.as_slice());
    Ok(Taken {
        sources: kept,
        commands,
        marks,
    })
}

// Gives one target what it takes of macros, if it is such a target.
fn use_at(
    alloc: Global,
    nodes: &mut Vec<Links>,
    place: usize,
    taken_by: &mut Vec<usize>,
) -> Result<(), NoMemory>
    requires place { place < length nodes.old.items }
    requires nodes { spec.HaveBelow (length nodes.old.items) nodes.old.items }
    requires stamps { length taken_by.old.items ≡ length nodes.old.items }
    requires old { (n : ℕ) → get_or taken_by.old.items n 0 ≤ place }
    ensures ok { OnOk result (nodes.new.items ≡ spec.with_macros_at nodes.old.items place) }
    ensures err { OnErr result (nodes.new.items ≡ nodes.old.items) }
    ensures nodes { spec.HaveBelow (length nodes.old.items) nodes.new.items }
    ensures stamps { OnOk result (length taken_by.new.items ≡ length nodes.old.items) }
    ensures old { OnOk result ((n : ℕ) → get_or taken_by.new.items n 0 ≤ place + 1) }
{
    let own = &nodes[place];
    if !own.marks.takes_macros() {
        return Ok(());
    }
    if !has_macro(nodes.as_slice(), own.sources.as_slice()) {
        return Ok(());
    }
    let Taken {
        sources,
        commands,
        marks,
    } = take_macros(alloc, nodes.as_slice(), own, place + 1, taken_by)?;
    let links = &mut nodes[place];
    links.sources = sources;
    links.commands = commands;
    links.marks = marks;
    Ok(())
}

/// Gives each target that is no macro what it takes of the macros among its sources. After a
/// refusal some targets have it.
pub fn use_all(alloc: Global, nodes: &mut Vec<Links>) -> Result<(), NoMemory>
    requires { spec.HaveBelow (length nodes.old.items) nodes.old.items }
    ensures ok { OnOk result (nodes.new.items ≡ macros.all_with_macros nodes.old.items) }
    ensures as_many { length nodes.new.items ≡ length nodes.old.items }
    ensures nodes { spec.HaveBelow (length nodes.old.items) nodes.new.items }
{
    let mut taken_by = vec![in alloc; 0_usize; nodes.len()]?;
    for place in 0..nodes.len() {
        use_at(alloc, nodes, place, &mut taken_by)?;
    }
    Ok(())
}
