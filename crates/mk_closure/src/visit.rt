//! The walk from wanted names over their sources.
ghost use Rattle.std.specs.Prelude.{◌≡◌, ◌+◌, ◌<◌, ◌≤◌, ◌^◌, false, [], ◌∷◌, ◌++◌, length, reverse};
ghost use Rattle.std.specs.Prelude.{Ok, IfOk, IfErr, OnOk};
ghost use Rattle.mk_closure.specs.Faults.{IsRefusedBy};
ghost use Rattle.mk_closure.specs.Members.{listed};
ghost use Rattle.mk_closure.specs.Names.{is_frame};
ghost use Rattle.mk_closure.specs.Parts.{part_at, met_count};
ghost use Rattle.mk_closure.specs.Steps as steps;
ghost use Rattle.mk_closure.specs.Walks as spec;
ghost use Rattle.mk_closure.specs.declared.fault.CloseFault.TheVariants.{Failed as failed};
ghost use Rattle.mk_graph.specs.Numbers.{AreBelow};
ghost use Rattle.mk_suffix.specs.Found.{seeking_in};
ghost use Rattle.mk_dirs.specs.Answered.{ByLooks};
ghost use Rattle.mk_world.specs.Causes.{HasCause};

use crate::closure::Closure;
use crate::fault::CloseFault;
use crate::means::means_of;
use crate::members::Sources;
use mk_bytes::{NoMemory, Text, Texts};
use mk_graph::Graph;
use mk_pool::MAX_NAMES;
use mk_suffix::SuffixRules;
use mk_world::World;
use std::alloc::Global;

fn is_frame(name: &[u8]) -> bool
    ensures { result ≡ is_frame name.now }
{
    name == b".BEGIN".as_slice() || name == b".END".as_slice()
}

// Pushes nodes, so that the first of them is popped first.
fn push_turned(todo: &mut Vec<u32>, nodes: &[u32]) -> Result<(), NoMemory>
    ensures { OnOk result (todo.new.items ≡ todo.old.items ++ reverse nodes.now) }
{
    let mut left = nodes.len();
    'nodes: while left > 0 {
        left -= 1;
        todo.push(nodes[left])?;
    }
    Ok(())
}

// Pushes the sources of a node, so that the first of them is popped first.
fn push_sources(todo: &mut Vec<u32>, sources: Sources<'_>) -> Result<(), NoMemory>
    ensures { OnOk result (todo.new.items ≡ todo.old.items ++ reverse (listed sources.entry)) }
{
    if let Some(source) = sources.of_rule {
        todo.push(source)?;
    }
    push_turned(todo, sources.own)
}

fn one(alloc: Global, n: u32) -> Result<Vec<u32>, NoMemory>
    ensures { IfOk result (λ todo. todo.items ≡ n ∷ []) }
{
    let mut todo = Vec::new(alloc);
    todo.push(n)?;
    Ok(todo)
}

impl<'g> Closure<'g> {
    // Meets a node, and decides how it is made where nothing was decided of it.
    fn enter<W: World>(
        &mut self,
        alloc: Global,
        rules: &SuffixRules<'_>,
        n: u32,
        world: &mut W,
    ) -> Result<(), CloseFault>
        requires same { rules.now.nodes ≡ self.old.nodes }
        requires within { n < length self.old.parts }
        requires new { (part_at self.old n).met ≡ false }
        requires idle { W.runs world.old [] }
        ensures entered { IfOk result (λ _. ByLooks (W.history world.old) (W.history world.new)
            (λ files. spec.entered files rules.now.seeking self.old n ≡ Ok self.new)) }
        ensures refused { IfErr result (λ fault. ByLooks (W.history world.old) (W.history world.new)
            (λ files. IsRefusedBy fault (spec.entered files rules.now.seeking self.old n))) }
        ensures met { OnOk result (steps.IsMet self.old self.new) }
        ensures cause { HasCause failed (W.faults world.old) (W.faults world.new) result }
        ensures idle { W.runs world.new [] }
    {
        if !self.part(n).way.is_open() {
            self.meet(n);
            return Ok(());
        }
        let means = means_of(alloc, rules, self.name(n), n, world)?;
        self.meet_by(alloc, n, means)?;
        Ok(())
    }

    fn is_over(&self, n: u32) -> bool
        requires { n < length self.now.parts }
        ensures value { result ≡ spec.is_over self.now n }
        ensures room { result ≡ false → met_count self.now.parts < MAX_NAMES }
    {
        self.part(n).met || is_frame(self.name(n))
    }

    // Goes on from a node: past it, or to its sources.
    fn visit<W: World>(
        &mut self,
        alloc: Global,
        rules: &SuffixRules<'_>,
        n: u32,
        todo: &mut Vec<u32>,
        world: &mut W,
    ) -> Result<(), CloseFault>
        requires same { rules.now.nodes ≡ self.old.nodes }
        requires within { n < length self.old.parts }
        requires below { AreBelow (length self.old.parts) todo.old.items }
        requires idle { W.runs world.old [] }
        ensures leads { IfOk result (λ _. ByLooks (W.history world.old) (W.history world.new)
            (λ files. steps.Leads (spec.entered files rules.now.seeking)
            self.old (n ∷ reverse todo.old.items) self.new (reverse todo.new.items))) }
        ensures refused { IfErr result (λ fault. ByLooks (W.history world.old) (W.history world.new)
            (λ files. IsRefusedBy fault (spec.walk (spec.entered files rules.now.seeking)
            self.old (n ∷ reverse todo.old.items)))) }
        ensures nodes { OnOk result (self.new.nodes ≡ self.old.nodes) }
        ensures below { OnOk result (AreBelow (length self.new.parts) todo.new.items) }
        ensures fewer { OnOk result (steps.steps_left self.new (length todo.new.items)
            ≤ steps.steps_left self.old (length todo.old.items)) }
        ensures cause { HasCause failed (W.faults world.old) (W.faults world.new) result }
        ensures idle { W.runs world.new [] }
    {
        if self.is_over(n) {
            return Ok(());
        }
        self.enter(alloc, rules, n, world)?;
        push_sources(todo, self.sources(n))?;
        Ok(())
    }

    // Walks from a node.
    fn walk<W: World>(
        &mut self,
        alloc: Global,
        rules: &SuffixRules<'_>,
        from: u32,
        world: &mut W,
    ) -> Result<(), CloseFault>
        requires same { rules.now.nodes ≡ self.old.nodes }
        requires within { from < length self.old.parts }
        requires idle { W.runs world.old [] }
        ensures walked { IfOk result (λ _. ByLooks (W.history world.old) (W.history world.new)
            (λ files. spec.walk (spec.entered files rules.now.seeking) self.old (from ∷ [])
            ≡ Ok self.new)) }
        ensures refused { IfErr result (λ fault. ByLooks (W.history world.old) (W.history world.new)
            (λ files. IsRefusedBy fault
            (spec.walk (spec.entered files rules.now.seeking) self.old (from ∷ [])))) }
        ensures nodes { OnOk result (self.new.nodes ≡ self.old.nodes) }
        ensures cause { HasCause failed (W.faults world.old) (W.faults world.new) result }
        ensures idle { W.runs world.new [] }
    {
        let mut todo = one(alloc, from)?;
        'nodes: while let Some(n) = todo.pop() {
            self.visit(alloc, rules, n, &mut todo, world)?;
        }
        Ok(())
    }

    // Meets a wanted name, and what it needs.
    fn want<W: World>(
        &mut self,
        alloc: Global,
        rules: &SuffixRules<'_>,
        name: &[u8],
        world: &mut W,
    ) -> Result<(), CloseFault>
        requires same { rules.now.nodes ≡ self.old.nodes }
        requires idle { W.runs world.old [] }
        ensures met { IfOk result (λ _. ByLooks (W.history world.old) (W.history world.new)
            (λ files. spec.wanted_met (spec.entered files rules.now.seeking) self.old name.now
            ≡ Ok self.new)) }
        ensures refused { IfErr result (λ fault. ByLooks (W.history world.old) (W.history world.new)
            (λ files. IsRefusedBy fault
            (spec.wanted_met (spec.entered files rules.now.seeking) self.old name.now))) }
        ensures nodes { OnOk result (self.new.nodes ≡ self.old.nodes) }
        ensures cause { HasCause failed (W.faults world.old) (W.faults world.new) result }
        ensures idle { W.runs world.new [] }
    {
        if is_frame(name) {
            return Ok(());
        }
        let n = self.number(name)?;
        self.walk(alloc, rules, n, world)
    }

    // Meets wanted names, one after the other.
    fn want_all<W: World>(
        &mut self,
        alloc: Global,
        rules: &SuffixRules<'_>,
        wanted: &[Text],
        world: &mut W,
    ) -> Result<(), CloseFault>
        requires same { rules.now.nodes ≡ self.old.nodes }
        requires idle { W.runs world.old [] }
        ensures met { IfOk result (λ _. ByLooks (W.history world.old) (W.history world.new)
            (λ files. spec.all_met (spec.entered files rules.now.seeking) self.old wanted.now
            ≡ Ok self.new)) }
        ensures refused { IfErr result (λ fault. ByLooks (W.history world.old) (W.history world.new)
            (λ files. IsRefusedBy fault
            (spec.all_met (spec.entered files rules.now.seeking) self.old wanted.now))) }
        ensures cause { HasCause failed (W.faults world.old) (W.faults world.new) result }
        ensures idle { W.runs world.new [] }
    {
        for name in wanted {
            self.want(alloc, rules, name.bytes(), world)?;
        }
        Ok(())
    }
}

/// The closure of wanted names in a graph, where sources are made by rules between these suffixes,
/// sought in the directories `paths`, and named from the directory `cwd`.
///
/// Names are met in order, each before its sources and these before the next one; a name is met
/// once, and added to those of the graph where it is new. `.BEGIN` and `.END` are passed over. A
/// node without commands that is not phony is made by the chosen chain of suffix rules, if there is
/// one: each step gives its rule's commands to a name and adds its source as the last one, and a
/// name for which that was decided before stays as it is, with those before it. For a node without
/// commands and chain that is no target and has no file, but a place in a directory that is
/// searched, the node of the place stands, which is met behind it. One without a place takes the
/// commands of `.DEFAULT`; where that has none, it is dropped if it is optional, and else it is
/// refused.
///
/// `NoRule` is the first such name, and `Full` comes exactly where a 1,048,577th name would be
/// added before. All this is by what the world was asked and answered: the closure, or its refusal,
/// is that of all files that fit the answers. `Failed` comes only where the world's count of faults
/// rose or is at its end.
pub fn close<'g, W: World>(
    alloc: Global,
    graph: &'g Graph,
    suffixes: &Texts,
    paths: &Texts,
    cwd: &[u8],
    wanted: &[Text],
    world: &mut W,
) -> Result<Closure<'g>, CloseFault>
    requires idle { W.runs world.old [] }
    ensures closed { IfOk result (λ closure. ByLooks (W.history world.old) (W.history world.new)
        (λ files. spec.closed files graph.now (seeking_in suffixes.now paths.now cwd.now) wanted.now
        ≡ Ok closure)) }
    ensures refused { IfErr result (λ fault. ByLooks (W.history world.old) (W.history world.new)
        (λ files. IsRefusedBy fault
        (spec.closed files graph.now (seeking_in suffixes.now paths.now cwd.now) wanted.now))) }
    ensures cause { HasCause failed (W.faults world.old) (W.faults world.new) result }
    ensures idle { W.runs world.new [] }
{
    let rules = SuffixRules::new(alloc, graph, suffixes, paths, cwd)?;
    let mut closure = Closure::new(alloc, graph)?;
    closure.want_all(alloc, &rules, wanted, world)?;
    Ok(closure)
}
