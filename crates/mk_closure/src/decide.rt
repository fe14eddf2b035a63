//! How a node is made.
ghost use Rattle.std.specs.Prelude.{◌≡◌, ◌<◌, false, length, Ok, IfOk, IfErr, OnOk};
ghost use Rattle.mk_closure.specs.Deciding as spec;
ghost use Rattle.mk_closure.specs.Faults.{IsOwn, IsRefusedBy};
ghost use Rattle.mk_closure.specs.Made.{HasChain};
ghost use Rattle.mk_closure.specs.Parts.{IsGrown, is_open, part_at, with_met};
ghost use Rattle.mk_closure.specs.Steps.{IsMet};
ghost use Rattle.mk_suffix.specs.Made.{IsFor};

use crate::closure::Closure;
use crate::fault::CloseFault;
use crate::means::{Means, has_commands};
use crate::part::Way;
use mk_bytes::Text;
use mk_graph::{Attr, Graph};
use mk_suffix::Chain;
use std::alloc::Global;

fn has_default(graph: &Graph) -> bool
    ensures { result ≡ spec.has_default graph.now }
{
    match graph.find(b".DEFAULT".as_slice()) {
        Some(n) => has_commands(graph, n),
        None => false,
    }
}

fn is_optional(graph: &Graph, n: u32) -> bool
    ensures { result ≡ spec.is_optional graph.now n }
{
    (n as usize) < graph.len() && graph.has(n, Attr::Optional)
}

impl<'g> Closure<'g> {
    fn is_open(&self, n: u32) -> bool
        requires { n < length self.now.parts }
        ensures { result ≡ is_open self.now n }
    {
        self.part(n).way.is_open()
    }

    // Makes a name by a rule from a source, whose number is answered.
    fn link_to(&mut self, n: u32, rule: u32, source: &[u8]) -> Result<u32, CloseFault>
        requires within { n < length self.old.parts }
        requires rule { rule < length self.old.nodes }
        ensures linked { IfOk result (λ found.
            spec.linked_to self.old n rule source.now ≡ Ok (self.new, found)) }
        ensures within { IfOk result (λ found. found < length self.new.parts) }
        ensures refused { IfErr result (λ fault.
            IsRefusedBy fault (spec.linked_to self.old n rule source.now)) }
        ensures own { IfErr result IsOwn }
        ensures grown { OnOk result (IsGrown self.old self.new) }
    {
        let found = self.number(source)?;
        self.make(n, Way::Rule(rule, found));
        Ok(found)
    }

    // Makes a name by a chain, and the names on the way to it.
    fn link(&mut self, n: u32, chain: &Chain) -> Result<(), CloseFault>
        requires within { n < length self.old.parts }
        requires chain { IsFor self.old.nodes chain.now }
        ensures linked { OnOk result
            (spec.linked self.old n chain.now (length chain.now.rules) ≡ Ok self.new) }
        ensures refused { IfErr result (λ fault.
            IsRefusedBy fault (spec.linked self.old n chain.now (length chain.now.rules))) }
        ensures own { IfErr result IsOwn }
        ensures grown { OnOk result (IsGrown self.old self.new) }
    {
        let mut target = n;
        let mut links = chain.rules.len();
        'links: while links > 0 {
            if !self.is_open(target) {
                return Ok(());
            }
            links -= 1;
            let rule = *chain.rules.get(links);
            target = self.link_to(target, rule, chain.names.get(links).bytes())?;
        }
        Ok(())
    }

    // Lets the node of a place stand for a node.
    fn stand_at(&mut self, n: u32, place: &[u8]) -> Result<(), CloseFault>
        requires { n < length self.old.parts }
        ensures placed { OnOk result (spec.placed self.old n place.now ≡ Ok self.new) }
        ensures refused { IfErr result (λ fault.
            IsRefusedBy fault (spec.placed self.old n place.now)) }
        ensures own { IfErr result IsOwn }
        ensures grown { OnOk result (IsGrown self.old self.new) }
    {
        let found = self.number(place)?;
        self.make(n, Way::Placed(found));
        Ok(())
    }

    // Decides of a node that nothing else makes.
    fn miss(&mut self, alloc: Global, n: u32) -> Result<(), CloseFault>
        requires within { n < length self.old.parts }
        ensures missing { OnOk result (spec.missing self.old n ≡ Ok self.new) }
        ensures refused { IfErr result (λ fault. IsRefusedBy fault (spec.missing self.old n)) }
        ensures own { IfErr result IsOwn }
        ensures grown { OnOk result (IsGrown self.old self.new) }
    {
        if has_default(self.graph()) {
            self.make(n, Way::Default);
            return Ok(());
        }
        if is_optional(self.graph(), n) {
            self.make(n, Way::Dropped);
            return Ok(());
        }
        Err(CloseFault::NoRule(Text::from_bytes(alloc, self.name(n))?))
    }

    // Decides how a node is made, by what there is to make it with.
    fn decide(&mut self, alloc: Global, n: u32, means: Means) -> Result<(), CloseFault>
        requires within { n < length self.old.parts }
        requires chain { HasChain self.old.nodes means }
        ensures decided { OnOk result (spec.decided self.old n means ≡ Ok self.new) }
        ensures refused { IfErr result (λ fault.
            IsRefusedBy fault (spec.decided self.old n means)) }
        ensures own { IfErr result IsOwn }
        ensures grown { OnOk result (IsGrown self.old self.new) }
    {
        match means {
            Means::Own => {
                self.make(n, Way::Own);
                Ok(())
            }
            Means::Chained(chain) => self.link(n, &chain),
            Means::Placed(place) => self.stand_at(n, place.bytes()),
            Means::Missing => self.miss(alloc, n),
        }
    }

    /// Meets a node, and decides how it is made.
    pub(crate) fn meet_by(&mut self, alloc: Global, n: u32, means: Means) -> Result<(), CloseFault>
        requires within { n < length self.old.parts }
        requires new { (part_at self.old n).met ≡ false }
        requires chain { HasChain self.old.nodes means }
        ensures decided { OnOk result
            (spec.decided (with_met self.old n) n means ≡ Ok self.new) }
        ensures refused { IfErr result (λ fault.
            IsRefusedBy fault (spec.decided (with_met self.old n) n means)) }
        ensures own { IfErr result IsOwn }
        ensures met { OnOk result (IsMet self.old self.new) }
    {
        self.meet(n);
        self.decide(alloc, n, means)
    }
}
