//! What conditions ask of the makefiles that were read and of the world.
ghost use Rattle.std.specs.Prelude.{◌≡◌, ℕ, List, [], IsTrue, IfOk, OnErr};
ghost use Rattle.std.specs.List.{list_any};
ghost use Rattle.mk_values.specs.Facts.{IsTold, asked_with, is_fact};
ghost use Rattle.mk_values.specs.declared.facts.FactFault.TheVariants.{Failed};
ghost use Rattle.mk_glob.specs.Patterns as patterns;
ghost use Rattle.mk_cond.specs.declared.cond.Fun.TheVariants.{Exists as exists};
ghost use Rattle.mk_plan.specs.Asking.{Asking, AskingBeside};
ghost use Rattle.mk_plan.specs.Facts as spec;
ghost use Rattle.mk_world.specs.Causes.{HasCause};

use mk_bytes::{Text, Texts};
use mk_cond::Fun;
use mk_expand::{Asked, FactFault, Facts};
use mk_glob::matches_one_of;
use mk_graph::Made;
use mk_world::World;
use std::alloc::Global;

/// What conditions ask: `make` of the requested names, or of the main targets where there are none,
/// `target` and `commands` of the nodes of the graph, and `exists` of the world, where it is asked
/// for the time of a path. Its questions are kept with their answers.
#[derive(Drop)]
pub struct MadeFacts<'a, W: World> {
    made: &'a Made,
    requested: &'a Texts,
    world: &'a mut W,
    asked: &'a mut Vec<Asked>,
}

// Whether a pattern matches a requested name, or a main target where none is requested.
fn is_wanted(main: &Texts, requested: &Texts, pattern: &[u8]) -> bool
    ensures { result ≡ list_any (patterns.matches pattern.now)
        (spec.wanted_of main.now requested.now) }
{
    if requested.is_empty() {
        return matches_one_of(pattern, main.as_slice());
    }
    matches_one_of(pattern, requested.as_slice())
}

impl<'a, W: World> MadeFacts<'a, W> {
    /// The facts of what was read, for these requested names, in this world, behind these
    /// questions.
    pub fn new(
        made: &'a Made,
        requested: &'a Texts,
        world: &'a mut W,
        asked: &'a mut Vec<Asked>,
    ) -> MadeFacts<'a, W>
        ensures same_reference { result.world.ghost_name ≡ world.entry.ghost_name }
        ensures world { result.world.now ≡ world.old }
        ensures made { result.made.now ≡ made.now }
        ensures requested { result.requested.now ≡ requested.now }
        ensures asked { result.asked.now.items ≡ asked.old.items }
    {
        MadeFacts {
            made,
            requested,
            world,
            asked,
        }
    }

    /// What was asked so far, with the answers, in order. Takes no memory.
    pub fn asked(&self) -> &[Asked]
        ensures { result.now ≡ self.now.asked.now.items }
    {
        self.asked.as_slice()
    }

    // Asks the world for the time of a path.
    fn exists(&mut self, alloc: Global, path: &[u8]) -> Result<bool, FactFault>
        ensures asked { IfOk result (λ answer.
            self.new.asked.now.items ≡ asked_with self.old.asked.now.items exists path.now answer) }
        ensures refused { OnErr result (self.new.asked.now.items ≡ self.old.asked.now.items) }
        ensures made { self.new.made.now ≡ self.old.made.now }
        ensures requested { self.new.requested.now ≡ self.old.requested.now }
        ensures cause { HasCause Failed (W.faults self.old.world.now) (W.faults self.new.world.now) result }
        ensures same_reference { self.new.world.ghost_name ≡ self.old.world.ghost_name }
        ensures asking { W.runs self.old.world.now [] → Asking (W.history self.old.world.now)
            (W.history self.new.world.now) self.old.asked.now.items self.new.asked.now.items }
        ensures idle { W.runs self.old.world.now [] → W.runs self.new.world.now [] }
        ensures beside { AskingBeside W.meaning (W.history self.old.world.now)
            (W.history self.new.world.now) self.old.asked.now.items self.new.asked.now.items }
        ensures children { (kids : List ℕ) → W.runs self.old.world.now kids
            → W.runs self.new.world.now kids }
    {
        let path = Text::from_bytes(alloc, path)?;
        if self.asked.reserve(1).is_err() {
            return Err(FactFault::NoMemory);
        }
        match self.world.time(alloc, path.bytes()) {
            Ok(when) => {
                let answer = !when.is_missing();
                self.asked.push(Asked { path, answer }).unwrap();
                Ok(answer)
            }
            Err(fault) => Err(FactFault::from(fault)),
        }
    }
}

impl<'a, W: World> Facts for MadeFacts<'a, W> {
    ghost use Rattle.std.specs.Prelude.{◌≡◌, ℕ, List, []};
    ghost use Rattle.std.proofs.Common.{refl, ◌∙◌};
    ghost use Rattle.mk_plan.specs.Facts.{lists_of};
    ghost use Rattle.mk_plan.specs.Asking.{Asking, AskingBeside};
    ghost use Rattle.mk_plan.specs.AskingLaws.{asking_none, asking_then, beside_none, beside_then};

    ghost lists = { λ facts. lists_of facts.made.now facts.requested.now };

    ghost asked = { λ facts. facts.asked.now.items };

    ghost faults = { λ facts. W.faults facts.world.now };

    ghost leads = { λ old new. (new.world.ghost_name ≡ old.world.ghost_name)
        × (W.runs old.world.now [] → Asking (W.history old.world.now) (W.history new.world.now)
        old.asked.now.items new.asked.now.items × W.runs new.world.now [])
        × AskingBeside W.meaning (W.history old.world.now) (W.history new.world.now)
        old.asked.now.items new.asked.now.items
        × ((kids : List ℕ) → W.runs old.world.now kids → W.runs new.world.now kids) };

    fn fact(&mut self, alloc: Global, fun: Fun, argument: &[u8]) -> Result<bool, FactFault>
        requires { IsTrue (is_fact fun) }
        ensures told { IfOk result (λ answer.
            IsTold (spec.lists_of self.old.made.now self.old.requested.now) fun argument.now answer) }
        ensures asked { IfOk result (λ answer.
            self.new.asked.now.items ≡ asked_with self.old.asked.now.items fun argument.now answer) }
        ensures refused { OnErr result (self.new.asked.now.items ≡ self.old.asked.now.items) }
        ensures lists { spec.lists_of self.new.made.now self.new.requested.now
            ≡ spec.lists_of self.old.made.now self.old.requested.now }
        ensures cause { HasCause Failed (W.faults self.old.world.now) (W.faults self.new.world.now) result }
        ensures leads { (self.new.world.ghost_name ≡ self.old.world.ghost_name)
            × (W.runs self.old.world.now [] → Asking (W.history self.old.world.now)
            (W.history self.new.world.now) self.old.asked.now.items self.new.asked.now.items
            × W.runs self.new.world.now [])
            × AskingBeside W.meaning (W.history self.old.world.now) (W.history self.new.world.now)
            self.old.asked.now.items self.new.asked.now.items
            × ((kids : List ℕ) → W.runs self.old.world.now kids → W.runs self.new.world.now kids) }
    {
        match fun {
            Fun::Make => Ok(is_wanted(&self.made.main, self.requested, argument)),
            Fun::Exists => self.exists(alloc, argument),
            Fun::Target => Ok(self.made.graph.is_target(argument)),
            Fun::Commands => Ok(self.made.graph.has_commands(argument)),
            Fun::Defined | Fun::Empty => Ok(false),
        }
    }

    ghost stays = { λ facts. (refl, λ idle. (asking_none _ _, idle), beside_none _ _ _, λ kids runs. runs) };

    ghost goes_on = { λ a b c first second. (
      second.0 ∙ first.0,
      λ idle.
          let one = first.1 idle in let more = second.1 one.1 in
          (asking_then _ _ _ _ _ _ one.0 more.0, more.1),
      beside_then _ _ _ _ _ _ _ first.2 second.2,
      λ kids runs. second.3 kids (first.3 kids runs),
    ) };
}
