//! What conditions ask of the lines that were read and of the world.
ghost use Rattle.std.specs.Prelude.{◌≡◌, [], IsTrue, IfOk, OnErr};
ghost use Rattle.std.specs.List.{list_any};
ghost use Rattle.mk_cond.specs.declared.cond.Fun.TheVariants.{Exists as exists};
ghost use Rattle.mk_values.specs.Facts.{IsTold, asked_with, is_fact};
ghost use Rattle.mk_values.specs.declared.facts.FactFault.TheVariants.{Failed};
ghost use Rattle.mk_glob.specs.Patterns as patterns;
ghost use Rattle.mk_makefile.specs.Facts as spec;
ghost use Rattle.mk_makefile.specs.Leads.{Led};
ghost use Rattle.mk_makefile.specs.Notes.{asked_by};
ghost use Rattle.mk_world.specs.Causes.{HasCause};

use crate::note::Note;
use mk_bytes::{Text, Texts};
use mk_cond::Fun;
use mk_expand::{FactFault, Facts};
use mk_glob::{matches, matches_one_of};
use mk_rules::Rules;
use mk_world::World;
use std::alloc::Global;
use std::snapshot::Snapshot;

/// What conditions ask while makefiles are read: `make` of the requested names, or of the main
/// targets so far where there are none, `target` and `commands` of the lines so far, and `exists`
/// of the world, where it is asked for the time of a path.
#[derive(Drop)]
pub struct ReadFacts<'a, W: World> {
    pub rules: &'a Rules,
    pub requested: &'a Texts,
    pub world: &'a mut W,
    pub notes: &'a mut Vec<Note>,
}

// Whether a pattern matches a requested name, or a main target so far where none is requested.
fn is_wanted(rules: &Rules, requested: &Texts, pattern: &[u8]) -> bool
    ensures { result ≡ list_any (patterns.matches pattern.now)
        (spec.wanted_of rules.now requested.now) }
{
    if !requested.is_empty() {
        return matches_one_of(pattern, requested.as_slice());
    }
    if !rules.main().is_empty() {
        return matches_one_of(pattern, rules.main().as_slice());
    }
    match rules.first_main() {
        Some(name) => matches(pattern, name),
        None => false,
    }
}

impl<'a, W: World> ReadFacts<'a, W> {
    // Asks the world for the time of a path.
    fn exists(&mut self, alloc: Global, path: &[u8]) -> Result<bool, FactFault>
        ensures asked { IfOk result (λ answer.
            asked_by self.new.notes.now.items
            ≡ asked_with (asked_by self.old.notes.now.items) exists path.now answer) }
        ensures refused { OnErr result
            (asked_by self.new.notes.now.items ≡ asked_by self.old.notes.now.items) }
        ensures rules { self.new.rules.now ≡ self.old.rules.now }
        ensures requested { self.new.requested.now ≡ self.old.requested.now }
        ensures cause { HasCause Failed (W.faults self.old.world.now) (W.faults self.new.world.now) result }
        ensures same_world { self.new.world.ghost_name ≡ self.old.world.ghost_name }
        ensures same_notes { self.new.notes.ghost_name ≡ self.old.notes.ghost_name }
        ensures led { Led W.meaning (W.runs self.old.world.now [])
            (W.history self.old.world.now) (W.history self.new.world.now)
            self.old.notes.now.items self.new.notes.now.items }
        ensures idle { W.runs self.old.world.now [] → W.runs self.new.world.now [] }
    {
        let path = Text::from_bytes(alloc, path)?;
        if self.notes.reserve(1).is_err() {
            return Err(FactFault::NoMemory);
        }
        match self.world.time(alloc, path.bytes()) {
            Ok(when) => {
                self.notes
                    .push(Note::Time(Snapshot::of(&path), Snapshot::of(&when)))
                    .unwrap();
                Ok(!when.is_missing())
            }
            Err(fault) => Err(FactFault::from(fault)),
        }
    }
}

impl<'a, W: World> Facts for ReadFacts<'a, W> {
    ghost use Rattle.std.specs.Prelude.{◌≡◌, []};
    ghost use Rattle.std.proofs.Common.{refl, ◌∙◌};
    ghost use Rattle.mk_makefile.specs.Facts.{lists_of};
    ghost use Rattle.mk_makefile.specs.Leads.{Led, led_nowhere, led_on};
    ghost use Rattle.mk_makefile.specs.Notes.{asked_by};

    ghost lists = { λ facts. lists_of facts.rules.now facts.requested.now };

    ghost asked = { λ facts. asked_by facts.notes.now.items };

    ghost faults = { λ facts. W.faults facts.world.now };

    ghost leads = { λ old new. (new.world.ghost_name ≡ old.world.ghost_name)
        × (new.notes.ghost_name ≡ old.notes.ghost_name)
        × Led W.meaning (W.runs old.world.now []) (W.history old.world.now)
        (W.history new.world.now) old.notes.now.items new.notes.now.items
        × (W.runs old.world.now [] → W.runs new.world.now []) };

    fn fact(&mut self, alloc: Global, fun: Fun, argument: &[u8]) -> Result<bool, FactFault>
        requires { IsTrue (is_fact fun) }
        ensures told { IfOk result (λ answer.
            IsTold (spec.lists_of self.old.rules.now self.old.requested.now) fun argument.now answer) }
        ensures asked { IfOk result (λ answer.
            asked_by self.new.notes.now.items
            ≡ asked_with (asked_by self.old.notes.now.items) fun argument.now answer) }
        ensures refused { OnErr result
            (asked_by self.new.notes.now.items ≡ asked_by self.old.notes.now.items) }
        ensures lists { spec.lists_of self.new.rules.now self.new.requested.now
            ≡ spec.lists_of self.old.rules.now self.old.requested.now }
        ensures cause { HasCause Failed (W.faults self.old.world.now) (W.faults self.new.world.now) result }
        ensures leads { (self.new.world.ghost_name ≡ self.old.world.ghost_name)
            × (self.new.notes.ghost_name ≡ self.old.notes.ghost_name)
            × Led W.meaning (W.runs self.old.world.now []) (W.history self.old.world.now)
            (W.history self.new.world.now) self.old.notes.now.items self.new.notes.now.items
            × (W.runs self.old.world.now [] → W.runs self.new.world.now []) }
    {
        match fun {
            Fun::Make => Ok(is_wanted(self.rules, self.requested, argument)),
            Fun::Exists => self.exists(alloc, argument),
            Fun::Target => Ok(self.rules.graph().is_target(argument)),
            Fun::Commands => Ok(self.rules.graph().has_commands(argument)),
            Fun::Defined | Fun::Empty => Ok(false),
        }
    }

    ghost stays = { λ facts. (refl, refl, led_nowhere _ _ _ _, λ idle. idle) };

    ghost goes_on = { λ a b c first second. (
      second.0 ∙ first.0,
      second.1 ∙ first.1,
      led_on _ _ _ _ _ _ _ _ _ first.2 first.3 second.2,
      λ idle. second.3 (first.3 idle),
    ) };
}
