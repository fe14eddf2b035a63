//! Facts: what conditions ask of what is outside them.
ghost use Rattle.std.specs.Prelude.{◌≡◌, ℕ, List, IsTrue, IfOk, OnErr};
ghost use Rattle.mk_values.specs.Facts.{IsTold, Lists, asked_with, is_fact};
ghost use Rattle.mk_values.specs.declared.facts.Asked.{Asked};
ghost use Rattle.mk_values.specs.declared.facts.FactFault.TheVariants.{Failed};
ghost use Rattle.mk_world.specs.Causes.{HasCause};

use mk_bytes::{NoMemory, Text};
use mk_cond::Fun;
use mk_world::WorldFault;
use std::alloc::Global;

/// A path that `exists` was asked of, and the answer.
#[derive(Drop)]
pub struct Asked {
    /// The clean path.
    pub path: Text,
    /// Whether there is a file of this path.
    pub answer: bool,
}

/// Why a fact is not told.
#[derive(Clone, Copy, PartialEq, Eq)]
pub enum FactFault {
    /// The outside failed, and was counted.
    Failed,
    /// Memory ran out.
    NoMemory,
}

impl From<NoMemory> for FactFault {
    ghost use Rattle.std.specs.Prelude.{◌≡◌};
    ghost use Rattle.mk_values.specs.declared.facts.FactFault.TheVariants.{NoMemory as no_memory};

    ghost from_gives = { λ _ fault. fault ≡ no_memory };

    fn from(_: NoMemory) -> FactFault {
        FactFault::NoMemory
    }
}

impl From<WorldFault> for FactFault {
    ghost use Rattle.std.specs.Prelude.{◌≡◌};
    ghost use Rattle.mk_values.specs.Facts.{of_world};

    ghost from_gives = { λ given fault. fault ≡ of_world given };

    fn from(fault: WorldFault) -> FactFault {
        match fault {
            WorldFault::Failed => FactFault::Failed,
            WorldFault::NoMemory => FactFault::NoMemory,
        }
    }
}

/// What answers the functions `make`, `exists`, `target` and `commands` of conditions.
pub trait Facts {
    /// What answers all of them but `exists`. No call changes it.
    ghost lists: { Self → Lists };

    /// The paths that `exists` was asked of so far, in order, with their answers.
    ghost asked: { Self → List Asked };

    /// How often a call has failed. The count never falls, and stands still at its last value.
    ghost faults: { Self → ℕ };

    /// What calls leave of what answers them. It holds where there is no call, and over several.
    ghost leads: { Self → Self → Type 0 };

    /// The answer of a function to an argument, which for all but `make` is a clean path. An answer
    /// of `exists` is added to `asked`, and nothing else changes that. `Failed` comes only where
    /// the count of faults rose in this call or is at its end.
    fn fact(&mut self, alloc: Global, fun: Fun, argument: &[u8]) -> Result<bool, FactFault>
        requires { IsTrue (is_fact fun) }
        ensures told { IfOk result (λ answer. IsTold (lists self.old) fun argument.now answer) }
        ensures asked { IfOk result (λ answer. asked self.new ≡ asked_with (asked self.old) fun argument.now answer) }
        ensures refused { OnErr result (asked self.new ≡ asked self.old) }
        ensures lists { lists self.new ≡ lists self.old }
        ensures cause { HasCause Failed (faults self.old) (faults self.new) result }
        ensures leads { leads self.old self.new };

    ghost stays: { (one : Self) → leads one one };

    ghost goes_on: { (a b c : Self) → leads a b → leads b c → leads a c };
}
