use crate::facts::FactFault;
use mk_ast::{AstFault, TreeFault};
use mk_bytes::{NoMemory, Text};
use mk_cond::{CondFault, NoNumber};
use mk_mods::ModFault;

/// Why a text has no value, or a condition no truth: the first fault, where a text is read as a
/// whole before any of it is evaluated, and is evaluated from left to right.
#[derive(Drop)]
pub enum ExpandFault {
    /// A reference names this variable, whose own value is being expanded.
    Recursive(Text),
    /// A 257th reference would be open at once, through trees and values alike.
    TooDeep,
    /// A 1,048,577th reference would be evaluated.
    TooManyReferences,
    /// A value or a name would pass 4,194,304 bytes.
    TooLong,
    /// A text or a value has this fault of the grammar, with its place in that text or value.
    Tree(TreeFault),
    /// The condition of a `:?` has a fault of its grammar at this place, counted from 0. A fault of
    /// a reference in it is `Tree`.
    Cond(usize),
    /// `<`, `<=`, `>` or `>=` of a condition has a side that is a quoted text or no number. It
    /// comes after the faults of both sides.
    NoNumber,
    /// A side of a condition is an undefined reference, and nothing else.
    Undefined,
    /// The text of `:[..]` or of `:range=` is no choice of places.
    BadPlace,
    /// The outside failed when a fact was asked for, and was counted.
    Failed,
    /// Memory ran out.
    NoMemory,
}

impl From<NoMemory> for ExpandFault {
    ghost use Rattle.std.specs.Prelude.{◌≡◌};
    ghost use Rattle.mk_values.specs.declared.fault.ExpandFault.TheVariants.{NoMemory as no_memory};

    ghost from_gives = { λ _ fault. fault ≡ no_memory };

    fn from(_: NoMemory) -> ExpandFault {
        ExpandFault::NoMemory
    }
}

impl From<AstFault> for ExpandFault {
    ghost use Rattle.std.specs.Prelude.{◌≡◌};
    ghost use Rattle.mk_values.specs.Texts.{of_tree};

    ghost from_gives = { λ given fault. fault ≡ of_tree given };

    fn from(fault: AstFault) -> ExpandFault {
        match fault {
            AstFault::Unclosed(at) => ExpandFault::Tree(TreeFault::Unclosed(at)),
            AstFault::UnknownModifier(at) => ExpandFault::Tree(TreeFault::UnknownModifier(at)),
            AstFault::BadModifier(at) => ExpandFault::Tree(TreeFault::BadModifier(at)),
            AstFault::TooDeep(at) => ExpandFault::Tree(TreeFault::TooDeep(at)),
            AstFault::NoMemory => ExpandFault::NoMemory,
        }
    }
}

impl From<ModFault> for ExpandFault {
    ghost use Rattle.std.specs.Prelude.{◌≡◌};
    ghost use Rattle.mk_values.specs.ModFaults.{of_mod};

    ghost from_gives = { λ given fault. fault ≡ of_mod given };

    fn from(fault: ModFault) -> ExpandFault {
        match fault {
            ModFault::TooLong => ExpandFault::TooLong,
            ModFault::BadPlace => ExpandFault::BadPlace,
            ModFault::NoMemory => ExpandFault::NoMemory,
        }
    }
}

impl From<CondFault> for ExpandFault {
    ghost use Rattle.std.specs.Prelude.{◌≡◌};
    ghost use Rattle.mk_values.specs.Chains.{of_cond};

    ghost from_gives = { λ given fault. fault ≡ of_cond given };

    fn from(fault: CondFault) -> ExpandFault {
        match fault {
            CondFault::Bad(at) => ExpandFault::Cond(at),
            CondFault::Tree(fault) => ExpandFault::Tree(fault),
            CondFault::TooDeep(at) => ExpandFault::Cond(at),
            CondFault::NoMemory => ExpandFault::NoMemory,
        }
    }
}

impl From<NoNumber> for ExpandFault {
    ghost use Rattle.std.specs.Prelude.{◌≡◌};
    ghost use Rattle.mk_values.specs.declared.fault.ExpandFault.TheVariants.{NoNumber as no_number};

    ghost from_gives = { λ _ fault. fault ≡ no_number };

    fn from(_: NoNumber) -> ExpandFault {
        ExpandFault::NoNumber
    }
}

impl From<FactFault> for ExpandFault {
    ghost use Rattle.std.specs.Prelude.{◌≡◌};
    ghost use Rattle.mk_values.specs.Facts.{of_fact};

    ghost from_gives = { λ given fault. fault ≡ of_fact given };

    fn from(fault: FactFault) -> ExpandFault {
        match fault {
            FactFault::Failed => ExpandFault::Failed,
            FactFault::NoMemory => ExpandFault::NoMemory,
        }
    }
}
