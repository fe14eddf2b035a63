//! The names of the nodes of a plan.
ghost use Rattle.std.specs.Prelude.{◌≡◌, [], length, get_or};
ghost use Rattle.mk_plan.specs.Names as spec;

use crate::plan::Plan;
use mk_bytes::Texts;
use std::marker::Model;

// What holds the names.
#[derive(Drop)]
enum Held {
    Nodes(Plan),
    Copies(Texts),
}

/// The names of the nodes of a plan, in its order: those that the plan holds, or copies of them.
/// Contracts see the list of names.
#[derive(Drop)]
pub struct PlanNames {
    held: Held,
}

impl Model for PlanNames {
    ghost use Rattle.std.specs.Prelude.{List, ℕ};
    ghost use Rattle.mk_plan.specs.Names.{held_names};

    ghost Value = { List (List ℕ) };

    ghost view = { λ names. held_names names.held };
}

impl PlanNames {
    /// These names.
    pub fn of(names: Texts) -> PlanNames
        ensures { result ≡ names }
    {
        PlanNames {
            held: Held::Copies(names),
        }
    }

    /// How many names there are.
    pub fn len(&self) -> u32
        ensures { result ≡ length self.now }
    {
        match &self.held {
            Held::Nodes(plan) => plan.len(),
            Held::Copies(names) => names.len() as u32,
        }
    }

    /// The name of a node by its place in the plan, or nothing where there is no such node.
    pub fn at(&self, n: u32) -> &[u8]
        ensures { result.now ≡ get_or self.now n [] }
    {
        match &self.held {
            Held::Nodes(plan) => plan.name_at(n),
            Held::Copies(names) => match names.as_slice().get(n as usize) {
                Some(name) => name.bytes(),
                None => b"",
            },
        }
    }
}

impl Plan {
    /// The names of the nodes, of which nothing else is needed any more. Takes no memory.
    pub fn into_names(self) -> PlanNames
        ensures { result ≡ spec.names_of self }
    {
        PlanNames {
            held: Held::Nodes(self),
        }
    }
}
