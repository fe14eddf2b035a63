ghost use Rattle.std.specs.Prelude.{◌≡◌};
ghost use Rattle.mk_graph.specs.View.{no_links};

use crate::attr::Marks;
use crate::lists::Nodes;
use mk_bytes::{Items, Texts};
use std::alloc::Global;

/// What a node has beside its name.
#[derive(Drop)]
pub struct Links {
    pub sources: Nodes,
    /// The nodes that are made before it without being its sources.
    pub ordered: Nodes,
    pub commands: Texts,
    pub marks: Marks,
}

impl Links {
    /// Those of a node that is first mentioned. Takes no memory.
    pub fn none(alloc: Global) -> Links
        ensures { result ≡ no_links }
    {
        Links {
            sources: Items::new(alloc, 0).unwrap(),
            ordered: Items::new(alloc, 0).unwrap(),
            commands: Items::new(alloc, 0).unwrap(),
            marks: Marks::none(),
        }
    }
}
