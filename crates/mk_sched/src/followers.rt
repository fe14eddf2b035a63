ghost use Rattle.std.specs.Prelude.{◌≡◌, [], ◌∷◌, ◌++◌, OnOk};

use mk_bytes::NoMemory;
use smallvec::SmallVec;
use std::alloc::Global;
use std::marker::Model;

/// What a node is a predecessor of. Most nodes have few followers, which take no memory of their
/// own. Contracts see the list of them.
#[derive(Drop)]
pub struct Followers {
    nodes: SmallVec<u32, 4>,
}

impl Model for Followers {
    ghost use Rattle.std.specs.Prelude.{List, ℕ};

    ghost Value = { List ℕ };

    ghost view = { λ followers. followers.nodes.items };
}

impl Followers {
    /// None. Takes no memory.
    pub fn none(alloc: Global) -> Followers
        ensures { result ≡ [] }
    {
        Followers {
            nodes: SmallVec::new(alloc),
        }
    }

    /// Adds a node at the end.
    pub fn push(&mut self, n: u32) -> Result<(), NoMemory>
        ensures ok { OnOk result (self.new ≡ self.old ++ n ∷ []) }
    {
        self.nodes.push(n)?;
        Ok(())
    }

    /// All in order.
    pub fn as_slice(&self) -> &[u32]
        ensures value { result.now ≡ self.now }
    {
        self.nodes.as_slice()
    }
}
