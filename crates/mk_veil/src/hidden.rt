//! The paths that are hidden.
ghost use Rattle.std.specs.Prelude.{◌≡◌, ◌||◌, ℕ, List, [], OnOk, OnErr};
ghost use Rattle.std.specs.Str.{bytes_eq};
ghost use Rattle.mk_bytes.specs.Texts.{is_among};

use indexmap::IndexSet;
use mk_bytes::NoMemory;
use std::alloc::Global;
use std::marker::Model;

/// Paths that are hidden: made files and meta paths of a plan. A look-up takes about constant time.
#[derive(Drop)]
pub struct Hidden {
    alloc: Global,
    paths: IndexSet<Vec<u8>>,
}

impl Model for Hidden {
    ghost use Rattle.std.specs.Prelude.{List, ℕ};
    ghost use Rattle.mk_veil.specs.Held.{texts_of};

    ghost Value = { List (List ℕ) };

    ghost view = { λ hidden. texts_of hidden.paths.keys };
}

impl Hidden {
    /// No paths. Takes no memory.
    pub fn new(alloc: Global) -> Hidden
        ensures { result ≡ [] }
    {
        Hidden {
            alloc,
            paths: IndexSet::new(alloc),
        }
    }

    /// Hides a path. After a refusal the paths are as before.
    pub fn add(&mut self, path: &[u8]) -> Result<(), NoMemory>
        ensures ok { OnOk result ((other : List ℕ)
            → is_among self.new other ≡ (bytes_eq other path.now || is_among self.old other)) }
        ensures err { OnErr result (self.new ≡ self.old) }
    {
        let path = Vec::from_slice(self.alloc, path)?;
        self.paths.insert(path)?;
        Ok(())
    }

    /// Whether a path is hidden. Takes no memory.
    pub fn has(&self, path: &[u8]) -> bool
        ensures { result ≡ is_among self.now path.now }
    {
        self.paths.contains(path)
    }
}
