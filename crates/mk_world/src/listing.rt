//! The names that a directory holds.
ghost use Rattle.std.specs.Prelude.{◌≡◌, ◌||◌, ℕ, List, [], IfOk, OnOk, OnErr};
ghost use Rattle.std.specs.Str.{bytes_eq};
ghost use Rattle.mk_bytes.specs.Texts.{is_among};
ghost use Rattle.mk_world.specs.Listings.{AreInOrder};

use mk_bytes::{Items, NoMemory, Text, Texts};
use std::alloc::Global;
use std::collections::BTreeSet;
use std::marker::Model;

/// Names in the order of their bytes, each once.
#[derive(Drop)]
pub struct Names {
    alloc: Global,
    names: BTreeSet<Vec<u8>>,
}

impl Model for Names {
    ghost use Rattle.std.specs.Prelude.{List, ℕ};
    ghost use Rattle.mk_world.specs.Listings.{AreInOrder, texts_of};

    ghost Value = { List (List ℕ) };

    ghost view = { λ names. texts_of names.names.keys };

    ghost invariant = { λ names. AreInOrder (texts_of names.names.keys) };
}

impl Names {
    /// No names. Takes no memory.
    pub fn new(alloc: Global) -> Names
        ensures { result ≡ [] }
    {
        Names {
            alloc,
            names: BTreeSet::new(alloc),
        }
    }

    /// Takes in a name, where it is not there. After a refusal the names are as before.
    pub fn add(&mut self, name: &[u8]) -> Result<(), NoMemory>
        ensures ok { OnOk result ((other : List ℕ)
            → is_among self.new other ≡ (bytes_eq other name.now || is_among self.old other)) }
        ensures err { OnErr result (self.new ≡ self.old) }
    {
        let name = Vec::from_slice(self.alloc, name)?;
        self.names.insert(name)?;
        Ok(())
    }

    /// The names, in the order of their bytes.
    pub fn texts(&self, alloc: Global) -> Result<Texts, NoMemory>
        ensures names { IfOk result (λ texts. texts ≡ self.now) }
        ensures ordered { AreInOrder self.now }
    {
        let mut texts = Items::new(alloc, self.names.len())?;
        for name in self.names.iter() {
            texts.push(Text::from_bytes(alloc, name.as_slice())?)?;
        }
        Ok(texts)
    }
}
