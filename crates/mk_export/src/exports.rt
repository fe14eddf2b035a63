ghost use Rattle.std.specs.Prelude.{◌≡◌, [], true, IfOk, OnOk, OnErr};
ghost use Rattle.mk_export.specs.Names as spec;
ghost use Rattle.mk_meta.specs.Lawful.{is_export_name};

use mk_bytes::{Items, NoMemory, Text, Texts};
use std::alloc::Global;
use std::collections::BTreeSet;
use std::marker::Model;

/// The names that are exported so far. Contracts see them in the order of their bytes, each once.
#[derive(Drop)]
pub struct Exports {
    alloc: Global,
    names: BTreeSet<Vec<u8>>,
}

impl Model for Exports {
    ghost use Rattle.std.specs.Prelude.{List, ℕ};
    ghost use Rattle.mk_export.specs.Names.{AreNames, texts_of};

    ghost Value = { List (List ℕ) };

    ghost view = { λ exports. texts_of exports.names.keys };

    ghost invariant = { λ exports. AreNames (texts_of exports.names.keys) };
}

impl Exports {
    /// No names. Takes no memory.
    pub fn new(alloc: Global) -> Exports
        ensures { result ≡ [] }
    {
        Exports {
            alloc,
            names: BTreeSet::new(alloc),
        }
    }

    /// Takes in a name, where it is not there. After a refusal the names are as before.
    pub fn add(&mut self, name: &[u8]) -> Result<(), NoMemory>
        requires name { is_export_name name.now ≡ true }
        ensures ok { OnOk result (self.new ≡ spec.added self.old name.now) }
        ensures err { OnErr result (self.new ≡ self.old) }
    {
        let name = Vec::from_slice(self.alloc, name)?;
        self.names.insert(name)?;
        Ok(())
    }

    /// Takes a name away, where it is there. Takes no memory.
    pub fn remove(&mut self, name: &[u8])
        ensures { self.new ≡ spec.removed self.old name.now }
    {
        self.names.remove(name);
    }

    /// The names, in the order of their bytes.
    pub fn names(&self, alloc: Global) -> Result<Texts, NoMemory>
        ensures names { IfOk result (λ names. names ≡ self.now) }
        ensures lawful { spec.AreNames self.now }
    {
        let mut names = Items::new(alloc, self.names.len())?;
        for name in self.names.iter() {
            names.push(Text::from_bytes(alloc, name.as_slice())?)?;
        }
        Ok(names)
    }
}
