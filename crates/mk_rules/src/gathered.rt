//! Texts that lines gather: the known suffixes, and the directories that are searched.
ghost use Rattle.std.specs.Prelude.{◌≡◌, [], IfOk, OnOk};
ghost use Rattle.mk_rules.specs.Lines as spec;

use indexmap::IndexSet;
use mk_bytes::{Items, NoMemory, Text, Texts};
use mk_depline::is_attribute;
use std::alloc::Global;
use std::marker::Model;

/// Texts in the order in which they came, each once, with a set of them in which one is found
/// without going over all. Contracts see the list.
#[derive(Drop)]
pub struct Gathered {
    known: Texts,
    set: IndexSet<Vec<u8>>,
}

impl Model for Gathered {
    ghost use Rattle.std.specs.Prelude.{ℕ, List};
    ghost use Rattle.mk_rules.specs.Gathered.{Holds};

    ghost Value = { List (List ℕ) };

    ghost view = { λ gathered. gathered.known };

    ghost invariant = { λ gathered. Holds gathered.set.keys gathered.known };
}

impl Gathered {
    /// None.
    pub fn new(alloc: Global) -> Result<Gathered, NoMemory>
        ensures { IfOk result (λ gathered. gathered ≡ []) }
    {
        Ok(Gathered {
            known: Items::new(alloc, 0)?,
            set: IndexSet::new(alloc),
        })
    }

    /// The texts in order. Takes no memory.
    pub fn known(&self) -> &Texts
        ensures { result.now ≡ self.now }
    {
        &self.known
    }

    // Adds a text behind those that there are, where it is none of them and no attribute.
    fn add(&mut self, alloc: Global, text: &Text) -> Result<(), NoMemory>
        ensures { OnOk result (self.new ≡ spec.gathered_with self.old text.now) }
    {
        if is_attribute(text.bytes()) || self.set.contains(text.bytes()) {
            return Ok(());
        }
        let key = Vec::from_slice(alloc, text.bytes())?;
        self.set.reserve(1)?;
        self.known.push(text.copy(alloc)?)?;
        self.set.insert(key).unwrap();
        Ok(())
    }

    /// Adds texts behind those that there are, each where it is none of them and no attribute.
    pub fn add_all(&mut self, alloc: Global, texts: &Texts) -> Result<(), NoMemory>
        ensures { OnOk result (self.new ≡ spec.all_gathered self.old texts.now) }
    {
        for text in texts.as_slice() {
            self.add(alloc, text)?;
        }
        Ok(())
    }

    /// The texts alone.
    pub fn into_known(self) -> Texts
        ensures { result ≡ self }
    {
        drop(self.set);
        self.known
    }
}
