//! Lists in which each text stands once.
ghost use Rattle.std.specs.Prelude.{◌≡◌, [], IfOk, OnOk};
ghost use Rattle.mk_listing.specs.Lists as spec;

use indexmap::IndexSet;
use mk_bytes::{Items, NoMemory, Text, Texts};
use std::alloc::Global;
use std::collections::BTreeSet;
use std::marker::Model;

/// Texts in the order of their bytes, each once.
#[derive(Drop)]
pub struct Ordered {
    alloc: Global,
    texts: BTreeSet<Vec<u8>>,
}

impl Model for Ordered {
    ghost use Rattle.std.specs.Prelude.{List, ℕ};
    ghost use Rattle.mk_listing.specs.Lists.{texts_of};

    ghost Value = { List (List ℕ) };

    ghost view = { λ ordered. texts_of ordered.texts.keys };
}

impl Ordered {
    /// No texts. Takes no memory.
    pub fn new(alloc: Global) -> Ordered
        ensures { result ≡ [] }
    {
        Ordered {
            alloc,
            texts: BTreeSet::new(alloc),
        }
    }

    /// Takes in a text, where it is not there.
    pub fn add(&mut self, text: &[u8]) -> Result<(), NoMemory>
        ensures { OnOk result (self.new ≡ spec.put_in self.old text.now) }
    {
        let text = Vec::from_slice(self.alloc, text)?;
        self.texts.insert(text)?;
        Ok(())
    }

    /// The texts, in the order of their bytes.
    pub fn texts(&self, alloc: Global) -> Result<Texts, NoMemory>
        ensures { IfOk result (λ texts. texts ≡ self.now) }
    {
        let mut texts = Items::new(alloc, 0)?;
        for text in self.texts.iter() {
            texts.push(Text::from_bytes(alloc, text.as_slice())?)?;
        }
        Ok(texts)
    }
}

/// Texts as they came, each once.
#[derive(Drop)]
pub struct Distinct {
    alloc: Global,
    texts: IndexSet<Vec<u8>>,
}

impl Model for Distinct {
    ghost use Rattle.std.specs.Prelude.{List, ℕ};
    ghost use Rattle.mk_listing.specs.Lists.{texts_of};

    ghost Value = { List (List ℕ) };

    ghost view = { λ distinct. texts_of distinct.texts.keys };
}

impl Distinct {
    /// No texts. Takes no memory.
    pub fn new(alloc: Global) -> Distinct
        ensures { result ≡ [] }
    {
        Distinct {
            alloc,
            texts: IndexSet::new(alloc),
        }
    }

    /// Takes in a text behind the others, where it is not there.
    pub fn add(&mut self, text: &[u8]) -> Result<(), NoMemory>
        ensures { OnOk result (self.new ≡ spec.noted self.old text.now) }
    {
        let text = Vec::from_slice(self.alloc, text)?;
        self.texts.insert(text)?;
        Ok(())
    }

    /// The texts, as they came.
    pub fn texts(&self, alloc: Global) -> Result<Texts, NoMemory>
        ensures { IfOk result (λ texts. texts ≡ self.now) }
    {
        let mut texts = Items::new(alloc, 0)?;
        for text in self.texts.iter() {
            texts.push(Text::from_bytes(alloc, text.as_slice())?)?;
        }
        Ok(texts)
    }
}
