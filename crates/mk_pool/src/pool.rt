ghost use Rattle.std.specs.Prelude.{◌≡◌, ◌↔◌, ◌+◌, ◌<◌, ◌≤◌, [], ◌∷◌, ◌++◌, false, length};
ghost use Rattle.std.specs.Prelude.{slice_get, Some, is_some, IsTrue, IsOk, IfOk, IfSome, OnOk};
ghost use Rattle.std.specs.Prelude.{OnErr, IsErrOf};
ghost use Rattle.mk_pool.specs.Pool as spec;

use crate::fault::PoolFault;
use indexmap::IndexSet;
use mk_bytes::NoMemory;
use std::alloc::Global;
use std::marker::Model;

/// How many names a pool holds at most.
pub const MAX_NAMES: usize = 1_048_576;

/// A name of a pool. Names are handed out as 0, 1, 2 and so on in the order of first interning, so
/// each is below the pool's length and can be an index into what is kept for each name.
#[derive(Clone, Copy, PartialEq, Eq)]
pub struct Name(pub u32);

/// The names of nodes, one to one with bytes. Contracts see the list of the texts that it holds, in
/// the order of first interning; no two of them are the same, and a name is a place in that list.
#[derive(Drop)]
pub struct Pool {
    texts: IndexSet<Vec<u8>>,
}

impl Model for Pool {
    ghost use Rattle.std.specs.Prelude.{List, ℕ, ◌≤◌, length};
    ghost use Rattle.mk_pool.specs.declared.pool.TheConstants.{MAX_NAMES};
    ghost use Rattle.mk_pool.specs.Pool.{AreDistinct, texts_of};

    ghost Value = { List (List ℕ) };

    ghost view = { λ pool. texts_of pool.texts.keys };

    ghost invariant = { λ pool.
        let texts = texts_of pool.texts.keys in
        (length texts ≤ MAX_NAMES) × AreDistinct texts };
}

impl Pool {
    /// An empty pool, unless memory runs out.
    pub fn new(alloc: Global) -> Result<Pool, NoMemory>
        ensures { IfOk result (λ pool. pool ≡ []) }
    {
        Ok(Pool {
            texts: IndexSet::new(alloc),
        })
    }

    /// How many names there are. Takes no memory.
    pub fn len(&self) -> usize
        ensures value { result ≡ length self.now }
        ensures limit { length self.now ≤ MAX_NAMES }
        ensures distinct { spec.AreDistinct self.now }
    {
        self.texts.len()
    }

    /// The name of these bytes, or `None` where they are not held. Takes no memory.
    pub fn find(&self, bytes: &[u8]) -> Option<Name>
        ensures value { result ≡ spec.name_of self.now bytes.now }
        ensures held { is_some result ≡ spec.is_held self.now bytes.now }
        ensures within { IfSome result (λ name. name.0 < length self.now) }
    {
        let place = self.texts.get_index_of(bytes)?;
        Some(Name(place as u32))
    }

    /// The bytes of a name of this pool. They never change. Takes no memory.
    pub fn text(&self, name: Name) -> &[u8]
        requires { name.0 < length self.now }
        ensures value { slice_get self.now name.0 ≡ Some result.now }

        // No other name has these bytes.
        ensures only { spec.name_of self.now result.now ≡ Some name }
    {
        self.texts.as_slice()[name.0 as usize].as_slice()
    }

    /// The name of these bytes: the old one where they are held, and else the next one. `Full`
    /// comes exactly where they are not held and 1,048,576 names are, and `NoMemory` where memory
    /// runs out. After a refusal the pool is as before.
    pub fn intern(&mut self, bytes: &[u8]) -> Result<Name, PoolFault>
        ensures name { IfOk result (λ name. spec.name_of self.new bytes.now ≡ Some name) }
        ensures within { IfOk result (λ name. name.0 < length self.new) }

        // Names that were there keep their bytes, since new bytes go last.
        ensures texts { OnOk result (self.new ≡ spec.with_text self.old bytes.now) }

        // Bytes that are held need neither room nor memory.
        ensures held { IsTrue (spec.is_held self.old bytes.now) → IsOk result }
        ensures full { IsErrOf result PoolFault.Full ↔ spec.IsFullFor self.old bytes.now }
        ensures err { OnErr result (self.new ≡ self.old) }
    {
        if let Some(name) = self.find(bytes) {
            return Ok(name);
        }
        if self.len() == MAX_NAMES {
            return Err(PoolFault::Full);
        }
        Ok(self.add(bytes)?)
    }

    /// Takes in bytes that are not held, as the last name. After a refusal the pool is as before.
    pub fn add(&mut self, bytes: &[u8]) -> Result<Name, NoMemory>
        requires absent { spec.is_held self.old bytes.now ≡ false }
        requires room { length self.old < MAX_NAMES }
        ensures name { IfOk result (λ name. name.0 ≡ length self.old) }
        ensures texts { OnOk result (self.new ≡ self.old ++ bytes.now ∷ []) }
        ensures err { OnErr result (self.new ≡ self.old) }
    {
        let name = Name(self.len() as u32);
        let text = Vec::from_slice(*self.texts.allocator(), bytes)?;
        self.texts.insert(text)?;
        Ok(name)
    }
}
