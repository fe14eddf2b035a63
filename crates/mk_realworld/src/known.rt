//! What is known of the times of files by an earlier look. Nothing is known while children run, and
//! nothing behind a change that make made.
ghost use Rattle.std.specs.Prelude.{◌≡◌, ◌<◌, List, ℕ, Some, false, IfSome, OnErr, OnOk};
ghost use Rattle.std.specs.Str.{bytes_eq};
ghost use Rattle.mk_realworld.specs.Known.{IsForgotten, no_sights, sights_in};

use crate::file::Sight;
use indexmap::IndexMap;
use mk_bytes::NoMemory;
use std::alloc::Global;

/// What was seen at paths, where it is known, and how many children run. A look-up takes about
/// constant time.
#[derive(Drop)]
pub struct KnownTimes {
    alloc: Global,
    running: usize,
    sights: IndexMap<Vec<u8>, Sight>,
}

impl KnownTimes {
    /// Nothing is known, and no child runs.
    pub fn new(alloc: Global) -> KnownTimes
        ensures known { IsForgotten result }
        ensures running { result.running ≡ 0 }
    {
        KnownTimes {
            alloc,
            running: 0,
            sights: IndexMap::new(alloc),
        }
    }

    /// How many children were started and not taken in.
    pub fn running(&self) -> usize
        ensures { result ≡ self.now.running }
    {
        self.running
    }

    /// What was seen at a path, where it is known. Takes no memory.
    pub fn of(&self, path: &[u8]) -> Option<Sight>
        ensures { result ≡ sights_in self.now path.now }
    {
        self.sights.get(path).copied()
    }

    /// Make is about to change a file: nothing is known any more.
    pub fn forget(&mut self)
        ensures known { IsForgotten self.new }
        ensures running { self.new.running ≡ self.old.running }
    {
        self.sights.clear();
    }

    /// A child is started: nothing is known any more, and comes to be known until it is taken in.
    pub fn begin_child(&mut self)
        ensures known { IsForgotten self.new }
    {
        self.sights.clear();
        self.running = self.running.saturating_add(1);
    }

    /// A child is taken in.
    pub fn end_child(&mut self)
        ensures known { sights_in self.new ≡ sights_in self.old }
    {
        self.running = self.running.saturating_sub(1);
    }

    /// All children are given up.
    pub fn end_children(&mut self)
        ensures known { sights_in self.new ≡ sights_in self.old }
        ensures running { self.new.running ≡ 0 }
    {
        self.running = 0;
    }

    /// What was seen at a path is known from now on, where no child runs; where one runs, or memory
    /// runs out, nothing comes to be known.
    pub fn learn(&mut self, path: &[u8], sight: Sight) -> Result<(), NoMemory>
        ensures known { OnOk result (self.old.running ≡ 0 → sights_in self.new path.now ≡ Some sight) }
        ensures others { OnOk result ((other : List ℕ) → bytes_eq other path.now ≡ false
            → IfSome (sights_in self.new other) (λ seen. sights_in self.old other ≡ Some seen)) }
        ensures still { 0 < self.old.running → sights_in self.new ≡ sights_in self.old }
        ensures refused { OnErr result (sights_in self.new ≡ sights_in self.old) }
        ensures running { self.new.running ≡ self.old.running }
    {
        if self.running > 0 {
            return Ok(());
        }
        let path = Vec::from_slice(self.alloc, path)?;
        self.sights.insert(path, sight)?;
        Ok(())
    }
}
