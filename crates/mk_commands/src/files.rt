//! The files as they stand.
ghost use Rattle.std.specs.Prelude.{◌≡◌, ◌+◌, ◌<◌, ◌≤◌, ℕ, Some, None, IfOk, OnOk, OnErr, length};
ghost use Rattle.std.specs.Option.{option_copied};
ghost use Rattle.mk_world.specs.Deeds.{changes};
ghost use Rattle.mk_world.specs.History.{at_time, contents, effected, effected_all, timed_effects};
ghost use Rattle.mk_world.specs.Listings.{AreNamesBelow};
ghost use Rattle.mk_commands.specs.Changes.{HasEffects, changed, changed_all, written};
ghost use Rattle.mk_commands.specs.Files.{as_filed, files_in, no_files, room_in};

use crate::below::name_below;
use crate::change::{Change, change_of, changes_of};
use indexmap::IndexMap;
use mk_bytes::{NoMemory, Text, Texts};
use mk_world::{Deed, Names, Timed};
use std::alloc::Global;

/// The bytes of a file, and the time of its last change.
#[derive(Drop)]
pub struct Stored {
    pub bytes: Text,
    pub time: u64,
}

/// Files by their paths. A look takes about constant time.
#[derive(Drop)]
pub struct Files {
    alloc: Global,
    stored: IndexMap<Vec<u8>, Stored>,
}

impl Files {
    /// No files.
    pub fn new(alloc: Global) -> Files
        ensures { files_in result ≡ no_files }
    {
        Files {
            alloc,
            stored: IndexMap::new(alloc),
        }
    }

    /// The file at a path. Takes no memory.
    pub fn get(&self, path: &[u8]) -> Option<&Stored>
        ensures { as_filed (option_copied result) ≡ files_in self.now path.now }
    {
        self.stored.get(path)
    }

    /// The bytes of the file at a path. Takes no memory.
    pub fn bytes(&self, path: &[u8]) -> Option<&Text>
        ensures { option_copied result ≡ contents (files_in self.now) path.now }
    {
        match self.stored.get(path) {
            None => None,
            Some(file) => Some(&file.bytes),
        }
    }

    /// The names directly below a directory, in the order of their bytes, each once.
    pub fn names_below(&self, alloc: Global, dir: &[u8]) -> Result<Texts, NoMemory>
        ensures { IfOk result (AreNamesBelow (contents (files_in self.now)) dir.now) }
    {
        let mut names = Names::new(alloc);
        for path in self.stored.keys() {
            if let Some(name) = name_below(dir, path.as_slice()) {
                names.add(name)?;
            }
        }
        names.texts(alloc)
    }

    /// A file has these bytes from now on.
    pub fn write(&mut self, path: &[u8], bytes: &[u8], time: u64) -> Result<(), NoMemory>
        ensures ok { OnOk result (files_in self.new ≡ effected (files_in self.old)
            (record { path = path.now; bytes = Some bytes.now; time = time })) }
        ensures err { OnErr result (files_in self.new ≡ files_in self.old) }
    {
        let path = Vec::from_slice(self.alloc, path)?;
        let bytes = Text::from_bytes(self.alloc, bytes)?;
        self.stored.insert(path, Stored { bytes, time })?;
        Ok(())
    }

    /// A file is missing from now on. Takes no memory.
    pub fn remove(&mut self, path: &[u8])
        ensures files { (time : ℕ) → files_in self.new ≡ effected (files_in self.old)
            (record { path = path.now; bytes = None; time = time }) }
        ensures room { room_in self.old ≤ room_in self.new }
    {
        self.stored.swap_remove(path);
    }

    // A file is kept from now on, where there is room. Takes no memory.
    fn keep(&mut self, path: Vec<u8>, file: Stored)
        requires { 0 < room_in self.old }
        ensures files { files_in self.new ≡ written (files_in self.old) path.items file }
        ensures room { room_in self.old ≤ room_in self.new + 1 }
    {
        self.stored.insert(path, file).unwrap();
    }

    /// A change is made, where there is room. Takes no memory.
    pub fn make(&mut self, change: Change)
        requires { 0 < room_in self.old }
        ensures files { files_in self.new ≡ changed (files_in self.old) change }
        ensures room { room_in self.old ≤ room_in self.new + 1 }
    {
        match change {
            Change::Nothing => {}
            Change::Write { path, file } => self.keep(path, file),
            Change::Delete { path } => self.remove(path.bytes()),
            Change::Move { from, to, file } => {
                self.remove(from.bytes());
                self.keep(to, file);
            }
        }
    }

    // All changes are made, in order, where there is room. Takes no memory.
    fn make_all(&mut self, changes: Vec<Change>)
        requires { length changes.items ≤ room_in self.old }
        ensures { files_in self.new ≡ changed_all (files_in self.old) changes.items }
    {
        for change in changes {
            self.make(change);
        }
    }

    /// What a step at this time changes, with room for it.
    pub fn prepare(&mut self, deed: &Deed, time: u64) -> Result<Change, NoMemory>
        ensures effects { IfOk result
            (λ change. HasEffects change (at_time time (changes deed.now))) }
        ensures room { OnOk result (0 < room_in self.new) }
        ensures same { files_in self.new ≡ files_in self.old }
    {
        self.stored.reserve(1)?;
        change_of(self.alloc, deed, time)
    }

    /// The files after steps at their times.
    pub fn apply_all(&mut self, steps: &[Timed]) -> Result<(), NoMemory>
        ensures ok { OnOk result (files_in self.new
            ≡ effected_all (files_in self.old) (timed_effects steps.now)) }
        ensures err { OnErr result (files_in self.new ≡ files_in self.old) }
    {
        let changes = changes_of(self.alloc, steps)?;
        self.stored.reserve(changes.len())?;
        self.make_all(changes);
        Ok(())
    }
}
