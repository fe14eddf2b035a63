//! The paths that records or lists name, each once.
ghost use Rattle.std.specs.Prelude.{◌≡◌, ◌∷◌, ◌++◌, [], flat_map, IfOk, OnOk};
ghost use Rattle.mk_filemon.specs.Outer.{once, ops_of};
ghost use Rattle.mk_breaches.specs.Paths as spec;
ghost use Rattle.mk_breaches.specs.Held.{noted, all_noted};

use indexmap::IndexSet;
use mk_bytes::{NoMemory, Text};
use mk_filemon::Rec;
use mk_world::Op;
use std::alloc::Global;
use std::marker::Model;

/// Whether a path ends in `.meta`.
pub fn is_meta_path(path: &[u8]) -> bool
    ensures { result ≡ spec.is_meta_path path.now }
{
    path.ends_with(b".meta")
}

/// Paths as they came, each once. They are lent.
#[derive(Drop)]
pub struct Paths<'r> {
    pub(crate) paths: IndexSet<&'r [u8]>,
}

impl<'r> Model for Paths<'r> {
    ghost use Rattle.std.specs.Prelude.{List, ℕ};
    ghost use Rattle.mk_breaches.specs.Held.{texts_of};

    ghost Value = { List (List ℕ) };

    ghost view = { λ paths. texts_of paths.paths.keys };
}

impl<'r> Paths<'r> {
    fn new(alloc: Global) -> Paths<'r>
        ensures { result ≡ [] }
    {
        Paths {
            paths: IndexSet::new(alloc),
        }
    }

    fn add(&mut self, path: &'r [u8]) -> Result<(), NoMemory>
        ensures { OnOk result (self.new ≡ noted self.old path.now) }
    {
        self.paths.insert(path)?;
        Ok(())
    }

    fn add_changed(&mut self, op: &'r Op) -> Result<(), NoMemory>
        ensures { OnOk result (self.new ≡ all_noted self.old (spec.changed_by op.now)) }
    {
        match op {
            Op::Read(_) | Op::Miss(_) => Ok(()),
            Op::Write(path) | Op::Delete(path) => self.add(path.bytes()),
            Op::Move(from, to) => {
                self.add(from.bytes())?;
                self.add(to.bytes())
            }
        }
    }

    fn add_named(&mut self, op: &'r Op) -> Result<(), NoMemory>
        ensures { OnOk result (self.new ≡ all_noted self.old (spec.paths_of op.now)) }
    {
        match op {
            Op::Read(path) | Op::Miss(path) | Op::Write(path) | Op::Delete(path) => {
                self.add(path.bytes())
            }
            Op::Move(from, to) => {
                self.add(from.bytes())?;
                self.add(to.bytes())
            }
        }
    }

    fn add_all_changed(&mut self, records: &'r [Rec]) -> Result<(), NoMemory>
        ensures { OnOk result
            (self.new ≡ all_noted self.old (flat_map spec.changed_by (ops_of records.now))) }
    {
        for one in records {
            self.add_changed(&one.op)?;
        }
        Ok(())
    }

    fn add_all_named(&mut self, records: &'r [Rec]) -> Result<(), NoMemory>
        ensures { OnOk result
            (self.new ≡ all_noted self.old (flat_map spec.paths_of (ops_of records.now))) }
    {
        for one in records {
            self.add_named(&one.op)?;
        }
        Ok(())
    }

    fn add_all(&mut self, texts: &'r [Text]) -> Result<(), NoMemory>
        ensures { OnOk result (self.new ≡ all_noted self.old texts.now) }
    {
        for text in texts {
            self.add(text.bytes())?;
        }
        Ok(())
    }

    /// The paths of a list.
    pub fn of(alloc: Global, texts: &'r [Text]) -> Result<Paths<'r>, NoMemory>
        ensures { IfOk result (λ paths. paths ≡ once texts.now) }
    {
        let mut paths = Paths::new(alloc);
        paths.add_all(texts)?;
        Ok(paths)
    }

    /// The paths that records say were changed.
    pub fn changed(alloc: Global, records: &'r [Rec]) -> Result<Paths<'r>, NoMemory>
        ensures { IfOk result (λ paths. paths ≡ spec.changed_paths (ops_of records.now)) }
    {
        let mut paths = Paths::new(alloc);
        paths.add_all_changed(records)?;
        Ok(paths)
    }

    /// The paths that records name, and this name.
    pub fn named(alloc: Global, records: &'r [Rec], name: &'r [u8]) -> Result<Paths<'r>, NoMemory>
        ensures { IfOk result (λ paths.
            paths ≡ once (flat_map spec.paths_of (ops_of records.now) ++ name.now ∷ [])) }
    {
        let mut paths = Paths::new(alloc);
        paths.add_all_named(records)?;
        paths.add(name)?;
        Ok(paths)
    }
}
