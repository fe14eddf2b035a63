//! Wildcards in the names of dependency lines (make(1), "FILE DEPENDENCY SPECIFICATIONS").
ghost use Rattle.std.specs.Prelude.{◌≡◌, []};
ghost use Rattle.std.specs.List.{list_any};
ghost use Rattle.mk_makefile.specs.Wildcards as spec;
ghost use Rattle.mk_reader.specs.Ties.{Gave, outer};
ghost use Rattle.mk_wild.specs.Names as wild;

use crate::reader::Reader;
use mk_bytes::{Items, Text, Texts};
use mk_depline::DepLine;
use mk_makefile::{Note, Refusal, What};
use mk_wild::{directory_of, is_pattern, push_taken};
use mk_world::{Sink, World};
use std::alloc::Global;
use std::snapshot::Snapshot;

fn has_pattern(names: &[Text]) -> bool
    ensures { result ≡ list_any wild.is_pattern names.now }
{
    names.iter().any(|name| is_pattern(name.bytes()))
}

impl<'a, W: World, S: Sink> Reader<'a, W, S> {
    // The names in a directory, or `None` where there is no such directory.
    fn names_in(&mut self, alloc: Global, dir: &Text) -> Result<Option<Texts>, Refusal>
        ensures { Gave (outer W.meaning W.history W.faults W.runs S.held S.faults)
            self.old self.new (λ names. names) result
            (λ answers. spec.names_in answers dir.now) }
    {
        if self.state.notes.reserve(1).is_err() {
            return Err(Refusal::NoMemory);
        }
        let names = self.world.list(alloc, dir.bytes())?;
        self.state
            .notes
            .push(Note::Listed(Snapshot::of(dir), Snapshot::of(&names)))
            .unwrap();
        Ok(names)
    }

    // Adds the paths that a pattern stands for.
    fn push_matches(
        &mut self,
        alloc: Global,
        paths: &mut Texts,
        pattern: &[u8],
    ) -> Result<(), Refusal>
        ensures { Gave (outer W.meaning W.history W.faults W.runs S.held S.faults)
            self.old self.new (λ _. paths.new) result
            (λ answers. spec.with_matches answers paths.old pattern.now) }
    {
        let dir = Text::from_bytes(alloc, directory_of(pattern))?;
        let names = self.names_in(alloc, &dir)?;
        push_taken(alloc, paths, pattern, names.as_ref())?;
        Ok(())
    }

    // Adds the paths that a name stands for.
    fn push_paths(&mut self, alloc: Global, paths: &mut Texts, name: &Text) -> Result<(), Refusal>
        ensures { Gave (outer W.meaning W.history W.faults W.runs S.held S.faults)
            self.old self.new (λ _. paths.new) result
            (λ answers. spec.with_paths answers paths.old name.now) }
    {
        if is_pattern(name.bytes()) {
            return self.push_matches(alloc, paths, name.bytes());
        }
        paths.push(name.copy(alloc)?)?;
        Ok(())
    }

    // The paths that names stand for.
    fn all_paths(&mut self, alloc: Global, names: &Texts) -> Result<Texts, Refusal>
        ensures { Gave (outer W.meaning W.history W.faults W.runs S.held S.faults)
            self.old self.new (λ paths. paths) result
            (λ answers. spec.all_paths answers [] names.now) }
    {
        let mut paths = Items::new(alloc, names.len())?;
        for name in names.as_slice() {
            self.push_paths(alloc, &mut paths, name)?;
        }
        Ok(paths)
    }

    // Puts in place of names the paths that they stand for.
    fn list_names(&mut self, alloc: Global, names: &mut Texts) -> Result<(), Refusal>
        ensures { Gave (outer W.meaning W.history W.faults W.runs S.held S.faults)
            self.old self.new (λ _. names.new) result
            (λ answers. spec.all_paths answers [] names.old) }
    {
        if !has_pattern(names.as_slice()) {
            return Ok(());
        }
        let paths = self.all_paths(alloc, names)?;
        *names = paths;
        Ok(())
    }

    // The same for the targets of a line.
    fn list_targets(&mut self, alloc: Global, line: &mut DepLine) -> Result<(), Refusal>
        ensures { Gave (outer W.meaning W.history W.faults W.runs S.held S.faults)
            self.old self.new (λ _. line.new) result
            (λ answers. spec.targets_listed answers line.old) }
    {
        self.list_names(alloc, &mut line.targets)?;
        if line.targets.is_empty() {
            return Err(Refusal::Wrong(What::NoTargets));
        }
        Ok(())
    }

    // And for its sources.
    fn list_sources(&mut self, alloc: Global, line: &mut DepLine) -> Result<(), Refusal>
        ensures { Gave (outer W.meaning W.history W.faults W.runs S.held S.faults)
            self.old self.new (λ _. line.new) result
            (λ answers. spec.sources_listed answers line.old) }
    {
        self.list_names(alloc, &mut line.sources)?;
        Ok(())
    }

    /// Puts in place of the names of a line the files that they stand for, its targets first. A
    /// line of which no target is left is refused.
    pub fn list_line(&mut self, alloc: Global, line: &mut DepLine) -> Result<(), Refusal>
        ensures { Gave (outer W.meaning W.history W.faults W.runs S.held S.faults)
            self.old self.new (λ _. line.new) result
            (λ answers. spec.line_listed answers line.old) }
    {
        if line.rule.is_some() {
            return Ok(());
        }
        self.list_targets(alloc, line)?;
        self.list_sources(alloc, line)
    }
}
