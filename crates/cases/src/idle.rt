//! Worlds in memory in which no child runs, as they are before a run and behind it.
ghost use Rattle.std.specs.Prelude.{◌≡◌, [], IsTrue};
ghost use Rattle.mk_bytes.specs.Paths.{is_clean_directory};
ghost use Rattle.mk_world.specs.History.{state_of, tickets_of};

use crate::compare::{Ran, Sinks};
use mk_bytes::Texts;
use mk_cases::case::Item;
use mk_cases::fault::Trouble;
use mk_cases::kinds::Counts;
use mk_memworld::MemWorld;
use mk_scopes::Env;
use mk_top::{Report, run};
use mk_world::WorldFault;
use std::alloc::Global;

/// A world in which no child runs.
#[derive(Drop)]
pub struct IdleWorld {
    world: MemWorld,
    ghost idle: { tickets_of (state_of world.chronicle).children ≡ [] },
}

impl IdleWorld {
    /// A world as such.
    pub fn of(world: MemWorld) -> IdleWorld
        requires { tickets_of (state_of world.chronicle).children ≡ [] }
    {
        IdleWorld { world }
    }

    /// The bytes of a file, or `None` where it is missing.
    pub fn file(&self, path: &[u8]) -> Option<&[u8]> {
        match self.world.file(path) {
            Some(text) => Some(text.bytes()),
            None => None,
        }
    }

    /// Changes the file that an item of a case names from outside, or takes it away. `Bad` where
    /// that cannot be done.
    pub fn edit(&mut self, item: &Item, bytes: Option<&[u8]>) -> Result<(), Trouble> {
        match self.world.edit(item.rest.as_bytes(), bytes) {
            Ok(()) => Ok(()),
            Err(WorldFault::NoMemory) => Err(Trouble::NoMemory),
            Err(WorldFault::Failed) => Err(Trouble::Bad(item.line)),
        }
    }

    fn calls(&self) -> Counts {
        Counts::of(&self.world)
    }

    fn report(&mut self, alloc: Global, words: &Texts, env: &Env, sinks: &mut Sinks) -> Report
        requires { IsTrue (is_clean_directory env.now.cwd) }
    {
        run(
            alloc,
            words,
            env,
            &mut self.world,
            &mut sinks.out,
            &mut sinks.err,
        )
    }

    /// Runs these words.
    pub fn run(&mut self, alloc: Global, words: &Texts, env: &Env, sinks: Sinks) -> Ran
        requires { IsTrue (is_clean_directory env.now.cwd) }
    {
        let mut sinks = sinks;
        let before = self.calls();
        let report = self.report(alloc, words, env, &mut sinks);
        let after = self.calls();
        Ran {
            report,
            sinks,
            before,
            after,
        }
    }
}
