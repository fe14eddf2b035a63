//! The language of makefiles, line by line.
ghost use Rattle.std.specs.Prelude.{◌≡◌};
ghost use Rattle.mk_makefile.specs.Refusals.{sorted};

use crate::reader::Reader;
use mk_blocks::{IncludedFile, Language, LanguageFault, LineKind, Loop};
use mk_makefile::{Outside, Refusal, What, line_kind};
use mk_world::{Sink, World};
use std::alloc::Global;

fn language_fault(refusal: Refusal) -> LanguageFault<What, Outside>
    ensures { result ≡ sorted refusal }
{
    match refusal {
        Refusal::Wrong(what) => LanguageFault::Wrong(what),
        Refusal::Failed(failure) => LanguageFault::Failed(failure),
        Refusal::NoMemory => LanguageFault::NoMemory,
    }
}

impl<'a, W: World, S: Sink> Language for Reader<'a, W, S> {
    ghost use Rattle.mk_reader.specs.Ties.{outer, reader_ties};

    type What = What;

    type Failure = Outside;

    ghost ties = { reader_ties (outer W.meaning W.history W.faults W.runs S.held S.faults) };

    #[inline(always)]
    fn kind(&self, text: &[u8]) -> LineKind {
        line_kind(text)
    }

    fn step(
        &mut self,
        alloc: Global,
        name: &[u8],
        number: u32,
        text: &[u8],
    ) -> Result<(), LanguageFault<What, Outside>> {
        match self.read_line(alloc, name, number, text) {
            Ok(done) => Ok(done),
            Err(refusal) => Err(language_fault(refusal)),
        }
    }

    fn condition(
        &mut self,
        alloc: Global,
        _name: &[u8],
        _number: u32,
        text: &[u8],
    ) -> Result<bool, LanguageFault<What, Outside>> {
        match self.holds(alloc, text) {
            Ok(holds) => Ok(holds),
            Err(refusal) => Err(language_fault(refusal)),
        }
    }

    fn turns(
        &mut self,
        alloc: Global,
        _name: &[u8],
        _number: u32,
        text: &[u8],
    ) -> Result<Loop, LanguageFault<What, Outside>> {
        match self.loop_turns(alloc, text) {
            Ok(turns) => Ok(turns),
            Err(refusal) => Err(language_fault(refusal)),
        }
    }

    fn included(
        &mut self,
        alloc: Global,
        name: &[u8],
        _number: u32,
        text: &[u8],
    ) -> Result<Option<IncludedFile>, LanguageFault<What, Outside>> {
        match self.wanted_file(alloc, name, text) {
            Ok(file) => Ok(file),
            Err(refusal) => Err(language_fault(refusal)),
        }
    }

    fn close_file(&mut self) {
        self.state.in_group = false;
    }
}
