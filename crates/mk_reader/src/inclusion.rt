//! Files that are included (make(1), "INCLUDE STATEMENTS, CONDITIONALS AND FOR LOOPS").
ghost use Rattle.mk_makefile.specs.Inclusions as spec;
ghost use Rattle.mk_reader.specs.Ties.{Gave, outer};

use crate::reader::Reader;
use mk_blocks::IncludedFile;
use mk_bytes::{Text, Texts};
use mk_directive::wanted_by;
use mk_lines::cut_comment;
use mk_makefile::{Refusal, What, argument_on, candidates, may_miss, required, without_spaces};
use mk_world::{Sink, World};
use std::alloc::Global;

impl<'a, W: World, S: Sink> Reader<'a, W, S> {
    // The file at a cleaned path, if there is one.
    fn open(&mut self, alloc: Global, path: &Text) -> Result<Option<IncludedFile>, Refusal>
        ensures { Gave (outer W.meaning W.history W.faults W.runs S.held S.faults)
            self.old self.new (λ file. file) result
            (λ answers. spec.found_at answers path.now) }
    {
        let name = path.copy(alloc)?;
        match self.look(alloc, path)? {
            Some(text) => Ok(Some(IncludedFile { name, text })),
            None => Ok(None),
        }
    }

    // The first of these paths at which a file is.
    fn seek(&mut self, alloc: Global, places: &Texts) -> Result<Option<IncludedFile>, Refusal>
        ensures { Gave (outer W.meaning W.history W.faults W.runs S.held S.faults)
            self.old self.new (λ file. file) result
            (λ answers. spec.sought answers places.now) }
    {
        for path in places.as_slice() {
            if let Some(file) = self.open(alloc, path)? {
                return Ok(Some(file));
            }
        }
        Ok(None)
    }

    // The file that a text names.
    fn find(
        &mut self,
        alloc: Global,
        file: &[u8],
        optional: bool,
        text: &[u8],
    ) -> Result<Option<IncludedFile>, Refusal>
        ensures { Gave (outer W.meaning W.history W.faults W.runs S.held S.faults)
            self.old self.new (λ file. file) result
            (λ answers. spec.wanted_read answers file.now optional text.now) }
    {
        let Some(wanted) = wanted_by(text) else {
            return Err(Refusal::Wrong(What::IncludeForm));
        };
        let cwd = self.state.made.scopes.cwd();
        let places = candidates(alloc, self.order, cwd, file, &wanted)?;
        let found = self.seek(alloc, &places)?;
        required(alloc, optional, wanted.name, found)
    }

    // The file that a line without its comment includes.
    fn file_on(
        &mut self,
        alloc: Global,
        file: &[u8],
        line: &[u8],
    ) -> Result<Option<IncludedFile>, Refusal>
        ensures { Gave (outer W.meaning W.history W.faults W.runs S.held S.faults)
            self.old self.new (λ file. file) result
            (λ answers. spec.file_on answers file.now line.now) }
    {
        self.state.in_group = false;
        let text = self.value(alloc, false, argument_on(line))?;
        self.find(alloc, file, may_miss(line), text.bytes())
    }

    /// The file that a line of a file includes, or `None` where it is missing and is passed over.
    pub fn wanted_file(
        &mut self,
        alloc: Global,
        file: &[u8],
        text: &[u8],
    ) -> Result<Option<IncludedFile>, Refusal>
        ensures { Gave (outer W.meaning W.history W.faults W.runs S.held S.faults)
            self.old self.new (λ file. file) result
            (λ answers. spec.included answers file.now text.now) }
    {
        let line = cut_comment(alloc, text)?;
        self.file_on(alloc, file, without_spaces(line.as_slice()))
    }
}
