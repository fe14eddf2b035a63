//! Reading of the makefiles of a run.
ghost use Rattle.std.specs.Prelude.{◌^◌, ◌<◌, [], length, IsTrue};
ghost use Rattle.mk_bytes.specs.Paths.{is_clean_directory};
ghost use Rattle.mk_makefile.specs.Modes as modes;
ghost use Rattle.mk_makefile.specs.Reading as spec;
ghost use Rattle.mk_makefile.specs.declared.fault.ReadFault.TheVariants.{
  Sink as sink_failed,
  World as world_failed,
};
ghost use Rattle.mk_reader.specs.Results.{Ended, Found, ReadBy, Went};
ghost use Rattle.mk_reader.specs.Ties.{Gave, outer};
ghost use Rattle.mk_world.specs.Causes.{HasCause};

use crate::reader::Reader;
use mk_blocks::read_file;
use mk_bytes::{Text, Texts, clean_path};
use mk_cli::Order;
use mk_directive::words;
use mk_graph::{Made, Mode};
use mk_makefile::{Fault, ReadFault, Refusal, Stop, first_state, made_of, refused, refused_at_end};
use mk_rules::mode_by;
use mk_scopes::Env;
use mk_world::{Sink, World};
use std::alloc::Global;

const FIRST_NAME: &[u8] = b"makefile";

const SECOND_NAME: &[u8] = b"Makefile";

impl<'a, W: World, S: Sink> Reader<'a, W, S> {
    // The bytes of the file of a name, or `None` where it is missing.
    fn sought(&mut self, alloc: Global, file: &[u8]) -> Result<Option<Text>, Stop>
        ensures { Found (outer W.meaning W.history W.faults W.runs S.held S.faults)
            self.old self.new result (λ answers. spec.looked answers file.now) }
    {
        let path = clean_path(alloc, self.state.made.scopes.cwd(), file)?;
        match self.look(alloc, &path) {
            Ok(found) => Ok(found),
            Err(refusal) => Err(refused(alloc, refusal)),
        }
    }

    // Reads a file of this name and these bytes.
    fn read_whole(
        &mut self,
        alloc: Global,
        file: &[u8],
        text: &[u8],
        count: &mut u32,
    ) -> Result<(), Stop>
        requires { length text.now < 2 ^ 32 }
        ensures { Went (outer W.meaning W.history W.faults W.runs S.held S.faults)
            self.old self.new count.old count.new result
            (λ answers. spec.whole_read answers file.now text.now) }
    {
        self.state.made.file = Text::from_bytes(alloc, file)?;
        read_file(alloc, self, file, text, count)?;
        Ok(())
    }

    // Reads a makefile. The fault of a missing one has the other name.
    fn read_makefile(
        &mut self,
        alloc: Global,
        file: &[u8],
        missing: &[u8],
        count: &mut u32,
    ) -> Result<(), Stop>
        ensures { Went (outer W.meaning W.history W.faults W.runs S.held S.faults)
            self.old self.new count.old count.new result
            (λ answers. spec.makefile_read answers file.now missing.now) }
    {
        match self.sought(alloc, file)? {
            Some(text) => self.read_whole(alloc, file, text.bytes(), count),
            None => Err(Stop::Fault(Fault::NoFile(Text::from_bytes(alloc, missing)?))),
        }
    }

    // Reads makefiles in order.
    fn read_files(&mut self, alloc: Global, files: &Texts, count: &mut u32) -> Result<(), Stop>
        ensures { Went (outer W.meaning W.history W.faults W.runs S.held S.faults)
            self.old self.new count.old count.new result
            (λ answers. spec.files_read answers files.now) }
    {
        for file in files.as_slice() {
            self.read_makefile(alloc, file.bytes(), file.bytes(), count)?;
        }
        Ok(())
    }

    // Reads the first default makefile that exists.
    fn read_default(&mut self, alloc: Global, count: &mut u32) -> Result<(), Stop>
        ensures { Went (outer W.meaning W.history W.faults W.runs S.held S.faults)
            self.old self.new count.old count.new result spec.default_read }
    {
        match self.sought(alloc, FIRST_NAME)? {
            Some(text) => self.read_whole(alloc, FIRST_NAME, text.bytes(), count),
            None => self.read_makefile(alloc, SECOND_NAME, FIRST_NAME, count),
        }
    }

    // Reads the makefiles of a run.
    fn read_makefiles(&mut self, alloc: Global, files: &Texts, count: &mut u32) -> Result<(), Stop>
        ensures { Went (outer W.meaning W.history W.faults W.runs S.held S.faults)
            self.old self.new count.old count.new result
            (λ answers. spec.makefiles_read answers files.now) }
    {
        if files.is_empty() {
            return self.read_default(alloc, count);
        }
        self.read_files(alloc, files, count)
    }

    // Applies the words of the command line.
    fn apply_words(&mut self, alloc: Global) -> Result<(), Stop>
        ensures { Found (outer W.meaning W.history W.faults W.runs S.held S.faults)
            self.old self.new result spec.words_applied }
    {
        match self.apply_order(alloc) {
            Ok(done) => Ok(done),
            Err(refusal) => Err(refused(alloc, refusal)),
        }
    }

    // Applies the command line, and reads the makefiles.
    fn read_all(&mut self, alloc: Global, count: &mut u32) -> Result<(), Stop>
        ensures { Went (outer W.meaning W.history W.faults W.runs S.held S.faults)
            self.old self.new count.old count.new result spec.all_read }
    {
        let order = self.order;
        self.apply_words(alloc)?;
        self.read_makefiles(alloc, &order.files, count)
    }

    // The words of the value of a text.
    fn words_of(&mut self, alloc: Global, text: &[u8]) -> Result<Texts, Refusal>
        ensures { Gave (outer W.meaning W.history W.faults W.runs S.held S.faults)
            self.old self.new (λ words. words) result (λ answers. modes.words_in answers text.now) }
    {
        let value = self.value(alloc, false, text)?;
        Ok(words(alloc, value.bytes())?)
    }

    // How a build goes, by the words of `.MAKE.MODE`.
    fn mode_with(&mut self, alloc: Global, words: &Texts) -> Result<Mode, Refusal>
        ensures { Gave (outer W.meaning W.history W.faults W.runs S.held S.faults)
            self.old self.new (λ mode. mode) result (λ answers. modes.mode_with answers words.now) }
    {
        let ignored = self.words_of(alloc, b"${.MAKE.META.IGNORE_PATHS}")?;
        self.mode_exporting(alloc, words, ignored)
    }

    // The same, where these paths do not count.
    fn mode_exporting(
        &mut self,
        alloc: Global,
        words: &Texts,
        ignored: Texts,
    ) -> Result<Mode, Refusal>
        ensures { Gave (outer W.meaning W.history W.faults W.runs S.held S.faults)
            self.old self.new (λ mode. mode) result
            (λ answers. modes.mode_exporting answers words.now ignored) }
    {
        let exports = self.values(alloc)?;
        let rules = &self.state.made.rules;
        Ok(mode_by(
            words,
            ignored,
            exports,
            rules.one_job(),
            rules.delete_on_error(),
        ))
    }

    // How a build goes, as the variables ask for it.
    fn read_mode(&mut self, alloc: Global) -> Result<Mode, Refusal>
        ensures { Gave (outer W.meaning W.history W.faults W.runs S.held S.faults)
            self.old self.new (λ mode. mode) result modes.mode_read }
    {
        let words = self.words_of(alloc, b"${.MAKE.MODE}")?;
        self.mode_with(alloc, &words)
    }

    // The same, with what is wrong at line 0 of the last makefile.
    fn mode_at_end(&mut self, alloc: Global) -> Result<Mode, Stop>
        ensures { Found (outer W.meaning W.history W.faults W.runs S.held S.faults)
            self.old self.new result spec.mode_ended }
    {
        let file = self.state.made.file.copy(alloc)?;
        match self.read_mode(alloc) {
            Ok(mode) => Ok(mode),
            Err(refusal) => Err(refused_at_end(file, refusal)),
        }
    }

    // Reads all of a run: the command line, the makefiles, and how a build goes.
    fn read_to_end(&mut self, alloc: Global) -> Result<Mode, Stop>
        ensures { Ended (outer W.meaning W.history W.faults W.runs S.held S.faults)
            self.old self.new result }
    {
        let mut count = 0;
        self.read_all(alloc, &mut count)?;
        self.mode_at_end(alloc)
    }
}

/// Reads the makefiles of a run: what they leave, over the environment and the assignments of the
/// command line.
///
/// Read are the files of `-f` in order, or else the first of `makefile` and `Makefile` that exists.
/// `NoFile` names the first missing file of `-f`, or `makefile` where both default ones are
/// missing. `Bad` names the first thing that is wrong, with its file and line; the faults of a
/// file's lines come before those of its blocks, and both before any of its lines is processed.
/// `Limit` comes exactly where a line or turn more than 4,194,304 would be processed, or an
/// included file more than 64 be open. Messages are written to `err` when their lines are reached.
/// `World` comes only where the world's count of faults rose in this call or is at its end, and
/// `Sink` only where that of `err` did.
pub fn read<W: World, S: Sink>(
    alloc: Global,
    world: &mut W,
    err: &mut S,
    order: &Order,
    env: &Env,
) -> Result<Made, ReadFault>
    requires directory { IsTrue (is_clean_directory env.now.cwd) }
    requires idle { W.runs world.old [] }
    ensures reading { ReadBy W.meaning (W.history world.old) (W.history world.new)
        (S.held err.old) (S.held err.new) result
        (λ answers. spec.reading answers env.now order.now) }
    ensures world_cause { HasCause world_failed (W.faults world.old) (W.faults world.new) result }
    ensures sink_cause { HasCause sink_failed (S.faults err.old) (S.faults err.new) result }
    ensures idle { W.runs world.new [] }
{
    let mut state = first_state(alloc, env, order)?;
    let mut reader = Reader::new(world, err, &mut state, order);
    match reader.read_to_end(alloc) {
        Ok(mode) => made_of(state.into_made(), mode),
        Err(stop) => {
            drop(state);
            Err(ReadFault::from(stop))
        }
    }
}
