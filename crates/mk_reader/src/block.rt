//! The lines that begin branches and loops.
ghost use Rattle.std.specs.Prelude.{◌<◌, length};
ghost use Rattle.mk_turns.specs.Turns.{loop_turns};
ghost use Rattle.mk_makefile.specs.Blocks as spec;
ghost use Rattle.mk_reader.specs.Ties.{Gave, outer};

use crate::reader::Reader;
use mk_blocks::Loop;
use mk_bytes::Texts;
use mk_cond::{Form, parse_cond};
use mk_directive::{heading_in, words};
use mk_lines::cut_comment;
use mk_makefile::{Refusal, What, argument_on, condition_on, divide, without_spaces};
use mk_world::{Sink, World};
use std::alloc::Global;

impl<'a, W: World, S: Sink> Reader<'a, W, S> {
    // Whether a condition of this form holds.
    fn judge(&mut self, alloc: Global, form: Form, text: &[u8]) -> Result<bool, Refusal>
        ensures { Gave (outer W.meaning W.history W.faults W.runs S.held S.faults)
            self.old self.new (λ holds. holds) result
            (λ answers. spec.condition_read answers (form, text.now)) }
    {
        let cond = parse_cond(alloc, text, form)?;
        self.truth(alloc, &cond)
    }

    /// Whether the condition of a line that begins a branch holds.
    pub fn holds(&mut self, alloc: Global, text: &[u8]) -> Result<bool, Refusal>
        ensures { Gave (outer W.meaning W.history W.faults W.runs S.held S.faults)
            self.old self.new (λ holds. holds) result
            (λ answers. spec.condition answers text.now) }
    {
        let line = cut_comment(alloc, text)?;
        let (form, text) = condition_on(without_spaces(line.as_slice()));
        self.judge(alloc, form, text)
    }

    // The turns over the words of a text's value.
    fn turns_of(&mut self, alloc: Global, names: Texts, text: &[u8]) -> Result<Loop, Refusal>
        requires { 0 < length names }
        ensures { Gave (outer W.meaning W.history W.faults W.runs S.held S.faults)
            self.old self.new (λ turns. loop_turns turns.names turns.words) result
            (λ answers. spec.turned answers names text.now) }
    {
        let text = self.value(alloc, false, text)?;
        let words = words(alloc, text.bytes())?;
        match divide(names, words) {
            Ok(turns) => Ok(turns),
            Err(what) => Err(Refusal::Wrong(what)),
        }
    }

    // The turns of the loop that a line without its comment begins.
    fn turns_on(&mut self, alloc: Global, line: &[u8]) -> Result<Loop, Refusal>
        ensures { Gave (outer W.meaning W.history W.faults W.runs S.held S.faults)
            self.old self.new (λ turns. loop_turns turns.names turns.words) result
            (λ answers. spec.turns_on answers line.now) }
    {
        let Some(heading) = heading_in(alloc, argument_on(line))? else {
            return Err(Refusal::Wrong(What::ForForm));
        };
        self.turns_of(alloc, heading.names, heading.text)
    }

    /// The turns of the loop that a line begins.
    pub fn loop_turns(&mut self, alloc: Global, text: &[u8]) -> Result<Loop, Refusal>
        ensures { Gave (outer W.meaning W.history W.faults W.runs S.held S.faults)
            self.old self.new (λ turns. loop_turns turns.names turns.words) result
            (λ answers. spec.turns answers text.now) }
    {
        let line = cut_comment(alloc, text)?;
        self.turns_on(alloc, without_spaces(line.as_slice()))
    }
}
