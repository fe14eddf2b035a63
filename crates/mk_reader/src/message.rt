//! Messages on standard error (make(1), the directives `.warning` and `.info`).
ghost use Rattle.mk_makefile.specs.Messages as spec;
ghost use Rattle.mk_reader.specs.Ties.{Gave, outer};

use crate::reader::Reader;
use itoa::Buffer;
use mk_makefile::{Refusal, What, write_message};
use mk_world::{Sink, World};
use std::alloc::Global;

impl<'a, W: World, S: Sink> Reader<'a, W, S> {
    // Writes a message.
    fn say(&mut self, file: &[u8], number: u32, mark: &[u8], text: &[u8]) -> Result<(), Refusal>
        ensures { Gave (outer W.meaning W.history W.faults W.runs S.held S.faults)
            self.old self.new (λ done. done) result
            (λ answers. spec.said (spec.message_line file.now number mark.now text.now)) }
    {
        let mut numbers = Buffer::new();
        let digits = numbers.format(number).as_bytes();
        write_message(self.err, file, digits, number, mark, text)?;
        Ok(())
    }

    /// Writes the value of a text as a message, behind a mark.
    pub fn inform(
        &mut self,
        alloc: Global,
        file: &[u8],
        number: u32,
        mark: &[u8],
        text: &[u8],
    ) -> Result<(), Refusal>
        ensures { Gave (outer W.meaning W.history W.faults W.runs S.held S.faults)
            self.old self.new (λ done. done) result
            (λ answers. spec.message answers file.now number mark.now text.now) }
    {
        let shown = self.value(alloc, false, text)?;
        self.say(file, number, mark, shown.bytes())
    }

    /// Refuses a line with the value of a text.
    pub fn stop(&mut self, alloc: Global, text: &[u8]) -> Result<(), Refusal>
        ensures { Gave (outer W.meaning W.history W.faults W.runs S.held S.faults)
            self.old self.new (λ done. done) result (λ answers. spec.stop answers text.now) }
    {
        let shown = self.value(alloc, false, text)?;
        Err(Refusal::Wrong(What::Error(shown)))
    }
}
