//! Languages of single lines.
ghost use Rattle.std.specs.Prelude.{◌≡◌};

use crate::fault::LanguageFault;
use crate::kind::LineKind;
use mk_bytes::Text;
use mk_turns::Loop;
use std::alloc::Global;

/// A file that is to be included.
#[derive(Drop)]
pub struct IncludedFile {
    /// Its name in faults and messages.
    pub name: Text,
    /// Its bytes.
    pub text: Text,
}

/// A language of single lines, which has a state. It is asked about one line at a time, by the name
/// of its file, the number of its first physical line, and its text, in which the names of the
/// loops round it have been replaced.
///
/// What a line means may depend on what the outside answers, as whether a file exists or what a
/// command prints. Each call does what is defined under all answers that agree with those that the
/// outside has given up to its end.
pub trait Language {
    ghost use Rattle.mk_blocks.specs.Ties.{Answers, Closes, Ties};
    ghost use Rattle.mk_turns.specs.Turns.{loop_turns};

    /// What is wrong with a line.
    type What: Drop;

    /// How the outside fails.
    type Failure: Drop;

    /// What lines mean, and how the calls are tied to it: which answers agree, what was
    /// done outside, and what else holds of a value before and after calls.
    ghost ties: { Ties Self Self.What Self.Failure };

    /// What a line is for the blocks of its file. Names of loops have not been replaced in it.
    fn kind(&self, text: &[u8]) -> LineKind
        ensures { result ≡ ties.kind text.now };

    /// Processes a line that belongs to no block and includes no file.
    fn step(
        &mut self,
        alloc: Global,
        name: &[u8],
        number: u32,
        text: &[u8],
    ) -> Result<(), LanguageFault<Self::What, Self::Failure>>
        ensures { Answers ties self.old self.new (λ m. m.step) (λ done. done)
            name.now number text.now result };

    /// Whether the condition of a branch holds: of a line that begins an if-block, or of one that
    /// begins another branch of it.
    fn condition(
        &mut self,
        alloc: Global,
        name: &[u8],
        number: u32,
        text: &[u8],
    ) -> Result<bool, LanguageFault<Self::What, Self::Failure>>
        ensures { Answers ties self.old self.new (λ m. m.condition) (λ holds. holds)
            name.now number text.now result };

    /// The turns of the loop that a line begins. Where words are left over, or there is no name,
    /// that is a fault of the line.
    fn turns(
        &mut self,
        alloc: Global,
        name: &[u8],
        number: u32,
        text: &[u8],
    ) -> Result<Loop, LanguageFault<Self::What, Self::Failure>>
        ensures { Answers ties self.old self.new (λ m. m.turns)
            (λ turns. loop_turns turns.names turns.words) name.now number text.now result };

    /// The file that a line includes, or `None` where it is missing and may be. The limit of open
    /// files counts behind it.
    fn included(
        &mut self,
        alloc: Global,
        name: &[u8],
        number: u32,
        text: &[u8],
    ) -> Result<Option<IncludedFile>, LanguageFault<Self::What, Self::Failure>>
        ensures { Answers ties self.old self.new (λ m. m.included) (λ file. file)
            name.now number text.now result };

    /// Takes note of the end of a file. There is no such call where a file includes another one or
    /// begins: the former is part of [`included`], and the latter follows it or such an end.
    ///
    /// [`included`]: Language::included
    fn close_file(&mut self)
        ensures { Closes ties self.old self.new };
}
