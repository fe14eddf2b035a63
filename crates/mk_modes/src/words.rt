//! The words of the command line, and what they ask for.
ghost use Rattle.std.specs.Prelude.{◌≡◌, IsTrue, IfOk};
ghost use Rattle.mk_bytes.specs.Agrees.{Agrees};
ghost use Rattle.mk_bytes.specs.Paths.{is_clean_directory};
ghost use Rattle.mk_modes.specs.Building.{AreJobs};
ghost use Rattle.mk_modes.specs.Meaning as meaning;
ghost use Rattle.mk_modes.specs.Words as spec;
ghost use Rattle.mk_modes.specs.declared.report.End.TheVariants.{NoMemory as no_memory};

use crate::report::End;
use mk_bytes::Texts;
use mk_cli::{Order, Usage};
use std::alloc::Global;

/// The word at a place, or nothing behind the last one.
pub fn word_at(words: &Texts, i: u32) -> &[u8]
    ensures { result.now ≡ spec.word_at words.now i }
{
    match words.as_slice().get(i as usize) {
        Some(word) => word.bytes(),
        None => b"",
    }
}

/// What the words ask for, in a directory that is absolute and clean. `Usage` has the place of the
/// first word that is refused, and `NoMemory` may stand in place of any answer.
pub fn asked(alloc: Global, words: &Texts, cwd: &[u8]) -> Result<Order, End>
    requires { IsTrue (is_clean_directory cwd.now) }
    ensures value { Agrees no_memory (λ order. order) result (meaning.asked cwd.now words.now) }
    ensures jobs { IfOk result (λ order. AreJobs order.flags.jobs) }
{
    match mk_cli::words(alloc, words, cwd) {
        Ok(order) => Ok(order),
        Err(Usage::Word(refused)) => Err(End::Usage(refused)),
        Err(Usage::NoMemory) => Err(End::NoMemory),
    }
}
