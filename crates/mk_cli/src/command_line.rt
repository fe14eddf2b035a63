//! The words of a command line.
ghost use Rattle.std.specs.Prelude.{◌≡◌, ℕ, ◌<◌, length, Err, IsTrue, IfOk};
ghost use Rattle.mk_bytes.specs.Agrees.{Agrees};
ghost use Rattle.mk_bytes.specs.Paths.{is_clean_directory};
ghost use Rattle.mk_cli.specs.Orders.{IsInRange};
ghost use Rattle.mk_cli.specs.Words as spec;
ghost use Rattle.mk_cli.specs.declared.order.Usage.TheVariants.{NoMemory as no_memory};

use crate::order::{Order, Usage};
use crate::reading::Reading;
use mk_bytes::Texts;
use std::alloc::Global;

// Reads words in order.
fn read_all(alloc: Global, cwd: &[u8], words: &Texts, reading: &mut Reading) -> Result<(), Usage>
    ensures { Agrees no_memory (λ _. reading.new) result
        (spec.read_words cwd.now 0 reading.old words.now) }
{
    for (place, word) in words.as_slice().iter().enumerate() {
        reading.read(alloc, cwd, place as u32, word.bytes())?;
    }
    Ok(())
}

/// What the words of a command line ask for (make(1), "OPTIONS"), with the targets cleaned against
/// the current directory `cwd`. `Word(i)` exactly where word `i`, counted from 0, is the first that
/// is refused: an unknown letter, a bad argument, an option whose argument is missing, an empty
/// word, a lone `-`, an assignment without a name or with `!=`, `--generate` that is not the first
/// word, and any word after its number. `NoMemory` may stand in place of every other answer.
pub fn words(alloc: Global, words: &Texts, cwd: &[u8]) -> Result<Order, Usage>
    requires { IsTrue (is_clean_directory cwd.now) }
    ensures value { Agrees no_memory (λ order. order) result (spec.order cwd.now words.now) }

    // What follows from it: a caller can run that many jobs, and can show the refused word.
    ensures numbers { IfOk result IsInRange }
    ensures place { (i : ℕ) → result ≡ Err (Usage.Word i) → i < length words.now }
{
    let mut reading = Reading::new(alloc);
    match read_all(alloc, cwd, words, &mut reading) {
        Ok(()) => reading.finish(),
        Err(usage) => {
            drop(reading);
            Err(usage)
        }
    }
}
