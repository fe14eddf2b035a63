//! Texts that are kept for processes.
ghost use Rattle.std.specs.Prelude.{◌≡◌, [], OnOk};
ghost use Rattle.mk_strace.specs.Kept as spec;
ghost use Rattle.mk_strace.specs.Held.{texts_in};

use indexmap::IndexMap;
use mk_bytes::{NoMemory, Text};
use std::alloc::Global;

/// A text for each process, by the digits of its number; the empty one where none was kept. A
/// look-up takes about constant time.
#[derive(Drop)]
pub struct Kept {
    alloc: Global,
    texts: IndexMap<Vec<u8>, Text>,
}

impl Kept {
    /// The empty text for each process.
    pub fn new(alloc: Global) -> Kept
        ensures { texts_in result ≡ spec.no_texts }
    {
        Kept {
            alloc,
            texts: IndexMap::new(alloc),
        }
    }

    /// The text of a process.
    pub fn of<'k>(&'k self, process: &[u8]) -> &'k [u8]
        ensures { result.now ≡ texts_in self.now process.now }
    {
        match self.texts.get(process) {
            Some(text) => text.bytes(),
            None => b"",
        }
    }

    /// A process has this text from now on.
    pub fn set(&mut self, process: &[u8], text: Text) -> Result<(), NoMemory>
        ensures { OnOk result (texts_in self.new
            ≡ spec.with_text (texts_in self.old) process.now text) }
    {
        let process = Vec::from_slice(self.alloc, process)?;
        self.texts.insert(process, text)?;
        Ok(())
    }

    /// A process has the empty text from now on.
    pub fn clear(&mut self, process: &[u8]) -> Result<(), NoMemory>
        ensures { OnOk result (texts_in self.new
            ≡ spec.with_text (texts_in self.old) process.now []) }
    {
        self.set(process, Text::new(self.alloc))
    }
}
