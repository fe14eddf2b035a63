//! Outputs of children that were taken in, where processes in the background can still write. What
//! they print late belongs to nobody. It is read and let go as long as make runs, so that they go
//! on.
use std::alloc::Global;
use std::io::{PipeReader, Read};

/// The pipes into which processes in the background write.
#[derive(Drop)]
pub struct Late {
    readers: Vec<PipeReader>,
}

impl Late {
    /// None.
    pub fn new(alloc: Global) -> Late {
        Late {
            readers: Vec::new(alloc),
        }
    }

    /// One more. Where there is no memory to remember it, it is closed.
    pub fn add(&mut self, reader: PipeReader) {
        let _ = self.readers.push(reader);
    }

    /// Lets go what stands in each, a buffer at most.
    pub fn drain(&mut self, buffer: &mut [u8]) {
        for reader in self.readers.iter_mut() {
            let _ = reader.read(buffer);
        }
    }
}
