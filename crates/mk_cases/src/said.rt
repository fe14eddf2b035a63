//! Texts that are put together piece by piece.
use itoa::Buffer;
use mk_bytes::Text;
use std::alloc::Global;

/// A text, and whether there was memory for all of it.
#[derive(Drop)]
pub struct Said {
    text: Text,
    is_whole: bool,
    // Whether the next part is the first one in its parentheses.
    is_first: bool,
}

impl Said {
    /// Nothing so far.
    pub fn new(alloc: Global) -> Said {
        Said {
            text: Text::new(alloc),
            is_whole: true,
            is_first: true,
        }
    }

    /// These bytes.
    pub fn of(alloc: Global, bytes: &[u8]) -> Said {
        let mut said = Said::new(alloc);
        said.push(bytes);
        said
    }

    /// The bytes of the text.
    pub fn bytes(&self) -> &[u8] {
        self.text.bytes()
    }

    /// Whether there was memory for all of it.
    pub fn is_whole(&self) -> bool {
        self.is_whole
    }

    /// There was no memory for a part of it.
    pub fn lose(&mut self) {
        self.is_whole = false;
    }

    /// Adds these bytes.
    pub fn push(&mut self, bytes: &[u8]) {
        if self.text.push(bytes).is_err() {
            self.is_whole = false;
        }
    }

    /// Adds a number.
    pub fn push_number(&mut self, number: u64) {
        let mut buffer = Buffer::new();
        self.push(buffer.format(number).as_bytes());
    }

    /// Adds a name, behind a blank where it is not the first.
    pub fn push_spaced(&mut self, name: &[u8]) {
        if !self.text.is_empty() {
            self.push(b" ");
        }
        self.push(name);
    }

    // Goes on to the next part, behind a comma where it is not the first.
    fn next(&mut self) {
        if !self.is_first {
            self.push(b", ");
        }
        self.is_first = false;
    }

    /// A part: these bytes.
    pub fn part(&mut self, bytes: &[u8]) {
        self.next();
        self.push(bytes);
    }

    /// A part: a number.
    pub fn number(&mut self, number: u64) {
        self.next();
        self.push_number(number);
    }

    /// Begins the parts of the part before.
    pub fn open(&mut self) {
        self.push(b"(");
        self.is_first = true;
    }

    /// Ends them.
    pub fn close(&mut self) {
        self.push(b")");
        self.is_first = false;
    }
}
