//! What differs from what a case wants.
use crate::directive::Directive;
use crate::fault::Trouble;
use crate::said::Said;
use std::alloc::Global;

/// A run of a case, counted from 1, under a generated schedule, or under the case's own, which is
/// 0.
#[derive(Clone, Copy)]
pub struct Turn {
    pub run: u32,
    pub seed: u32,
}

/// One thing that differs.
#[derive(Drop)]
pub struct Difference {
    pub what: Directive,
    /// The line of the file that wants it.
    pub line: u32,
    pub turn: Turn,
    pub wanted: Said,
    pub got: Said,
}

/// All that differs in a case, and why it was not run to its end, if it was not.
#[derive(Drop)]
pub struct Found {
    alloc: Global,
    turn: Turn,
    all: Vec<Difference>,
    trouble: Option<Trouble>,
}

impl Found {
    /// Nothing so far.
    pub fn new(alloc: Global) -> Found {
        Found {
            alloc,
            turn: Turn { run: 0, seed: 0 },
            all: Vec::new(alloc),
            trouble: None,
        }
    }

    /// Where its memory is from.
    pub fn alloc(&self) -> Global {
        self.alloc
    }

    /// All that differs.
    pub fn as_slice(&self) -> &[Difference] {
        self.all.as_slice()
    }

    /// The run that is compared.
    pub fn turn(&self) -> Turn {
        self.turn
    }

    /// Goes on to a run.
    pub fn turn_to(&mut self, run: u32, seed: u32) {
        self.turn = Turn { run, seed };
    }

    /// Why the case was not run to its end; the first reason counts.
    pub fn trouble(&self) -> Option<Trouble> {
        self.trouble
    }

    /// Whether the case is not run to its end.
    pub fn is_over(&self) -> bool {
        self.trouble.is_some()
    }

    /// The case is not run to its end.
    pub fn refuse(&mut self, trouble: Trouble) {
        if self.trouble.is_none() {
            self.trouble = Some(trouble);
        }
    }

    // Adds a difference, where there was memory for both texts.
    fn push(&mut self, what: Directive, line: u32, wanted: Said, got: Said) {
        let is_whole = wanted.is_whole() && got.is_whole();
        let one = Difference {
            what,
            line,
            turn: self.turn,
            wanted,
            got,
        };
        if self.all.push(one).is_err() || !is_whole {
            self.refuse(Trouble::NoMemory);
        }
    }

    /// Two texts are compared.
    pub fn compare(&mut self, what: Directive, line: u32, wanted: &[u8], got: &[u8]) {
        if wanted != got {
            let wanted = Said::of(self.alloc, wanted);
            let got = Said::of(self.alloc, got);
            self.push(what, line, wanted, got);
        }
    }

    /// A text is compared with one that was put together.
    pub fn compare_said(&mut self, what: Directive, line: u32, wanted: &[u8], got: &Said) {
        if got.is_whole() {
            self.compare(what, line, wanted, got.bytes());
        } else {
            self.refuse(Trouble::NoMemory);
        }
    }

    /// Two texts that were put together are compared.
    pub fn compare_both(&mut self, what: Directive, line: u32, wanted: &Said, got: &Said) {
        if wanted.is_whole() {
            self.compare_said(what, line, wanted.bytes(), got);
        } else {
            self.refuse(Trouble::NoMemory);
        }
    }
}
