//! What is printed, and how many cases pass.
use crate::case::Case;
use crate::fault::Trouble;
use crate::found::{Difference, Found, Turn};
use crate::said::Said;
use std::alloc::Global;

/// The text that is printed, and the counts behind it.
#[derive(Drop)]
pub struct Tally {
    text: Said,
    passed: u32,
    failed: u32,
}

impl Tally {
    /// Nothing so far.
    pub fn new(alloc: Global) -> Tally {
        Tally {
            text: Said::new(alloc),
            passed: 0,
            failed: 0,
        }
    }

    /// The bytes that are printed.
    pub fn bytes(&self) -> &[u8] {
        self.text.bytes()
    }

    /// Whether memory has not run out.
    pub fn is_whole(&self) -> bool {
        self.text.is_whole()
    }

    /// Memory has run out.
    pub fn lose(&mut self) {
        self.text.lose();
    }

    /// Whether no case has failed.
    pub fn is_clean(&self) -> bool {
        self.failed == 0
    }

    fn pass(&mut self) {
        self.passed = self.passed.saturating_add(1);
    }

    fn fail(&mut self) {
        self.failed = self.failed.saturating_add(1);
    }

    fn push_place(&mut self, file: &str, line: u32) {
        self.text.push(file.as_bytes());
        self.text.push(b":");
        self.text.push_number(u64::from(line));
        self.text.push(b": ");
    }

    /// A file or a case that cannot be run.
    pub fn note_trouble(&mut self, file: &str, line: u32, why: &str) {
        self.fail();
        self.push_place(file, line);
        self.text.push(why.as_bytes());
        self.text.push(b"\n");
    }

    /// A case or a file that was not run to its end.
    pub fn note_refused(&mut self, file: &str, trouble: Trouble) {
        match trouble {
            Trouble::Bad(line) => {
                self.note_trouble(file, line, "the line is not as a case has it");
            }
            Trouble::NoMemory => self.lose(),
        }
    }

    fn push_turn(&mut self, turn: Turn) {
        self.text.push(b": run ");
        self.text.push_number(u64::from(turn.run));
        if turn.seed != 0 {
            self.text.push(b" under schedule ");
            self.text.push_number(u64::from(turn.seed));
        }
        self.text.push(b": ");
    }

    // A text, and a newline where it has none at its end.
    fn push_text(&mut self, what: &str, text: &[u8]) {
        self.text.push(what.as_bytes());
        self.text.push(text);
        if !text.ends_with(b"\n") {
            self.text.push(b"\n");
        }
    }

    fn push_difference(&mut self, file: &str, shows: &str, one: &Difference) {
        self.push_place(file, one.line);
        self.text.push(shows.as_bytes());
        self.push_turn(one.turn);
        self.text.push(one.what.name().as_bytes());
        self.text.push(b"\n");
        self.push_text("  wanted: ", one.wanted.bytes());
        self.push_text("  got:    ", one.got.bytes());
    }

    fn push_all(&mut self, file: &str, shows: &str, found: &Found) {
        for one in found.as_slice() {
            self.push_difference(file, shows, one);
        }
    }

    // A case that is to differ in the one thing that its text begins with.
    fn note_wrong(&mut self, file: &str, case: &Case, found: &Found) {
        if is_told(case.head.rest, found) {
            self.pass();
        } else {
            self.note_trouble(file, case.head.line, "what is wrong here is not told");
            self.push_all(file, case.head.rest, found);
        }
    }

    fn note_right(&mut self, file: &str, case: &Case, found: &Found) {
        if found.as_slice().is_empty() {
            self.pass();
        } else {
            self.fail();
            self.push_all(file, case.head.rest, found);
        }
    }

    fn note_done(&mut self, file: &str, case: &Case, found: &Found) {
        if is_wrong(file) {
            self.note_wrong(file, case, found);
        } else {
            self.note_right(file, case, found);
        }
    }

    /// A case that was run. Those of a file whose name begins with `wrong` are to differ.
    pub fn note(&mut self, file: &str, case: &Case, found: &Found) {
        match found.trouble() {
            Some(trouble) => self.note_refused(file, trouble),
            None => self.note_done(file, case, found),
        }
    }

    /// The last line.
    pub fn close(&mut self) {
        self.text.push_number(u64::from(self.passed));
        self.text.push(b" passed, ");
        self.text.push_number(u64::from(self.failed));
        self.text.push(b" failed\n");
    }
}

// Whether the cases of a file are to differ.
fn is_wrong(file: &str) -> bool {
    let name = match file.rsplit_once('/') {
        Some((_, name)) => name,
        None => file,
    };
    name.starts_with("wrong")
}

// Whether nothing differs but the thing with this name.
fn are_all(differences: &[Difference], name: &str) -> bool {
    for one in differences {
        if one.what.name() != name {
            return false;
        }
    }
    true
}

// Whether something differs, and only the thing that the text of a case begins with, before a
// colon.
fn is_told(shows: &str, found: &Found) -> bool {
    match shows.split_once(':') {
        Some((name, _)) => !found.as_slice().is_empty() && are_all(found.as_slice(), name),
        None => false,
    }
}
