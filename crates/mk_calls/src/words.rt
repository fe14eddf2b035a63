//! Words at their places, patterns and the empty word, and the directories that paths are cleaned
//! against.
use crate::refused::Refused;
use crate::rows::{Row, check};
use mk_bytes::{Span, is_clean_directory, next_word};
use mk_glob::matches;
use std::alloc::Global;

// What a row shows, a text, a place in it, and the word there.
struct CutRow(&'static str, &'static [u8], usize, Option<Span>);

impl Row for CutRow {
    fn shows(&self) -> &'static str {
        self.0
    }

    fn holds(&self, _alloc: Global) -> Result<bool, Refused> {
        Ok(self.2 <= self.1.len() && next_word(self.1, self.2) == self.3)
    }
}

const WORDS: [CutRow; 6] = [
    CutRow(
        "behind a space",
        b" ab c",
        0,
        Some(Span { start: 1, end: 3 }),
    ),
    CutRow("the next one", b" ab c", 3, Some(Span { start: 4, end: 5 })),
    CutRow(
        "a word that is cut",
        b" ab c",
        2,
        Some(Span { start: 2, end: 3 }),
    ),
    CutRow(
        "tabs and newlines",
        b"\t\na\n",
        0,
        Some(Span { start: 2, end: 3 }),
    ),
    CutRow("white space alone", b"a \n\t", 1, None),
    CutRow("the end", b"a", 1, None),
];

#[test]
fn words_are_cut_at_white_space(rt: HostRuntime) {
    check(&rt, rt.alloc(), &WORDS);
}

// What a row shows, a path, and whether it is a clean, absolute directory.
struct DirectoryRow(&'static str, &'static [u8], bool);

impl Row for DirectoryRow {
    fn shows(&self) -> &'static str {
        self.0
    }

    fn holds(&self, _alloc: Global) -> Result<bool, Refused> {
        Ok(is_clean_directory(self.1) == self.2)
    }
}

const DIRECTORIES: [DirectoryRow; 8] = [
    DirectoryRow("the root", b"/", true),
    DirectoryRow("names with slashes", b"/usr/src", true),
    DirectoryRow("a relative path", b"usr", false),
    DirectoryRow("nothing", b"", false),
    DirectoryRow("a slash at the end", b"/usr/", false),
    DirectoryRow("a doubled slash", b"//usr", false),
    DirectoryRow("a dot", b"/usr/.", false),
    DirectoryRow("a step up", b"/usr/../a", false),
];

#[test]
fn clean_directories_are_known(rt: HostRuntime) {
    check(&rt, rt.alloc(), &DIRECTORIES);
}

// What a row shows, a pattern, and whether it matches the empty word.
struct PatternRow(&'static str, &'static [u8], bool);

impl Row for PatternRow {
    fn shows(&self) -> &'static str {
        self.0
    }

    fn holds(&self, _alloc: Global) -> Result<bool, Refused> {
        Ok(matches(self.1, b"") == self.2)
    }
}

const PATTERNS: [PatternRow; 3] = [
    PatternRow("a question mark takes a byte", b"?", false),
    PatternRow("a star takes nothing", b"*", true),
    PatternRow("the empty pattern", b"", true),
];

#[test]
fn patterns_take_the_empty_word(rt: HostRuntime) {
    check(&rt, rt.alloc(), &PATTERNS);
}
