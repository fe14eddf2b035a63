//! Logical lines with their numbers.
use crate::refused::Refused;
use crate::rows::{Row, check};
use mk_bytes::NoMemory;
use mk_lines::{LineCursor, LineRef, LogLine, LogLines, logical_lines};
use std::alloc::Global;

type Bytes = &'static [u8];

const TWO_LINES: Bytes = b"a \\\n\tb\nc";

// What a row shows, a text, and the numbers and texts of its logical lines.
struct LinesRow(&'static str, Bytes, &'static [(u32, Bytes)]);

impl Row for LinesRow {
    fn shows(&self) -> &'static str {
        self.0
    }

    fn holds(&self, alloc: Global) -> Result<bool, Refused> {
        if self.1.len() >= 100 {
            return Ok(false);
        }
        let lines = logical_lines(alloc, self.1)?;
        Ok(are_lines(&lines, self.2))
    }
}

const LINES: [LinesRow; 9] = [
    LinesRow("a continuation", TWO_LINES, &[(1, b"a  b"), (3, b"c")]),
    LinesRow("no line", b"", &[]),
    LinesRow("empty lines", b"\n\nx\n", &[(1, b""), (2, b""), (3, b"x")]),
    LinesRow("two backslashes", b"a\\\\\nb", &[(1, b"a\\\\"), (2, b"b")]),
    LinesRow("three backslashes", b"a\\\\\\\nb", &[(1, b"a\\\\ b")]),
    LinesRow("blanks", b"a\\\n \t\\\n b\nc", &[(1, b"a  b"), (4, b"c")]),
    LinesRow("one backslash at the end", b"A=\\", &[(1, b"A=")]),
    LinesRow("two backslashes at the end", b"A=\\\\", &[(1, b"A=\\\\")]),
    LinesRow("a newline at the end", b"a\\\n", &[(1, b"a")]),
];

fn is_line(line: &LogLine, wanted: (u32, &[u8])) -> bool {
    let (first, text) = wanted;
    line.first == first && line.text.bytes() == text
}

fn are_lines(lines: &LogLines, wanted: &[(u32, Bytes)]) -> bool {
    if lines.len() != wanted.len() {
        return false;
    }
    for (line, wanted) in lines.as_slice().iter().zip(wanted) {
        if !is_line(line, *wanted) {
            return false;
        }
    }
    true
}

#[test]
fn texts_have_lines(rt: HostRuntime) {
    check(&rt, rt.alloc(), &LINES);
}

// What a cursor over the two lines gives, call by call.
const GIVEN: [Option<(u32, Bytes)>; 4] = [Some((1, b"a  b")), Some((3, b"c")), None, None];

fn is_given(line: &Option<LineRef<'_>>, wanted: Option<(u32, Bytes)>) -> bool {
    match (line, wanted) {
        (Some(line), Some((first, text))) => line.first() == first && line.bytes() == text,
        (None, None) => true,
        _ => false,
    }
}

fn gives(
    alloc: Global,
    cursor: &mut LineCursor<'_>,
    wanted: Option<(u32, Bytes)>,
) -> Result<bool, NoMemory> {
    let line = cursor.next_line(alloc)?;
    Ok(is_given(&line, wanted))
}

// The place of the first line that a cursor gives otherwise.
fn first_other(alloc: Global, cursor: &mut LineCursor<'_>) -> Result<Option<usize>, NoMemory> {
    for (place, wanted) in GIVEN.iter().enumerate() {
        if !gives(alloc, cursor, *wanted)? {
            return Ok(Some(place));
        }
    }
    Ok(None)
}

#[test]
fn cursor_gives_lines_and_then_none(rt: HostRuntime) -> Result<(), Refused> {
    let mut cursor = LineCursor::new(TWO_LINES);
    let mut copy = cursor.copy();
    assert_eq!(rt; first_other(rt.alloc(), &mut cursor)?, None);
    assert!(rt; gives(rt.alloc(), &mut copy, GIVEN[0])?, "the copy");
    Ok(())
}
