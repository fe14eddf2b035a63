//! The bodies of loops' turns.
use crate::refused::Refused;
use crate::rows::{Row, check};
use crate::texts::texts;
use mk_bytes::{Items, NoMemory, Text, Texts};
use mk_for::{Bodies, ForFault, turn, unroll};
use mk_lines::{LogLine, LogLines};
use std::alloc::Global;

type Bytes = &'static [u8];

// A line with its number.
fn body(alloc: Global, line: &[u8]) -> Result<LogLines, NoMemory> {
    let mut lines = Items::new(alloc, 1)?;
    let text = Text::from_bytes(alloc, line)?;
    lines.push(LogLine { first: 3, text })?;
    Ok(lines)
}

// Whether this is the one line, with its number.
fn is_body(lines: &LogLines, text: &[u8]) -> bool {
    match lines.as_slice() {
        [line] => line.first == 3 && line.text.bytes() == text,
        _ => false,
    }
}

// What a row shows, a line, the names, the words, and the line in each turn.
struct TurnsRow(
    &'static str,
    Bytes,
    &'static [Bytes],
    &'static [Bytes],
    Result<&'static [Bytes], ForFault>,
);

const ROWS: [TurnsRow; 5] = [
    TurnsRow(
        "a name and a dollar",
        b"X${i}=$$i",
        &[b"i"],
        &[b"1"],
        Ok(&[b"X${:U1}=$$i"]),
    ),
    TurnsRow(
        "words in pairs",
        b"\t$a${b}",
        &[b"a", b"b"],
        &[b"p", b"q", b"r", b"s"],
        Ok(&[b"\t${:Up}${:Uq}", b"\t${:Ur}${:Us}"]),
    ),
    TurnsRow(
        "equal names",
        b"$a",
        &[b"a", b"a"],
        &[b"1", b"2"],
        Ok(&[b"${:U1}"]),
    ),
    TurnsRow("no words", b"$a", &[b"a", b"b"], &[], Ok(&[])),
    TurnsRow(
        "a word too many",
        b"$a",
        &[b"a", b"b"],
        &[b"1", b"2", b"3"],
        Err(ForFault::Count(3, 2)),
    ),
];

fn are_bodies(bodies: &Bodies, wanted: &[Bytes]) -> bool {
    if bodies.len() != wanted.len() {
        return false;
    }
    for (lines, text) in bodies.as_slice().iter().zip(wanted) {
        if !is_body(lines, text) {
            return false;
        }
    }
    true
}

fn are_wanted(found: &Result<Bodies, ForFault>, wanted: &Result<&[Bytes], ForFault>) -> bool {
    match (found, wanted) {
        (Ok(bodies), Ok(wanted)) => are_bodies(bodies, wanted),
        (Err(fault), Err(wanted)) => fault == wanted,
        _ => false,
    }
}

// A body, names and words.
#[derive(Drop)]
struct Loop {
    body: LogLines,
    names: Texts,
    words: Texts,
}

fn given(alloc: Global, line: &[u8], names: &[Bytes], words: &[Bytes]) -> Result<Loop, NoMemory> {
    Ok(Loop {
        body: body(alloc, line)?,
        names: texts(alloc, names)?,
        words: texts(alloc, words)?,
    })
}

// Whether the turns over words have these lines.
fn has_turns(alloc: Global, given: &Loop, wanted: &Result<&[Bytes], ForFault>) -> bool {
    if given.names.is_empty() {
        return false;
    }
    let bodies = unroll(alloc, &given.body, &given.names, &given.words);
    let are = are_wanted(&bodies, wanted);
    drop(bodies);
    are
}

impl Row for TurnsRow {
    fn shows(&self) -> &'static str {
        self.0
    }

    fn holds(&self, alloc: Global) -> Result<bool, Refused> {
        let given = given(alloc, self.1, self.2, self.3)?;
        let has = has_turns(alloc, &given, &self.4);
        drop(given);
        Ok(has)
    }
}

#[test]
fn loops_have_turns(rt: HostRuntime) {
    check(&rt, rt.alloc(), &ROWS);
}

// Whether the second turn over four words and two names has this line.
fn is_second_turn(alloc: Global, line: &[u8], wanted: &[u8]) -> Result<bool, NoMemory> {
    let given = given(alloc, line, &[b"a", b"b"], &[b"p", b"q", b"r", b"s"])?;
    let is = is_turn(alloc, &given, wanted);
    drop(given);
    is
}

fn is_turn(alloc: Global, given: &Loop, wanted: &[u8]) -> Result<bool, NoMemory> {
    if given.names.len() != 2 || given.words.len() != 4 {
        return Ok(false);
    }
    let lines = turn(alloc, &given.body, &given.names, &given.words, 1)?;
    Ok(is_body(&lines, wanted))
}

#[test]
fn a_turn_takes_its_words(rt: HostRuntime) -> Result<(), Refused> {
    assert!(rt; is_second_turn(rt.alloc(), b"$a-$b", b"${:Ur}-${:Us}")?);
    Ok(())
}
