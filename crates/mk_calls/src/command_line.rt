//! What the words of a command line ask for.
use crate::refused::Refused;
use crate::rows::{Row, check};
use crate::texts::{are, texts};
use mk_bytes::{Texts, is_clean_directory};
use mk_cli::{Order, Usage, words};
use std::alloc::Global;

const CWD: &[u8] = b"/w";

type Words = &'static [&'static [u8]];

/// The number of jobs, whether the build goes on after a failure, how many makefiles, assignments
/// and prints there are, and the targets.
type Asked = (u32, bool, usize, usize, usize, Words);

// What a row shows, the words, and what they ask for.
struct AskingRow(&'static str, Words, Asked);

impl Row for AskingRow {
    fn shows(&self) -> &'static str {
        self.0
    }

    fn holds(&self, alloc: Global) -> Result<bool, Refused> {
        let all = texts(alloc, self.1)?;
        let asks = are_asked(alloc, &all, self.2);
        drop(all);
        Ok(asks)
    }
}

const ROWS: [AskingRow; 7] = [
    AskingRow("no words", &[], (1, false, 0, 0, 0, &[])),
    AskingRow(
        "a shared word",
        &[b"-kj4", b"X=1", b"t"],
        (4, true, 0, 1, 0, &[b"t"]),
    ),
    AskingRow(
        "the last -j",
        &[b"-j2", b"t", b"-j", b"03"],
        (3, false, 0, 0, 0, &[b"t"]),
    ),
    AskingRow(
        "-B beside -j, and -S behind -k",
        &[b"-kB", b"-j", b"4", b"-S"],
        (1, false, 0, 0, 0, &[]),
    ),
    AskingRow(
        "any argument",
        &[b"-f", b"--", b"-VA", b"-v", b"$B"],
        (1, false, 1, 0, 2, &[]),
    ),
    AskingRow(
        "options that end",
        &[b"-DA", b"--", b"-k", b"--"],
        (1, false, 0, 1, 0, &[b"-k", b"--"]),
    ),
    AskingRow(
        "cleaned targets",
        &[b"./a//b", b"/w/c", b"=x"],
        (1, false, 0, 0, 0, &[b"a/b", b"c", b"=x"]),
    ),
];

// Whether the words ask for this.
fn are_asked(alloc: Global, all: &Texts, asked: Asked) -> bool {
    let Ok(order) = words(alloc, all, CWD) else {
        return false;
    };
    let asks = asks_for(&order, asked);
    drop(order);
    asks
}

fn asks_for(order: &Order, asked: Asked) -> bool {
    let (jobs, keep_going, files, sets, prints, targets) = asked;
    order.flags.jobs == jobs
        && order.flags.keep_going == keep_going
        && order.files.len() == files
        && order.sets.len() == sets
        && order.prints.len() == prints
        && are(&order.flags.requested, targets)
}

#[test]
fn words_ask(rt: HostRuntime) {
    check(&rt, rt.alloc(), &ROWS);
}

// Whether the word at this place is refused.
fn is_refused_at(alloc: Global, all: Words, place: u32) -> bool {
    let Ok(all) = texts(alloc, all) else {
        return false;
    };
    match words(alloc, &all, CWD) {
        Err(Usage::Word(refused)) => refused == place,
        _ => false,
    }
}

#[test]
fn a_word_behind_generate_is_refused(rt: HostRuntime) {
    assert!(rt; is_clean_directory(CWD));
    assert!(rt; is_refused_at(rt.alloc(), &[b"--generate", b"10", b"t"], 2));
}
