//! Logs of recorders. The records that a log gives are written as those of the first command line.
use crate::refused::Refused;
use crate::rows::{Row, check};
use mk_bytes::{NoMemory, Text};
use mk_filemon::{push_op, read_log};
use mk_world::Ops;
use std::alloc::Global;

// What a row shows, the log, and its records where the directory is `/w`.
struct LogRow(&'static str, &'static [u8], &'static [u8]);

impl Row for LogRow {
    fn shows(&self) -> &'static str {
        self.0
    }

    fn holds(&self, alloc: Global) -> Result<bool, Refused> {
        let records = records_of(alloc, self.1)?;
        Ok(records.bytes() == self.2)
    }
}

const LOGS: [LogRow; 24] = [
    LogRow(
        "a directory, a move, and another letter",
        b"C 5 /w/d\nR 5 f\nM 5 'p' 'q'\nQ 5 z\n",
        b"R 1 d/f\nM 1 'd/p' 'd/q'\n",
    ),
    LogRow("a miss, and a comment", b"# N 5 f\n# x\n", b"N 1 f\n"),
    LogRow("a miss without its sign", b"N 5 f\n", b""),
    LogRow(
        "programs, writes, deletions and links",
        b"E 5 /bin/sh\nW 5 t\nD 5 u\nL 5 'a' 'b'\n",
        b"R 1 /bin/sh\nW 1 t\nD 1 u\nR 1 a\nW 1 b\n",
    ),
    LogRow(
        "a last line without a newline",
        b"R 5 a\nR 5 b",
        b"R 1 a\nR 1 b\n",
    ),
    LogRow(
        "a relative directory is taken against the old one",
        b"C 5 d\nC 5 e/..\nR 5 f\n",
        b"R 1 d/f\n",
    ),
    LogRow(
        "a process has the directory of its parent",
        b"C 5 /w/d\nF 5 6\nC 5 /\nR 6 f\nR 5 f\n",
        b"R 1 d/f\nR 1 /f\n",
    ),
    LogRow(
        "a process that was not seen, and its child",
        b"F 7 8\nR 7 f\nR 8 ../g\n",
        b"R 1 f\nR 1 /g\n",
    ),
    LogRow(
        "numbers of any length, compared as numbers",
        b"C 5 d\nR 005 f\nC 99999999999999999999999 e\nR 099999999999999999999999 f\n",
        b"R 1 d/f\nR 1 e/f\n",
    ),
    LogRow("no path", b"R 5 \nC 5 \nF 5 \nR 5\n", b""),
    LogRow("no number", b"R x f\nR  f\nF 5 x\nR -1 f\n", b""),
    LogRow(
        "a quote that ends two paths",
        b"M 5 'a' '\nM 5 'a'\nM 5 'a' b\nM 5 a 'b'\n",
        b"",
    ),
    LogRow(
        "an empty path in quotes is the directory",
        b"C 5 d\nL 5 'a' ''\n",
        b"R 1 d/a\nW 1 d\n",
    ),
    LogRow(
        "quotes in a path",
        b"M 5 'it's' 'a'b'\n",
        b"M 1 'it\\'s' 'a\\'b'\n",
    ),
    LogRow(
        "other letters",
        b"X 5 0 0\nV 5\nS 5 a\nA 5 a\nr 5 a\n\n",
        b"",
    ),
    LogRow("nothing at all", b"", b"no log\n"),
    LogRow(
        "two parts with their ends, and lines between them",
        b"# recorder r 1\nR 5 a\n# N 5 b\n# Bye bye 5 0 2\nW 6 t\n# recorder s\n# Bye bye 7 1 0\n",
        b"R 1 a\nN 1 b\nW 1 t\n",
    ),
    LogRow(
        "a part without its end",
        b"# recorder r 1\nR 5 a\n",
        b"no log\n",
    ),
    LogRow(
        "an end whose count may go on",
        b"# recorder r 1\nR 5 a\n# Bye bye 5 0 1",
        b"no log\n",
    ),
    LogRow(
        "an end with another count",
        b"# recorder r 1\nR 5 a\n# Bye bye 5 0 2\n",
        b"no log\n",
    ),
    LogRow(
        "an end without a status",
        b"# recorder r 1\nR 5 a\n# Bye bye 5 1\n",
        b"no log\n",
    ),
    LogRow(
        "a part in a part",
        b"# recorder r 1\n# recorder s 1\n# Bye bye 5 0 1\n",
        b"no log\n",
    ),
    LogRow(
        "a part whose beginning is cut",
        b"R 5 a\n# recor",
        b"no log\n",
    ),
    LogRow(
        "the end of a plain log",
        b"# filemon version 5\n# Target pid 5\nV 5\nR 5 a\n# Bye bye\n",
        b"R 1 a\n",
    ),
];

// The records as they are written, a line for each.
fn written(alloc: Global, ops: &Ops) -> Result<Text, NoMemory> {
    let mut text = Text::new(alloc);
    for op in ops.as_slice() {
        push_op(&mut text, 1, op)?;
        text.push(b"\n")?;
    }
    Ok(text)
}

fn records_of(alloc: Global, log: &[u8]) -> Result<Text, NoMemory> {
    match read_log(alloc, log, b"/w")? {
        Some(ops) => written(alloc, &ops),
        None => Text::from_bytes(alloc, b"no log\n"),
    }
}

#[test]
fn logs_give_records(rt: HostRuntime) {
    check(&rt, rt.alloc(), &LOGS);
}
