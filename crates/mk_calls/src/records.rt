//! Records as meta files hold them, and what they say of the files outside a job.
use crate::looks::records_of;
use crate::refused::Refused;
use crate::rows::{Row, check};
use mk_bytes::{NoMemory, Text, Texts};
use mk_filemon::{
    Rec, Recs, left_written, outer_found, outer_missed, outer_reads, read_op, write_op,
};
use mk_world::Op;
use std::alloc::Global;

// What a row shows, a text, and whether it is a record.
struct LineRow(&'static str, &'static [u8], bool);

impl Row for LineRow {
    fn shows(&self) -> &'static str {
        self.0
    }

    fn holds(&self, alloc: Global) -> Result<bool, Refused> {
        let found = again(alloc, self.1)?;
        Ok(is_again(&found, self.1, self.2))
    }
}

const LINES: [LineRow; 22] = [
    LineRow("a read", b"R 1 a", true),
    LineRow("a miss", b"N 1 a", true),
    LineRow("a write", b"W 4294967295 a", true),
    LineRow("a deletion", b"D 12 a b", true),
    LineRow("a move", b"M 2 'a\\'b' 'c'", true),
    LineRow("the empty path", b"R 1 ", true),
    LineRow("escapes", b"R 1 a\\\\b\\n'", true),
    LineRow("line 0", b"R 0 a", false),
    LineRow("a line that is too large", b"R 4294967296 a", false),
    LineRow("a leading zero", b"R 01 a", false),
    LineRow("a sign", b"R +1 a", false),
    LineRow("another letter", b"E 1 a", false),
    LineRow("no path", b"R 1", false),
    LineRow("two spaces", b"R  1 a", false),
    LineRow("another escape", b"R 1 a\\'", false),
    LineRow("an open escape", b"R 1 a\\", false),
    LineRow("a raw newline", b"R 1 a\n", false),
    LineRow("an open quote", b"M 2 'a' 'b", false),
    LineRow("a raw quote", b"M 2 'a'b' 'c'", false),
    LineRow("a byte behind the last quote", b"M 2 'a' 'b' ", false),
    LineRow("paths without quotes", b"M 2 a b", false),
    LineRow("nothing", b"", false),
];

// What is read of a text, written again; nothing where it is no record.
fn again(alloc: Global, text: &[u8]) -> Result<Option<Text>, NoMemory> {
    match read_op(alloc, text)? {
        Some(one) if one.line >= 1 => Ok(Some(write_op(alloc, one.line, &one.op)?)),
        _ => Ok(None),
    }
}

fn is_again(found: &Option<Text>, text: &[u8], record: bool) -> bool {
    match found {
        Some(again) => record && again.bytes() == text,
        None => !record,
    }
}

#[test]
fn records_have_one_spelling(rt: HostRuntime) {
    check(&rt, rt.alloc(), &LINES);
}

// A move, as it is written.
fn written_move(alloc: Global) -> Result<Text, NoMemory> {
    let from = Text::from_bytes(alloc, b"a'b")?;
    let to = Text::from_bytes(alloc, b"c")?;
    write_op(alloc, 2, &Op::Move(from, to))
}

#[test]
fn a_move_is_written(rt: HostRuntime) -> Result<(), Refused> {
    let text = written_move(rt.alloc())?;
    assert_eq!(rt; text.bytes(), b"M 2 'a\\'b' 'c'".as_slice());
    Ok(())
}

fn is_read(record: &Option<Rec>) -> bool {
    match record {
        Some(
            Rec {
                line: 1,
                op: Op::Read(path),
            },
        ) => path.bytes() == b"a".as_slice(),
        _ => false,
    }
}

#[test]
fn a_record_is_read(rt: HostRuntime) -> Result<(), Refused> {
    let record = read_op(rt.alloc(), b"R 1 a")?;
    assert!(rt; is_read(&record));
    Ok(())
}

// What a row shows, the records, and the paths by them: the outer reads, those that
// were found and those that were missed, and what is left written.
struct PathsRow {
    shows: &'static str,
    records: &'static [&'static [u8]],
    outer: &'static [u8],
    found: &'static [u8],
    missed: &'static [u8],
    left: &'static [u8],
}

const RUNS: [PathsRow; 9] = [
    PathsRow {
        shows: "its own output",
        records: &[b"R 1 a", b"W 1 t", b"R 1 t", b"R 2 a"],
        outer: b"a ",
        found: b"a ",
        missed: b"",
        left: b"t ",
    },
    PathsRow {
        shows: "a deleted file",
        records: &[b"W 1 t", b"W 1 s", b"D 2 s"],
        outer: b"",
        found: b"",
        missed: b"",
        left: b"t ",
    },
    PathsRow {
        shows: "a read does not change what is left",
        records: &[b"W 1 t", b"R 1 t", b"N 1 t"],
        outer: b"",
        found: b"",
        missed: b"",
        left: b"t ",
    },
    PathsRow {
        shows: "left in the order of the first record of any kind",
        records: &[b"R 1 b", b"W 1 t", b"W 1 b"],
        outer: b"b ",
        found: b"b ",
        missed: b"",
        left: b"b t ",
    },
    PathsRow {
        shows: "found in the order of outer reads",
        records: &[b"N 1 p", b"R 1 q", b"R 1 p"],
        outer: b"p q ",
        found: b"p q ",
        missed: b"p ",
        left: b"",
    },
    PathsRow {
        shows: "a miss is not found",
        records: &[b"N 1 p", b"W 1 t"],
        outer: b"p ",
        found: b"",
        missed: b"p ",
        left: b"t ",
    },
    PathsRow {
        shows: "a move",
        records: &[b"M 1 'a' 'b'", b"R 1 a", b"R 1 b"],
        outer: b"a ",
        found: b"a ",
        missed: b"",
        left: b"b ",
    },
    PathsRow {
        shows: "a move away of its own file",
        records: &[b"W 1 a", b"M 1 'a' 'b'", b"N 1 a"],
        outer: b"",
        found: b"",
        missed: b"",
        left: b"b ",
    },
    PathsRow {
        shows: "a move onto itself",
        records: &[b"M 1 'a' 'a'"],
        outer: b"a ",
        found: b"a ",
        missed: b"",
        left: b"a ",
    },
];

// Whether these are the paths, with a space behind each.
fn are_paths(paths: &Texts, wanted: &[u8]) -> bool {
    let mut rest = wanted;
    for path in paths.as_slice() {
        match rest.strip_prefix(path.bytes()) {
            Some([b' ', behind @ ..]) => rest = behind,
            _ => return false,
        }
    }
    rest.is_empty()
}

fn tell_reads(alloc: Global, records: &Recs, wanted: &[u8]) -> Result<bool, NoMemory> {
    let paths = outer_reads(alloc, records)?;
    Ok(are_paths(&paths, wanted))
}

fn tell_found(alloc: Global, records: &Recs, wanted: &[u8]) -> Result<bool, NoMemory> {
    let paths = outer_found(alloc, records)?;
    Ok(are_paths(&paths, wanted))
}

fn tell_missed(alloc: Global, records: &Recs, wanted: &[u8]) -> Result<bool, NoMemory> {
    let paths = outer_missed(alloc, records)?;
    Ok(are_paths(&paths, wanted))
}

fn tell_left(alloc: Global, records: &Recs, wanted: &[u8]) -> Result<bool, NoMemory> {
    let paths = left_written(alloc, records)?;
    Ok(are_paths(&paths, wanted))
}

// Whether the records say so of what the job found, looked for and left outside.
fn tell(alloc: Global, records: &Recs, row: &PathsRow) -> Result<bool, NoMemory> {
    let are_told = tell_reads(alloc, records, row.outer)?
        && tell_found(alloc, records, row.found)?
        && tell_missed(alloc, records, row.missed)?
        && tell_left(alloc, records, row.left)?;
    Ok(are_told)
}

impl Row for PathsRow {
    fn shows(&self) -> &'static str {
        self.shows
    }

    fn holds(&self, alloc: Global) -> Result<bool, Refused> {
        let records = records_of(alloc, self.records)?;
        Ok(tell(alloc, &records, self)?)
    }
}

#[test]
fn records_tell_of_the_files_outside(rt: HostRuntime) {
    check(&rt, rt.alloc(), &RUNS);
}
