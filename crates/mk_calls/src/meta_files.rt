//! Meta files, read and written.
use crate::looks::records_of;
use crate::refused::Refused;
use crate::rows::{Row, check};
use mk_bytes::{Items, NoMemory, Text};
use mk_filemon::Recs;
use mk_meta::{Meta, head, read_meta, write_meta};
use mk_world::{Lines, SharedPairs, TaskLine, Time};
use std::alloc::Global;

const SAMPLE: &[u8] =
    b"# Meta data file t.meta\nSTAMP 4\nCMD cat t a b\nCWD /w\nTARGET t\nOUTPUT 0\n-- command output --\n\n-- filemon acquired metadata --\nR 1 a\nR 1 b\nW 1 t\n# end 3\n";

// What a row shows, a text, and whether it is a meta file.
struct TextRow(&'static str, &'static [u8], bool);

impl Row for TextRow {
    fn shows(&self) -> &'static str {
        self.0
    }

    fn holds(&self, alloc: Global) -> Result<bool, Refused> {
        let found = again(alloc, self.1)?;
        Ok(is_again(&found, self.1, self.2))
    }
}

const TEXTS: [TextRow; 24] = [
    TextRow("one job", SAMPLE, true),
    TextRow(
        "no lines, no records, and a large stamp",
        b"# Meta data file .meta\nSTAMP 18446744073709551615\nCWD d/..\nTARGET \nOUTPUT 0\n-- command output --\n\n# end 3\n",
        true,
    ),
    TextRow(
        "an ignored line, an empty one, and a text with a sign inside",
        b"# Meta data file t.meta\nSTAMP 4\nCMD -fail 1\nCMD \nCMD a - @\nCWD /w\nTARGET t\nOUTPUT 0\n-- command output --\n\n# end 3\n",
        true,
    ),
    TextRow(
        "escapes and exports",
        b"# Meta data file a\\\\\\n.meta\nSTAMP 0\nCWD /w\nENV A=\\n=\nENV _b=\nTARGET a\\\\\\n\nOUTPUT 0\n-- command output --\n\n# end 3\n",
        true,
    ),
    TextRow(
        "output as it is, and no records, none in number",
        b"# Meta data file t.meta\nSTAMP 4\nCWD /w\nTARGET t\nOUTPUT 9\n-- command output --\n# end 3\n\\\n-- filemon acquired metadata --\n# end 3\n",
        true,
    ),
    TextRow(
        "an older last line",
        b"# Meta data file t.meta\nSTAMP 4\nCWD /w\nTARGET t\nOUTPUT 0\n-- command output --\n\n# end\n",
        false,
    ),
    TextRow(
        "a last line of the form before",
        b"# Meta data file t.meta\nSTAMP 4\nCWD /w\nTARGET t\nOUTPUT 0\n-- command output --\n\n# end 2\n",
        false,
    ),
    TextRow(
        "a byte behind the last line",
        b"# Meta data file t.meta\nSTAMP 4\nCWD /w\nTARGET t\nOUTPUT 0\n-- command output --\n\n# end 3\n\n",
        false,
    ),
    TextRow(
        "a stamp that is too large",
        b"# Meta data file t.meta\nSTAMP 18446744073709551616\nCWD /w\nTARGET t\nOUTPUT 0\n-- command output --\n\n# end 3\n",
        false,
    ),
    TextRow(
        "a leading zero",
        b"# Meta data file t.meta\nSTAMP 04\nCWD /w\nTARGET t\nOUTPUT 0\n-- command output --\n\n# end 3\n",
        false,
    ),
    TextRow(
        "another target in the first line",
        b"# Meta data file u.meta\nSTAMP 4\nCWD /w\nTARGET t\nOUTPUT 0\n-- command output --\n\n# end 3\n",
        false,
    ),
    TextRow(
        "a command with a blank before it",
        b"# Meta data file t.meta\nSTAMP 4\nCMD  a\nCWD /w\nTARGET t\nOUTPUT 0\n-- command output --\n\n# end 3\n",
        false,
    ),
    TextRow(
        "a command with a sign before it",
        b"# Meta data file t.meta\nSTAMP 4\nCMD @a\nCWD /w\nTARGET t\nOUTPUT 0\n-- command output --\n\n# end 3\n",
        false,
    ),
    TextRow(
        "two signs",
        b"# Meta data file t.meta\nSTAMP 4\nCMD --a\nCWD /w\nTARGET t\nOUTPUT 0\n-- command output --\n\n# end 3\n",
        false,
    ),
    TextRow(
        "another escape",
        b"# Meta data file t.meta\nSTAMP 4\nCMD \\a\nCWD /w\nTARGET t\nOUTPUT 0\n-- command output --\n\n# end 3\n",
        false,
    ),
    TextRow(
        "exports that are not sorted",
        b"# Meta data file t.meta\nSTAMP 4\nCWD /w\nENV b=\nENV a=\nTARGET t\nOUTPUT 0\n-- command output --\n\n# end 3\n",
        false,
    ),
    TextRow(
        "an export that stands twice",
        b"# Meta data file t.meta\nSTAMP 4\nCWD /w\nENV a=\nENV a=\nTARGET t\nOUTPUT 0\n-- command output --\n\n# end 3\n",
        false,
    ),
    TextRow(
        "an export that begins with a digit",
        b"# Meta data file t.meta\nSTAMP 4\nCWD /w\nENV 1=\nTARGET t\nOUTPUT 0\n-- command output --\n\n# end 3\n",
        false,
    ),
    TextRow(
        "an export without a name",
        b"# Meta data file t.meta\nSTAMP 4\nCWD /w\nENV =\nTARGET t\nOUTPUT 0\n-- command output --\n\n# end 3\n",
        false,
    ),
    TextRow(
        "output that is longer",
        b"# Meta data file t.meta\nSTAMP 4\nCWD /w\nTARGET t\nOUTPUT 1\n-- command output --\nab\n# end 3\n",
        false,
    ),
    TextRow(
        "output that ends early",
        b"# Meta data file t.meta\nSTAMP 4\nCWD /w\nTARGET t\nOUTPUT 99\n-- command output --\nab\n# end 3\n",
        false,
    ),
    TextRow(
        "a record of a line that is not there",
        b"# Meta data file t.meta\nSTAMP 4\nCMD a\nCWD /w\nTARGET t\nOUTPUT 0\n-- command output --\n\n-- filemon acquired metadata --\nR 2 a\n# end 3\n",
        false,
    ),
    TextRow(
        "a record of line 0",
        b"# Meta data file t.meta\nSTAMP 4\nCMD a\nCWD /w\nTARGET t\nOUTPUT 0\n-- command output --\n\n-- filemon acquired metadata --\nR 0 a\n# end 3\n",
        false,
    ),
    TextRow(
        "records without their marker",
        b"# Meta data file t.meta\nSTAMP 4\nCMD a\nCWD /w\nTARGET t\nOUTPUT 0\n-- command output --\n\nR 1 a\n# end 3\n",
        false,
    ),
];

// What is read of a text, written again; nothing where it is no meta file.
fn again(alloc: Global, text: &[u8]) -> Result<Option<Text>, NoMemory> {
    match read_meta(alloc, text)? {
        Some(meta) => {
            let text = write_meta(alloc, &meta);
            drop(meta);
            Ok(Some(text?))
        }
        None => Ok(None),
    }
}

fn is_again(found: &Option<Text>, text: &[u8], meta_file: bool) -> bool {
    match found {
        Some(again) => meta_file && again.bytes() == text,
        None => !meta_file,
    }
}

#[test]
fn meta_files_have_one_spelling(rt: HostRuntime) {
    check(&rt, rt.alloc(), &TEXTS);
}

fn is_meta(alloc: Global, text: &[u8]) -> Result<bool, NoMemory> {
    let meta = read_meta(alloc, text)?;
    let is_some = meta.is_some();
    drop(meta);
    Ok(is_some)
}

// The length of the first beginning of the sample that is a meta file.
fn first_beginning(alloc: Global) -> Result<Option<usize>, NoMemory> {
    for len in 0..SAMPLE.len() {
        if is_meta(alloc, &SAMPLE[..len])? {
            return Ok(Some(len));
        }
    }
    Ok(None)
}

#[test]
fn no_beginning_of_a_meta_file_is_one(rt: HostRuntime) -> Result<(), Refused> {
    assert_eq!(rt; first_beginning(rt.alloc())?, None);
    Ok(())
}

#[test]
fn a_head_is_the_first_line(rt: HostRuntime) -> Result<(), Refused> {
    let text = head(rt.alloc(), b"a\n.o")?;
    assert_eq!(rt; text.bytes(), b"# Meta data file a\\n.o.meta\n".as_slice());
    Ok(())
}

fn one_line(alloc: Global, text: &[u8]) -> Result<Lines, NoMemory> {
    let mut lines = Items::new(alloc, 1)?;
    lines.push(TaskLine {
        text: Text::from_bytes(alloc, text)?,
        ignore: false,
        silent: false,
        always: false,
        compared: false,
    })?;
    Ok(lines)
}

// What the sample tells, where it stood in this directory.
fn job_in(alloc: Global, cwd: Text) -> Result<Meta, NoMemory> {
    let target = Text::from_bytes(alloc, b"t")?;
    let exports = SharedPairs::new(alloc, Items::new(alloc, 0)?)?;
    let lines = one_line(alloc, b"cat t a b")?;
    let records = records_of(alloc, &[b"R 1 a", b"R 1 b", b"W 1 t"])?;
    Ok(Meta {
        stamp: Time(4),
        exports,
        lines,
        cwd,
        target,
        output: Text::new(alloc),
        records: Some(records),
    })
}

fn job(alloc: Global) -> Result<Meta, NoMemory> {
    let cwd = Text::from_bytes(alloc, b"/w")?;
    job_in(alloc, cwd)
}

#[test]
fn a_job_is_written(rt: HostRuntime) -> Result<(), Refused> {
    let job = job(rt.alloc())?;
    let text = write_meta(rt.alloc(), &job);
    drop(job);
    assert_eq!(rt; text?.bytes(), SAMPLE);
    Ok(())
}

fn has_three(records: &Option<Recs>) -> bool {
    match records {
        Some(records) => records.len() == 3,
        None => false,
    }
}

fn is_that_job(meta: &Meta) -> bool {
    meta.stamp == Time(4)
        && meta.exports.as_slice().is_empty()
        && meta.lines.len() == 1
        && meta.cwd.bytes() == b"/w".as_slice()
        && meta.target.bytes() == b"t".as_slice()
        && meta.output.is_empty()
        && has_three(&meta.records)
}

fn is_job(meta: &Option<Meta>) -> bool {
    match meta {
        Some(meta) => is_that_job(meta),
        None => false,
    }
}

#[test]
fn a_job_is_read(rt: HostRuntime) -> Result<(), Refused> {
    let meta = read_meta(rt.alloc(), SAMPLE)?;
    let is_job = is_job(&meta);
    drop(meta);
    assert!(rt; is_job);
    Ok(())
}
