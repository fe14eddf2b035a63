//! Why targets are out of date. The task of a row is written as a meta file too; each of its lines
//! is compared but those that begin with `any`.
use crate::refused::Refused;
use crate::rows::{Row, check};
use mk_bytes::{Items, NoMemory};
use mk_meta::read_meta;
use mk_oodate::{Age, Ages, NodeMode, Times, Whens, Why, stale};
use mk_world::{Lines, Task, TaskLine, Time, When};
use std::alloc::Global;

const JOB: &[u8] =
    b"# Meta data file t.meta\nSTAMP 4\nCMD cat t a\nCMD any 1\nCWD /w\nENV V=1\nTARGET t\nOUTPUT 0\n-- command output --\n\n-- filemon acquired metadata --\n# end 3\n";

const NO_RECORDS: &[u8] =
    b"# Meta data file t.meta\nSTAMP 4\nCMD cat t a\nCMD any 1\nCWD /w\nENV V=1\nTARGET t\nOUTPUT 0\n-- command output --\n\n# end 3\n";

const OTHER_TARGET: &[u8] =
    b"# Meta data file u.meta\nSTAMP 4\nCMD cat t a\nCMD any 1\nCWD /w\nENV V=1\nTARGET u\nOUTPUT 0\n-- command output --\n\n-- filemon acquired metadata --\n# end 3\n";

const OTHER_TEXT: &[u8] =
    b"# Meta data file t.meta\nSTAMP 4\nCMD cat t b\nCMD any 1\nCWD /w\nENV V=1\nTARGET t\nOUTPUT 0\n-- command output --\n\n-- filemon acquired metadata --\n# end 3\n";

const IGNORED: &[u8] =
    b"# Meta data file t.meta\nSTAMP 4\nCMD -cat t a\nCMD any 1\nCWD /w\nENV V=1\nTARGET t\nOUTPUT 0\n-- command output --\n\n-- filemon acquired metadata --\n# end 3\n";

const NOT_COMPARED: &[u8] =
    b"# Meta data file t.meta\nSTAMP 4\nCMD cat t a\nCMD -any 2\nCWD /w\nENV V=1\nTARGET t\nOUTPUT 0\n-- command output --\n\n-- filemon acquired metadata --\n# end 3\n";

const FEWER_LINES: &[u8] =
    b"# Meta data file t.meta\nSTAMP 4\nCMD cat t a\nCWD /w\nENV V=1\nTARGET t\nOUTPUT 0\n-- command output --\n\n-- filemon acquired metadata --\n# end 3\n";

const OTHER_DIRECTORY: &[u8] =
    b"# Meta data file t.meta\nSTAMP 4\nCMD cat t a\nCMD any 1\nCWD /v\nENV V=1\nTARGET t\nOUTPUT 0\n-- command output --\n\n-- filemon acquired metadata --\n# end 3\n";

const OTHER_EXPORT: &[u8] =
    b"# Meta data file t.meta\nSTAMP 4\nCMD cat t a\nCMD any 1\nCWD /w\nENV V=2\nTARGET t\nOUTPUT 0\n-- command output --\n\n-- filemon acquired metadata --\n# end 3\n";

const NONE: &[u8] = b"";

const META: NodeMode = NodeMode {
    always: false,
    meta: true,
    missing_meta: true,
    missing_filemon: true,
    nofilemon: false,
    ignore_cmd: false,
    count_only: false,
};

const ALWAYS: NodeMode = NodeMode {
    always: true,
    ..META
};

const BY_TIMES: NodeMode = NodeMode {
    meta: false,
    ..META
};

const MAY_BE_MISSING: NodeMode = NodeMode {
    missing_meta: false,
    missing_filemon: false,
    ..META
};

const NO_FILEMON: NodeMode = NodeMode {
    nofilemon: true,
    ..META
};

const IGNORE_CMD: NodeMode = NodeMode {
    ignore_cmd: true,
    ..META
};

const COUNT_ONLY: NodeMode = NodeMode {
    count_only: true,
    ..META
};

struct ReasonRow {
    shows: &'static str,
    mode: NodeMode,
    // The text of the meta file; an empty one is none.
    meta: &'static [u8],
    target: When,
    meta_time: When,
    // The ages of the sources, and the times of what was read, missed and left written, in order.
    sources: &'static [Age],
    reads: &'static [When],
    misses: &'static [When],
    left: &'static [When],
    wanted: Option<Why>,
}

const AT_2: When = When::At(Time(2));

const AT_3: When = When::At(Time(3));

const AT_4: When = When::At(Time(4));

const AT_5: When = When::At(Time(5));

const AT_9: When = When::At(Time(9));

// A job that began at 4 made the target at 5 and its meta file at 6; nothing has changed since.
const SAME: ReasonRow = ReasonRow {
    shows: "nothing changed",
    mode: META,
    meta: JOB,
    target: AT_5,
    meta_time: When::At(Time(6)),
    sources: &[Age::Old, Age::At(Time(3))],
    reads: &[AT_3, AT_2],
    misses: &[When::Missing, When::Missing],
    left: &[AT_5, AT_5],
    wanted: None,
};

const ROWS: [ReasonRow; 33] = [
    ReasonRow {
        shows: "nothing changed",
        ..SAME
    },
    ReasonRow {
        shows: "a node that is always made",
        mode: ALWAYS,
        wanted: Some(Why::Always),
        ..SAME
    },
    ReasonRow {
        shows: "its file is missing, and a source is new",
        target: When::Missing,
        sources: &[Age::New],
        wanted: Some(Why::Missing),
        ..SAME
    },
    ReasonRow {
        shows: "a source is new",
        sources: &[Age::At(Time(3)), Age::New, Age::New],
        wanted: Some(Why::Newer(1)),
        ..SAME
    },
    ReasonRow {
        shows: "a source is newer, and there is no meta file",
        meta: NONE,
        sources: &[Age::At(Time(6)), Age::Old],
        wanted: Some(Why::Newer(0)),
        ..SAME
    },
    ReasonRow {
        shows: "a source of the same time",
        sources: &[Age::At(Time(5)), Age::At(Time(5))],
        ..SAME
    },
    ReasonRow {
        shows: "a source that is older than all",
        sources: &[Age::Old],
        ..SAME
    },
    ReasonRow {
        shows: "no meta file",
        meta: NONE,
        wanted: Some(Why::NoMeta),
        ..SAME
    },
    ReasonRow {
        shows: "the meta file of another target",
        meta: OTHER_TARGET,
        wanted: Some(Why::NoMeta),
        ..SAME
    },
    ReasonRow {
        shows: "no meta file, where it may be missing",
        mode: MAY_BE_MISSING,
        meta: NONE,
        reads: &[When::Missing],
        ..SAME
    },
    ReasonRow {
        shows: "no meta file, by times",
        mode: BY_TIMES,
        meta: NONE,
        ..SAME
    },
    ReasonRow {
        shows: "touched, and another command",
        meta: OTHER_TEXT,
        meta_time: When::At(Time(5)),
        wanted: Some(Why::Touched),
        ..SAME
    },
    ReasonRow {
        shows: "times that are not known",
        target: When::Unknown,
        meta_time: When::Unknown,
        wanted: Some(Why::Touched),
        ..SAME
    },
    ReasonRow {
        shows: "a meta file of unknown time",
        meta_time: When::Unknown,
        ..SAME
    },
    ReasonRow {
        shows: "another command, and a changed read",
        meta: OTHER_TEXT,
        reads: &[AT_9],
        wanted: Some(Why::Command),
        ..SAME
    },
    ReasonRow {
        shows: "an ignored line",
        meta: IGNORED,
        wanted: Some(Why::Command),
        ..SAME
    },
    ReasonRow {
        shows: "a line that is not compared",
        meta: NOT_COMPARED,
        ..SAME
    },
    ReasonRow {
        shows: "fewer lines",
        meta: FEWER_LINES,
        wanted: Some(Why::Command),
        ..SAME
    },
    ReasonRow {
        shows: "another directory",
        meta: OTHER_DIRECTORY,
        wanted: Some(Why::Command),
        ..SAME
    },
    ReasonRow {
        shows: "another directory, where the number counts",
        mode: COUNT_ONLY,
        meta: OTHER_DIRECTORY,
        ..SAME
    },
    ReasonRow {
        shows: "another text, where the number counts",
        mode: COUNT_ONLY,
        meta: OTHER_TEXT,
        ..SAME
    },
    ReasonRow {
        shows: "fewer lines, where the number counts",
        mode: COUNT_ONLY,
        meta: FEWER_LINES,
        wanted: Some(Why::Command),
        ..SAME
    },
    ReasonRow {
        shows: "another export, where the number counts",
        mode: COUNT_ONLY,
        meta: OTHER_EXPORT,
        wanted: Some(Why::Command),
        ..SAME
    },
    ReasonRow {
        shows: "commands that do not count",
        mode: IGNORE_CMD,
        meta: OTHER_EXPORT,
        ..SAME
    },
    ReasonRow {
        shows: "another command without records",
        mode: NO_FILEMON,
        meta: OTHER_TEXT,
        wanted: Some(Why::Command),
        ..SAME
    },
    ReasonRow {
        shows: "no records",
        meta: NO_RECORDS,
        wanted: Some(Why::NoRecords),
        ..SAME
    },
    ReasonRow {
        shows: "no records, where they may be missing",
        mode: MAY_BE_MISSING,
        meta: NO_RECORDS,
        reads: &[When::Missing],
        ..SAME
    },
    ReasonRow {
        shows: "records that do not count",
        mode: NO_FILEMON,
        reads: &[When::Missing],
        misses: &[AT_2],
        left: &[When::Missing],
        ..SAME
    },
    ReasonRow {
        shows: "a read at the stamp, and a file that appeared",
        reads: &[AT_3, AT_4, AT_4],
        misses: &[AT_2],
        wanted: Some(Why::Read(1)),
        ..SAME
    },
    ReasonRow {
        shows: "a read that is missing",
        reads: &[When::Missing, AT_9],
        wanted: Some(Why::Read(0)),
        ..SAME
    },
    ReasonRow {
        shows: "a read of unknown time",
        reads: &[AT_3, AT_2, When::Unknown],
        wanted: Some(Why::Read(2)),
        ..SAME
    },
    ReasonRow {
        shows: "a file that appeared, and a lost one",
        misses: &[When::Missing, AT_2],
        left: &[When::Missing],
        wanted: Some(Why::Appeared(1)),
        ..SAME
    },
    ReasonRow {
        shows: "a lost file",
        left: &[AT_5, When::Missing, When::Missing],
        wanted: Some(Why::Left(1)),
        ..SAME
    },
];

// The task of a job, where the meta file of its lines is given.
fn task_of(alloc: Global) -> Result<Option<Task>, NoMemory> {
    let Some(meta) = read_meta(alloc, JOB)? else {
        return Ok(None);
    };
    match compared(alloc, &meta.lines) {
        Ok(lines) => Ok(Some(Task {
            lines,
            cwd: meta.cwd,
            target: meta.target,
            exports: meta.exports,
        })),
        Err(fault) => {
            drop(meta);
            Err(fault)
        }
    }
}

fn compared(alloc: Global, lines: &Lines) -> Result<Lines, NoMemory> {
    let mut all = Items::new(alloc, 0)?;
    for line in lines.as_slice() {
        all.push(TaskLine {
            text: line.text.copy(alloc)?,
            ignore: line.ignore,
            silent: false,
            always: false,
            compared: !line.text.bytes().starts_with(b"any"),
        })?;
    }
    Ok(all)
}

fn whens(alloc: Global, all: &[When]) -> Result<Whens, NoMemory> {
    let mut whens = Items::new(alloc, all.len())?;
    for when in all {
        whens.push(*when)?;
    }
    Ok(whens)
}

fn ages(alloc: Global, all: &[Age]) -> Result<Ages, NoMemory> {
    let mut ages = Items::new(alloc, all.len())?;
    for age in all {
        ages.push(*age)?;
    }
    Ok(ages)
}

fn times_of(alloc: Global, row: &ReasonRow) -> Result<Times, NoMemory> {
    Ok(Times {
        target: row.target,
        meta: row.meta_time,
        sources: ages(alloc, row.sources)?,
        reads: whens(alloc, row.reads)?,
        misses: whens(alloc, row.misses)?,
        left: whens(alloc, row.left)?,
    })
}

fn why_by(alloc: Global, row: &ReasonRow, task: &Task) -> Result<Option<Why>, NoMemory> {
    let times = times_of(alloc, row)?;
    let why = why_at(alloc, row, task, &times);
    drop(times);
    why
}

// The reason by these times.
fn why_at(
    alloc: Global,
    row: &ReasonRow,
    task: &Task,
    times: &Times,
) -> Result<Option<Why>, NoMemory> {
    let meta = read_meta(alloc, row.meta)?;
    let why = stale(meta.as_ref(), task, &row.mode, times);
    drop(meta);
    Ok(why)
}

impl Row for ReasonRow {
    fn shows(&self) -> &'static str {
        self.shows
    }

    fn holds(&self, alloc: Global) -> Result<bool, Refused> {
        match task_of(alloc)? {
            Some(task) => {
                let why = why_by(alloc, self, &task);
                drop(task);
                Ok(why? == self.wanted)
            }
            None => Ok(false),
        }
    }
}

#[test]
fn the_first_reason_is_given(rt: HostRuntime) {
    check(&rt, rt.alloc(), &ROWS);
}
