//! Meta files, as they are read.
use crate::refusal::{Refusal, tell, tell_error};
use crate::walk::meta_files;
use mk_bytes::{Items, Text, clean_path};
use mk_filemon::{Rec, Recs};
use mk_listing::Job;
use mk_meta::{Meta, read_meta};
use mk_world::Op;
use std::alloc::Global;
use std::os::unix::fs::MetadataExt;
use std::{fs, str};

const NANOSECONDS: u64 = 1_000_000_000;

/// The values of meta files, the jobs that they tell of, and whether each was read.
#[derive(Drop)]
pub struct Loaded {
    pub metas: Items<Meta>,
    pub jobs: Vec<Job>,
    pub is_whole: bool,
}

// When a file was changed last, in nanoseconds; 0 where that is not known.
fn time_of(rt: &HostRuntime, path: &str) -> u64 {
    let Ok(metadata) = fs::metadata(rt, path) else {
        return 0;
    };
    let (Ok(seconds), Ok(rest)) = (
        u64::try_from(metadata.mtime()),
        u64::try_from(metadata.mtime_nsec()),
    ) else {
        return 0;
    };
    seconds.saturating_mul(NANOSECONDS).saturating_add(rest)
}

// A path of a meta file, as it is named from another directory.
fn seen_path(alloc: Global, here: &[u8], cwd: &[u8], path: &Text) -> Result<Text, Refusal> {
    let mut whole = Text::new(alloc);
    if !path.bytes().starts_with(b"/") {
        whole.push_both(cwd, b"/")?;
    }
    whole.push(path.bytes())?;
    Ok(clean_path(alloc, here, whole.bytes())?)
}

fn seen_op(alloc: Global, here: &[u8], cwd: &[u8], op: &Op) -> Result<Op, Refusal> {
    Ok(match op {
        Op::Read(path) => Op::Read(seen_path(alloc, here, cwd, path)?),
        Op::Miss(path) => Op::Miss(seen_path(alloc, here, cwd, path)?),
        Op::Write(path) => Op::Write(seen_path(alloc, here, cwd, path)?),
        Op::Delete(path) => Op::Delete(seen_path(alloc, here, cwd, path)?),
        Op::Move(from, to) => {
            let from = seen_path(alloc, here, cwd, from)?;
            Op::Move(from, seen_path(alloc, here, cwd, to)?)
        }
    })
}

fn seen_records(alloc: Global, here: &[u8], cwd: &[u8], records: &Recs) -> Result<Recs, Refusal> {
    let mut seen = Items::new(alloc, 0)?;
    for one in records.as_slice() {
        seen.push(Rec {
            line: one.line,
            op: seen_op(alloc, here, cwd, &one.op)?,
        })?;
    }
    Ok(seen)
}

// A meta value whose paths are named from another directory than that of its commands.
fn seen_from(alloc: Global, here: &[u8], meta: Meta) -> Result<Meta, Refusal> {
    if meta.cwd.bytes() == here {
        return Ok(meta);
    }
    let target = seen_path(alloc, here, meta.cwd.bytes(), &meta.target)?;
    let records = match &meta.records {
        Some(records) => Some(seen_records(alloc, here, meta.cwd.bytes(), records)?),
        None => None,
    };
    Ok(Meta {
        stamp: meta.stamp,
        exports: meta.exports,
        lines: meta.lines,
        cwd: meta.cwd,
        target,
        output: meta.output,
        records,
    })
}

// Takes in one meta file.
fn take(
    rt: &HostRuntime,
    here: Option<&[u8]>,
    path: &str,
    loaded: &mut Loaded,
) -> Result<(), Refusal> {
    let bytes = match fs::read(rt, path) {
        Ok(bytes) => bytes,
        Err(error) => {
            tell_error(rt, path.as_bytes(), &error);
            loaded.is_whole = false;
            return Ok(());
        }
    };
    let Some(meta) = read_meta(rt.alloc(), bytes.as_slice())? else {
        tell(rt, path.as_bytes(), b"is no meta file, and is passed over");
        return Ok(());
    };
    let meta = match here {
        Some(here) => seen_from(rt.alloc(), here, meta)?,
        None => meta,
    };
    loaded.jobs.push(Job {
        target: meta.target.copy(rt.alloc())?,
        start: meta.stamp.0,
        end: time_of(rt, path).max(meta.stamp.0),
    })?;
    loaded.metas.push(meta)?;
    Ok(())
}

/// What the meta files below the current directory hold, in the order of their paths. Where a
/// directory is given, their paths are named from there. What cannot be read is told of, and what
/// is no meta file is told of and passed over.
pub fn load_all(rt: &HostRuntime, here: Option<&[u8]>) -> Result<Loaded, Refusal> {
    let walk = meta_files(rt)?;
    let mut loaded = Loaded {
        metas: Items::new(rt.alloc(), 0)?,
        jobs: Vec::new(rt.alloc()),
        is_whole: walk.is_whole,
    };
    for file in &walk.files {
        if let Ok(path) = str::from_utf8(file.as_slice()) {
            take(rt, here, path, &mut loaded)?;
        }
    }
    loaded.jobs.sort_by_key(|job| (job.start, job.end))?;
    Ok(loaded)
}
