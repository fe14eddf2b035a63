//! Which paths of records are looked at.
use crate::refused::Refused;
use crate::texts::{are, texts};
use mk_bytes::{Items, NoMemory, Texts};
use mk_filemon::{JobPaths, Recs, read_op};
use mk_oodate::looked_at;
use std::alloc::Global;

const RECORDS: [&[u8]; 7] = [
    b"R 1 ab",
    b"R 1 b",
    b"R 1 /w/x",
    b"N 1 x",
    b"N 1 ac",
    b"W 1 t",
    b"W 1 a",
];

/// The records of lines.
pub fn records_of(alloc: Global, lines: &[&[u8]]) -> Result<Recs, NoMemory> {
    let mut records = Items::new(alloc, 0)?;
    for line in lines {
        if let Some(one) = read_op(alloc, line)? {
            records.push(one)?;
        }
    }
    Ok(records)
}

// The beginnings of paths that are ignored.
fn ignored(alloc: Global) -> Result<Texts, NoMemory> {
    texts(alloc, &[b"a", b"/w/x"])
}

fn are_those(paths: &JobPaths) -> bool {
    are(&paths.found, &[b"b"]) && are(&paths.missed, &[b"x"]) && are(&paths.left, &[b"t"])
}

fn looks(alloc: Global) -> Result<bool, NoMemory> {
    let records = records_of(alloc, &RECORDS)?;
    let ignored = ignored(alloc)?;
    let paths = looked_at(alloc, &ignored, &records)?;
    Ok(are_those(&paths))
}

#[test]
fn ignored_paths_are_not_looked_at(rt: HostRuntime) -> Result<(), Refused> {
    assert!(rt; looks(rt.alloc())?);
    Ok(())
}
