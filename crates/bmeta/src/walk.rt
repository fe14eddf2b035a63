//! The meta files below the current directory.
use crate::refusal::{Refusal, tell_error};
use std::fs::DirEntry;
use std::{fs, str};

/// The paths of meta files, in the order of their bytes, and whether each directory was read.
#[derive(Drop)]
pub struct Walk {
    pub files: Vec<Vec<u8>>,
    pub is_whole: bool,
}

// The path of a name in a directory, which is empty for the current one.
fn path_in(rt: &HostRuntime, directory: &[u8], name: &[u8]) -> Result<Vec<u8>, Refusal> {
    let mut path = Vec::new(rt.alloc());
    if !directory.is_empty() {
        path.extend_from_slice(directory)?;
        path.extend_from_slice(b"/")?;
    }
    path.extend_from_slice(name)?;
    Ok(path)
}

// Takes in what stands in a directory: a directory is gone through later, but for one behind a
// link.
fn take(
    rt: &HostRuntime,
    directory: &[u8],
    entry: &DirEntry,
    walk: &mut Walk,
    left: &mut Vec<Vec<u8>>,
) -> Result<(), Refusal> {
    let name = entry.file_name().as_bytes();
    let path = path_in(rt, directory, name)?;
    match entry.file_type() {
        Ok(kind) if kind.is_dir() => left.push(path)?,
        Ok(_) if name.ends_with(b".meta") => walk.files.push(path)?,
        Ok(_) => {}
        Err(error) => {
            tell_error(rt, path.as_slice(), &error);
            walk.is_whole = false;
        }
    }
    Ok(())
}

// Takes in all that stands in a directory.
fn take_all(
    rt: &HostRuntime,
    directory: &[u8],
    walk: &mut Walk,
    left: &mut Vec<Vec<u8>>,
) -> Result<(), Refusal> {
    let shown = if directory.is_empty() {
        b".".as_slice()
    } else {
        directory
    };
    let Ok(path) = str::from_utf8(shown) else {
        return Ok(());
    };
    let entries = match fs::read_dir(rt, path) {
        Ok(entries) => entries,
        Err(error) => {
            tell_error(rt, shown, &error);
            walk.is_whole = false;
            return Ok(());
        }
    };
    for entry in entries {
        match entry {
            Ok(entry) => take(rt, directory, &entry, walk, left)?,
            Err(error) => {
                tell_error(rt, shown, &error);
                walk.is_whole = false;
            }
        }
    }
    Ok(())
}

/// The files below the current directory that end in `.meta`. What cannot be read is told of.
pub fn meta_files(rt: &HostRuntime) -> Result<Walk, Refusal> {
    let mut walk = Walk {
        files: Vec::new(rt.alloc()),
        is_whole: true,
    };
    let mut left = Vec::new(rt.alloc());
    left.push(Vec::new(rt.alloc()))?;
    for _ in 0..u64::MAX {
        let Some(directory) = left.pop() else {
            break;
        };
        take_all(rt, directory.as_slice(), &mut walk, &mut left)?;
    }
    walk.files.sort()?;
    Ok(walk)
}
