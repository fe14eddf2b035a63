//! Single files, by their paths.
use crate::refusal::Refusal;
use mk_bytes::Text;
use std::fs::{Files, OpenOptions};
use std::io::{ErrorKind, Read, Seek, SeekFrom, Write};
use std::{fs, str};

/// What stands at a path.
#[derive(Clone, Copy)]
pub enum Stand {
    File,
    Folder,
    /// A device, a pipe or a socket.
    Other,
    Missing,
    /// The system does not tell.
    Unknown,
}

/// What stands at a path, behind symbolic links.
pub fn stands_at<R: Files>(rt: &R, path: &[u8]) -> Stand {
    let Ok(path) = str::from_utf8(path) else {
        return Stand::Unknown;
    };
    match fs::metadata(rt, path) {
        Ok(metadata) if metadata.is_file() => Stand::File,
        Ok(metadata) if metadata.is_dir() => Stand::Folder,
        Ok(_) => Stand::Other,
        Err(error) => {
            if error.kind() == ErrorKind::NotFound || error.kind() == ErrorKind::NotADirectory {
                Stand::Missing
            } else {
                Stand::Unknown
            }
        }
    }
}

/// The bytes of a file; none where it cannot be read.
pub fn bytes_of<R: Files + AllocGlobal>(rt: &R, path: &[u8]) -> Result<Option<Text>, Refusal> {
    let Ok(path) = str::from_utf8(path) else {
        return Ok(None);
    };
    match fs::read(rt, path) {
        Ok(bytes) => Ok(Some(Text::from_bytes(rt.alloc(), bytes.as_slice())?)),
        Err(error) if error.kind() == ErrorKind::OutOfMemory => Err(Refusal::NoMemory),
        Err(_) => Ok(None),
    }
}

/// The bytes of a file behind its first ones; none where it cannot be read.
pub fn bytes_from<R: Files + AllocGlobal>(
    rt: &R,
    path: &[u8],
    first: u64,
) -> Result<Option<Text>, Refusal> {
    let Ok(path) = str::from_utf8(path) else {
        return Ok(None);
    };
    let Ok(mut file) = fs::open(rt, path) else {
        return Ok(None);
    };
    if file.seek(SeekFrom::Start(first)).is_err() {
        return Ok(None);
    }
    let mut bytes = Vec::new(rt.alloc());
    match file.read_to_end(&mut bytes) {
        Ok(_) => Ok(Some(Text::from_bytes(rt.alloc(), bytes.as_slice())?)),
        Err(error) if error.kind() == ErrorKind::OutOfMemory => Err(Refusal::NoMemory),
        Err(_) => Ok(None),
    }
}

/// The first bytes of a file, as far as one call of the system gives them; none where it cannot be
/// read.
pub fn head_of<'b, R: Files>(rt: &R, path: &[u8], buffer: &'b mut [u8]) -> &'b [u8] {
    let Ok(path) = str::from_utf8(path) else {
        return b"";
    };
    let Ok(mut file) = fs::open(rt, path) else {
        return b"";
    };
    match file.read(buffer) {
        Ok(count) if count <= buffer.len() => &buffer[..count],
        _ => b"",
    }
}

/// How long a file is.
pub fn length_of<R: Files>(rt: &R, path: &[u8]) -> u64 {
    let Ok(path) = str::from_utf8(path) else {
        return 0;
    };
    match fs::metadata(rt, path) {
        Ok(metadata) => metadata.len(),
        Err(_) => 0,
    }
}

/// Appends a text to a file at once; it is made where it is missing.
pub fn append<R: Files + AllocGlobal>(rt: &R, path: &[u8], text: &[u8]) -> Result<(), Refusal> {
    let Ok(name) = str::from_utf8(path) else {
        return Err(Refusal::at(rt.alloc(), path, b"cannot be opened", 127));
    };
    let mut options = OpenOptions::new();
    options.append(true).create(true);
    let Ok(mut file) = options.open(rt, name) else {
        return Err(Refusal::at(rt.alloc(), path, b"cannot be opened", 127));
    };
    match file.write_all(text) {
        Ok(()) => Ok(()),
        Err(_) => Err(Refusal::at(rt.alloc(), path, b"cannot be written", 127)),
    }
}

/// Removes a file, if it is there.
pub fn remove<R: Files>(rt: &R, path: &[u8]) {
    if let Ok(path) = str::from_utf8(path) {
        let _ = fs::remove_file(rt, path);
    }
}
