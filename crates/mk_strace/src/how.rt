//! How files are opened.
ghost use Rattle.std.specs.Prelude.{◌≡◌};
ghost use Rattle.mk_strace.specs.Opens as spec;

use crate::scan::has;

/// What opening a file does to it.
#[derive(Clone, Copy)]
pub enum How {
    /// Nothing is read or written by it.
    Passes,
    /// It is a directory.
    Folder,
    /// What stood there before does not matter.
    Makes,
    /// It is read and written where it was there, and else made.
    Updates,
    /// It is written, and not read; its old bytes may stay where it was there.
    Overwrites,
    /// It is read, or made where it was not there.
    ReadsOrMakes,
    Reads,
}

fn is_folder(flags: &[u8]) -> bool
    ensures { result ≡ spec.is_folder flags.now }
{
    has(b"O_DIRECTORY", flags) || has(b"O_TMPFILE", flags)
}

// Whether nothing of an old file stays: it is cut, or there is none.
fn is_new(flags: &[u8]) -> bool
    ensures { result ≡ spec.is_new flags.now }
{
    has(b"O_TRUNC", flags) || has(b"O_CREAT", flags) && has(b"O_EXCL", flags)
}

// Whether it is opened as touch(1) of GNU does, only for a new time.
fn is_touched(flags: &[u8]) -> bool
    ensures { result ≡ spec.is_touched flags.now }
{
    has(b"O_WRONLY", flags) && has(b"O_NONBLOCK", flags) && !has(b"O_APPEND", flags)
}

/// What opening a file with these flags does to it.
pub fn how_of(flags: &[u8]) -> How
    ensures { result ≡ spec.how_of flags.now }
{
    if has(b"O_PATH", flags) {
        How::Passes
    } else if is_folder(flags) {
        How::Folder
    } else if is_new(flags) || is_touched(flags) {
        How::Makes
    } else if has(b"O_RDWR", flags) {
        How::Updates
    } else if has(b"O_WRONLY", flags) {
        How::Overwrites
    } else if has(b"O_CREAT", flags) {
        How::ReadsOrMakes
    } else {
        How::Reads
    }
}

/// What a look finds.
#[derive(Clone, Copy)]
pub enum Sort {
    File,
    Folder,
    /// Something else, or it is not shown.
    Other,
}

/// What a look found, by the words behind its path.
pub fn sort_in(words: &[u8]) -> Sort
    ensures { result ≡ spec.sort_in words.now }
{
    if has(b"_mode=S_IFREG", words) {
        Sort::File
    } else if has(b"_mode=S_IFDIR", words) {
        Sort::Folder
    } else {
        Sort::Other
    }
}
