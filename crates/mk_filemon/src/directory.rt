//! The directories of processes.
ghost use Rattle.std.specs.Prelude.{◌≡◌, ◌++◌, IfOk, OnOk};
ghost use Rattle.mk_filemon.specs.Log as spec;
ghost use Rattle.mk_filemon.specs.Held.{directories_in};

use indexmap::IndexMap;
use mk_bytes::{NoMemory, Text, clean_path, is_absolute};
use std::alloc::Global;

/// The directories of the processes that have one of their own, by the digits of their numbers. A
/// look-up takes about constant time.
#[derive(Drop)]
pub struct Directories {
    alloc: Global,
    directories: IndexMap<Vec<u8>, Text>,
}

impl Directories {
    pub fn new(alloc: Global) -> Directories
        ensures { directories_in result ≡ spec.no_directories }
    {
        Directories {
            alloc,
            directories: IndexMap::new(alloc),
        }
    }

    /// The directory of a process, which is `cwd` where it has none of its own.
    pub fn of<'d>(&'d self, process: &[u8], cwd: &'d [u8]) -> &'d [u8]
        ensures { result.now ≡ spec.directory_of cwd.now (directories_in self.now) process.now }
    {
        match self.directories.get(process) {
            Some(directory) => directory.bytes(),
            None => cwd,
        }
    }

    /// A process has this directory from now on.
    pub fn set(&mut self, process: &[u8], directory: Text) -> Result<(), NoMemory>
        ensures { OnOk result (directories_in self.new
            ≡ spec.with_directory (directories_in self.old) process.now directory) }
    {
        let process = Vec::from_slice(self.alloc, process)?;
        self.directories.insert(process, directory)?;
        Ok(())
    }
}

// A path against a directory.
fn against(alloc: Global, directory: &[u8], path: &[u8]) -> Result<Text, NoMemory>
    ensures { IfOk result (λ text. text ≡ spec.against directory.now path.now) }
{
    if is_absolute(path) {
        return Text::from_bytes(alloc, path);
    }
    let mut text = Text::from_bytes(alloc, directory)?;
    text.push_both(b"/", path).and(Ok(text))
}

/// A directory against another one, absolute and clean.
pub fn directory_from(alloc: Global, directory: &[u8], path: &[u8]) -> Result<Text, NoMemory>
    ensures { IfOk result (λ text. text ≡ spec.directory_from directory.now path.now) }
{
    let below_root = path_from(alloc, b"/", directory, path)?;
    let mut text = Text::from_bytes(alloc, b"/")?;
    text.push(below_root.bytes()).and(Ok(text))
}

/// A path against a directory, as it is named from `cwd`.
pub fn path_from(alloc: Global, cwd: &[u8], directory: &[u8], path: &[u8]) -> Result<Text, NoMemory>
    ensures { IfOk result (λ text. text ≡ spec.path_from cwd.now directory.now path.now) }
{
    let place = against(alloc, directory, path)?;
    clean_path(alloc, cwd, place.bytes())
}
