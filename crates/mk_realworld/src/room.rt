//! The directory in which the logs of children stand.
use crate::named::Named;
use crate::refusal::{Reason, Refusal};
use itoa::Buffer;
use mk_bytes::{NoMemory, Text};
use std::alloc::Global;
use std::fs::{DirBuilder, File, Files, OpenOptions};
use std::io::ErrorKind;
use std::os::unix::fs::{DirBuilderExt, MetadataExt};
use std::{fs, str};

// How many names are tried.
const NAMES: u32 = 10_000;

// Nobody else reads what commands leave there.
const OWNER_ALONE: u32 = 0o700;

// The file that the make whose directory it is keeps locked.
const LOCK: &[u8] = b"/lock";

// What the name of each such directory begins with.
const PREFIX: &str = "bmake.";

/// Where the directory is made: below a directory for temporary files, with a name of its own.
#[derive(Drop)]
pub struct Place {
    pub above: Text,
    pub name: Text,
}

// A directory that stands, and its locked file.
#[derive(Drop)]
struct Made {
    path: Text,
    lock: File,
}

/// A directory that is made before the first child of several, and removed behind the last.
#[derive(Drop)]
pub struct Room {
    place: Place,
    made: Option<Made>,
}

// Makes a directory, and tells whether it did: not where something stands there.
fn make_at<R: Files>(rt: &R, path: &[u8]) -> Result<bool, Refusal> {
    let mut builder = DirBuilder::new();
    builder.mode(OWNER_ALONE);
    match builder.create(rt, str::from_utf8(path)?) {
        Ok(()) => Ok(true),
        Err(error) if error.kind() == ErrorKind::AlreadyExists => Ok(false),
        Err(error) => Err(Refusal::from(error)),
    }
}

fn lock_in(alloc: Global, directory: &[u8]) -> Result<Text, NoMemory> {
    let mut path = Text::from_bytes(alloc, directory)?;
    path.push(LOCK)?;
    Ok(path)
}

// Makes the file of a directory that is locked as long as its make runs; `None` where another make
// has taken the directory for one that is left behind.
fn locked<R: Files<File = File> + AllocGlobal>(
    rt: &R,
    directory: &[u8],
) -> Result<Option<File>, Refusal> {
    let path = lock_in(rt.alloc(), directory)?;
    let path = str::from_utf8(path.bytes())?;
    let mut options = OpenOptions::new();
    let Ok(file) = options.write(true).create(true).open(rt, path) else {
        return Ok(None);
    };
    if file.try_lock().is_err() || fs::metadata(rt, path).is_err() {
        return Ok(None);
    }
    Ok(Some(file))
}

// The path of a directory that is left behind, where its make is gone: nobody has its file locked.
fn is_left_behind<R: Files<File = File> + AllocGlobal>(
    rt: &R,
    path: &str,
    user: u32,
) -> Result<bool, Refusal> {
    let is_ours = match fs::symlink_metadata(rt, path) {
        Ok(metadata) => metadata.is_dir() && metadata.uid() == user,
        Err(_) => false,
    };
    if !is_ours {
        return Ok(false);
    }
    let lock = lock_in(rt.alloc(), path.as_bytes())?;
    let lock = str::from_utf8(lock.bytes())?;
    match OpenOptions::new().write(true).open(rt, lock) {
        Ok(file) => Ok(file.try_lock().is_ok()),
        Err(_) => Ok(false),
    }
}

// Removes the directories that makes of this user left behind, below one for temporary files. What
// the system does not let go stays.
fn remove_left_behind<R: Files<File = File> + AllocGlobal + Clone + Drop>(
    rt: &R,
    above: &[u8],
    user: u32,
) -> Result<(), Refusal> {
    let Ok(entries) = fs::read_dir(rt, str::from_utf8(above)?) else {
        return Ok(());
    };
    for entry in entries {
        let Ok(entry) = entry else {
            continue;
        };
        let path = entry.path();
        if entry.file_name().starts_with(PREFIX) && is_left_behind(rt, path.as_str(), user)? {
            let _ = fs::remove_dir_all(rt, path);
        }
    }
    Ok(())
}

impl Room {
    /// A directory at this place; where something stands there, with a number behind its name.
    pub fn new(place: Place) -> Room {
        Room { place, made: None }
    }

    // The place itself, and then with the numbers from 1.
    fn name(&self, alloc: Global, number: u32) -> Result<Text, NoMemory> {
        let mut name = self.place.above.copy(alloc)?;
        name.push(b"/")?;
        name.push(self.place.name.bytes())?;
        if number > 0 {
            name.push(b".")?;
            name.push(Buffer::new().format(number).as_bytes())?;
        }
        Ok(name)
    }

    // The directory of this number, where it could be made.
    fn make_one<R: Files<File = File> + AllocGlobal>(
        &self,
        rt: &R,
        number: u32,
    ) -> Result<Option<Made>, Refusal> {
        let path = self.name(rt.alloc(), number)?;
        if !make_at(rt, path.bytes())? {
            return Ok(None);
        }
        Ok(locked(rt, path.bytes())?.map(|lock| Made { path, lock }))
    }

    fn make<R: Files<File = File> + AllocGlobal>(&self, rt: &R) -> Result<Made, Refusal> {
        for number in 0..NAMES {
            if let Some(made) = self.make_one(rt, number)? {
                return Ok(made);
            }
        }
        Err(Refusal::Outside(Reason::Other))
    }

    // Removes what other makes of this user have left behind.
    fn clear<R: Files<File = File> + AllocGlobal + Clone + Drop>(
        &self,
        rt: &R,
        made: &Made,
    ) -> Result<(), Refusal> {
        match fs::metadata(rt, str::from_utf8(made.path.bytes())?) {
            Ok(metadata) => remove_left_behind(rt, self.place.above.bytes(), metadata.uid()),
            Err(_) => Ok(()),
        }
    }

    /// The path of the directory, which is made where it does not stand yet. Directories that other
    /// makes left behind are removed then. That it cannot be made is named.
    pub fn enter<R: Files<File = File> + AllocGlobal + Clone + Drop>(
        &mut self,
        rt: &R,
        named: &mut Named,
    ) -> Result<&Text, Refusal> {
        if self.made.is_none() {
            match self.make(rt) {
                Ok(made) => {
                    self.clear(rt, &made)?;
                    self.made = Some(made);
                }
                Err(refusal) => {
                    if let Refusal::Outside(reason) = refusal {
                        named.name(b"mkdir", self.name(rt.alloc(), 0)?.bytes(), reason);
                    }
                    return Err(refusal);
                }
            }
        }
        match &self.made {
            Some(made) => Ok(&made.path),
            None => Err(Refusal::Outside(Reason::Other)),
        }
    }

    /// Removes the directory, where it was made, with what commands in the background may have left
    /// there. It cannot be refused: what the system does not let go stays.
    pub fn leave<R: Files + AllocGlobal>(&mut self, rt: &R) {
        if let Some(made) = self.made.take() {
            if let Ok(path) = str::from_utf8(made.path.bytes()) {
                let _ = fs::remove_dir_all(rt, path);
            }
        }
    }
}
