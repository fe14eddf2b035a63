//! What is known of paths, in one table.
ghost use Rattle.std.specs.Prelude.{◌≡◌, ◌≤◌, [], ◌++◌, OnOk, IfOk, map, filter, length, reverse};
ghost use Rattle.std.specs.Prelude.{take_while};
ghost use Rattle.mk_recorder.specs.Records.{records_of};
ghost use Rattle.mk_recorder.specs.Tables as spec;

use crate::known::{Known, Touch, after, not_known, stands};
use crate::place::is_outside;
use crate::record::{Records, record_of};
use indexmap::IndexMap;
use mk_bytes::{Items, NoMemory, Text, Texts, skip};
use std::alloc::Global;
use std::marker::Model;

/// What is done to a path.
#[derive(Drop)]
pub struct Touched {
    pub path: Text,
    pub touch: Touch,
}

/// What is done to paths, in order.
pub type Touches = Items<Touched>;

/// The paths that were touched, in the order of their first touch, each with what is known of it.
/// One more touch takes about constant time.
#[derive(Drop)]
pub struct Table {
    alloc: Global,
    known: IndexMap<Vec<u8>, Known>,
}

impl Model for Table {
    ghost use Rattle.std.specs.Prelude.{List};
    ghost use Rattle.mk_recorder.specs.Tables.{Entry, entries_of};

    ghost Value = { List Entry };

    ghost view = { λ table. entries_of table.known.entries };
}

/// Whether a path lies below a directory.
pub fn is_below(directory: &[u8], path: &[u8]) -> bool
    ensures { result ≡ spec.is_below directory.now path.now }
{
    path.starts_with(directory) && skip(path, directory.len()).starts_with(b"/")
}

fn is_in_name(byte: u8) -> bool
    ensures { result ≡ spec.is_in_name byte }
{
    byte != b'/'
}

// How long the last name of a path is.
fn name_length(path: &[u8]) -> usize
    ensures len { result ≡ length (take_while spec.is_in_name (reverse path.now)) }
    ensures within { result ≤ length path.now }
{
    path.iter()
        .rev()
        .take_while(|byte| is_in_name(**byte))
        .count()
}

/// The directory of a path: what stands before its last slash. Takes no memory.
pub fn folder_of<'t>(path: &'t [u8]) -> &'t [u8]
    ensures { result.now ≡ spec.folder_of path.now }
{
    let name = name_length(path);
    if name == path.len() {
        return b"";
    }
    &path[..path.len() - name - 1]
}

fn may_make(touch: Touch) -> bool
    ensures { result ≡ spec.may_make touch }
{
    matches!(touch, Touch::Update | Touch::Overwrite | Touch::ReadOrMake)
}

impl Table {
    /// A table in which nothing is known.
    pub fn new(alloc: Global) -> Table
        ensures { result ≡ [] }
    {
        Table {
            alloc,
            known: IndexMap::new(alloc),
        }
    }

    /// Notes what is done to a path.
    pub fn note(&mut self, path: &[u8], touch: Touch) -> Result<(), NoMemory>
        ensures { OnOk result (self.new ≡ spec.noted self.old path.now touch) }
    {
        let key = Vec::from_slice(self.alloc, path)?;
        let known = self.known.entry(key)?.or_insert(not_known());
        *known = after(*known, touch);
        Ok(())
    }

    // What is done to a path, in its directory.
    fn touch_in(&self, path: &[u8], touch: Touch) -> Touch
        ensures { result ≡ spec.touch_in self.now path.now touch }
    {
        if may_make(touch) && self.of(folder_of(path)).fresh {
            return Touch::Make;
        }
        touch
    }

    /// Notes what is done to paths, in order. What is opened to be written in a directory that the
    /// command made is made.
    pub fn note_all(&mut self, touches: &[Touched]) -> Result<(), NoMemory>
        ensures { OnOk result (self.new ≡ spec.all_noted self.old touches.now) }
    {
        for touched in touches {
            let touch = self.touch_in(touched.path.bytes(), touched.touch);
            self.note(touched.path.bytes(), touch)?;
        }
        Ok(())
    }

    /// What is known of a path.
    pub fn of(&self, path: &[u8]) -> Known
        ensures { result ≡ spec.known_in self.now path.now }
    {
        match self.known.get(path) {
            Some(known) => *known,
            None => not_known(),
        }
    }

    fn add_below(&self, alloc: Global, directory: &[u8], paths: &mut Texts) -> Result<(), NoMemory>
        ensures { OnOk result (paths.new
            ≡ paths.old ++ spec.paths_below directory.now self.now) }
    {
        for (path, known) in self.known.iter() {
            if is_below(directory, path.as_slice()) && stands(*known) {
                paths.push(Text::from_bytes(alloc, path.as_slice())?)?;
            }
        }
        Ok(())
    }

    /// The paths below a directory at which something is, as far as it is known.
    pub fn paths_below(&self, alloc: Global, directory: &[u8]) -> Result<Texts, NoMemory>
        ensures { IfOk result (λ paths. paths ≡ spec.paths_below directory.now self.now) }
    {
        let mut paths = Items::new(alloc, 0)?;
        self.add_below(alloc, directory, &mut paths).and(Ok(paths))
    }

    /// Adds what is recorded of the paths.
    pub fn add_records(&self, alloc: Global, records: &mut Records) -> Result<(), NoMemory>
        ensures { OnOk result (records.new ≡ records.old ++ records_of self.now) }
    {
        for (path, known) in self.known.iter() {
            if !is_outside(path.as_slice()) {
                records.push(record_of(alloc, path.as_slice(), *known)?)?;
            }
        }
        Ok(())
    }
}
