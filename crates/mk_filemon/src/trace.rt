//! What records tell of each path, in one table.
ghost use Rattle.std.specs.Prelude.{◌≡◌, [], ◌++◌, OnOk, IfOk};
ghost use Rattle.mk_filemon.specs.Outer.{is_ignored, touches};
ghost use Rattle.mk_filemon.specs.Entries as spec;

use indexmap::IndexMap;
use mk_bytes::{Items, NoMemory, Text, Texts};
use mk_world::Op;
use std::alloc::Global;
use std::marker::Model;

/// What a record says of one path.
#[derive(Clone, Copy)]
pub enum Touch {
    /// It was looked at, and stood.
    Found,
    /// It was looked for, and was missing.
    Missed,
    /// It stands written.
    Written,
    /// It is gone.
    Gone,
}

/// What the records so far tell of one path.
#[derive(Clone, Copy)]
pub struct Trace {
    /// It was found before it was changed.
    pub found: bool,
    /// It was missed before it was changed.
    pub missed: bool,
    pub changed: bool,
    /// Its last change left a file there.
    pub written: bool,
}

/// Which paths are asked for.
#[derive(Clone, Copy)]
pub enum Asked {
    Outer,
    Found,
    Missed,
    Written,
}

// Of a path that no record has named.
fn no_trace() -> Trace
    ensures { result ≡ spec.no_trace }
{
    Trace {
        found: false,
        missed: false,
        changed: false,
        written: false,
    }
}

// A trace after one more record.
fn after(trace: Trace, touch: Touch) -> Trace
    ensures { result ≡ spec.after trace touch }
{
    match touch {
        Touch::Found => Trace {
            found: trace.found || !trace.changed,
            ..trace
        },
        Touch::Missed => Trace {
            missed: trace.missed || !trace.changed,
            ..trace
        },
        Touch::Written => Trace {
            changed: true,
            written: true,
            ..trace
        },
        Touch::Gone => Trace {
            changed: true,
            written: false,
            ..trace
        },
    }
}

fn is_ignored(words: &[Text], path: &[u8]) -> bool
    ensures { result ≡ is_ignored words.now path.now }
{
    words.iter().any(|word| path.starts_with(word.bytes()))
}

fn tells(asked: Asked, trace: Trace) -> bool
    ensures { result ≡ spec.tells asked trace }
{
    match asked {
        Asked::Outer => trace.found || trace.missed,
        Asked::Found => trace.found,
        Asked::Missed => trace.missed,
        Asked::Written => trace.written,
    }
}

/// The paths that records name, in the order of first record, each with its trace. The paths are
/// lent by the records. One more record takes about constant time.
#[derive(Drop)]
pub struct Traces<'r> {
    traces: IndexMap<&'r [u8], Trace>,
}

impl<'r> Model for Traces<'r> {
    ghost use Rattle.std.specs.Prelude.{List};
    ghost use Rattle.mk_filemon.specs.Entries.{Traced, traced_of};

    ghost Value = { List Traced };

    ghost view = { λ table. traced_of table.traces.entries };
}

impl<'r> Traces<'r> {
    /// An empty table with room for this many paths.
    pub fn new(alloc: Global, room: usize) -> Result<Traces<'r>, NoMemory>
        ensures { IfOk result (λ table. table ≡ []) }
    {
        let traces = IndexMap::with_capacity(alloc, room)?;
        Ok(Traces { traces })
    }

    fn note(&mut self, path: &'r Text, touch: Touch) -> Result<(), NoMemory>
        ensures { OnOk result (self.new ≡ spec.noted self.old path.now touch) }
    {
        let trace = self.traces.entry(path.bytes())?.or_insert(no_trace());
        *trace = after(*trace, touch);
        Ok(())
    }

    /// Notes what a record says of its paths.
    pub fn note_op(&mut self, op: &'r Op) -> Result<(), NoMemory>
        ensures { OnOk result (self.new ≡ spec.all_noted self.old (touches op.now)) }
    {
        match op {
            Op::Read(path) => self.note(path, Touch::Found),
            Op::Miss(path) => self.note(path, Touch::Missed),
            Op::Write(path) => self.note(path, Touch::Written),
            Op::Delete(path) => self.note(path, Touch::Gone),
            Op::Move(from, to) => {
                self.note(from, Touch::Found)?;
                self.note(from, Touch::Gone)?;
                self.note(to, Touch::Written)
            }
        }
    }

    fn how_many(&self, asked: Asked) -> usize {
        self.traces
            .values()
            .filter(|trace| tells(asked, **trace))
            .count()
    }

    // Adds the paths that are asked for.
    fn add_paths(
        &self,
        alloc: Global,
        ignored: &[Text],
        asked: Asked,
        paths: &mut Texts,
    ) -> Result<(), NoMemory>
        ensures { OnOk result (paths.new
            ≡ paths.old ++ spec.paths_that ignored.now asked self.now) }
    {
        for (path, trace) in self.traces.iter() {
            if tells(asked, *trace) && !is_ignored(ignored, *path) {
                paths.push(Text::from_bytes(alloc, *path)?)?;
            }
        }
        Ok(())
    }

    /// The paths that are asked for, in order, without those that begin with one of the words.
    pub fn paths_that(
        &self,
        alloc: Global,
        ignored: &[Text],
        asked: Asked,
    ) -> Result<Texts, NoMemory>
        ensures { IfOk result (λ paths. paths ≡ spec.paths_that ignored.now asked self.now) }
    {
        let mut paths = Items::new(alloc, self.how_many(asked))?;
        self.add_paths(alloc, ignored, asked, &mut paths)
            .and(Ok(paths))
    }
}
