//! What a job took from outside itself, and what it left, by its records: make(1), "META MODE".
ghost use Rattle.std.specs.Prelude.{◌≡◌, [], IfOk, OnOk};
ghost use Rattle.mk_filemon.specs.Outer as spec;
ghost use Rattle.mk_filemon.specs.Entries.{all_noted, paths_that};
ghost use Rattle.mk_filemon.specs.declared.trace.Asked.TheVariants as asked;

use crate::record::Recs;
use crate::trace::{Asked, Traces};
use mk_bytes::{NoMemory, Text, Texts};
use std::alloc::Global;

// Notes what records say of their paths.
fn note_all<'r>(traces: &mut Traces<'r>, records: &'r Recs) -> Result<(), NoMemory>
    ensures { OnOk result
        (traces.new ≡ all_noted traces.old (spec.all_touches (spec.ops_of records.now))) }
{
    for one in records.as_slice() {
        traces.note_op(&one.op)?;
    }
    Ok(())
}

// The traces that records leave.
fn traces_of<'r>(alloc: Global, records: &'r Recs) -> Result<Traces<'r>, NoMemory>
    ensures { IfOk result (λ traces.
        traces ≡ all_noted [] (spec.all_touches (spec.ops_of records.now))) }
{
    let mut traces = Traces::new(alloc, records.len())?;
    note_all(&mut traces, records).and(Ok(traces))
}

// The paths that are asked for, by the traces that records leave.
fn paths_by(alloc: Global, records: &Recs, asked: Asked) -> Result<Texts, NoMemory>
    ensures { IfOk result (λ paths. paths
        ≡ paths_that [] asked (all_noted [] (spec.all_touches (spec.ops_of records.now)))) }
{
    let traces = traces_of(alloc, records)?;
    let paths = traces.paths_that(alloc, &[], asked);
    drop(traces);
    paths
}

/// The outer reads of a job: the paths that it read, looked for or moved away before any of its
/// own records had changed them, each once, in the order of their first record.
pub fn outer_reads(alloc: Global, records: &Recs) -> Result<Texts, NoMemory>
    ensures { IfOk result (λ paths. paths ≡ spec.outer_reads (spec.ops_of records.now)) }
{
    paths_by(alloc, records, Asked::Outer)
}

/// Those outer reads that a record found: it read the path, or moved it away.
pub fn outer_found(alloc: Global, records: &Recs) -> Result<Texts, NoMemory>
    ensures { IfOk result (λ paths. paths ≡ spec.outer_found (spec.ops_of records.now)) }
{
    paths_by(alloc, records, Asked::Found)
}

/// Those outer reads that a record missed. A path may be found and missed, as others change it too.
pub fn outer_missed(alloc: Global, records: &Recs) -> Result<Texts, NoMemory>
    ensures { IfOk result (λ paths. paths ≡ spec.outer_missed (spec.ops_of records.now)) }
{
    paths_by(alloc, records, Asked::Missed)
}

/// The paths that a job left written: the last record that changed one wrote it or moved a file
/// onto it. Each stands once, in the order of its first record of any kind.
pub fn left_written(alloc: Global, records: &Recs) -> Result<Texts, NoMemory>
    ensures { IfOk result (λ paths. paths ≡ spec.left_written (spec.ops_of records.now)) }
{
    paths_by(alloc, records, Asked::Written)
}

/// The paths that a job found outside, those that it missed there, and those that it left written.
#[derive(Drop)]
pub struct JobPaths {
    pub found: Texts,
    pub missed: Texts,
    pub left: Texts,
}

// The three lists that traces tell, without the paths that begin with one of the words.
fn paths_in(alloc: Global, ignored: &[Text], traces: &Traces) -> Result<JobPaths, NoMemory>
    ensures found { IfOk result (λ paths.
        paths.found ≡ paths_that ignored.now asked.Found traces.now) }
    ensures missed { IfOk result (λ paths.
        paths.missed ≡ paths_that ignored.now asked.Missed traces.now) }
    ensures left { IfOk result (λ paths.
        paths.left ≡ paths_that ignored.now asked.Written traces.now) }
{
    let found = traces.paths_that(alloc, ignored, Asked::Found)?;
    let Ok(missed) = traces.paths_that(alloc, ignored, Asked::Missed) else {
        drop(found);
        return Err(NoMemory);
    };
    match traces.paths_that(alloc, ignored, Asked::Written) {
        Ok(left) => Ok(JobPaths {
            found,
            missed,
            left,
        }),
        Err(fault) => {
            drop((found, missed));
            Err(fault)
        }
    }
}

/// These three lists, by one pass over the records, without the paths that begin with one of the
/// words. Each is that of [`outer_found`], [`outer_missed`] and [`left_written`] otherwise.
pub fn job_paths(alloc: Global, ignored: &Texts, records: &Recs) -> Result<JobPaths, NoMemory>
    ensures found { IfOk result (λ paths.
        paths.found ≡ spec.counted ignored.now (spec.outer_found (spec.ops_of records.now))) }
    ensures missed { IfOk result (λ paths.
        paths.missed ≡ spec.counted ignored.now (spec.outer_missed (spec.ops_of records.now))) }
    ensures left { IfOk result (λ paths.
        paths.left ≡ spec.counted ignored.now (spec.left_written (spec.ops_of records.now))) }
{
    let traces = traces_of(alloc, records)?;
    let paths = paths_in(alloc, ignored.as_slice(), &traces);
    drop(traces);
    paths
}
