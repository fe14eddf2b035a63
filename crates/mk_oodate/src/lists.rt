//! The paths that are looked at for the test, by a job's records.
ghost use Rattle.std.specs.Prelude.{◌≡◌, IfOk};
ghost use Rattle.mk_oodate.specs.Lists as spec;

use mk_bytes::{NoMemory, Texts};
use mk_filemon::{JobPaths, Recs, job_paths};
use std::alloc::Global;

/// The paths that a job found outside, those that it missed there, and those that it left written,
/// each in order, without those that begin with one of the words. One pass over the records.
pub fn looked_at(alloc: Global, words: &Texts, records: &Recs) -> Result<JobPaths, NoMemory>
    ensures found { IfOk result (λ paths. paths.found ≡ spec.read_paths words.now records.now) }
    ensures missed { IfOk result (λ paths. paths.missed ≡ spec.missed_paths words.now records.now) }
    ensures left { IfOk result (λ paths. paths.left ≡ spec.left_paths words.now records.now) }
{
    job_paths(alloc, words, records)
}
