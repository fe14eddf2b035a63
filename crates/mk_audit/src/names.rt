//! Whether a task is by which sources are newer.
ghost use Rattle.std.specs.Prelude.{◌≡◌};
ghost use Rattle.mk_audit.specs.Names as spec;
ghost use Rattle.mk_looks.specs.Looks as looks;
ghost use Rattle.std.specs.List.{list_any};

use mk_bytes::{Text, Texts};
use mk_world::{Task, TaskLine};

fn is_newer_name(name: &[u8]) -> bool
    ensures { result ≡ looks.is_newer_name name.now }
{
    name == b".OODATE".as_slice()
        || name == b"?".as_slice()
        || name == b"?D".as_slice()
        || name == b"?F".as_slice()
}

/// Whether one of these names stands for the sources that are newer than the target: `.OODATE`,
/// `?`, `?D` or `?F`. Takes no memory.
pub fn looks_for_newer(names: &[Text]) -> bool
    ensures { result ≡ looks.looks_for_newer names.now }
{
    names.iter().any(|name| is_newer_name(name.bytes()))
}

fn is_any_uncompared(lines: &[TaskLine]) -> bool
    ensures { result ≡ list_any spec.is_uncompared lines.now }
{
    lines.iter().any(|line| !line.compared)
}

/// Whether a task, by the names that it looks up, is by which of its sources are newer: it looks up
/// a name of these, or has a line that is not compared. Takes no memory.
pub fn is_by_newer(names: &Texts, task: &Task) -> bool
    ensures { result ≡ spec.is_by_newer names.now task.now }
{
    looks_for_newer(names.as_slice()) || is_any_uncompared(task.lines.as_slice())
}
