//! Whether the commands of two builds are the same.
ghost use Rattle.std.specs.Prelude.{◌≡◌};
ghost use Rattle.mk_oodate.specs.Stale as spec;

use mk_bytes::Pair;
use mk_meta::Meta;
use mk_world::{Task, TaskLine};

/// Whether two lines are the same for a target: where the first one is compared, they have one
/// text, and their failures are either both ignored or both not.
pub fn same_line(line: &TaskLine, other: &TaskLine) -> bool
    ensures { result ≡ spec.same_line line.now other.now }
{
    !line.compared || line.text.bytes() == other.text.bytes() && line.ignore == other.ignore
}

fn same_lines(lines: &[TaskLine], others: &[TaskLine]) -> bool
    ensures { result ≡ spec.same_lines lines.now others.now }
{
    let mut rest = lines;
    let mut behind = others;
    'lines: while let Some((line, more)) = rest.split_first() {
        let Some((other, left)) = behind.split_first() else {
            return false;
        };
        if !same_line(line, other) {
            return false;
        }
        rest = more;
        behind = left;
    }
    behind.is_empty()
}

fn same_export(one: &Pair, other: &Pair) -> bool
    ensures { result ≡ spec.same_export one.now other.now }
{
    one.name.bytes() == other.name.bytes() && one.value.bytes() == other.value.bytes()
}

/// Whether these are the same variables with the same values, in the same order.
pub fn same_exports(pairs: &[Pair], others: &[Pair]) -> bool
    ensures { result ≡ spec.same_exports pairs.now others.now }
{
    let mut rest = pairs;
    let mut behind = others;
    'pairs: while let Some((pair, more)) = rest.split_first() {
        let Some((other, left)) = behind.split_first() else {
            return false;
        };
        if !same_export(pair, other) {
            return false;
        }
        rest = more;
        behind = left;
    }
    behind.is_empty()
}

fn same_commands(count_only: bool, task: &Task, meta: &Meta) -> bool
    ensures { result ≡ spec.same_commands count_only task.now meta.now }
{
    if count_only {
        return task.lines.len() == meta.lines.len();
    }
    task.cwd.bytes() == meta.cwd.bytes() && same_lines(task.lines.as_slice(), meta.lines.as_slice())
}

/// Whether a task has the exported variables and the commands that a meta file has; of the commands
/// either the number alone counts, or their directory and the compared lines.
pub fn is_same(count_only: bool, task: &Task, meta: &Meta) -> bool
    ensures { result ≡ spec.is_same count_only task.now meta.now }
{
    same_exports(task.exports.as_slice(), meta.exports.as_slice())
        && same_commands(count_only, task, meta)
}
