//! What is appended to the log of a recorder (filemon(4)), for process 1.
ghost use Rattle.std.specs.Prelude.{◌≡◌, ◌++◌, flat_map, IfOk, OnOk};
ghost use Rattle.fmrun.specs.Deeds.{look_op, looked, changed, ops_of};
ghost use Rattle.fmrun.specs.Logs as spec;
ghost use Rattle.fmrun.specs.Readings.{IsReadAs};

use crate::deed::{Change, Sight};
use mk_bytes::{Items, NoMemory, Text};
use mk_world::{Op, Ops};
use std::alloc::Global;

// The operation that a look is.
fn look_op(alloc: Global, path: &Text, sight: Sight) -> Result<Op, NoMemory>
    ensures { IfOk result (λ op. op ≡ look_op path.now sight) }
{
    let path = path.copy(alloc)?;
    match sight {
        Sight::Found | Sight::Refused => Ok(Op::Read(path)),
        Sight::Missing => Ok(Op::Miss(path)),
    }
}

// Adds the looks that happened.
fn push_looks(
    alloc: Global,
    ops: &mut Ops,
    looks: &[Text],
    sights: &[Sight],
) -> Result<(), NoMemory>
    ensures { OnOk result (ops.new ≡ ops.old ++ looked looks.now sights.now) }
{
    let mut rest = sights;
    for path in looks {
        let Some((sight, more)) = rest.split_first() else {
            return Ok(());
        };
        ops.push(look_op(alloc, path, *sight)?)?;
        rest = more;
    }
    Ok(())
}

// Adds what changes.
fn push_change(alloc: Global, ops: &mut Ops, change: &Change) -> Result<(), NoMemory>
    ensures { OnOk result (ops.new ≡ ops.old ++ changed change.now) }
{
    match change {
        Change::Nothing => Ok(()),
        Change::Write { path, .. } => ops.push(Op::Write(path.copy(alloc)?)),
        Change::Delete { path } => ops.push(Op::Delete(path.copy(alloc)?)),
        Change::Move { from, to, .. } => ops.push(Op::Move(from.copy(alloc)?, to.copy(alloc)?)),
    }
}

/// The operations of a request, in order: its looks, as far as they happened, and its change. A
/// look at a missing file is a miss, and every other one a read.
pub fn ops_of(
    alloc: Global,
    looks: &[Text],
    sights: &[Sight],
    change: &Change,
) -> Result<Ops, NoMemory>
    ensures { IfOk result (λ ops. ops ≡ ops_of looks.now sights.now change.now) }
{
    let mut ops = Items::new(alloc, 0)?;
    push_looks(alloc, &mut ops, looks, sights)?;
    push_change(alloc, &mut ops, change)?;
    Ok(ops)
}

// Whether a line can hold a path.
fn has_form(path: &[u8]) -> bool
    ensures { result ≡ spec.has_form path.now }
{
    !path.is_empty() && has_no(b'\n', path)
}

fn has_no(byte: u8, path: &[u8]) -> bool
    ensures { result ≡ spec.has_no byte path.now }
{
    path.iter().all(|one| *one != byte)
}

// Whether the line of a move tells its paths apart.
fn are_apart(from: &[u8], to: &[u8]) -> bool
    ensures { result ≡ spec.are_apart from.now to.now }
{
    has_form(from) && has_form(to) && has_no(b'\'', from)
}

fn push_line(log: &mut Text, head: &[u8], path: &[u8]) -> Result<(), NoMemory>
    ensures { OnOk result (log.new ≡ log.old ++ spec.line head.now path.now) }
{
    if !has_form(path) {
        return log.push(b"R 1 /a path with a newline has no record\n");
    }
    log.push(head)?;
    log.push(path)?;
    log.push(b"\n")
}

fn push_move(log: &mut Text, from: &[u8], to: &[u8]) -> Result<(), NoMemory>
    ensures { OnOk result (log.new ≡ log.old ++ spec.move_lines from.now to.now) }
{
    if !are_apart(from, to) {
        push_line(log, b"D 1 ", from)?;
        return push_line(log, b"W 1 ", to);
    }
    log.push(b"M 1 '")?;
    log.push(from)?;
    log.push(b"' '")?;
    log.push(to)?;
    log.push(b"'\n")
}

fn push_op(log: &mut Text, op: &Op) -> Result<(), NoMemory>
    ensures { OnOk result (log.new ≡ log.old ++ spec.lines_of op.now) }
{
    match op {
        Op::Read(path) => push_line(log, b"R 1 ", path.bytes()),
        Op::Miss(path) => push_line(log, b"# N 1 ", path.bytes()),
        Op::Write(path) => push_line(log, b"W 1 ", path.bytes()),
        Op::Delete(path) => push_line(log, b"D 1 ", path.bytes()),
        Op::Move(from, to) => push_move(log, from.bytes(), to.bytes()),
    }
}

/// What is appended to a log: a line of the directory, and the lines of each operation in order,
/// with its paths as they are. A path that no line can hold, as one with a newline, is recorded as
/// a read of a file that is never there, and a move whose paths its line would not tell apart as
/// what it does to each.
pub fn log_of(alloc: Global, directory: &[u8], ops: &[Op]) -> Result<Text, NoMemory>
    ensures log { IfOk result (λ log. log ≡ spec.log directory.now ops.now) }
    // It is read as what was recorded.
    ensures read { IfOk result (λ log. IsReadAs directory.now ops.now log) }
{
    written(alloc, directory, ops)
}

fn written(alloc: Global, directory: &[u8], ops: &[Op]) -> Result<Text, NoMemory>
    ensures { IfOk result (λ log. log ≡ spec.log directory.now ops.now) }
{
    let mut log = Text::new(alloc);
    push_line(&mut log, b"C 1 ", directory)?;
    for op in ops {
        push_op(&mut log, op)?;
    }
    Ok(log)
}
