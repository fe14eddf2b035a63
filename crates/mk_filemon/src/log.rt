//! A recorder's log, read into records.
ghost use Rattle.std.specs.Prelude.{◌≡◌, ◌++◌, ◌+◌, ◌<◌, nat_le, true, Some};
ghost use Rattle.std.specs.Prelude.{IfOk, OnOk, IfSome, IfNone};
ghost use Rattle.std.specs.List.{slice_split};
ghost use Rattle.std.specs.Option.{option_map};
ghost use Rattle.mk_filemon.specs.Held.{directories_in};
ghost use Rattle.mk_filemon.specs.Log as spec;
ghost use Rattle.mk_filemon.specs.Parts.{is_newline};

use crate::directory::{Directories, directory_from, path_from};
use crate::escape::cut_at;
use crate::line::{Kind, is_number, line_of, number_of, pair_in};
use crate::part::is_whole;
use crate::room::{MAX_SIZE, behind_line};
use mk_bytes::{Items, NoMemory, Text};
use mk_world::{Op, Ops};
use std::alloc::Global;

// The record of a line with one path.
fn op_of(kind: Kind, path: Text) -> Option<Op>
    ensures { result ≡ spec.op_of kind path }
{
    match kind {
        Kind::Reads => Some(Op::Read(path)),
        Kind::Misses => Some(Op::Miss(path)),
        Kind::Writes => Some(Op::Write(path)),
        Kind::Deletes => Some(Op::Delete(path)),
        Kind::Moves | Kind::Links | Kind::Enters | Kind::Forks => None,
    }
}

// Adds the record of a line with one path, unless the path is empty.
fn push_one(
    alloc: Global,
    ops: &mut Ops,
    cwd: &[u8],
    directory: &[u8],
    kind: Kind,
    text: &[u8],
) -> Result<(), NoMemory>
    ensures { OnOk result (ops.new ≡ ops.old ++ spec.one kind cwd.now directory.now text.now) }
{
    if text.is_empty() {
        return Ok(());
    }
    let path = path_from(alloc, cwd, directory, text)?;
    if let Some(op) = op_of(kind, path) {
        ops.push(op)?;
    }
    Ok(())
}

fn push_move(
    alloc: Global,
    ops: &mut Ops,
    cwd: &[u8],
    directory: &[u8],
    text: &[u8],
) -> Result<(), NoMemory>
    ensures { OnOk result
        (ops.new ≡ ops.old ++ spec.move_by cwd.now directory.now (spec.pair_in text.now)) }
{
    let Some((from, to)) = pair_in(text) else {
        return Ok(());
    };
    let from = path_from(alloc, cwd, directory, from)?;
    let to = path_from(alloc, cwd, directory, to)?;
    ops.push(Op::Move(from, to))
}

fn push_link(
    alloc: Global,
    ops: &mut Ops,
    cwd: &[u8],
    directory: &[u8],
    text: &[u8],
) -> Result<(), NoMemory>
    ensures { OnOk result
        (ops.new ≡ ops.old ++ spec.link_by cwd.now directory.now (spec.pair_in text.now)) }
{
    let Some((from, to)) = pair_in(text) else {
        return Ok(());
    };
    ops.push(Op::Read(path_from(alloc, cwd, directory, from)?))?;
    ops.push(Op::Write(path_from(alloc, cwd, directory, to)?))
}

fn push_ops(
    alloc: Global,
    ops: &mut Ops,
    cwd: &[u8],
    directory: &[u8],
    kind: Kind,
    text: &[u8],
) -> Result<(), NoMemory>
    ensures { OnOk result (ops.new ≡ ops.old ++ spec.ops_by kind cwd.now directory.now text.now) }
{
    match kind {
        Kind::Reads | Kind::Misses | Kind::Writes | Kind::Deletes => {
            push_one(alloc, ops, cwd, directory, kind, text)
        }
        Kind::Moves => push_move(alloc, ops, cwd, directory, text),
        Kind::Links => push_link(alloc, ops, cwd, directory, text),
        Kind::Enters | Kind::Forks => Ok(()),
    }
}

fn enter(
    alloc: Global,
    directories: &mut Directories,
    cwd: &[u8],
    process: &[u8],
    path: &[u8],
) -> Result<(), NoMemory>
    ensures { OnOk result (directories_in directories.new
        ≡ spec.entered cwd.now (directories_in directories.old) process.now path.now) }
{
    if path.is_empty() {
        return Ok(());
    }
    let directory = directory_from(alloc, directories.of(process, cwd), path)?;
    directories.set(process, directory)
}

fn fork(
    alloc: Global,
    directories: &mut Directories,
    cwd: &[u8],
    process: &[u8],
    child: &[u8],
) -> Result<(), NoMemory>
    ensures { OnOk result (directories_in directories.new
        ≡ spec.forked cwd.now (directories_in directories.old) process.now child.now) }
{
    if !is_number(child) {
        return Ok(());
    }
    let directory = Text::from_bytes(alloc, directories.of(process, cwd))?;
    directories.set(number_of(child), directory)
}

// Adds what a line records, or changes a directory.
fn read_found(
    alloc: Global,
    ops: &mut Ops,
    directories: &mut Directories,
    cwd: &[u8],
    kind: Kind,
    process: &[u8],
    text: &[u8],
) -> Result<(), NoMemory>
    ensures ops { OnOk result (ops.new ≡ ops.old
        ++ spec.ops_on cwd.now (directories_in directories.old)
        (Some (kind, process.now, text.now))) }
    ensures directories { OnOk result (directories_in directories.new
        ≡ spec.directories_after cwd.now (directories_in directories.old)
        (Some (kind, process.now, text.now))) }
{
    match kind {
        Kind::Enters => enter(alloc, directories, cwd, process, text),
        Kind::Forks => fork(alloc, directories, cwd, process, text),
        _ => push_ops(alloc, ops, cwd, directories.of(process, cwd), kind, text),
    }
}

// Reads a line, and gives what is left of a room behind it; `None` where it takes more.
fn read_line(
    alloc: Global,
    ops: &mut Ops,
    directories: &mut Directories,
    cwd: &[u8],
    room: usize,
    line: &[u8],
) -> Result<Option<usize>, NoMemory>
    ensures ops { IfOk result (λ left. IfSome left (λ _. ops.new ≡ ops.old
        ++ spec.ops_on cwd.now (directories_in directories.old) (spec.line_of line.now))) }
    ensures directories { IfOk result (λ left. IfSome left (λ _. directories_in directories.new
        ≡ spec.directories_after cwd.now (directories_in directories.old)
        (spec.line_of line.now))) }
    ensures fits { IfOk result (λ left. IfSome left (λ left.
        left + spec.size_on cwd.now (directories_in directories.old) (spec.line_of line.now)
        ≡ room)) }
    ensures not { IfOk result (λ left. IfNone left
        (room < spec.size_on cwd.now (directories_in directories.old) (spec.line_of line.now))) }
{
    let Some((kind, process, text)) = line_of(line) else {
        return Ok(Some(room));
    };
    let left = behind_line(room, kind, directories.of(process, cwd), text);
    if left.is_some() {
        read_found(alloc, ops, directories, cwd, kind, process, text)?;
    }
    Ok(left)
}

// Adds the records of the lines of a log, the last of which may lack its newline, and tells whether
// these lines do not take too much.
fn read_lines(
    alloc: Global,
    ops: &mut Ops,
    directories: &mut Directories,
    cwd: &[u8],
    log: &[u8],
) -> Result<bool, NoMemory>
    ensures ops { IfOk result (λ fits. fits ≡ true → ops.new ≡ ops.old ++ spec.lines_logged cwd.now
        (directories_in directories.old) (slice_split is_newline log.now)) }
    ensures fits { IfOk result (λ fits. fits ≡ nat_le (spec.size_of_lines cwd.now
        (directories_in directories.old) (slice_split is_newline log.now)) spec.max_size) }
{
    let mut room = MAX_SIZE;
    let mut rest = log;
    'lines: while let Some((line, after)) = cut_at(b'\n', rest) {
        let Some(left) = read_line(alloc, ops, directories, cwd, room, line)? else {
            return Ok(false);
        };
        room = left;
        rest = after;
    }
    Ok(read_line(alloc, ops, directories, cwd, room, rest)?.is_some())
}

// The records of the lines of a log, whole or not; `None` where these lines take too much.
fn read_all(alloc: Global, log: &[u8], cwd: &[u8]) -> Result<Option<Ops>, NoMemory>
    ensures { IfOk result (λ ops. ops ≡ spec.records_within cwd.now log.now) }
{
    let mut ops = Items::new(alloc, 0)?;
    let mut directories = Directories::new(alloc);
    let read = read_lines(alloc, &mut ops, &mut directories, cwd, log);
    drop(directories);
    if read? {
        return Ok(Some(ops));
    }
    Ok(None)
}

/// The records of a recorder's log, in order, each path absolute against the directory of its
/// process and then named from `cwd`, which must be absolute and clean to be of use. A process that
/// was not seen has the directory `cwd`. The last line may lack its newline. The time is linear in
/// the log, and in the length of `cwd` for each line.
///
/// `None` where the log is empty, or not whole: a part of it that begins with a line that names its
/// recorder, as `# recorder NAME`, ends with `# Bye bye PROCESS STATUS COUNT` and a newline, where
/// COUNT is the number of lines between these two, and no log counts that was cut inside of one.
/// Logs without such a line, as plain ones of filemon(4), are taken as they are.
///
/// `None` also where the log's paths take more than 33,554,432 bytes: each its own, those of the
/// directory of its process where it is relative, and 16 more. The two of a move and of a link
/// count as long as both together.
pub fn read_log(alloc: Global, log: &[u8], cwd: &[u8]) -> Result<Option<Ops>, NoMemory>
    ensures { IfOk result (λ ops. ops ≡ spec.logged cwd.now log.now) }
{
    if !is_whole(log) {
        return Ok(None);
    }
    read_all(alloc, log, cwd)
}
