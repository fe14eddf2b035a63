//! What jobs collect for their meta files.
ghost use Rattle.std.specs.Prelude.{◌≡◌, ◌++◌, IfOk, OnOk};
ghost use Rattle.mk_meta.specs.Jobs.{numbered};
ghost use Rattle.mk_trace.specs.Collected as spec;

use mk_bytes::NoMemory;
use mk_filemon::{Rec, Recs};
use mk_trace::Collected;
use mk_world::{Ended, Op, Ops};
use std::alloc::Global;

fn copy_op(alloc: Global, op: &Op) -> Result<Op, NoMemory>
    ensures { IfOk result (λ copy. copy ≡ op.now) }
{
    match op {
        Op::Read(path) => Ok(Op::Read(path.copy(alloc)?)),
        Op::Miss(path) => Ok(Op::Miss(path.copy(alloc)?)),
        Op::Write(path) => Ok(Op::Write(path.copy(alloc)?)),
        Op::Delete(path) => Ok(Op::Delete(path.copy(alloc)?)),
        Op::Move(from, to) => Ok(Op::Move(from.copy(alloc)?, to.copy(alloc)?)),
    }
}

// Adds what the child of a line recorded.
fn add_records(alloc: Global, records: &mut Recs, line: u32, ops: &[Op]) -> Result<(), NoMemory>
    ensures { OnOk result (records.new ≡ records.old ++ numbered line ops.now) }
{
    for op in ops {
        let op = copy_op(alloc, op)?;
        records.push(Rec { line, op })?;
    }
    Ok(())
}

// The records behind those of one child more: there are none where a child gave none.
fn more_records(
    alloc: Global,
    line: u32,
    records: Option<Recs>,
    recorded: Option<Ops>,
) -> Result<Option<Recs>, NoMemory>
    ensures { IfOk result (λ all. all ≡ spec.more_records line records recorded) }
{
    match (records, recorded) {
        (Some(mut records), Some(ops)) => {
            add_records(alloc, &mut records, line, ops.as_slice())?;
            Ok(Some(records))
        }
        _ => Ok(None),
    }
}

/// Keeps what the child of a line has left, where its job has a meta file.
pub fn keep_end(
    alloc: Global,
    collected: &mut Collected,
    line: u32,
    ended: Ended,
) -> Result<(), NoMemory>
    ensures { OnOk result (collected.new ≡ spec.with_end collected.old line ended) }
{
    if collected.owner == 0 {
        return Ok(());
    }
    collected.output.push(ended.output.bytes())?;
    let records = collected.records.take();
    collected.records = more_records(alloc, line, records, ended.records)?;
    Ok(())
}
