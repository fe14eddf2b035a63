//! The sink in memory.
use crate::refused::Refused;
use mk_bytes::{Items, NoMemory};
use mk_memworld::{CallKind, Fail as Outage, MemSink, ROOM};
use mk_world::{Sink, SinkFault};
use std::alloc::Global;

// A sink whose second write fails.
fn failing(alloc: Global) -> Result<MemSink, NoMemory> {
    let mut fails = Items::new(alloc, 1)?;
    fails.push(Outage {
        call: CallKind::Write,
        nth: 2,
        left: None,
    })?;
    MemSink::new(alloc, fails)
}

// The answer to a piece that is not empty.
fn answer(sink: &mut MemSink, piece: &[u8]) -> Result<usize, SinkFault> {
    if piece.is_empty() {
        return Ok(0);
    }
    sink.write(piece)
}

// What a row shows, a piece, and the answer to it.
const PIECES: [(&str, &[u8], Result<usize, SinkFault>); 3] = [
    ("the first write", b"ab", Ok(2)),
    ("the one that fails", b"c", Err(SinkFault::Failed)),
    ("the one behind it", b"d", Ok(1)),
];

// What the first row shows that is not so, one behind the other.
fn first_other(sink: &mut MemSink) -> Option<&'static str> {
    for row in &PIECES {
        let (shows, piece, wanted) = *row;
        if answer(sink, piece) != wanted {
            return Some(shows);
        }
    }
    None
}

#[test]
fn a_sink_takes_whole_pieces(rt: HostRuntime) -> Result<(), Refused> {
    let mut sink = failing(rt.alloc())?;
    let other = first_other(&mut sink);
    let has_rest = sink.bytes() == b"abd".as_slice();
    drop(sink);
    assert_eq!(rt; other, None);
    assert!(rt; has_rest);
    Ok(())
}

// A sink in which no write fails.
fn unfailing(alloc: Global) -> Result<MemSink, NoMemory> {
    MemSink::new(alloc, Items::new(alloc, 0)?)
}

// Whether three bytes are taken, then no more than there is room for, and then none.
fn has_room(sink: &mut MemSink, whole: &[u8]) -> bool {
    if whole.len() < 3 {
        return false;
    }
    answer(sink, b"abc") == Ok(3)
        && answer(sink, whole) == Err(SinkFault::Failed)
        && answer(sink, &whole[3..]) == Ok(ROOM - 3)
        && answer(sink, b"e") == Err(SinkFault::Failed)
}

#[test]
fn a_sink_has_room(rt: HostRuntime) -> Result<(), Refused> {
    let mut sink = unfailing(rt.alloc())?;
    let whole = Vec::from_elem(rt.alloc(), 7u8, ROOM)?;
    assert!(rt; has_room(&mut sink, whole.as_slice()));
    Ok(())
}
