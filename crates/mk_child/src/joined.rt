//! Several pieces, written by one call of a sink.
ghost use Rattle.std.specs.Prelude.{◌≡◌, ◌≤◌, ◌++◌, length, take, IfSome, OnOk, OnErr};
ghost use Rattle.mk_world.specs.Causes.{HasCause};
ghost use Rattle.mk_world.specs.Sinks.{Gains, GainsPart, all_of};
ghost use Rattle.mk_world.specs.declared.fault.SinkFault.TheVariants.{Failed as sink_failed};

use mk_world::{Sink, SinkFault, write_all};

// Pieces that have so many bytes together are joined before they are written.
const SHORT: usize = 512;

// Copies a piece behind the first bytes of a buffer, and gives where it ends there; `None` where it
// does not fit.
fn put_behind(buffer: &mut [u8], start: usize, piece: &[u8]) -> Option<usize>
    requires { start ≤ length buffer.old }
    ensures same { length buffer.new ≡ length buffer.old }
    ensures within { IfSome result (λ end. end ≤ length buffer.new) }
    ensures behind { IfSome result (λ end.
        take end buffer.new ≡ take start buffer.old ++ piece.now) }
{
    if piece.len() > buffer.len() - start {
        return None;
    }
    let end = start + piece.len();
    buffer[start..end].copy_from_slice(piece);
    Some(end)
}

// Copies pieces into a buffer, one after the other, and gives how many bytes they have; `None`
// where they do not fit.
fn join(buffer: &mut [u8], pieces: &[&[u8]]) -> Option<usize>
    ensures within { IfSome result (λ end. end ≤ length buffer.new) }
    ensures joined { IfSome result (λ end. take end buffer.new ≡ all_of pieces.now) }
{
    let mut end = 0;
    for piece in pieces {
        end = put_behind(buffer, end, piece)?;
    }
    Some(end)
}

/// Writes all of these pieces, one after the other, and short ones by one call. After `Failed` a
/// part of their bytes, from the beginning, was written. Takes no memory.
pub fn write_joined<S: Sink>(sink: &mut S, pieces: &[&[u8]]) -> Result<(), SinkFault>
    ensures done { OnOk result (Gains (S.held sink.old) (S.held sink.new) (all_of pieces.now)) }
    ensures cut { OnErr result (GainsPart (S.held sink.old) (S.held sink.new) (all_of pieces.now)) }
    ensures cause { HasCause sink_failed (S.faults sink.old) (S.faults sink.new) result }
{
    let mut buffer = [0u8; SHORT];
    match join(&mut buffer, pieces) {
        Some(end) => write_all(sink, &[&buffer[..end]]),
        None => write_all(sink, pieces),
    }
}
