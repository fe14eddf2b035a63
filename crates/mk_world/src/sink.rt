ghost use Rattle.std.specs.Prelude.{◌≡◌, ◌<◌, ◌≤◌, ℕ, List, Option, [], length, take, IfOk, OnOk};
ghost use Rattle.std.specs.Prelude.{OnErr};
ghost use Rattle.mk_world.specs.Causes.{HasCause};
ghost use Rattle.mk_world.specs.Sinks.{Gains, GainsPart, all_of};
ghost use Rattle.mk_world.specs.declared.fault.SinkFault.TheVariants.{Failed};

use crate::fault::SinkFault;

/// What takes the bytes that make prints: its standard output or its standard error.
pub trait Sink {
    /// The bytes that it holds, where it tells. A sink that tells after a call told before it.
    ghost held: { Self → Option (List ℕ) };

    /// How often a write has failed. The count never falls, and stands still at its last value.
    ghost faults: { Self → ℕ };

    /// Writes the first bytes of a piece, at least one, and gives their number. After `Failed`,
    /// which comes only where the count of faults rose in this call or is at its end, nothing of
    /// the piece was written. Takes no memory.
    fn write(&mut self, bytes: &[u8]) -> Result<usize, SinkFault>
        requires { 0 < length bytes.now }
        ensures some { IfOk result (λ n. 0 < n) }
        ensures within { IfOk result (λ n. n ≤ length bytes.now) }
        ensures done { IfOk result (λ n. Gains (held self.old) (held self.new) (take n bytes.now)) }
        ensures refused { OnErr result (Gains (held self.old) (held self.new) []) }
        ensures cause { HasCause Failed (faults self.old) (faults self.new) result };
}

fn write_piece<S: Sink>(sink: &mut S, piece: &[u8]) -> Result<(), SinkFault>
    ensures done { OnOk result (Gains (S.held sink.old) (S.held sink.new) piece.now) }
    ensures cut { OnErr result (GainsPart (S.held sink.old) (S.held sink.new) piece.now) }
    ensures cause { HasCause Failed (S.faults sink.old) (S.faults sink.new) result }
{
    let mut rest = piece;
    while !rest.is_empty() {
        let written = sink.write(rest)?;
        rest = &rest[written..];
    }
    Ok(())
}

/// Writes all of these pieces, one after the other. After `Failed` a part of their bytes, from the
/// beginning, was written. Takes no memory.
pub fn write_all<S: Sink>(sink: &mut S, pieces: &[&[u8]]) -> Result<(), SinkFault>
    ensures done { OnOk result (Gains (S.held sink.old) (S.held sink.new) (all_of pieces.now)) }
    ensures cut { OnErr result (GainsPart (S.held sink.old) (S.held sink.new) (all_of pieces.now)) }
    ensures cause { HasCause Failed (S.faults sink.old) (S.faults sink.new) result }
{
    for piece in pieces {
        write_piece(sink, piece)?;
    }
    Ok(())
}
