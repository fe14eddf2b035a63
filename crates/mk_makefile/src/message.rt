//! Messages on standard error (make(1), the directives `.warning` and `.info`).
ghost use Rattle.std.specs.Prelude.{◌≡◌, decimal, OnOk, OnErr};
ghost use Rattle.mk_makefile.specs.Messages as spec;
ghost use Rattle.mk_world.specs.Causes.{HasCause};
ghost use Rattle.mk_world.specs.Sinks.{Gains, GainsPart};
ghost use Rattle.mk_world.specs.declared.fault.SinkFault.TheVariants.{Failed};

use mk_world::{Sink, SinkFault, write_all};

/// Writes a message, with the number of its line in decimal.
pub fn write_message<'t, S: Sink>(
    sink: &mut S,
    file: &'t [u8],
    digits: &'t [u8],
    number: u32,
    mark: &'t [u8],
    text: &'t [u8],
) -> Result<(), SinkFault>
    requires { digits.now ≡ decimal number }
    ensures done { OnOk result (Gains (S.held sink.old) (S.held sink.new)
        (spec.message_line file.now number mark.now text.now)) }
    ensures cut { OnErr result (GainsPart (S.held sink.old) (S.held sink.new)
        (spec.message_line file.now number mark.now text.now)) }
    ensures cause { HasCause Failed (S.faults sink.old) (S.faults sink.new) result }
{
    write_all(
        sink,
        &[
            b"bmake: \"",
            file,
            b"\" line ",
            digits,
            b": ",
            mark,
            text,
            b"\n",
        ],
    )
}
