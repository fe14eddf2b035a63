//! Records say of steps what the laws of a world speak of.
ghost use Rattle.mk_filemon.specs.Steps.{TellOuterReads, TellLooks, TellWritten, SameByRecords};

use mk_world::{World, same_doing};

/// The outer reads of the records of steps are what the steps took from outside themselves. By all
/// records that tell of steps each look at a path that no earlier step had changed is among those
/// that were found, where a file stood there, and among those that were missed, where none did. A
/// path is left written by the records of steps exactly where the steps left a file there.
pub fn records_tell_of_steps()
    ensures outer { TellOuterReads }
    ensures looks { TellLooks }
    ensures written { TellWritten }
{}

/// A law of every world: two maps that agree on the recorded outer reads of what a command does on
/// one of them let it do the same on both.
pub fn same_by_records<W: World>(world: &W)
    ensures { SameByRecords W.meaning }
{
    same_doing(world);
}
