//! What a turn of a loop reads.
ghost use Rattle.mk_blocks.specs.TurnBodies.{TurnsReadBodies};

use crate::language::Language;

/// A law of turns: where the words of a loop make no line a directive and hide none, and no line
/// longer than one may be, what a turn processes is the body that `unroll` of mk_for gives that
/// turn, inside the turns of the loops in it.
pub fn turns_read_their_bodies<L: Language>(_language: &L)
    ensures { (answers : L.ties.Answers)
        → TurnsReadBodies L.Failure L.ties.kind (L.ties.meaning answers) }
{}
