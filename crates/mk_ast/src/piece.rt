//! The texts of a condition, which stand in a longer text (make(1), the directive `.if`).
ghost use Rattle.std.specs.Prelude.{◌≤◌, length, IfOk};
ghost use Rattle.mk_bytes.specs.Agrees.{Agrees};
ghost use Rattle.mk_ast.specs.References as spec;
ghost use Rattle.mk_ast.specs.View.{tree_view};
ghost use Rattle.mk_ast.specs.declared.fault.AstFault.TheVariants.{NoMemory as no_memory};

use crate::fault::AstFault;
use crate::place::{Piece, Place};
use crate::read::{Level, mods_at, text_at};
use crate::tree::{Part, Tree};
use crate::whole::MAX_OPEN;
use mk_bytes::Items;
use std::alloc::Global;

/// The tree of the piece that `text` begins with, and what is left from the byte that ends it, or
/// the first fault of a reference in it. The text is the end of a whole of `total` bytes, from the
/// beginning of which places are counted.
pub fn piece_at<'t>(
    alloc: Global,
    total: usize,
    piece: Piece,
    text: &'t [u8],
) -> Result<(Tree, &'t [u8]), AstFault>
    requires { length text.now ≤ total }
    ensures exact { Agrees no_memory (λ x. (tree_view x.0, x.1.now)) result
        (spec.piece_at total piece text.now) }
    ensures shorter { IfOk result (λ x. length x.1.now ≤ length text.now) }
{
    let level = Level {
        total,
        depth: MAX_OPEN,
    };
    let (tree, rest) = text_at(alloc, level, Place::Piece(piece), text)?;
    Ok((tree, rest))
}

/// A name with its modifiers up to the parenthesis that closes it, as one round reference, and what
/// is left behind the parenthesis. `Unclosed(total)` where that parenthesis is missing, and else
/// the first fault inside. Text and places are those of [`piece_at`].
#[tactic(auto, using(crate::proofs::Views::views))]
pub fn bare_reference_at<'t>(
    alloc: Global,
    total: usize,
    text: &'t [u8],
) -> Result<(Tree, &'t [u8]), AstFault>
    requires { length text.now ≤ total }
    ensures exact { Agrees no_memory (λ x. (tree_view x.0, x.1.now)) result
        (spec.bare_reference_at total text.now) }
    ensures shorter { IfOk result (λ x. length x.1.now ≤ length text.now) }
{
    let level = Level {
        total,
        depth: MAX_OPEN - 1,
    };
    let round = true;
    let (name, rest) = text_at(alloc, level, Place::Name { round, nested: 0 }, text)?;
    let (mods, rest) = mods_at(alloc, level, total, round, rest)?;
    let mut tree = Items::new(alloc, 1)?;
    tree.push(Part::Ref { round, name, mods })?;
    Ok((tree, rest))
}
