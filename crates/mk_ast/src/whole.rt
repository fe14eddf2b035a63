//! Whole texts, and single forms in them.
ghost use Rattle.std.specs.Prelude.{◌≡◌, ◌≢◌, ◌<◌, ◌≤◌, length, IfOk, IfErr};
ghost use Rattle.mk_bytes.specs.Agrees.{Agrees};
ghost use Rattle.mk_ast.specs.FaultPlaces.{StandsIn};
ghost use Rattle.mk_ast.specs.References as spec;
ghost use Rattle.mk_ast.specs.Spell.{spell};
ghost use Rattle.mk_ast.specs.Tree.{Tree as PlainTree};
ghost use Rattle.mk_ast.specs.View.{part_view, tree_view};
ghost use Rattle.mk_ast.specs.WellFormed.{IsWellFormed};
ghost use Rattle.mk_ast.specs.declared.fault.AstFault.TheVariants.{NoMemory as no_memory};

use crate::fault::AstFault;
use crate::place::Place;
use crate::read::{Level, dollar_at, text_at};
use crate::tree::{Part, Tree};
use std::alloc::Global;

/// How many references may be open at once.
pub const MAX_OPEN: usize = 256;

/// The tree of a text, or the first fault that a reading forwards meets, with its place. In the
/// tree neighbouring plain bytes are one part, and no plain part is empty.
pub fn parse(alloc: Global, text: &[u8]) -> Result<Tree, AstFault>
    ensures exact { Agrees no_memory (λ tree. tree_view tree) result (spec.tree_of_text text.now) }
    // So `print` gives the text back.
    ensures spelled { IfOk result (λ tree. spell (tree_view tree) ≡ text.now) }
    ensures formed { IfOk result (λ tree. IsWellFormed (tree_view tree)) }
    // No other well-formed tree has this text ..
    ensures alone { IfOk result (λ tree. (other : PlainTree)
        → IsWellFormed other → spell other ≡ text.now → other ≡ tree_view tree) }
    // .. and a text with a fault is that of none.
    ensures outside { IfErr result (λ fault. fault ≢ no_memory
        → (other : PlainTree) → IsWellFormed other → spell other ≡ text.now → ⊥) }
    ensures placed { IfErr result (λ fault. fault ≢ no_memory → StandsIn text.now fault) }
{
    let level = Level {
        total: text.len(),
        depth: MAX_OPEN,
    };
    let (tree, _rest) = text_at(alloc, level, Place::Whole, text)?;
    Ok(tree)
}

/// The form that `text` begins with behind its `$`, and what is left behind it, or the first fault
/// inside it. The text is the end of a whole of `total` bytes, from the beginning of which places
/// are counted.
pub fn form_at<'t>(
    alloc: Global,
    total: usize,
    text: &'t [u8],
) -> Result<(Part, &'t [u8]), AstFault>
    requires { length text.now < total }
    ensures exact { Agrees no_memory (λ x. (part_view x.0, x.1.now)) result
        (spec.form_at total text.now) }
    ensures shorter { IfOk result (λ x. length x.1.now ≤ length text.now) }
{
    let level = Level {
        total,
        depth: MAX_OPEN,
    };
    let (part, rest) = dollar_at(alloc, level, Place::Whole, text)?;
    Ok((part, rest))
}
