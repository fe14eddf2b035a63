//! How `:S` is written: the anchors of its old text, and the `&` of its new one.
ghost use Rattle.std.specs.Prelude.{◌≡◌, true, false, MatchOption};
ghost use Rattle.mk_ast.specs.Tree.{part, plain};
ghost use Rattle.mk_ast.specs.View.{part_view, tree_view};
ghost use Rattle.mk_bytes.specs.Agrees.{Agrees};
ghost use Rattle.mk_values.specs.Chains.{has_flag};
ghost use Rattle.mk_values.specs.Limits.{appended};
ghost use Rattle.mk_values.specs.Substitutions as spec;
ghost use Rattle.mk_values.specs.declared.fault.ExpandFault.TheVariants.{NoMemory as no_memory};

use crate::fault::ExpandFault;
use crate::limit::append;
use mk_ast::Part;
use mk_bytes::Text;

/// Whether what is old is held to the beginning of a word.
pub fn at_start(parts: &[Part]) -> bool
    ensures { result ≡ spec.at_start (tree_view parts.now) }
{
    match parts {
        [Part::Plain(bytes), ..] => begins_with_caret(bytes.bytes()),
        _ => false,
    }
}

fn begins_with_caret(bytes: &[u8]) -> bool
    ensures { result ≡ spec.begins_with_caret bytes.now }
{
    match bytes {
        [byte, ..] => *byte == b'^',
        [] => false,
    }
}

fn is_lone(part: &Part) -> bool
    ensures { result ≡ spec.is_lone (part_view part.now) }
{
    match part {
        Part::Lone => true,
        _ => false,
    }
}

/// Whether what is old is held to the end of a word.
#[tactic(auto, using(crate::proofs::SubstitutionLemmas::at_end_last), unfolding(crate::specs::Substitutions::at_end))]
pub fn at_end(parts: &[Part]) -> bool
    ensures { result ≡ spec.at_end (tree_view parts.now) }
{
    match parts.split_last() {
        Some((last, _)) => is_lone(last),
        None => false,
    }
}

/// The parts without the anchor at their end.
#[tactic(auto, using(crate::proofs::SubstitutionLemmas::without_end_lone, crate::proofs::SubstitutionLemmas::without_end_other), unfolding(crate::specs::Substitutions::without_end))]
pub fn without_end<'t>(parts: &'t [Part]) -> &'t [Part]
    ensures { tree_view result.now ≡ spec.without_end (tree_view parts.now) }
{
    match parts.split_last() {
        Some((last, before)) if is_lone(last) => before,
        _ => parts,
    }
}

/// The plain bytes behind the anchor at the beginning and the other parts, where there is one.
pub fn starting<'t>(parts: &'t [Part]) -> Option<(&'t [u8], &'t [Part])>
    ensures { MatchOption result (spec.at_start (tree_view parts.now) ≡ false) (λ p.
        (spec.at_start (tree_view parts.now) ≡ true)
        × (spec.without_start (tree_view parts.now) ≡ part (plain p.0.now) (tree_view p.1.now))) }
{
    match parts {
        [Part::Plain(bytes), rest @ ..] if begins_with_caret(bytes.bytes()) => {
            Some((&bytes.bytes()[1..], rest))
        }
        _ => None,
    }
}

/// Whether a flag stands among the flags.
pub fn has_flag(flags: &[u8], flag: u8) -> bool
    ensures { result ≡ has_flag flags.now flag }
{
    flags.iter().any(|byte| *byte == flag)
}

/// Bytes behind the text so far, with what is old in the place of each `&`.
pub fn append_with_old(text: &mut Text, bytes: &[u8], old: &[u8]) -> Result<(), ExpandFault>
    ensures { Agrees no_memory (λ done. text.new) result
        (appended text.old (spec.with_old old.now bytes.now)) }
{
    for byte in bytes {
        if *byte == b'&' {
            append(text, old)?;
        } else {
            append(text, &[*byte])?;
        }
    }
    append(text, b"")
}
