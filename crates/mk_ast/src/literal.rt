//! The parts of modifiers that hold no references: words, flags and separators.
ghost use Rattle.std.specs.Prelude.{◌≡◌, ◌≤◌, length, position, IfOk};
ghost use Rattle.mk_bytes.specs.Agrees.{Agrees};
ghost use Rattle.mk_ast.specs.Modifiers as spec;
ghost use Rattle.mk_ast.specs.Rows.{word_mod};
ghost use Rattle.mk_ast.specs.View.{mod_view};
ghost use Rattle.mk_ast.specs.declared.fault.AstFault.TheVariants.{NoMemory as no_memory};

use crate::fault::AstFault;
use crate::row::{Word, is_end, word_text};
use crate::separator::separator_len;
use crate::tree::ModTree;
use mk_bytes::{NoMemory, Text, skip};
use std::alloc::Global;

/// A modifier that is one word.
#[tactic(auto, using(crate::proofs::Views::views))]
pub fn word_tree(alloc: Global, word: Word) -> Result<ModTree, NoMemory>
    ensures { IfOk result (λ one. mod_view one ≡ word_mod word) }
{
    match word {
        Word::Head => Ok(ModTree::Head),
        Word::Tail => Ok(ModTree::Tail),
        Word::Root => Ok(ModTree::Root),
        Word::Extension => Ok(ModTree::Extension),
        Word::Sort => Ok(ModTree::Sort),
        Word::SortBack => Ok(ModTree::SortBack),
        Word::Unique => Ok(ModTree::Unique),
        Word::Lower => Ok(ModTree::Lower),
        Word::Upper => Ok(ModTree::Upper),
        Word::Quote => Ok(ModTree::Quote),
        Word::QuoteDollar => Ok(ModTree::QuoteDollar),
        Word::OneWord | Word::OneWordStar | Word::OneWordZero => {
            let written = Text::from_bytes(alloc, word_text(word))?;
            Ok(ModTree::OneWord(written))
        }
        Word::ManyWords | Word::ManyWordsAt => {
            let written = Text::from_bytes(alloc, word_text(word))?;
            Ok(ModTree::ManyWords(written))
        }
        Word::Range => Ok(ModTree::Range(None)),
        Word::NameOf => Ok(ModTree::NameOf),
    }
}

fn is_flag(byte: u8) -> bool
    ensures { result ≡ spec.is_flag byte }
{
    byte == b'1' || byte == b'g' || byte == b'W'
}

fn end_of_flags(text: &[u8]) -> Option<usize>
    ensures { result ≡ position spec.is_no_flag text.now }
{
    text.iter().position(|byte| !is_flag(*byte))
}

// How many flags of `:S` a text begins with.
fn flags_len(text: &[u8]) -> usize
    ensures same { result ≡ spec.flags_len text.now }
    ensures within { result ≤ length text.now }
{
    end_of_flags(text).unwrap_or(text.len())
}

/// The flags of `:S`, and what is behind them, where the modifier ends.
pub fn flags_at<'t>(
    alloc: Global,
    start: usize,
    round: bool,
    text: &'t [u8],
) -> Result<(Text, &'t [u8]), AstFault>
    ensures gives { Agrees no_memory (λ x. (x.0, x.1.now)) result
        (spec.flags_at start round text.now) }
    ensures shorter { IfOk result (λ x. length x.1.now ≤ length text.now) }
{
    let len = flags_len(text);
    let rest = skip(text, len);
    if !is_end(round, rest) {
        return Err(AstFault::BadModifier(start));
    }
    let flags = Text::from_bytes(alloc, &text[..len])?;
    Ok((flags, rest))
}

/// `tsC`, behind the `ts`.
#[tactic(auto, using(crate::proofs::Views::views))]
pub fn separator_at<'t>(
    alloc: Global,
    start: usize,
    round: bool,
    text: &'t [u8],
) -> Result<(ModTree, &'t [u8]), AstFault>
    ensures gives { Agrees no_memory (λ x. (mod_view x.0, x.1.now)) result
        (spec.separator_at start round text.now) }
    ensures shorter { IfOk result (λ x. length x.1.now ≤ length text.now) }
{
    let Some(len) = separator_len(round, text) else {
        return Err(AstFault::BadModifier(start));
    };
    let written = Text::from_bytes(alloc, &text[..len])?;
    Ok((ModTree::Separator(written), skip(text, len)))
}
