//! Bytes that stand for themselves, and `$$`.
ghost use Rattle.std.specs.Prelude.{◌≡◌, ◌≤◌, [], length, IfSome};
ghost use Rattle.mk_ast.specs.Tree.{end, part, plain};
ghost use Rattle.mk_ast.specs.View.{tree_view};
ghost use Rattle.mk_bytes.specs.Agrees.{Agrees};
ghost use Rattle.mk_values.specs.Limits.{appended, max_text};
ghost use Rattle.mk_values.specs.Texts.{has_dollar};
ghost use Rattle.mk_values.specs.Parts.{double_value};
ghost use Rattle.mk_values.specs.declared.fault.ExpandFault.TheVariants.{NoMemory as no_memory};

use crate::fault::ExpandFault;
use crate::limit::MAX_TEXT;
use mk_ast::Part;
use mk_bytes::Text;
use std::alloc::Global;

/// Whether a `$` stands in a text.
pub fn has_dollar(text: &[u8]) -> bool
    ensures { result ≡ has_dollar text.now }
{
    text.contains(&b'$')
}

/// The value of a text without any `$`.
pub fn plain_value(alloc: Global, text: &[u8]) -> Result<Text, ExpandFault>
    ensures { Agrees no_memory (λ value. value) result (appended [] text.now) }
{
    if text.len() > MAX_TEXT {
        return Err(ExpandFault::TooLong);
    }
    Ok(Text::from_bytes(alloc, text)?)
}

/// The bytes of a text of plain bytes alone, which are its value.
pub fn plain_bytes<'t>(parts: &'t [Part]) -> Option<&'t [u8]>
    ensures text { IfSome result (λ bytes. tree_view parts.now ≡ part (plain bytes.now) end) }
    ensures short { IfSome result (λ bytes. length bytes.now ≤ max_text) }
{
    match parts {
        [Part::Plain(bytes)] if bytes.len() <= MAX_TEXT => Some(bytes.bytes()),
        _ => None,
    }
}

/// What `$$` gives.
pub fn double(keep: bool) -> &'static [u8]
    ensures { result.now ≡ double_value keep }
{
    if keep { b"$$" } else { b"$" }
}
