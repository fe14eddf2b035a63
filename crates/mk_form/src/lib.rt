//! Where the forms of references end in a text (make(1), "VARIABLE ASSIGNMENTS").
#![tactic(auto)]

ghost use Rattle.std.specs.Prelude.{◌≡◌, ◌≢◌, ◌<◌, ◌≤◌, length, slice_index, IfOk, IfErr};
ghost use Rattle.mk_ast.specs.FaultPlaces.{StandsIn};
ghost use Rattle.mk_ast.specs.Forms.{IsForm};
ghost use Rattle.mk_ast.specs.References as spec;
ghost use Rattle.mk_ast.specs.declared.fault.AstFault.TheVariants.{NoMemory as no_memory};
ghost use Rattle.mk_bytes.specs.Agrees.{Agrees};
ghost use Rattle.mk_bytes.specs.Bytes as byte;

use mk_ast::{AstFault, form_at};
use mk_bytes::skip;
use std::alloc::Global;

/// The place directly after the form that begins with the `$` at the place `at`, or the first fault
/// inside that form. Places are counted from the beginning of the text.
pub fn reference_end(alloc: Global, text: &[u8], at: usize) -> Result<usize, AstFault>
    requires inside { at < length text.now }
    requires form { slice_index text.now at ≡ byte.dollar }
    ensures exact { Agrees no_memory (λ end. end) result (spec.end_of_form text.now at) }
    ensures within { IfOk result (λ end. (at < end) × (end ≤ length text.now)) }
    ensures spelled { IfOk result (λ end. IsForm text.now at end) }
    ensures placed { IfErr result (λ fault. fault ≢ no_memory → StandsIn text.now fault) }
{
    let (_part, rest) = form_at(alloc, text.len(), skip(text, at + 1))?;
    Ok(text.len() - rest.len())
}
