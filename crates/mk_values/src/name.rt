//! What names stand for.
ghost use Rattle.std.specs.Prelude.{◌≡◌};
ghost use Rattle.std.specs.Option.{option_copied};
ghost use Rattle.mk_bytes.specs.Agrees.{Agrees};
ghost use Rattle.mk_values.specs.Names as spec;
ghost use Rattle.mk_values.specs.declared.fault.ExpandFault.TheVariants.{NoMemory as no_memory};

use crate::bound::{Binding, last_value};
use crate::fault::ExpandFault;
use crate::local::{Locals, local_raw};
use mk_bytes::Text;
use mk_scopes::Scopes;
use std::alloc::Global;

/// What names stand for: the local names stand above the variables.
#[derive(Clone, Copy)]
pub struct Names<'n> {
    pub alloc: Global,
    pub scopes: &'n Scopes,
    pub locals: &'n Locals,
}

/// The raw value of a variable. The empty name has none.
pub fn known<'s>(scopes: &'s Scopes, name: &[u8]) -> Option<&'s Text>
    ensures { option_copied result ≡ spec.known scopes.now name.now }
{
    if name.is_empty() {
        return None;
    }
    scopes.get(name)
}

/// The raw value of a variable of `:@`, or else of a local name.
pub fn raw_above(
    names: &Names<'_>,
    bound: &[Binding],
    name: &[u8],
) -> Result<Option<Text>, ExpandFault>
    ensures { Agrees no_memory (λ raw. raw) result
        (spec.raw_above names.now.locals.now bound.now name.now) }
{
    match last_value(bound, name) {
        Some(word) => Ok(Some(Text::from_bytes(names.alloc, word)?)),
        None => local_raw(names.alloc, names.locals, name),
    }
}
