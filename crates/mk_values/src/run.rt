//! How far an evaluation is.
ghost use Rattle.std.specs.Prelude.{◌≡◌, OnOk};
ghost use Rattle.mk_values.specs.Evaluators.{noted_with};

use crate::bound::Binding;
use mk_bytes::{NoMemory, Text, Texts};
use mk_pool::Region;
use std::alloc::Global;

/// How far an evaluation is: the variables whose values are being expanded, the variables of `:@`
/// with the innermost last, the number of references evaluated so far, the region in which the
/// words of modifiers lie, and the names that were looked up, where they are kept.
#[derive(Drop)]
pub struct Run {
    pub open_names: Texts,
    pub bound: Vec<Binding>,
    pub references: u32,
    pub region: Region,
    pub noted: Option<Texts>,
}

/// Keeps a name that is looked up, where names are kept.
pub fn note(alloc: Global, noted: &mut Option<Texts>, name: &[u8]) -> Result<(), NoMemory>
    ensures { OnOk result (noted.new ≡ noted_with noted.old name.now) }
{
    if let Some(names) = noted {
        names.push(Text::from_bytes(alloc, name)?)?;
    }
    Ok(())
}
