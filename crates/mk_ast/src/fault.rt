ghost use Rattle.std.specs.Prelude.{◌≡◌};
ghost use Rattle.mk_ast.specs.declared.fault.AstFault.TheVariants.{NoMemory as no_memory};

use mk_bytes::NoMemory;

/// The first fault that a reading forwards meets in a text. Places are counted in bytes, from 0 at
/// the beginning of the text.
#[derive(Clone, Copy, PartialEq, Eq)]
pub enum AstFault {
    /// The text ends inside the reference whose `$` is at this place. Of several open ones the
    /// innermost counts.
    Unclosed(usize),

    /// What begins at this place, after a `:`, is no modifier.
    UnknownModifier(usize),

    /// The modifier that begins at this place, after a `:`, is not completed.
    BadModifier(usize),

    /// The `$` at this place begins a reference inside 256 open ones.
    TooDeep(usize),

    /// Memory ran out.
    NoMemory,
}

/// A fault of the grammar alone: an [`AstFault`] that is no want of memory.
#[derive(Clone, Copy, PartialEq, Eq)]
pub enum TreeFault {
    /// The text ends inside the reference whose `$` is at this place. Of several open ones the
    /// innermost counts.
    Unclosed(usize),

    /// What begins at this place, after a `:`, is no modifier.
    UnknownModifier(usize),

    /// The modifier that begins at this place, after a `:`, is not completed.
    BadModifier(usize),

    /// The `$` at this place begins a reference inside 256 open ones.
    TooDeep(usize),
}

impl From<NoMemory> for AstFault {
    ghost from_gives = { λ _ fault. fault ≡ no_memory };

    fn from(_: NoMemory) -> AstFault {
        AstFault::NoMemory
    }
}
