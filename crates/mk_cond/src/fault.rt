ghost use Rattle.std.specs.Prelude.{◌≡◌};
ghost use Rattle.mk_cond.specs.Terms.{of_tree};
ghost use Rattle.mk_cond.specs.declared.fault.CondFault.TheVariants.{NoMemory as no_memory};

use mk_ast::{AstFault, TreeFault};
use mk_bytes::NoMemory;

/// The first fault that a reading forwards meets in a condition. Places are counted in bytes, from
/// 0 at the beginning of the text.
#[derive(Clone, Copy, PartialEq, Eq)]
pub enum CondFault {
    /// The byte at this place does not fit, or the text ends there too early.
    Bad(usize),

    /// A reference has this fault.
    Tree(TreeFault),

    /// The parenthesis or `!` at this place is opened inside 256 open ones.
    TooDeep(usize),

    /// Memory ran out.
    NoMemory,
}

impl From<NoMemory> for CondFault {
    ghost from_gives = { λ _ fault. fault ≡ no_memory };

    fn from(_: NoMemory) -> CondFault {
        CondFault::NoMemory
    }
}

impl From<AstFault> for CondFault {
    ghost from_gives = { λ given fault. fault ≡ of_tree given };

    fn from(fault: AstFault) -> CondFault {
        match fault {
            AstFault::Unclosed(at) => CondFault::Tree(TreeFault::Unclosed(at)),
            AstFault::UnknownModifier(at) => CondFault::Tree(TreeFault::UnknownModifier(at)),
            AstFault::BadModifier(at) => CondFault::Tree(TreeFault::BadModifier(at)),
            AstFault::TooDeep(at) => CondFault::Tree(TreeFault::TooDeep(at)),
            AstFault::NoMemory => CondFault::NoMemory,
        }
    }
}

/// A side of `<`, `<=`, `>` or `>=` is a quoted text, or no number.
#[derive(Clone, Copy, PartialEq, Eq)]
pub struct NoNumber;
