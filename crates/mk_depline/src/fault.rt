use mk_bytes::NoMemory;

/// Why a text is no dependency line. Where several hold, the first of this order is answered.
#[derive(Clone, Copy, PartialEq, Eq)]
pub enum DepFault {
    /// There is no `:` and no `!`.
    NoOperator,
    /// The operator is `::`.
    DoubleColon,
    /// No target stands before the operator, or none is left of the braces.
    NoTargets,
    /// A `{` has no `}`.
    Brace,
    /// A special target has another target beside it.
    MixedSpecial,
    /// A rule from one suffix to another has sources.
    RuleSources,
    /// Memory ran out.
    NoMemory,
}

impl From<NoMemory> for DepFault {
    ghost use Rattle.std.specs.Prelude.{◌≡◌};
    ghost use Rattle.mk_depline.specs.declared.fault.DepFault.TheVariants.{NoMemory as no_memory};

    ghost from_gives = { λ _ fault. fault ≡ no_memory };

    fn from(_: NoMemory) -> DepFault {
        DepFault::NoMemory
    }
}
