use mk_bytes::{Items, Text};

/// A text, part by part. In a tree that [`parse`](crate::parse) gives, neighbouring plain bytes are
/// one `Plain`, and no `Plain` is empty.
pub type Tree = Items<Part>;

/// The modifiers of a reference, from left to right.
pub type ModTrees = Items<ModTree>;

/// A part of a text.
#[cycle(tree)]
#[derive(Drop)]
pub enum Part {
    /// Bytes that stand for themselves.
    Plain(Text),

    /// A byte with a backslash before it, where that is an escape.
    Escaped(u8),

    /// `$$`, which stands for a `$`.
    Double,

    /// A `$` that stands for itself.
    Lone,

    /// `$c`, the variable with the name `c`.
    Short(u8),

    /// `${name:modifiers}`, or `$(name:modifiers)` where it is `round`, with a name of plain bytes
    /// alone. It is the [`Ref`](Part::Ref) whose name is these bytes as one `Plain`, without the
    /// room of a tree.
    Named {
        round: bool,
        name: Text,
        mods: ModTrees,
    },

    /// `${name:modifiers}`, or `$(name:modifiers)` where it is `round`. [`parse`](crate::parse)
    /// gives it where the name is empty or has other parts than plain bytes.
    Ref {
        round: bool,
        name: Tree,
        mods: ModTrees,
    },
}

/// A modifier as it is written after its `:`.
#[cycle(tree)]
#[derive(Drop)]
pub enum ModTree {
    /// `Mpattern`
    Keep(Tree),
    /// `Npattern`
    Without(Tree),
    /// `S/from/to/flags`, with any delimiter. In `from` an unescaped `^` at the beginning is a
    /// plain byte, and an unescaped `$` at the end is a `Lone`.
    Subst {
        delim: u8,
        from: Tree,
        to: Tree,
        flags: Text,
    },
    /// `H`
    Head,
    /// `T`
    Tail,
    /// `R`
    Root,
    /// `E`
    Extension,
    /// `O`
    Sort,
    /// `Or`
    SortBack,
    /// `u`
    Unique,
    /// `tl`
    Lower,
    /// `tu`
    Upper,
    /// `Q`
    Quote,
    /// `q`
    QuoteDollar,
    /// `tsC`: what is written after `ts`.
    Separator(Text),
    /// `tW`, `[*]` or `[0]`: all that is written.
    OneWord(Text),
    /// `tw` or `[@]`: all that is written.
    ManyWords(Text),
    /// `[places]`
    Select(Tree),
    /// `range`, or `range=count`
    Range(Option<Tree>),
    /// `Utext`
    IfUndefined(Tree),
    /// `Dtext`
    IfDefined(Tree),
    /// `L`
    NameOf,
    /// `?text:text`
    Choose(Tree, Tree),
    /// `@name@body@`
    Each(Text, Tree),
    /// `old=new`
    Suffix(Tree, Tree),
    /// The empty modifier, as in `${name:}`.
    Empty,
}
