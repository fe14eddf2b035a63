use mk_bytes::Text;

/// A modifier with its arguments, which are expanded.
#[derive(Drop)]
pub enum Mod {
    /// `:Mpattern`: the words that match.
    Keep(Text),
    /// `:Npattern`: the words that do not match.
    Without(Text),
    /// `:S/from/to/`: in each word the first place of `from` becomes `to`. `to` has each `&`
    /// replaced by `from` already.
    Subst {
        from: Text,
        to: Text,
        /// The anchor `^`: only at the start of a word.
        at_start: bool,
        /// The anchor `$`: only at the end of a word.
        at_end: bool,
        /// The flag `g`: at all places from the left, without overlap.
        all: bool,
        /// The flag `1`: in the first word that matches alone.
        once: bool,
        /// The flag `W`: the printed text is the one word.
        whole: bool,
    },
    /// `:old=new`: the end of a word, or what stands around the middle that `%` is.
    Suffix(Text, Text),
    /// `:H`: what stands before the last slash of each word.
    Head,
    /// `:T`: what follows it.
    Tail,
    /// `:R`: what stands before the last dot of each word.
    Root,
    /// `:E`: what follows it.
    Extension,
    /// `:O`: the words in the order of their bytes.
    Sort,
    /// `:Or`: in reverse.
    SortBack,
    /// `:u`: without adjacent repeats.
    Unique,
    /// `:tl`: in small letters.
    Lower,
    /// `:tu`: in capitals.
    Upper,
    /// `:Q`: quoted for a shell.
    Quote,
    /// `:q`: with each `$` doubled, and quoted for a shell.
    QuoteDollar,
    /// `:tsC`: what stands between the items in the printed text.
    Separator(Option<u8>),
    /// `:tW` or `:[*]`: the printed text is one word.
    OneWord,
    /// `:tw` or `:[@]`: words are cut again.
    ManyWords,
    /// `:[n]`, `:[a..b]` or `:[#]`: the words at places, or their number.
    Select(Text),
    /// `:range=n`: the numbers from 1 to `n`, or where that is 0 to the number of words.
    Range(Text),
}
