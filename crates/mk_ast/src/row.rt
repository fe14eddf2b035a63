//! The rows of the table of modifiers, by what begins them (make(1), "Variable modifiers").
ghost use Rattle.std.specs.Prelude.{◌≡◌};
ghost use Rattle.mk_ast.specs.Rows as spec;

use crate::place::ends_modifier;
use mk_bytes::{begins, skip};

/// A modifier that is one word.
#[derive(Clone, Copy)]
pub enum Word {
    Head,
    Tail,
    Root,
    Extension,
    Sort,
    SortBack,
    Unique,
    Lower,
    Upper,
    Quote,
    QuoteDollar,
    OneWord,
    OneWordStar,
    OneWordZero,
    ManyWords,
    ManyWordsAt,
    Range,
    NameOf,
}

const WORDS: [Word; 18] = [
    Word::Head,
    Word::Tail,
    Word::Root,
    Word::Extension,
    Word::Sort,
    Word::SortBack,
    Word::Unique,
    Word::Lower,
    Word::Upper,
    Word::Quote,
    Word::QuoteDollar,
    Word::OneWord,
    Word::OneWordStar,
    Word::OneWordZero,
    Word::ManyWords,
    Word::ManyWordsAt,
    Word::Range,
    Word::NameOf,
];

/// A modifier that is a letter or a word, and then one text up to its end.
#[derive(Clone, Copy)]
pub enum Argument {
    Keep,
    Without,
    RangeTo,
    IfUndefined,
    IfDefined,
}

/// The row that a modifier begins.
#[derive(Clone, Copy)]
pub enum Row {
    /// A modifier of make that is left out here.
    LeftOut,
    Empty,
    Word(Word),
    Argument(Argument),
    Subst,
    Separator,
    Select,
    Choose,
    Each,
    Suffix,
}

/// A word as it is written.
pub fn word_text(word: Word) -> &'static [u8]
    ensures { result.now ≡ spec.word_text word }
{
    match word {
        Word::Head => b"H",
        Word::Tail => b"T",
        Word::Root => b"R",
        Word::Extension => b"E",
        Word::Sort => b"O",
        Word::SortBack => b"Or",
        Word::Unique => b"u",
        Word::Lower => b"tl",
        Word::Upper => b"tu",
        Word::Quote => b"Q",
        Word::QuoteDollar => b"q",
        Word::OneWord => b"tW",
        Word::OneWordStar => b"[*]",
        Word::OneWordZero => b"[0]",
        Word::ManyWords => b"tw",
        Word::ManyWordsAt => b"[@]",
        Word::Range => b"range",
        Word::NameOf => b"L",
    }
}

/// Whether a modifier ends where this text begins. The end of the text is no end of a modifier.
pub fn is_end(round: bool, text: &[u8]) -> bool
    ensures { result ≡ spec.is_end round text.now }
{
    match text {
        [] => false,
        [first, ..] => ends_modifier(round, *first),
    }
}

#[tactic(auto, unfolding(crate::specs::Rows::is_word))]
fn is_word(round: bool, word: &[u8], text: &[u8]) -> bool
    ensures { result ≡ spec.is_word round word.now text.now }
{
    begins(word, text) && is_end(round, skip(text, word.len()))
}

// The first of these words that a modifier is.
fn word_among(round: bool, words: &[Word], text: &[u8]) -> Option<Word>
    ensures { result ≡ spec.word_among round words.now text.now }
{
    for word in words {
        if is_word(round, word_text(*word), text) {
            return Some(*word);
        }
    }
    None
}

fn ends_left_out(round: bool, text: &[u8]) -> bool
    ensures { result ≡ spec.ends_left_out round text.now }
{
    match text {
        [] => true,
        [first, ..] => ends_modifier(round, *first) || *first == b'=',
    }
}

#[tactic(auto, unfolding(crate::specs::Rows::is_left_out_word))]
fn is_left_out_word(round: bool, word: &[u8], text: &[u8]) -> bool
    ensures { result ≡ spec.is_left_out_word round word.now text.now }
{
    begins(word, text) && ends_left_out(round, skip(text, word.len()))
}

fn begins_left_out(text: &[u8]) -> bool
    ensures { result ≡ spec.begins_left_out text.now }
{
    begins(b"C", text)
        || begins(b"!", text)
        || begins(b"_", text)
        || begins(b":=", text)
        || begins(b":+=", text)
        || begins(b":?=", text)
        || begins(b":!=", text)
}

fn is_left_out(round: bool, text: &[u8]) -> bool
    ensures { result ≡ spec.is_left_out round text.now }
{
    begins_left_out(text)
        || is_left_out_word(round, b"hash", text)
        || is_left_out_word(round, b"sh", text)
        || is_left_out_word(round, b"tA", text)
        || is_left_out_word(round, b"P", text)
        || is_left_out_word(round, b"Ox", text)
        || is_left_out_word(round, b"On", text)
        || is_left_out_word(round, b"gmtime", text)
        || is_left_out_word(round, b"localtime", text)
        || is_left_out_word(round, b"mtime", text)
}

fn is_empty(round: bool, text: &[u8]) -> bool
    ensures { result ≡ spec.is_empty round text.now }
{
    match text {
        [] => true,
        [first, ..] => ends_modifier(round, *first),
    }
}

fn begun_row(text: &[u8]) -> Row
    ensures { result ≡ spec.begun_row text.now }
{
    if begins(b"M", text) {
        return Row::Argument(Argument::Keep);
    }
    if begins(b"N", text) {
        return Row::Argument(Argument::Without);
    }
    if begins(b"S", text) {
        return Row::Subst;
    }
    if begins(b"ts", text) {
        return Row::Separator;
    }
    if begins(b"[", text) {
        return Row::Select;
    }
    if begins(b"range=", text) {
        return Row::Argument(Argument::RangeTo);
    }
    if begins(b"U", text) {
        return Row::Argument(Argument::IfUndefined);
    }
    if begins(b"D", text) {
        return Row::Argument(Argument::IfDefined);
    }
    if begins(b"?", text) {
        return Row::Choose;
    }
    if begins(b"@", text) {
        return Row::Each;
    }
    Row::Suffix
}

/// The row that a modifier begins, which is the text behind its `:`.
pub fn row_of(round: bool, text: &[u8]) -> Row
    ensures { result ≡ spec.row_of round text.now }
{
    if is_left_out(round, text) {
        return Row::LeftOut;
    }
    if is_empty(round, text) {
        return Row::Empty;
    }
    match word_among(round, &WORDS, text) {
        Some(word) => Row::Word(word),
        None => begun_row(text),
    }
}
