//! The words of directives.
ghost use Rattle.std.specs.Prelude.{◌≡◌, ◌≤◌, length};
ghost use Rattle.std.specs.Option.{option_map};
ghost use Rattle.mk_directive.specs.Directives as spec;

use mk_bytes::without_blanks_before;
use mk_cond::Form;

/// A directive of make(1).
#[derive(Clone, Copy, PartialEq, Eq)]
pub enum Directive {
    /// `.if` and its kin, with the form of their conditions.
    If(Form),
    /// `.elif` and its kin.
    ElseIf(Form),
    Else,
    EndIf,
    For,
    EndFor,
    Break,
    /// `.include`.
    Include,
    /// `.-include`, `.sinclude` and `.dinclude`, which pass over a missing file.
    TryInclude,
    Undef,
    Error,
    Warning,
    Info,
    Export,
    Unexport,
}

/// A directive, and what follows its word and the blanks behind that.
#[derive(Clone, Copy)]
pub struct Directed<'t> {
    pub directive: Directive,
    pub argument: &'t [u8],
}

fn is_word_byte(byte: u8) -> bool
    ensures { result ≡ spec.is_word_byte byte }
{
    byte.is_ascii_lowercase() || byte == b'-'
}

fn word_len(text: &[u8]) -> usize
    ensures len { result ≡ spec.word_len text.now }
    ensures within { result ≤ length text.now }
{
    text.iter().take_while(|byte| is_word_byte(**byte)).count()
}

fn is_name_byte(byte: u8) -> bool
    ensures { result ≡ spec.is_name_byte byte }
{
    matches!(
        byte,
        b'A'..=b'Z' | b'a'..=b'z' | b'0'..=b'9' | b'_' | b'.' | b':' | b'=' | b'+' | b'?'
    )
}

fn begins_with_name_byte(text: &[u8]) -> bool
    ensures { result ≡ spec.begins_with_name_byte text.now }
{
    match text {
        [] => false,
        [first, ..] => is_name_byte(*first),
    }
}

fn conditional(word: &[u8]) -> Option<Directive>
    ensures { result ≡ spec.conditional word.now }
{
    match word {
        b"if" => Some(Directive::If(Form::If)),
        b"ifdef" => Some(Directive::If(Form::Def)),
        b"ifndef" => Some(Directive::If(Form::Ndef)),
        b"ifmake" => Some(Directive::If(Form::Make)),
        b"ifnmake" => Some(Directive::If(Form::Nmake)),
        _ => None,
    }
}

fn further_branch(word: &[u8]) -> Option<Directive>
    ensures { result ≡ spec.further_branch word.now }
{
    match word {
        b"elif" => Some(Directive::ElseIf(Form::If)),
        b"elifdef" => Some(Directive::ElseIf(Form::Def)),
        b"elifndef" => Some(Directive::ElseIf(Form::Ndef)),
        b"elifmake" => Some(Directive::ElseIf(Form::Make)),
        b"elifnmake" => Some(Directive::ElseIf(Form::Nmake)),
        _ => None,
    }
}

fn of_block(word: &[u8]) -> Option<Directive>
    ensures { result ≡ spec.of_block word.now }
{
    match word {
        b"else" => Some(Directive::Else),
        b"endif" => Some(Directive::EndIf),
        b"for" => Some(Directive::For),
        b"endfor" => Some(Directive::EndFor),
        b"break" => Some(Directive::Break),
        _ => None,
    }
}

fn inclusion(word: &[u8]) -> Option<Directive>
    ensures { result ≡ spec.inclusion word.now }
{
    match word {
        b"include" => Some(Directive::Include),
        b"-include" | b"sinclude" | b"dinclude" => Some(Directive::TryInclude),
        _ => None,
    }
}

fn other(word: &[u8]) -> Option<Directive>
    ensures { result ≡ spec.other word.now }
{
    match word {
        b"undef" => Some(Directive::Undef),
        b"error" => Some(Directive::Error),
        b"warning" => Some(Directive::Warning),
        b"info" => Some(Directive::Info),
        b"export" => Some(Directive::Export),
        b"unexport" => Some(Directive::Unexport),
        _ => None,
    }
}

// The directive of a word.
fn named(word: &[u8]) -> Option<Directive>
    ensures { result ≡ spec.named word.now }
{
    if let Some(found) = conditional(word) {
        return Some(found);
    }
    if let Some(found) = further_branch(word) {
        return Some(found);
    }
    if let Some(found) = of_block(word) {
        return Some(found);
    }
    if let Some(found) = inclusion(word) {
        return Some(found);
    }
    other(word)
}

// The directive that a text begins with, behind the dot and its blanks.
#[inline(always)]
fn behind_dot<'t>(text: &'t [u8]) -> Option<Directed<'t>>
    ensures { option_map (λ d. (d.directive, d.argument.now)) result ≡ spec.behind_dot text.now }
{
    let (word, rest) = text.split_at(word_len(text));
    if begins_with_name_byte(rest) {
        return None;
    }
    let directive = named(word)?;
    Some(Directed {
        directive,
        argument: without_blanks_before(rest),
    })
}

/// The directive that a line is, without its comment and leading spaces: it begins with `.`, then
/// come blanks if any, then the word of a directive, which no byte of a name follows. `None` for
/// every other line. A comment behind the word does not change the directive. Takes no memory.
// Most callers need the directive alone, and then the rest is not computed.
#[inline(always)]
pub fn directive_on<'t>(line: &'t [u8]) -> Option<Directed<'t>>
    ensures { option_map (λ d. (d.directive, d.argument.now)) result ≡ spec.directive_on line.now }
{
    match line {
        [b'.', rest @ ..] => behind_dot(without_blanks_before(rest)),
        _ => None,
    }
}
