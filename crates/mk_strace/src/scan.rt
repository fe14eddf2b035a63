//! Pieces of the text of a call.
ghost use Rattle.std.specs.Prelude.{◌≡◌};
ghost use Rattle.std.specs.Option.{option_copied, option_map};
ghost use Rattle.mk_strace.specs.Scan as spec;

use mk_bytes::skip;

/// What a byte of a call's text stands in.
#[derive(Clone, Copy)]
pub enum Mode {
    Plain,
    /// In a text in quotes.
    Quoted,
    /// In such a text, behind a backslash.
    Escaped,
    /// In what is shown of an open file, between `<` and `>`.
    Angled,
}

fn after(mode: Mode, byte: u8) -> Mode
    ensures { result ≡ spec.after mode byte }
{
    match mode {
        Mode::Plain if byte == b'"' => Mode::Quoted,
        Mode::Plain if byte == b'<' => Mode::Angled,
        Mode::Plain => Mode::Plain,
        Mode::Quoted if byte == b'\\' => Mode::Escaped,
        Mode::Quoted if byte == b'"' => Mode::Plain,
        Mode::Quoted => Mode::Quoted,
        Mode::Escaped => Mode::Quoted,
        Mode::Angled if byte == b'>' => Mode::Plain,
        Mode::Angled => Mode::Angled,
    }
}

fn is_plain(mode: Mode) -> bool
    ensures { result ≡ spec.is_plain mode }
{
    matches!(mode, Mode::Plain)
}

/// A text without the spaces that it begins with.
pub fn without_spaces<'t>(text: &'t [u8]) -> &'t [u8]
    ensures { result.now ≡ spec.without_spaces text.now }
{
    let mut rest = text;
    'spaces: while let [b' ', after @ ..] = rest {
        rest = after;
    }
    rest
}

// What stands behind the sign of a result.
fn equals_at<'t>(text: &'t [u8]) -> Option<&'t [u8]>
    ensures { option_copied result ≡ spec.equals_at text.now }
{
    match text {
        [b'=', b' ', rest @ ..] => Some(rest),
        _ => None,
    }
}

// The result, where the bracket stands here that ends the words of a call.
fn result_at<'t>(text: &'t [u8]) -> Option<&'t [u8]>
    ensures { option_copied result ≡ spec.result_at text.now }
{
    match text {
        [b')', b' ', rest @ ..] => equals_at(without_spaces(rest)),
        _ => None,
    }
}

// Whether a word of a call ends here, and then whether it is the last one, and what follows it: the
// next word, or the result.
fn end_at<'t>(commas: bool, mode: Mode, text: &'t [u8]) -> Option<(bool, &'t [u8])>
    ensures { option_map (λ end. (end.0, end.1.now)) result ≡ spec.end_at commas mode text.now }
{
    if !is_plain(mode) {
        return None;
    }
    if commas && text.starts_with(b", ") {
        return Some((false, &text[2..]));
    }
    match result_at(text) {
        Some(rest) => Some((true, rest)),
        None => None,
    }
}

/// The next word of a call, or without `commas` all words, up to a comma or the end outside of
/// quotes and of what is shown of open files; whether it is the last one; and what follows it: the
/// next word, or the result of the call. `None` where there is no end.
pub fn cut<'t>(commas: bool, text: &'t [u8]) -> Option<(&'t [u8], bool, &'t [u8])>
    ensures { option_map (λ cut. (cut.0.now, cut.1, cut.2.now)) result
        ≡ spec.cut commas spec.mode.Plain text.now }
{
    let mut mode = Mode::Plain;
    for place in 0..text.len() {
        if let Some((is_last, rest)) = end_at(commas, mode, &text[place..]) {
            return Some((&text[..place], is_last, rest));
        }
        mode = after(mode, text[place]);
    }
    None
}

/// What stands behind the first of a word in a text.
pub fn behind<'t>(word: &[u8], text: &'t [u8]) -> Option<&'t [u8]>
    ensures { option_copied result ≡ spec.behind word.now text.now }
{
    let mut rest = text;
    'places: while let [_, after @ ..] = rest {
        if rest.starts_with(word) {
            return Some(skip(rest, word.len()));
        }
        rest = after;
    }
    None
}

/// Whether a word stands in a text.
pub fn has(word: &[u8], text: &[u8]) -> bool
    ensures { result ≡ spec.has word.now text.now }
{
    behind(word, text).is_some()
}
