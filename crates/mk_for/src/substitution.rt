//! A line in which the references to a loop's names are replaced.
ghost use Rattle.std.specs.Prelude.{◌≡◌, ◌<◌, ◌≤◌, ◌++◌, length, drop, position};
ghost use Rattle.std.specs.Prelude.{IfOk, IfErr, OnOk, IfSome};
ghost use Rattle.mk_bytes.specs.Agrees.{Agrees};
ghost use Rattle.mk_for.specs.Substitution as spec;
ghost use Rattle.mk_for.specs.declared.substitution.TurnFault.TheVariants.{NoMemory as no_memory};

use crate::form::{Form, push_written, reference_len, refers, written_len};
use mk_bytes::{NoMemory, Text};
use std::alloc::Global;

/// Why a line has no text in a turn.
#[derive(Clone, Copy, PartialEq, Eq)]
pub enum TurnFault {
    /// It would have more bytes than a line may have.
    TooLong,
    /// Memory ran out.
    NoMemory,
}

impl From<NoMemory> for TurnFault {
    ghost use Rattle.std.specs.Prelude.{◌≡◌};
    ghost use Rattle.mk_for.specs.declared.substitution.TurnFault.TheVariants as faults;

    ghost from_gives = { λ _ fault. fault ≡ faults.NoMemory };

    fn from(_: NoMemory) -> TurnFault {
        TurnFault::NoMemory
    }
}

/// A line in which each reference to a name has the word at the name's place as its value:
/// `${n` before a `}` or a `:` becomes `${:U` and the quoted word, `$(n` before a `)` or a `:`
/// becomes `$(:U` and the quoted word, and `$n`, where the name has one byte, becomes `${:U`, the
/// quoted word and `}`. In the quoted word a backslash stands before each `:`, `$`, `\` and closing
/// bracket of its kind. `$$` is passed over, and other text stays (make(1), `.for`).
///
/// Of names that are equal the first counts. What was written is not read again. The time is linear
/// in the line, for each name. `NoMemory` where memory ran out.
pub fn substitute(
    alloc: Global,
    names: &[Text],
    words: &[Text],
    line: &[u8],
) -> Result<Text, NoMemory>
    requires { length names.now ≤ length words.now }
    ensures { IfOk result (λ text. text ≡ spec.replaced names.now words.now line.now) }
{
    // No text is longer than the limit, so all that can be wanting is memory.
    match substitute_within(alloc, names, words, line, usize::MAX) {
        Ok(text) => Ok(text),
        Err(_) => Err(NoMemory),
    }
}

/// A line as [`substitute`] gives it, of at most so many bytes: `TooLong` exactly where it would
/// have more, and no longer text than that is ever built. `NoMemory` where memory ran out.
pub fn substitute_within(
    alloc: Global,
    names: &[Text],
    words: &[Text],
    line: &[u8],
    limit: usize,
) -> Result<Text, TurnFault>
    requires { length names.now ≤ length words.now }
    ensures { Agrees no_memory (λ text. text) result
        (spec.within limit (spec.replaced names.now words.now line.now)) }
{
    let mut text = Text::new(alloc);
    let mut rest = line;
    while let Some(place) = dollar_place(rest) {
        push_within(&mut text, &rest[..place], limit)?;
        let behind = without_first(rest, place + 1);
        let read = push_piece(&mut text, names, words, behind, limit)?;
        rest = without_first(behind, read);
    }
    push_within(&mut text, rest, limit)?;
    Ok(text)
}

// Appends bytes to a text that may have so many.
fn push_within(out: &mut Text, bytes: &[u8], limit: usize) -> Result<(), TurnFault>
    requires { length out.old ≤ limit }
    ensures written { OnOk result (out.new ≡ out.old ++ bytes.now) }
    ensures within { OnOk result (length out.new ≤ limit) }
    ensures err { IfErr result (λ fault. spec.Refuses fault limit (out.old ++ bytes.now)) }
{
    if bytes.len() > limit - out.len() {
        return Err(TurnFault::TooLong);
    }
    out.push(bytes)?;
    Ok(())
}

// A text without so many bytes at its start.
fn without_first<'t>(text: &'t [u8], count: usize) -> &'t [u8]
    requires { count ≤ length text.now }
    ensures { result.now ≡ drop count text.now }
{
    &text[count..]
}

fn dollar_place(text: &[u8]) -> Option<usize>
    ensures { result ≡ position spec.is_dollar text.now }
{
    text.iter().position(|byte| *byte == b'$')
}

// Writes what stands for a `$` and for the bytes that are read with it, to a text that may have so
// many bytes, and says how many are read.
fn push_piece(
    out: &mut Text,
    names: &[Text],
    words: &[Text],
    behind: &[u8],
    limit: usize,
) -> Result<usize, TurnFault>
    requires named { length names.now ≤ length words.now }
    requires short { length out.old ≤ limit }
    ensures read { IfOk result
        (λ read. read ≡ (spec.piece names.now words.now behind.now).0) }
    ensures written { OnOk result
        (out.new ≡ out.old ++ (spec.piece names.now words.now behind.now).1) }
    ensures within { OnOk result (length out.new ≤ limit) }
    ensures err { IfErr result (λ fault. spec.Refuses fault limit
        (out.old ++ (spec.piece names.now words.now behind.now).1)) }
    ensures behind { IfOk result (λ read. read ≤ length behind.now) }
{
    if behind.starts_with(b"$") {
        push_within(out, b"$$", limit)?;
        return Ok(1);
    }
    let Some((form, place)) = reference(names, behind) else {
        push_within(out, b"$", limit)?;
        return Ok(0);
    };
    let word = words[place].bytes();
    if written_len(form, word) > limit - out.len() {
        return Err(TurnFault::TooLong);
    }
    push_written(out, form, word)?;
    Ok(reference_len(form, names[place].bytes()))
}

// The form of the reference that stands behind a `$`, and the place of its name.
fn reference(names: &[Text], behind: &[u8]) -> Option<(Form, usize)>
    ensures value { result ≡ spec.reference names.now behind.now }
    ensures place { IfSome result (λ found. found.1 < length names.now) }
    ensures within { IfSome result (λ found.
        spec.reference_len found.0 (spec.text_at names.now found.1) ≤ length behind.now) }
{
    if let Some(place) = place_of(Form::Curly, names, behind) {
        return Some((Form::Curly, place));
    }
    if let Some(place) = place_of(Form::Round, names, behind) {
        return Some((Form::Round, place));
    }
    let place = place_of(Form::Short, names, behind)?;
    Some((Form::Short, place))
}

fn place_of(form: Form, names: &[Text], behind: &[u8]) -> Option<usize>
    ensures value { result ≡ position (spec.refers form behind.now) names.now }
    ensures place { IfSome result (λ place. place < length names.now) }
    ensures within { IfSome result (λ place.
        spec.reference_len form (spec.text_at names.now place) ≤ length behind.now) }
{
    names
        .iter()
        .position(|name| refers(form, behind, name.bytes()))
}
