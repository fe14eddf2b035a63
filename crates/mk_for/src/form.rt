//! The forms of a reference to a loop's name.
ghost use Rattle.std.specs.Prelude.{◌≡◌, ◌^◌, ◌<◌, ◌≤◌, ◌++◌, length, OnOk};
ghost use Rattle.std.specs.List.{count_by};
ghost use Rattle.mk_for.specs.Substitution as spec;

use mk_bytes::{NoMemory, Text};

/// How a reference to a name n is written.
#[derive(Clone, Copy)]
pub enum Form {
    /// `${n}`, or `${n:` and modifiers.
    Curly,
    /// `$(n)`, or `$(n:` and modifiers.
    Round,
    /// `$n`, for a name of one byte.
    Short,
}

fn closer(form: Form) -> u8
    ensures { result ≡ spec.closer form }
{
    match form {
        Form::Curly | Form::Short => b'}',
        Form::Round => b')',
    }
}

fn ends_name(form: Form, text: &[u8]) -> bool
    ensures { result ≡ spec.ends_name form text.now }
{
    match text {
        [] => false,
        [byte, ..] => *byte == closer(form) || *byte == b':',
    }
}

// Whether a name and its end stand at the start of a text.
fn is_named(form: Form, text: &[u8], name: &[u8]) -> bool
    ensures { result ≡ spec.is_named form text.now name.now }
{
    text.starts_with(name) && ends_name(form, &text[name.len()..])
}

/// Whether the text behind a `$` begins with a reference to this name in this form.
pub fn refers(form: Form, text: &[u8], name: &[u8]) -> bool
    ensures { result ≡ spec.refers form text.now name.now }
{
    match (form, text) {
        (Form::Curly, [b'{', rest @ ..]) => is_named(form, rest, name),
        (Form::Round, [b'(', rest @ ..]) => is_named(form, rest, name),
        (Form::Short, _) => name.len() == 1 && text.starts_with(name),
        _ => false,
    }
}

/// How many bytes behind the `$` are replaced, where the name has so many.
pub fn reference_len(form: Form, name: &[u8]) -> usize
    requires { length name.now < 2 ^ 32 }
    ensures { result ≡ spec.reference_len form name.now }
{
    match form {
        Form::Curly | Form::Round => 1 + name.len(),
        Form::Short => 1,
    }
}

fn opening(form: Form) -> &'static [u8]
    ensures { result.now ≡ spec.opening form }
{
    match form {
        Form::Curly | Form::Short => b"${:U",
        Form::Round => b"$(:U",
    }
}

fn is_special(form: Form, byte: u8) -> bool
    ensures { result ≡ spec.is_special form byte }
{
    byte == b':' || byte == b'$' || byte == b'\\' || byte == closer(form)
}

fn push_quoted(out: &mut Text, form: Form, byte: u8) -> Result<(), NoMemory>
    ensures { OnOk result (out.new ≡ out.old ++ spec.quoted_byte form byte) }
{
    if is_special(form, byte) {
        return out.push(&[b'\\', byte]);
    }
    out.push(&[byte])
}

// How many bytes of a word are quoted.
fn special_count(form: Form, word: &[u8]) -> usize
    ensures count { result ≡ count_by (spec.is_special form) word.now }
    ensures within { result ≤ length word.now }
{
    word.iter().filter(|byte| is_special(form, **byte)).count()
}

/// How many bytes a reference in this form becomes, without its own end where it has one.
pub fn written_len(form: Form, word: &[u8]) -> usize
    requires { length word.now < 2 ^ 32 }
    ensures { result ≡ length (spec.written form word.now) }
{
    opening(form).len() + word.len() + special_count(form, word) + closing(form).len()
}

/// Writes what a reference in this form becomes, up to its own end where it has one.
pub fn push_written(out: &mut Text, form: Form, word: &[u8]) -> Result<(), NoMemory>
    ensures { OnOk result (out.new ≡ out.old ++ spec.written form word.now) }
{
    out.push(opening(form))?;
    for byte in word {
        push_quoted(out, form, *byte)?;
    }
    out.push(closing(form))
}

fn closing(form: Form) -> &'static [u8]
    ensures { result.now ≡ spec.closing form }
{
    match form {
        Form::Curly | Form::Round => b"",
        Form::Short => b"}",
    }
}
