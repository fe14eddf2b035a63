//! How a build goes (make(1), `.MAKE.MODE`).
ghost use Rattle.std.specs.Prelude.{◌≡◌, length};
ghost use Rattle.mk_rules.specs.Modes as spec;

use mk_bytes::Texts;
use mk_export::Exported;
use mk_graph::Mode;

fn is_letter(lower: u8, byte: u8) -> bool
    ensures { result ≡ spec.is_letter lower byte }
{
    byte == lower || u32::from(byte) + 32 == u32::from(lower)
}

fn is_in_any_case(word: &[u8], value: &[u8]) -> bool
    ensures { result ≡ spec.is_in_any_case word.now value.now }
{
    if word.len() != value.len() {
        return false;
    }
    for (place, lower) in word.iter().enumerate() {
        if !is_letter(*lower, value[place]) {
            return false;
        }
    }
    true
}

fn is_true(value: &[u8]) -> bool
    ensures { result ≡ spec.is_true value.now }
{
    value == b"1".as_slice()
        || is_in_any_case(b"yes", value)
        || is_in_any_case(b"true", value)
        || is_in_any_case(b"on", value)
}

// The value behind a name, as true or false, where a word begins with this name.
fn value_behind(name: &[u8], word: &[u8]) -> Option<bool>
    ensures { result ≡ spec.value_if name.now word.now }
{
    Some(is_true(word.strip_prefix(name)?))
}

// Takes in what a word says.
fn take_word(mode: &mut Mode, word: &[u8])
    ensures { mode.new ≡ spec.with_word mode.old word.now }
{
    if word == b"meta".as_slice() {
        mode.meta = true;
    } else if word == b"nofilemon".as_slice() {
        mode.nofilemon = true;
    } else if word == b"ignore-cmd".as_slice() {
        mode.ignore_cmd = true;
    } else if let Some(holds) = value_behind(b"curdirOk=", word) {
        mode.curdir_ok = holds;
    } else if let Some(holds) = value_behind(b"missing-meta=", word) {
        mode.missing_meta = holds;
    } else if let Some(holds) = value_behind(b"missing-filemon=", word) {
        mode.missing_filemon = holds;
    } else if let Some(holds) = value_behind(b"silent=", word) {
        mode.silent = holds;
    }
}

/// How a build goes by the words of `.MAKE.MODE`: `meta`, `nofilemon` and `ignore-cmd`, and
/// `curdirOk=`, `missing-meta=`, `missing-filemon=` and `silent=` with `yes`, `true`, `on` or `1`,
/// in any case of letters. Of words that say the same thing the last counts, and others say
/// nothing. What else a mode says is given. Takes no memory.
pub fn mode_by(
    words: &Texts,
    ignore_paths: Texts,
    exports: Exported,
    one_job: bool,
    delete_on_error: bool,
) -> Mode
    ensures { result ≡ spec.mode_by words.now ignore_paths exports one_job delete_on_error }
{
    let mut mode = Mode {
        meta: false,
        curdir_ok: false,
        missing_meta: false,
        missing_filemon: false,
        nofilemon: false,
        ignore_cmd: false,
        silent: false,
        one_job,
        delete_on_error,
        ignore_paths,
        exports,
    };
    for word in words.as_slice() {
        take_word(&mut mode, word.bytes());
    }
    mode
}
