//! The known suffix of a name.
ghost use Rattle.std.specs.Prelude.{◌≡◌, ◌+◌, ◌-◌, ◌^◌, ◌<◌, ◌≤◌, length, IfSome, if◌then◌else◌};
ghost use Rattle.std.specs.Option.{option_copied};
ghost use Rattle.mk_suffix.specs.Names as spec;
ghost use Rattle.mk_suffix.specs.NameView.{seen};

use mk_bytes::{Text, Texts, is_among};

fn is_slash(byte: u8) -> bool
    ensures { result ≡ spec.is_slash byte }
{
    byte == b'/'
}

// Where the last component begins, by where it begins in the bytes before `at` and the byte there.
fn start_behind(start: usize, at: usize, byte: u8) -> usize
    requires { at < 2 ^ 63 }
    ensures { result ≡ (if spec.is_slash byte then at + 1 else start) }
{
    if is_slash(byte) { at + 1 } else { start }
}

fn last_component(path: &[u8]) -> &[u8]
    ensures value { result.now ≡ spec.last_component path.now }
    ensures within { length result.now ≤ length path.now }
{
    let mut start = 0;
    for (at, byte) in path.iter().enumerate() {
        start = start_behind(start, at, *byte);
    }
    &path[start..]
}

// The longest known suffix that a text ends with and is longer than.
fn longest_end<'n>(known: &[Text], text: &'n [u8]) -> Option<&'n [u8]>
    ensures value { seen result ≡ spec.longest_end known.now text.now }
    ensures within { IfSome result (λ suffix. length suffix.now ≤ length text.now) }
{
    let mut rest = text;
    'bytes: while let Some((_, more)) = rest.split_first() {
        if is_among(known, more) {
            return Some(more);
        }
        rest = more;
    }
    None
}

/// The longest known suffix that the last component of a name ends with and is longer than.
pub fn suffix_of<'n>(known: &[Text], name: &'n [u8]) -> Option<&'n [u8]>
    ensures value { seen result ≡ spec.suffix_of known.now name.now }
    ensures within { IfSome result (λ suffix. length suffix.now ≤ length name.now) }
{
    longest_end(known, last_component(name))
}

/// What stands before these last bytes of a text.
pub fn without_end<'n>(text: &'n [u8], ending: &[u8]) -> &'n [u8]
    requires { length ending.now ≤ length text.now }
    ensures { result.now ≡ spec.without_end text.now ending.now }
{
    &text[..text.len() - ending.len()]
}

/// The last component of a name without its known suffix (make(1), `.PREFIX`): the longest one that
/// it ends with and is longer than. Takes no memory.
pub fn prefix_of<'n>(suffixes: &Texts, name: &'n [u8]) -> &'n [u8]
    ensures { result.now ≡ spec.prefix_of suffixes.now name.now }
{
    let component = last_component(name);
    match longest_end(suffixes.as_slice(), component) {
        Some(suffix) => without_end(component, suffix),
        None => component,
    }
}
