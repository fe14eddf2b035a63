//! Quoting for a shell.
ghost use Rattle.std.specs.Prelude.{◌≡◌, ◌++◌, IfOk, OnOk};
ghost use Rattle.mk_mods.specs.Quotes as spec;

use mk_bytes::{NoMemory, Text};
use std::alloc::Global;

// Whether a byte is itself in a quoted text.
fn is_plain(byte: u8) -> bool
    ensures { result ≡ spec.is_plain byte }
{
    match byte {
        b'A'..=b'Z' | b'a'..=b'z' | b'0'..=b'9' | 128..=255 => true,
        b'_' | b'-' | b'+' | b'=' | b'.' | b',' | b'/' | b':' | b'@' | b'%' => true,
        _ => false,
    }
}

fn push_quoted(out: &mut Text, byte: u8) -> Result<(), NoMemory>
    ensures { OnOk result (out.new ≡ out.old ++ spec.quoted_byte byte) }
{
    if is_plain(byte) {
        return out.push(&[byte]);
    }
    if byte == b'\n' {
        return out.push(b"'\n'");
    }
    out.push(&[b'\\', byte])
}

/// A text quoted for a shell: a newline stands between quotes, and every other byte that is no
/// letter, no digit, none of `_-+=.,/:@%` and below 128 stands behind a backslash.
pub fn quoted(alloc: Global, text: &[u8]) -> Result<Text, NoMemory>
    ensures { IfOk result (λ out. out ≡ spec.quoted text.now) }
{
    let mut out = Text::new(alloc);
    for byte in text {
        push_quoted(&mut out, *byte)?;
    }
    Ok(out)
}

fn push_doubled(out: &mut Text, byte: u8) -> Result<(), NoMemory>
    ensures { OnOk result (out.new ≡ out.old ++ spec.dollar_doubled byte) }
{
    if byte == b'$' {
        return out.push(b"$$");
    }
    out.push(&[byte])
}

/// A text with each `$` doubled.
pub fn doubled(alloc: Global, text: &[u8]) -> Result<Text, NoMemory>
    ensures { IfOk result (λ out. out ≡ spec.doubled text.now) }
{
    let mut out = Text::new(alloc);
    for byte in text {
        push_doubled(&mut out, *byte)?;
    }
    Ok(out)
}
