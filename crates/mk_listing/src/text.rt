//! Texts as others read them.
ghost use Rattle.std.specs.Prelude.{◌≡◌, ◌++◌, ◌<◌, codes, flat_map, IfOk, OnOk};
ghost use Rattle.std.specs.Str.{is_utf8};
ghost use Rattle.mk_listing.specs.Texts as spec;

use mk_bytes::{NoMemory, Text};
use mk_filemon::push_escaped;
use std::alloc::Global;
use std::str;

fn push_line(out: &mut Text, text: &Text) -> Result<(), NoMemory>
    ensures { OnOk result (out.new ≡ out.old ++ spec.line_of text.now) }
{
    push_escaped(out, text.bytes())?;
    out.push(b"\n")
}

/// Texts, one a line; a backslash is written `\\`, and a newline `\n`.
pub fn lines_of(alloc: Global, texts: &[Text]) -> Result<Text, NoMemory>
    ensures { IfOk result (λ text. text ≡ spec.lines_of texts.now) }
{
    let mut out = Text::new(alloc);
    for text in texts {
        push_line(&mut out, text)?;
    }
    Ok(out)
}

fn push_dot_byte(out: &mut Text, byte: u8) -> Result<(), NoMemory>
    ensures { OnOk result (out.new ≡ out.old ++ spec.dot_byte byte) }
{
    match byte {
        b'"' => out.push(b"\\\""),
        b'\\' => out.push(b"\\\\"),
        b'\n' => out.push(b"\\n"),
        _ => out.push(&[byte]),
    }
}

fn push_dot_bytes(out: &mut Text, name: &[u8]) -> Result<(), NoMemory>
    ensures { OnOk result (out.new ≡ out.old ++ flat_map spec.dot_byte name.now) }
{
    for byte in name {
        push_dot_byte(out, *byte)?;
    }
    Ok(())
}

/// Appends a name in DOT, in double quotes.
pub fn push_dot_name(out: &mut Text, name: &[u8]) -> Result<(), NoMemory>
    ensures { OnOk result (out.new ≡ out.old ++ spec.dot_name name.now) }
{
    out.push(b"\"")?;
    push_dot_bytes(out, name)?;
    out.push(b"\"")
}

fn hex_digit(digit: u8) -> u8
    requires { digit < 16 }
    ensures { result ≡ spec.hex_digit digit }
{
    if digit < 10 { 48 + digit } else { 87 + digit }
}

fn push_control(out: &mut Text, byte: u8) -> Result<(), NoMemory>
    ensures { OnOk result (out.new ≡ out.old ++ spec.control byte) }
{
    out.push_both(b"\\u00", &[hex_digit(byte / 16), hex_digit(byte % 16)])
}

fn push_json_byte(out: &mut Text, is_text: bool, byte: u8) -> Result<(), NoMemory>
    ensures { OnOk result (out.new ≡ out.old ++ spec.json_byte is_text byte) }
{
    if byte == b'"' {
        return out.push(b"\\\"");
    }
    if byte == b'\\' {
        return out.push(b"\\\\");
    }
    if byte < 32 {
        return push_control(out, byte);
    }
    if !is_text && byte >= 128 {
        return out.push(b"\\ufffd");
    }
    out.push(&[byte])
}

fn push_json_bytes(out: &mut Text, is_text: bool, text: &[u8]) -> Result<(), NoMemory>
    ensures { OnOk result (out.new ≡ out.old ++ flat_map (spec.json_byte is_text) text.now) }
{
    for byte in text {
        push_json_byte(out, is_text, *byte)?;
    }
    Ok(())
}

/// Whether bytes are UTF-8.
pub fn is_text(bytes: &[u8]) -> bool
    ensures { result ≡ is_utf8 bytes.now }
{
    match str::from_utf8(bytes) {
        Ok(_) => true,
        Err(_) => false,
    }
}

/// Appends a string of JSON, in double quotes. In a text that is not UTF-8, each byte from 128 on
/// is written as the character U+FFFD.
pub fn push_json(out: &mut Text, text: &[u8]) -> Result<(), NoMemory>
    ensures { OnOk result (out.new ≡ out.old ++ spec.json_string text.now) }
{
    out.push(b"\"")?;
    push_json_bytes(out, is_text(text), text)?;
    out.push(b"\"")
}

fn push_elements(out: &mut Text, elements: &[Text]) -> Result<(), NoMemory>
    ensures { OnOk result (out.new
        ≡ out.old ++ flat_map (λ element. codes ",\n" ++ element) elements.now) }
{
    for element in elements {
        out.push_both(b",\n", element.bytes())?;
    }
    Ok(())
}

/// An array of JSON, an element a line.
pub fn array_of(alloc: Global, elements: &[Text]) -> Result<Text, NoMemory>
    ensures { IfOk result (λ text. text ≡ spec.array elements.now) }
{
    let Some((first, rest)) = elements.split_first() else {
        return Text::from_bytes(alloc, b"[]\n");
    };
    let mut out = Text::from_bytes(alloc, b"[\n")?;
    out.push(first.bytes())?;
    push_elements(&mut out, rest)?;
    out.push(b"\n]\n")?;
    Ok(out)
}
