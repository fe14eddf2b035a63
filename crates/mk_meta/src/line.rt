//! The lines of a meta file, as they are read.
ghost use Rattle.std.specs.Prelude.{◌≡◌, ◌+◌, ◌<◌, ◌≤◌, length, IfOk, IfSome};
ghost use Rattle.std.specs.List.{list_all};
ghost use Rattle.std.specs.Option.{option_copied, option_map};
ghost use Rattle.mk_bytes.specs.Bytes.{is_blank as is_blank_byte};
ghost use Rattle.mk_filemon.specs.Escapes.{cut_at as cut_at_byte};
ghost use Rattle.mk_meta.specs.Lawful as lawful;
ghost use Rattle.mk_meta.specs.Reading as spec;

use mk_bytes::{NoMemory, Pair, Text};
use mk_filemon::{Rec, cut_at, read_decimal, read_op, unescaped};
use mk_world::TaskLine;
use std::alloc::Global;

/// What follows a label at the start of a text.
pub fn stripped<'t>(label: &[u8], text: &'t [u8]) -> Option<&'t [u8]>
    ensures rest { option_copied result ≡ spec.stripped label.now text.now }
    ensures within { IfSome result (λ rest. length rest.now ≤ length text.now) }
{
    if text.starts_with(label) {
        return Some(&text[label.len()..]);
    }
    None
}

/// The text that a line with this label holds.
pub fn text_in(alloc: Global, label: &[u8], line: &[u8]) -> Result<Option<Text>, NoMemory>
    ensures { IfOk result (λ text. text ≡ spec.text_in label.now line.now) }
{
    match stripped(label, line) {
        Some(value) => unescaped(alloc, value),
        None => Ok(None),
    }
}

/// The number that a line with this label holds.
pub fn number_behind(label: &[u8], line: &[u8]) -> Option<u64>
    ensures { result ≡ spec.number_behind label.now line.now }
{
    read_decimal(stripped(label, line)?)
}

fn is_command(text: &[u8]) -> bool
    ensures { result ≡ lawful.is_command text.now }
{
    match text {
        [] => true,
        [byte, ..] => !matches!(*byte, b' ' | b'\t' | b'@' | b'-' | b'+'),
    }
}

fn kept(ignore: bool, text: Text) -> Option<TaskLine>
    ensures { result ≡ spec.kept ignore text }
{
    if !is_command(text.bytes()) {
        return None;
    }
    Some(TaskLine {
        text,
        ignore,
        silent: false,
        always: false,
        compared: false,
    })
}

fn command_of(alloc: Global, ignore: bool, text: &[u8]) -> Result<Option<TaskLine>, NoMemory>
    ensures { IfOk result (λ line. line ≡ spec.command_of ignore text.now) }
{
    match unescaped(alloc, text)? {
        Some(text) => Ok(kept(ignore, text)),
        None => Ok(None),
    }
}

/// The command that a line holds.
pub fn command_in(alloc: Global, line: &[u8]) -> Result<Option<TaskLine>, NoMemory>
    ensures { IfOk result (λ found. found ≡ spec.command_in line.now) }
{
    match stripped(b"CMD ", line) {
        Some([b'-', text @ ..]) => command_of(alloc, true, text),
        Some(text) => command_of(alloc, false, text),
        None => Ok(None),
    }
}

fn is_name_byte(byte: u8) -> bool
    ensures { result ≡ lawful.is_name_byte byte }
{
    byte.is_ascii_alphanumeric() || byte == b'_'
}

fn are_name_bytes(name: &[u8]) -> bool
    ensures { result ≡ list_all lawful.is_name_byte name.now }
{
    name.iter().all(|byte| is_name_byte(*byte))
}

/// Whether a variable of this name may be exported: letters, digits and `_`, with no digit first.
pub fn is_export_name(name: &[u8]) -> bool
    ensures { result ≡ lawful.is_export_name name.now }
{
    match name {
        [] => false,
        [first, ..] => !first.is_ascii_digit() && are_name_bytes(name),
    }
}

fn named(alloc: Global, name: &[u8], value: &[u8]) -> Result<Option<Pair>, NoMemory>
    ensures { IfOk result (λ pair. pair ≡ spec.named (name.now, value.now)) }
{
    if !is_export_name(name) {
        return Ok(None);
    }
    let Some(value) = unescaped(alloc, value)? else {
        return Ok(None);
    };
    let name = Text::from_bytes(alloc, name)?;
    Ok(Some(Pair { name, value }))
}

/// The exported variable that a line holds.
pub fn export_in(alloc: Global, line: &[u8]) -> Result<Option<Pair>, NoMemory>
    ensures { IfOk result (λ pair. pair ≡ spec.export_in line.now) }
{
    let Some(text) = stripped(b"ENV ", line) else {
        return Ok(None);
    };
    match cut_at(b'=', text) {
        Some((name, value)) => named(alloc, name, value),
        None => Ok(None),
    }
}

/// The record that a line holds, of one of so many command lines.
pub fn record_of(alloc: Global, count: usize, line: &[u8]) -> Result<Option<Rec>, NoMemory>
    ensures { IfOk result (λ one. one ≡ spec.record_of count line.now) }
{
    match read_op(alloc, line)? {
        Some(one) if one.line as usize <= count => Ok(Some(one)),
        _ => Ok(None),
    }
}
