//! The parts of what assignments do to variables (make(1), "VARIABLE ASSIGNMENTS").
ghost use Rattle.std.specs.Prelude.{◌≡◌, IfOk, OnOk, OnErr};
ghost use Rattle.mk_makefile.specs.Variables as spec;

use mk_bytes::{NoMemory, Text};
use mk_scopes::{Class, Scopes};
use std::alloc::Global;

// The most bytes of a name that is its own value for certain.
const MAX_NAME: usize = 4_194_304;

/// Whether a name is its own value for certain, and names a variable.
pub fn is_own_value(name: &[u8]) -> bool
    ensures { result ≡ spec.is_own_value name.now }
{
    match name {
        [] => false,
        [_, ..] => name.len() <= MAX_NAME && !name.contains(&b'$'),
    }
}

fn as_space(byte: u8) -> u8
    ensures { result ≡ spec.as_space byte }
{
    if byte == b'\n' {
        return b' ';
    }
    byte
}

fn without_newline<'t>(text: &'t [u8]) -> &'t [u8]
    ensures { result.now ≡ spec.without_newline text.now }
{
    if let Some(line) = text.strip_suffix(b"\n".as_slice()) {
        return line;
    }
    text
}

/// The output of a command without one final newline, and with spaces for other ones.
pub fn on_one_line(alloc: Global, text: &[u8]) -> Result<Text, NoMemory>
    ensures { IfOk result (λ line. line ≡ spec.on_one_line text.now) }
{
    let mut line = Text::new(alloc);
    let rest = without_newline(text);
    for byte in rest {
        line.push(&[as_space(*byte)])?;
    }
    Ok(line)
}

/// Sets a variable that no class has.
pub fn set_default(
    scopes: &mut Scopes,
    class: Class,
    name: &[u8],
    text: &[u8],
) -> Result<(), NoMemory>
    ensures ok { OnOk result
        (scopes.new ≡ spec.defaulted_in scopes.old class name.now text.now) }
    ensures err { OnErr result (scopes.new ≡ scopes.old) }
{
    if scopes.get(name).is_some() {
        return Ok(());
    }
    scopes.assign(class, name, text)
}

/// Removes the globals of these names.
pub fn remove_all(scopes: &mut Scopes, names: &[Text])
    ensures { scopes.new ≡ spec.without_globals scopes.old names.now }
{
    for name in names {
        scopes.undef(name.bytes());
    }
}
