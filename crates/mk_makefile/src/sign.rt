//! Assignments in makefiles: which lines they are, and their parts (make(1), "VARIABLE
//! ASSIGNMENTS").
ghost use Rattle.std.specs.Prelude.{◌≡◌, ◌+◌, ◌<◌, ◌≤◌, length, IfSome};
ghost use Rattle.std.specs.List.{list_any};
ghost use Rattle.std.specs.Option.{option_map};
ghost use Rattle.mk_bytes.specs.Words.{is_white as is_white_byte};
ghost use Rattle.mk_cli.specs.Assignments as words;
ghost use Rattle.mk_makefile.specs.Assignments as spec;

use mk_bytes::{without_blanks, without_blanks_before};
use mk_cli::AssignOp;
use mk_directive::is_white;

/// The parts of an assignment.
#[derive(Clone, Copy)]
pub struct Parts<'t> {
    pub name: &'t [u8],
    pub op: AssignOp,
    pub value: &'t [u8],
}

fn is_opener(byte: u8) -> bool
    ensures { result ≡ spec.is_opener byte }
{
    byte == b'(' || byte == b'{'
}

fn is_closer(byte: u8) -> bool
    ensures { result ≡ spec.is_closer byte }
{
    byte == b')' || byte == b'}'
}

fn depth_behind(depth: usize, byte: u8) -> usize
    requires { depth < usize.MAX }
    ensures value { result ≡ spec.depth_behind depth byte }
    ensures small { result ≤ depth + 1 }
{
    if is_opener(byte) {
        depth + 1
    } else if is_closer(byte) {
        depth.saturating_sub(1)
    } else {
        depth
    }
}

fn is_sign(depth: usize, byte: u8) -> bool
    ensures { result ≡ spec.is_sign depth byte }
{
    byte == b'=' && depth == 0
}

// The place of the first `=` that stands in no brackets.
fn first_equals(line: &[u8]) -> Option<usize>
    ensures value { result ≡ spec.equals_at 0 line.now }
    ensures within { IfSome result (λ at. at < length line.now) }
{
    let mut depth = 0;
    for (at, byte) in line.iter().enumerate() {
        if is_sign(depth, *byte) {
            return Some(at);
        }
        depth = depth_behind(depth, *byte);
    }
    None
}

// The name and the operator, of what stands before the `=`.
fn name_and_op<'t>(text: &'t [u8]) -> (&'t [u8], AssignOp)
    ensures name { result.0.now ≡ (words.name_and_op text.now).0 }
    ensures op { result.1 ≡ (words.name_and_op text.now).1 }
{
    if let Some(name) = text.strip_suffix(b"+".as_slice()) {
        return (name, AssignOp::Append);
    }
    if let Some(name) = text.strip_suffix(b"?".as_slice()) {
        return (name, AssignOp::Default);
    }
    if let Some(name) = text.strip_suffix(b":".as_slice()) {
        return (name, AssignOp::Now);
    }
    if let Some(name) = text.strip_suffix(b"!".as_slice()) {
        return (name, AssignOp::Shell);
    }
    (text, AssignOp::Plain)
}

fn is_one_word(text: &[u8]) -> bool
    ensures { result ≡ spec.is_one_word text.now }
{
    !text.is_empty() && !holds_white(text)
}

fn holds_white(text: &[u8]) -> bool
    ensures { result ≡ list_any is_white_byte text.now }
{
    text.iter().any(|byte| is_white(*byte))
}

/// The parts of the assignment that a line is: one word, with blanks round it, before the sign at
/// the first `=` outside of brackets, and the value without the blanks before it. `None` for every
/// other line. Takes no memory.
pub fn assignment<'t>(line: &'t [u8]) -> Option<Parts<'t>>
    ensures { option_map (λ a. (a.name.now, a.op, a.value.now)) result ≡ spec.assignment line.now }
{
    let at = first_equals(line)?;
    let (name, op) = name_and_op(&line[..at]);
    let name = without_blanks(name);
    if !is_one_word(name) {
        return None;
    }
    Some(Parts {
        name,
        op,
        value: without_blanks_before(&line[at + 1..]),
    })
}
