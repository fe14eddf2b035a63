//! Records as meta files hold them.
ghost use Rattle.std.specs.Prelude.{◌≡◌, ◌^◌, ◌<◌, ◌≤◌, ◌++◌, ℕ, Some, IfOk, IfSome, OnOk};
ghost use Rattle.std.specs.Option.{option_map};
ghost use Rattle.mk_world.specs.declared.step.Op.{Op as Op'};
ghost use Rattle.mk_filemon.specs.Records as spec;

use crate::escape::{cut_at, push_part, read_part, unescaped};
use crate::number::{push_decimal, read_decimal};
use mk_bytes::{Items, NoMemory, Text};
use mk_world::Op;
use std::alloc::Global;

/// A record of a job, with the number of its command line, counted from 1.
#[derive(Drop)]
pub struct Rec {
    pub line: u32,
    pub op: Op,
}

/// The records of a job, in order.
pub type Recs = Items<Rec>;

fn letter_of(op: &Op) -> u8
    ensures { result ≡ spec.letter_of op.now }
{
    match op {
        Op::Read(_) => b'R',
        Op::Miss(_) => b'N',
        Op::Write(_) => b'W',
        Op::Delete(_) => b'D',
        Op::Move(_, _) => b'M',
    }
}

fn push_quoted(text: &mut Text, path: &Text) -> Result<(), NoMemory>
    ensures { OnOk result (text.new ≡ text.old ++ spec.quoted path.now) }
{
    text.push(b"'")?;
    push_part(text, true, path.bytes())?;
    text.push(b"'")?;
    Ok(())
}

fn push_data(text: &mut Text, op: &Op) -> Result<(), NoMemory>
    ensures { OnOk result (text.new ≡ text.old ++ spec.data_of op.now) }
{
    match op {
        Op::Read(path) | Op::Miss(path) | Op::Write(path) | Op::Delete(path) => {
            push_part(text, false, path.bytes())
        }
        Op::Move(from, to) => {
            push_quoted(text, from)?;
            text.push(b" ")?;
            push_quoted(text, to)
        }
    }
}

/// Appends a record as it is written.
pub fn push_op(text: &mut Text, line: u32, op: &Op) -> Result<(), NoMemory>
    ensures { OnOk result (text.new ≡ text.old ++ spec.record_text line op.now) }
{
    text.push(&[letter_of(op), b' '])?;
    push_decimal(text, u64::from(line))?;
    text.push(b" ")?;
    push_data(text, op)
}

/// The record of a command line, numbered from 1, as it is written.
pub fn write_op(alloc: Global, line: u32, op: &Op) -> Result<Text, NoMemory>
    requires { 1 ≤ line }
    ensures { IfOk result (λ text. text ≡ spec.record_text line op.now) }
{
    let mut text = Text::new(alloc);
    push_op(&mut text, line, op)?;
    Ok(text)
}

// The number of a command line: it is below 2^32, and not 0.
fn read_line_number(text: &[u8]) -> Option<u32>
    ensures { result ≡ spec.line_in text.now }
{
    let number = read_decimal(text)?;
    if number == 0 {
        return None;
    }
    u32::try_from(number).ok()
}

// The letter of a record, the number of its line, and what follows.
fn read_head<'t>(text: &'t [u8]) -> Option<(u8, u32, &'t [u8])>
    ensures { option_map (λ head. (head.0, head.1, head.2.now)) result ≡ spec.head_at text.now }
{
    let [letter, b' ', rest @ ..] = text else {
        return None;
    };
    let (number, after) = cut_at(b' ', rest)?;
    let line = read_line_number(number)?;
    Some((*letter, line, after))
}

// What stands in quotes, and what follows them.
fn read_quoted<'t>(alloc: Global, text: &'t [u8]) -> Result<Option<(Text, &'t [u8])>, NoMemory>
    ensures { IfOk result (λ found.
        option_map (λ part. (part.0, part.1.now)) found ≡ spec.quoted_at text.now) }
{
    match text {
        [b'\'', rest @ ..] => read_part(alloc, true, rest),
        _ => Ok(None),
    }
}

fn read_move(alloc: Global, text: &[u8]) -> Result<Option<Op>, NoMemory>
    ensures { IfOk result (λ op. op ≡ spec.move_in text.now) }
{
    let Some((from, rest)) = read_quoted(alloc, text)? else {
        return Ok(None);
    };
    let [b' ', second @ ..] = rest else {
        return Ok(None);
    };
    match read_quoted(alloc, second)? {
        Some((to, [])) => Ok(Some(Op::Move(from, to))),
        _ => Ok(None),
    }
}

// The record that a letter and a path make.
fn op_of(letter: u8, path: Text) -> Option<Op>
    ensures { result ≡ spec.op_with letter path }
{
    match letter {
        b'R' => Some(Op::Read(path)),
        b'N' => Some(Op::Miss(path)),
        b'W' => Some(Op::Write(path)),
        b'D' => Some(Op::Delete(path)),
        _ => None,
    }
}

fn read_data(alloc: Global, letter: u8, text: &[u8]) -> Result<Option<Op>, NoMemory>
    ensures { IfOk result (λ op. op ≡ spec.op_in letter text.now) }
{
    if letter == b'M' {
        return read_move(alloc, text);
    }
    match unescaped(alloc, text)? {
        Some(path) => Ok(op_of(letter, path)),
        None => Ok(None),
    }
}

/// The record that a text is, and `None` exactly for a text that is none.
pub fn read_op(alloc: Global, text: &[u8]) -> Result<Option<Rec>, NoMemory>
    // What is read is written so.
    ensures found { IfOk result (λ found. IfSome found (λ one.
        spec.IsLine one.line × (text.now ≡ spec.record_text one.line one.op))) }
    // What is written so is read.
    ensures only { (line : ℕ) (op : Op') → spec.IsLine line
        → text.now ≡ spec.record_text line op
        → IfOk result (λ found. found ≡ Some (record { line = line; op = op })) }
    // It is what the definition reads.
    ensures exact { IfOk result (λ found. found ≡ spec.record_in text.now) }
{
    read_record(alloc, text)
}

fn read_record(alloc: Global, text: &[u8]) -> Result<Option<Rec>, NoMemory>
    ensures { IfOk result (λ found. found ≡ spec.record_in text.now) }
{
    let Some((letter, line, rest)) = read_head(text) else {
        return Ok(None);
    };
    match read_data(alloc, letter, rest)? {
        Some(op) => Ok(Some(Rec { line, op })),
        None => Ok(None),
    }
}
