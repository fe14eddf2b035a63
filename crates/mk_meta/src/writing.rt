//! Meta files as they are written.
ghost use Rattle.std.specs.Prelude.{◌≡◌, ◌++◌, ◌∷◌, [], flat_map, codes, IfOk, OnOk};
ghost use Rattle.mk_bytes.specs.Bytes.{newline};
ghost use Rattle.mk_meta.specs.Texts as spec;
ghost use Rattle.mk_meta.specs.TrueHistory as history;

use crate::meta::Meta;
use mk_bytes::{NoMemory, Pair, Text};
use mk_filemon::{Rec, Recs, push_decimal, push_escaped, push_op};
use mk_world::TaskLine;
use std::alloc::Global;

// Appends a line of a label and a text.
fn push_line(text: &mut Text, label: &[u8], value: &[u8]) -> Result<(), NoMemory>
    ensures { OnOk result (text.new ≡ text.old ++ spec.line_of label.now value.now) }
{
    text.push(label)?;
    push_escaped(text, value)?;
    text.push(b"\n")?;
    Ok(())
}

fn push_number_line(text: &mut Text, label: &[u8], number: u64) -> Result<(), NoMemory>
    ensures { OnOk result (text.new ≡ text.old ++ spec.number_line label.now number) }
{
    text.push(label)?;
    push_decimal(text, number)?;
    text.push(b"\n")?;
    Ok(())
}

fn push_head(text: &mut Text, target: &[u8]) -> Result<(), NoMemory>
    ensures { OnOk result (text.new ≡ text.old ++ spec.head_line target.now) }
{
    text.push(b"# Meta data file ")?;
    push_escaped(text, target)?;
    text.push(b".meta")?;
    Ok(())
}

/// The first line of a target's meta file, without its newline.
pub fn head_line(alloc: Global, target: &[u8]) -> Result<Text, NoMemory>
    ensures { IfOk result (λ text. text ≡ spec.head_line target.now) }
{
    let mut text = Text::new(alloc);
    push_head(&mut text, target)?;
    Ok(text)
}

/// The path of the meta file of a target.
pub fn meta_path(alloc: Global, target: &[u8]) -> Result<Text, NoMemory>
    ensures { IfOk result (λ path. path ≡ history.meta_path target.now) }
{
    let mut path = Text::from_bytes(alloc, target)?;
    path.push(b".meta")?;
    Ok(path)
}

/// What a target's meta file holds while its job is open: the first line, with its newline.
pub fn head(alloc: Global, target: &[u8]) -> Result<Text, NoMemory>
    ensures { IfOk result (λ text. text ≡ spec.head target.now) }
{
    let mut text = head_line(alloc, target)?;
    text.push(b"\n")?;
    Ok(text)
}

fn push_sign(text: &mut Text, ignore: bool) -> Result<(), NoMemory>
    ensures { OnOk result (text.new ≡ text.old ++ spec.sign ignore) }
{
    if ignore {
        text.push(b"-")?;
    }
    Ok(())
}

fn push_command(text: &mut Text, line: &TaskLine) -> Result<(), NoMemory>
    ensures { OnOk result (text.new ≡ text.old ++ spec.command_line line.now) }
{
    text.push(b"CMD ")?;
    push_sign(text, line.ignore)?;
    push_escaped(text, line.text.bytes())?;
    text.push(b"\n")?;
    Ok(())
}

fn push_commands(text: &mut Text, lines: &[TaskLine]) -> Result<(), NoMemory>
    ensures { OnOk result (text.new ≡ text.old ++ flat_map spec.command_line lines.now) }
{
    for line in lines {
        push_command(text, line)?;
    }
    Ok(())
}

fn push_export(text: &mut Text, pair: &Pair) -> Result<(), NoMemory>
    ensures { OnOk result (text.new ≡ text.old ++ spec.export_line pair.now) }
{
    text.push(b"ENV ")?;
    text.push(pair.name.bytes())?;
    text.push(b"=")?;
    push_escaped(text, pair.value.bytes())?;
    text.push(b"\n")?;
    Ok(())
}

fn push_exports(text: &mut Text, exports: &[Pair]) -> Result<(), NoMemory>
    ensures { OnOk result (text.new ≡ text.old ++ flat_map spec.export_line exports.now) }
{
    for pair in exports {
        push_export(text, pair)?;
    }
    Ok(())
}

fn push_output(text: &mut Text, output: &Text) -> Result<(), NoMemory>
    ensures { OnOk result (text.new ≡ text.old ++ spec.output_lines output.now) }
{
    push_number_line(text, b"OUTPUT ", output.len() as u64)?;
    text.push(b"-- command output --\n")?;
    text.push(output.bytes())?;
    text.push(b"\n")?;
    Ok(())
}

fn push_record(text: &mut Text, one: &Rec) -> Result<(), NoMemory>
    ensures { OnOk result (text.new ≡ text.old ++ spec.record_line one.now) }
{
    push_op(text, one.line, &one.op)?;
    text.push(b"\n")?;
    Ok(())
}

fn push_each_record(text: &mut Text, records: &[Rec]) -> Result<(), NoMemory>
    ensures { OnOk result (text.new ≡ text.old ++ flat_map spec.record_line records.now) }
{
    for one in records {
        push_record(text, one)?;
    }
    Ok(())
}

fn push_records(text: &mut Text, records: &Option<Recs>) -> Result<(), NoMemory>
    ensures { OnOk result (text.new ≡ text.old ++ spec.records_lines records.now) }
{
    match records {
        Some(records) => {
            text.push(b"-- filemon acquired metadata --\n")?;
            push_each_record(text, records.as_slice())
        }
        None => Ok(()),
    }
}

fn push_front(text: &mut Text, meta: &Meta) -> Result<(), NoMemory>
    ensures { OnOk result (text.new ≡ text.old ++ spec.front meta.now) }
{
    push_number_line(text, b"STAMP ", meta.stamp.0)?;
    push_commands(text, meta.lines.as_slice())?;
    push_line(text, b"CWD ", meta.cwd.bytes())
}

fn push_middle(text: &mut Text, meta: &Meta) -> Result<(), NoMemory>
    ensures { OnOk result (text.new ≡ text.old ++ spec.middle meta.now) }
{
    push_exports(text, meta.exports.as_slice())?;
    push_line(text, b"TARGET ", meta.target.bytes())?;
    push_output(text, &meta.output)
}

/// The text of a meta value, by the lines above.
pub fn write_meta(alloc: Global, meta: &Meta) -> Result<Text, NoMemory>
    ensures { IfOk result (λ text. text ≡ spec.meta_text meta.now) }
{
    let mut text = head(alloc, meta.target.bytes())?;
    push_front(&mut text, meta)?;
    push_middle(&mut text, meta)?;
    push_records(&mut text, &meta.records)?;
    text.push(b"# end 3\n")?;
    Ok(text)
}
