//! What has changed in the commands of a target.
ghost use Rattle.std.specs.Prelude.{◌≡◌, ◌++◌, length, OnOk};
ghost use Rattle.mk_explain.specs.Changes as spec;
ghost use Rattle.mk_meta.specs.Texts.{sign};

use mk_bytes::{NoMemory, Text};
use mk_filemon::{push_decimal, push_escaped};
use mk_meta::Meta;
use mk_oodate::{same_exports, same_line};
use mk_world::{Lines, Task, TaskLine};

fn push_sign(text: &mut Text, ignore: bool) -> Result<(), NoMemory>
    ensures { OnOk result (text.new ≡ text.old ++ sign ignore) }
{
    if ignore {
        text.push(b"-")?;
    }
    Ok(())
}

fn push_side(text: &mut Text, label: &[u8], line: &TaskLine) -> Result<(), NoMemory>
    ensures { OnOk result (text.new ≡ text.old ++ spec.side_text label.now line.now) }
{
    text.push(label)?;
    push_sign(text, line.ignore)?;
    push_escaped(text, line.text.bytes())?;
    Ok(())
}

// Appends the number of a line, its old text and its new one.
fn push_change(
    text: &mut Text,
    number: u64,
    line: &TaskLine,
    other: &TaskLine,
) -> Result<(), NoMemory>
    ensures { OnOk result (text.new ≡ text.old ++ spec.change_text number line.now other.now) }
{
    text.push(b"command ")?;
    push_decimal(text, number)?;
    push_side(text, b"\n- ", other)?;
    push_side(text, b"\n+ ", line)?;
    Ok(())
}

// Appends the first compared line that differs.
fn push_first_change(text: &mut Text, lines: &Lines, others: &Lines) -> Result<(), NoMemory>
    ensures { OnOk result (text.new ≡ text.old ++ spec.first_change 1 lines.now others.now) }
{
    let mut behind = others.as_slice();
    for (place, line) in lines.as_slice().iter().enumerate() {
        let Some((other, left)) = behind.split_first() else {
            return Ok(());
        };
        if !same_line(line, other) {
            return push_change(text, place as u64 + 1, line, other);
        }
        behind = left;
    }
    Ok(())
}

// Appends the old number of lines, and the new one.
fn push_counts(text: &mut Text, old: usize, new: usize) -> Result<(), NoMemory>
    ensures { OnOk result (text.new ≡ text.old ++ spec.lines_text old new) }
{
    text.push(b"lines ")?;
    push_decimal(text, old as u64)?;
    text.push(b" ")?;
    push_decimal(text, new as u64)?;
    Ok(())
}

/// Appends the first that differs between the commands of a target and those of its meta file: the
/// directory, the exported variables, the number of lines, or a compared line.
pub fn push_command(text: &mut Text, task: &Task, meta: &Meta) -> Result<(), NoMemory>
    ensures { OnOk result (text.new ≡ text.old ++ spec.command_text task.now meta.now) }
{
    if task.cwd.bytes() != meta.cwd.bytes() {
        return text.push(b"directory");
    }
    if !same_exports(task.exports.as_slice(), meta.exports.as_slice()) {
        return text.push(b"exports");
    }
    if task.lines.len() != meta.lines.len() {
        return push_counts(text, meta.lines.len(), task.lines.len());
    }
    push_first_change(text, &task.lines, &meta.lines)
}
