//! Times and names on the lines of reasons.
ghost use Rattle.std.specs.Prelude.{◌≡◌, ◌++◌, OnOk};
ghost use Rattle.mk_explain.specs.Pieces as spec;

use mk_bytes::{NoMemory, Text};
use mk_filemon::{push_decimal, push_escaped};
use mk_oodate::Age;
use mk_world::{Time, When};

fn push_when(text: &mut Text, when: When) -> Result<(), NoMemory>
    ensures { OnOk result (text.new ≡ text.old ++ spec.when_text when) }
{
    match when {
        When::Missing => text.push(b"missing"),
        When::Unknown => text.push(b"unknown"),
        When::At(time) => push_decimal(text, time.0),
    }
}

fn push_age(text: &mut Text, age: Age) -> Result<(), NoMemory>
    ensures { OnOk result (text.new ≡ text.old ++ spec.age_text age) }
{
    match age {
        Age::New => text.push(b"new"),
        Age::Old => text.push(b"old"),
        Age::At(time) => push_decimal(text, time.0),
    }
}

/// Appends a source, its age, and the time of its target.
pub fn push_newer(text: &mut Text, source: &[u8], age: Age, target: When) -> Result<(), NoMemory>
    ensures { OnOk result (text.new ≡ text.old ++ spec.newer_text source.now age target) }
{
    text.push(b"newer ")?;
    push_escaped(text, source)?;
    text.push(b" ")?;
    push_age(text, age)?;
    text.push(b" ")?;
    push_when(text, target)?;
    Ok(())
}

/// Appends the times of a target and of its meta file.
pub fn push_touched(text: &mut Text, target: When, meta: When) -> Result<(), NoMemory>
    ensures { OnOk result (text.new ≡ text.old ++ spec.touched_text target meta) }
{
    text.push(b"touched ")?;
    push_when(text, target)?;
    text.push(b" ")?;
    push_when(text, meta)?;
    Ok(())
}

/// Appends a path that was changed, its time, and the stamp of the job that found it.
pub fn push_read(text: &mut Text, path: &[u8], when: When, stamp: Time) -> Result<(), NoMemory>
    ensures { OnOk result (text.new ≡ text.old ++ spec.read_text path.now when stamp.0) }
{
    text.push(b"read ")?;
    push_escaped(text, path)?;
    text.push(b" ")?;
    push_when(text, when)?;
    text.push(b" ")?;
    push_decimal(text, stamp.0)?;
    Ok(())
}

/// Appends a label and a path.
pub fn push_path(text: &mut Text, label: &[u8], path: &[u8]) -> Result<(), NoMemory>
    ensures { OnOk result (text.new ≡ text.old ++ spec.path_text label.now path.now) }
{
    text.push(label)?;
    push_escaped(text, path)?;
    Ok(())
}
