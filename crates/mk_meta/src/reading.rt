//! Meta files as they are read.
ghost use Rattle.std.specs.Prelude.{◌≡◌, ℕ, List, Some, IfOk, IfSome, length, option_and_then};
ghost use Rattle.std.specs.Option.{option_map};
ghost use Rattle.std.specs.Cmp.Lexicographic.{slice_cmp};
ghost use Rattle.std.specs.Ordering.{is_lt, nat_cmp};
ghost use Rattle.std.specs.Str.{bytes_eq};
ghost use Rattle.mk_meta.specs.Lawful as lawful;
ghost use Rattle.mk_meta.specs.Reading as spec;
ghost use Rattle.mk_meta.specs.Texts.{meta_text, head_line as head_line_of};
ghost use Rattle.mk_meta.specs.Views.{front_view, middle_view};
ghost use Rattle.mk_meta.specs.declared.meta.Meta.{Meta as Meta'};

use crate::line::stripped;
use crate::lines::{command_lines, export_lines, number_line, record_lines, text_line};
use crate::meta::Meta;
use crate::writing::head_line;
use mk_bytes::{NoMemory, Pair, Text};
use mk_filemon::{Recs, cut_at};
use mk_world::{Lines, SharedPairs, Time};
use std::alloc::Global;

// The stamp, the commands and their directory.
#[derive(Drop)]
struct Front {
    stamp: u64,
    lines: Lines,
    cwd: Text,
}

// The exported variables, the target and the output.
#[derive(Drop)]
struct Middle {
    exports: SharedPairs,
    target: Text,
    output: Text,
}

// The front with the directory that was found, and what follows it.
fn front_in<'t>(
    stamp: u64,
    lines: Lines,
    found: Option<(Text, &'t [u8])>,
) -> Option<(Front, &'t [u8])>
    ensures { option_map (λ read. (front_view read.0, read.1.now)) result
        ≡ option_map {U = spec.Front × List ℕ}
        (λ cwd. (record { stamp = stamp; lines = lines; cwd = cwd.0 }, cwd.1.now)) found.entry }
{
    let Some((cwd, rest)) = found else {
        drop(lines);
        return None;
    };
    Some((Front { stamp, lines, cwd }, rest))
}

fn read_front<'t>(alloc: Global, text: &'t [u8]) -> Result<Option<(Front, &'t [u8])>, NoMemory>
    ensures { IfOk result (λ found.
        option_map (λ read. (front_view read.0, read.1.now)) found ≡ spec.front_at text.now) }
{
    let Some((stamp, rest)) = number_line(b"STAMP ", text) else {
        return Ok(None);
    };
    let (lines, rest) = command_lines(alloc, rest)?;
    match text_line(alloc, b"CWD ", rest) {
        Ok(found) => Ok(front_in(stamp, lines, found)),
        Err(fault) => {
            drop(lines);
            Err(fault)
        }
    }
}

// So many bytes, and what follows their newline.
fn read_bytes<'t>(count: u64, text: &'t [u8]) -> Option<(&'t [u8], &'t [u8])>
    ensures { option_map (λ read. (read.0.now, read.1.now)) result ≡ spec.output_of count text.now }
{
    if count >= text.len() as u64 {
        return None;
    }
    let (output, rest) = text.split_at(count as usize);
    match rest {
        [b'\n', after @ ..] => Some((output, after)),
        _ => None,
    }
}

fn read_output<'t>(text: &'t [u8]) -> Option<(&'t [u8], &'t [u8])>
    ensures { option_map (λ read. (read.0.now, read.1.now)) result ≡ spec.output_at text.now }
{
    let (count, rest) = number_line(b"OUTPUT ", text)?;
    let rest = stripped(b"-- command output --\n", rest)?;
    read_bytes(count, rest)
}

// Whether a name comes before another one, byte by byte.
fn is_less(name: &[u8], other: &[u8]) -> bool
    ensures { result ≡ is_lt (slice_cmp nat_cmp name.now other.now) }
{
    name < other
}

fn is_before(pair: &Pair, rest: &[Pair]) -> bool
    ensures { result ≡ lawful.is_before pair.now rest.now }
{
    match rest.split_first() {
        Some((next, _)) => is_less(pair.name.bytes(), next.name.bytes()),
        None => true,
    }
}

fn are_sorted(exports: &[Pair]) -> bool
    ensures { result ≡ lawful.are_sorted exports.now }
{
    let mut rest = exports;
    'pairs: while let Some((pair, more)) = rest.split_first() {
        if !is_before(pair, more) {
            return false;
        }
        rest = more;
    }
    true
}

// Reads the target and the output behind exported variables.
fn read_target<'t>(
    alloc: Global,
    exports: SharedPairs,
    text: &'t [u8],
) -> Result<Option<(Middle, &'t [u8])>, NoMemory>
    ensures { IfOk result (λ found. option_map (λ read. (middle_view read.0, read.1.now)) found
        ≡ spec.target_behind (exports, text.now)) }
{
    let Some((target, rest)) = text_line(alloc, b"TARGET ", text)? else {
        return Ok(None);
    };
    let Some((output, rest)) = read_output(rest) else {
        return Ok(None);
    };
    let output = Text::from_bytes(alloc, output)?;
    Ok(Some((
        Middle {
            exports,
            target,
            output,
        },
        rest,
    )))
}

fn read_middle<'t>(alloc: Global, text: &'t [u8]) -> Result<Option<(Middle, &'t [u8])>, NoMemory>
    ensures { IfOk result (λ found.
        option_map (λ read. (middle_view read.0, read.1.now)) found ≡ spec.middle_at text.now) }
{
    let (exports, rest) = export_lines(alloc, text)?;
    if !are_sorted(exports.as_slice()) {
        return Ok(None);
    }
    read_target(alloc, SharedPairs::new(alloc, exports)?, rest)
}

// Reads the records, where there are any, and the last line.
fn read_records<'t>(
    alloc: Global,
    count: usize,
    text: &'t [u8],
) -> Result<Option<(Option<Recs>, &'t [u8])>, NoMemory>
    ensures { IfOk result (λ found.
        option_map (λ read. (read.0, read.1.now)) found ≡ spec.records_at count text.now) }
{
    let (records, rest) = match stripped(b"-- filemon acquired metadata --\n", text) {
        Some(rest) => {
            let (records, rest) = record_lines(alloc, count, rest)?;
            (Some(records), rest)
        }
        None => (None, text),
    };
    Ok(Some(records).zip(stripped(b"# end 3\n", rest)))
}

// Whether the first line names this target.
fn is_head(alloc: Global, target: &Text, first: &[u8]) -> Result<bool, NoMemory>
    ensures { IfOk result (λ is. is ≡ bytes_eq (head_line_of target.now) first.now) }
{
    let head = head_line(alloc, target.bytes())?;
    Ok(head.bytes() == first)
}

// Reads what stands behind the middle, where the first line names the target: else this is no meta
// file.
fn read_end<'t>(
    alloc: Global,
    first: &[u8],
    front: &Front,
    middle: &Middle,
    text: &'t [u8],
) -> Result<Option<(Option<Recs>, &'t [u8])>, NoMemory>
    ensures { IfOk result (λ found. option_map (λ read.
        (spec.value_of (front_view front.now) (middle_view middle.now) read.0, read.1.now)) found
        ≡ option_and_then (λ records. spec.whole first.now
        (spec.value_of (front_view front.now) (middle_view middle.now) records.0) records.1)
        (spec.records_at (length front.now.lines) text.now)) }
{
    if !is_head(alloc, &middle.target, first)? {
        return Ok(None);
    }
    read_records(alloc, front.lines.len(), text)
}

// Reads the parts behind the first line and the front.
fn read_parts<'t>(
    alloc: Global,
    first: &[u8],
    front: &Front,
    text: &'t [u8],
) -> Result<Option<(Middle, (Option<Recs>, &'t [u8]))>, NoMemory>
    ensures { IfOk result (λ found. option_map (λ read.
        (spec.value_of (front_view front.now) (middle_view read.0) read.1.0, read.1.1.now)) found
        ≡ spec.meta_behind first.now (front_view front.now, text.now)) }
{
    let Some((middle, rest)) = read_middle(alloc, text)? else {
        return Ok(None);
    };
    match read_end(alloc, first, front, &middle, rest) {
        Ok(found) => Ok(Some(middle).zip(found)),
        Err(fault) => {
            drop(middle);
            Err(fault)
        }
    }
}

// The value with the parts that were found, and what follows it.
fn meta_in<'t>(
    front: Front,
    found: Option<(Middle, (Option<Recs>, &'t [u8]))>,
) -> Option<(Meta, &'t [u8])>
    ensures { option_map (λ read. (read.0, read.1.now)) result
        ≡ option_map {U = Meta' × List ℕ} (λ read.
        (spec.value_of (front_view front) (middle_view read.0) read.1.0, read.1.1.now)) found.entry }
{
    let Some((middle, (records, rest))) = found else {
        drop(front);
        return None;
    };
    Some((value_of(front, middle, records), rest))
}

// Reads what stands behind the first line and the front.
fn read_behind<'t>(
    alloc: Global,
    first: &[u8],
    front: Front,
    text: &'t [u8],
) -> Result<Option<(Meta, &'t [u8])>, NoMemory>
    ensures { IfOk result (λ found. option_map (λ read. (read.0, read.1.now)) found
        ≡ spec.meta_behind first.now (front_view front, text.now)) }
{
    match read_parts(alloc, first, &front, text) {
        Ok(found) => Ok(meta_in(front, found)),
        Err(fault) => {
            drop(front);
            Err(fault)
        }
    }
}

fn value_of(front: Front, middle: Middle, records: Option<Recs>) -> Meta
    ensures { result ≡ spec.value_of (front_view front) (middle_view middle) records }
{
    Meta {
        stamp: Time(front.stamp),
        exports: middle.exports,
        lines: front.lines,
        cwd: front.cwd,
        target: middle.target,
        output: middle.output,
        records,
    }
}

fn read_value<'t>(alloc: Global, text: &'t [u8]) -> Result<Option<(Meta, &'t [u8])>, NoMemory>
    ensures { IfOk result (λ found.
        option_map (λ read. (read.0, read.1.now)) found ≡ spec.meta_at text.now) }
{
    let Some((first, rest)) = cut_at(b'\n', text) else {
        return Ok(None);
    };
    let Some((front, rest)) = read_front(alloc, rest)? else {
        return Ok(None);
    };
    read_behind(alloc, first, front, rest)
}

fn read_whole(alloc: Global, text: &[u8]) -> Result<Option<Meta>, NoMemory>
    ensures { IfOk result (λ found. found ≡ spec.meta_in text.now) }
{
    match read_value(alloc, text)? {
        Some((meta, rest)) => {
            if rest.is_empty() {
                return Ok(Some(meta));
            }
            drop(meta);
            Ok(None)
        }
        None => Ok(None),
    }
}

/// The value that a text is the meta file of, and `None` exactly for a text that is none.
pub fn read_meta(alloc: Global, text: &[u8]) -> Result<Option<Meta>, NoMemory>
    // What is read is written so.
    ensures found { IfOk result (λ found. IfSome found (λ meta.
        lawful.IsLawful meta × (text.now ≡ meta_text meta))) }
    // What is written so is read.
    ensures only { (meta : Meta') → lawful.IsLawful meta → text.now ≡ meta_text meta
        → IfOk result (λ found. found ≡ Some meta) }
{
    read_whole(alloc, text)
}
