//! The parts of a log that recorders write, and whether each is whole.
ghost use Rattle.std.specs.Prelude.{◌≡◌, ◌<◌, ◌≤◌, ◌+◌, ◌-◌, ◌^◌};
ghost use Rattle.std.specs.Option.{option_copied};
ghost use Rattle.std.specs.List.{slice_split};
ghost use Rattle.mk_filemon.specs.PartSizes.{lines_in};
ghost use Rattle.mk_filemon.specs.declared.part.Part.TheVariants as part;
ghost use Rattle.mk_filemon.specs.Parts as spec;

use crate::escape::cut_at;
use crate::number::read_decimal;

/// Where a log stands between its lines.
#[derive(Clone, Copy)]
pub enum Part {
    /// No recorder has begun a part that has not ended.
    Outside,
    /// So many lines stand behind the line that began a part.
    Inside(u64),
    /// A part has no end, or one with another count.
    Broken,
}

fn is_head(line: &[u8]) -> bool
    ensures { result ≡ spec.is_head line.now }
{
    line.starts_with(b"# recorder ")
}

fn is_end(line: &[u8]) -> bool
    ensures { result ≡ spec.is_end line.now }
{
    line.starts_with(b"# Bye bye ")
}

fn behind_word<'t>(text: &'t [u8]) -> Option<&'t [u8]>
    ensures { option_copied result ≡ spec.behind_word text.now }
{
    match cut_at(b' ', text) {
        Some((_, rest)) => Some(rest),
        None => None,
    }
}

fn behind_end<'t>(line: &'t [u8]) -> Option<&'t [u8]>
    ensures { option_copied result ≡ spec.behind_end line.now }
{
    if is_end(line) {
        return Some(&line[10..]);
    }
    None
}

// How many lines a part has, by the line that ends it.
fn count_in(line: &[u8]) -> Option<u64>
    ensures { result ≡ spec.count_in line.now }
{
    let process = behind_end(line)?;
    let status = behind_word(process)?;
    let count = behind_word(status)?;
    read_decimal(count)
}

fn is_count(count: u64, counted: Option<u64>) -> bool
    ensures { result ≡ spec.is_count count counted }
{
    match counted {
        Some(number) => number == count,
        None => false,
    }
}

fn inside(count: u64, line: &[u8]) -> Part
    requires { count < 2 ^ 64 - 1 }
    ensures { result ≡ spec.inside count line.now }
{
    if is_head(line) {
        return Part::Broken;
    }
    if !is_end(line) {
        return Part::Inside(count + 1);
    }
    if is_count(count, count_in(line)) {
        return Part::Outside;
    }
    Part::Broken
}

fn after_line(part: Part, line: &[u8]) -> Part
    requires { lines_in part < 2 ^ 64 - 1 }
    ensures after { result ≡ spec.after_line part line.now }
    ensures counted { lines_in result ≤ lines_in part + 1 }
{
    match part {
        Part::Outside if is_head(line) => Part::Inside(0),
        Part::Outside => Part::Outside,
        Part::Inside(count) => inside(count, line),
        Part::Broken => Part::Broken,
    }
}

fn is_cut_head(text: &[u8]) -> bool
    ensures { result ≡ spec.is_cut_head text.now }
{
    !text.is_empty() && (is_head(text) || b"# recorder ".starts_with(text))
}

fn may_end(part: Part, last: &[u8]) -> bool
    ensures { result ≡ spec.may_end part last.now }
{
    matches!(part, Part::Outside) && !is_cut_head(last)
}

fn are_whole(log: &[u8]) -> bool
    ensures { result ≡ spec.are_whole part.Outside (slice_split spec.is_newline log.now) }
{
    let mut part = Part::Outside;
    let mut rest = log;
    'lines: while let Some((line, after)) = cut_at(b'\n', rest) {
        part = after_line(part, line);
        rest = after;
    }
    may_end(part, rest)
}

/// Whether a log is whole: something stands in it, and each part that a recorder began in it, by a
/// line `# recorder NAME`, has its end, a line `# Bye bye PROCESS STATUS COUNT` with the number of
/// the lines between these two. A log without such parts is whole. Takes no memory; the time is
/// linear.
pub fn is_whole(log: &[u8]) -> bool
    ensures { result ≡ spec.is_whole log.now }
{
    !log.is_empty() && are_whole(log)
}
