//! A picture of when jobs ran, as SVG.
ghost use Rattle.std.specs.Prelude.{◌≤◌};

use crate::text::is_text;
use crate::timeline::Job;
use mk_bytes::{NoMemory, Text};
use mk_filemon::push_decimal;
use std::alloc::Global;

// In pixels: how wide the picture is between its margins, how high a lane is, and how wide a
// letter is.
const WIDTH: u64 = 1180;

const MARGIN: u64 = 10;

const LANE: u64 = 20;

const LETTER: u64 = 6;

// Which span of time a picture shows, and how many nanoseconds a pixel is.
#[derive(Clone, Copy)]
struct Scale {
    first: u64,
    span: u64,
    unit: u64,
}

impl Scale {
    // How many pixels a time takes.
    fn pixels(self, time: u64) -> u64
        ensures { result ≤ 1180 }
    {
        time.checked_div(self.unit).unwrap_or(0).min(WIDTH)
    }
}

fn scale_of(jobs: &[Job]) -> Scale {
    let mut first = u64::MAX;
    let mut last = 0;
    for job in jobs {
        first = first.min(job.start);
        last = last.max(job.end);
    }
    let span = last.saturating_sub(first);
    Scale {
        first,
        span,
        unit: span / WIDTH + 1,
    }
}

fn push_xml_byte(out: &mut Text, is_text: bool, byte: u8) -> Result<(), NoMemory> {
    match byte {
        b'&' => out.push(b"&amp;"),
        b'<' => out.push(b"&lt;"),
        b'>' => out.push(b"&gt;"),
        b'"' => out.push(b"&quot;"),
        0..=31 => out.push(b"\xef\xbf\xbd"),
        _ if byte >= 128 && !is_text => out.push(b"\xef\xbf\xbd"),
        _ => out.push(&[byte]),
    }
}

// A text as characters of XML; U+FFFD stands for a control byte, and where the text is not UTF-8
// for each byte from 128 on.
fn push_xml(out: &mut Text, text: &[u8]) -> Result<(), NoMemory> {
    let is_text = is_text(text);
    for byte in text {
        push_xml_byte(out, is_text, *byte)?;
    }
    Ok(())
}

fn push_number(out: &mut Text, label: &[u8], number: u64) -> Result<(), NoMemory> {
    out.push(label)?;
    push_decimal(out, number)
}

// A time of nanoseconds in milliseconds.
fn push_millis(out: &mut Text, time: u64) -> Result<(), NoMemory> {
    push_decimal(out, time / 1_000_000)?;
    out.push(b" ms")
}

fn push_title(out: &mut Text, scale: Scale, job: &Job) -> Result<(), NoMemory> {
    out.push(b"<title>")?;
    push_xml(out, job.target.bytes())?;
    out.push(b": at ")?;
    push_millis(out, job.start.saturating_sub(scale.first))?;
    out.push(b", for ")?;
    push_millis(out, job.end.saturating_sub(job.start))?;
    out.push(b"</title>")
}

// The name of a job, where there is room for it.
fn push_name(out: &mut Text, job: &Job, x: u64, y: u64, width: u64) -> Result<(), NoMemory> {
    if job.target.len() as u64 * LETTER + 4 > width {
        return Ok(());
    }
    push_number(out, b"<text x=\"", x.saturating_add(2))?;
    push_number(out, b"\" y=\"", y.saturating_add(13))?;
    out.push(b"\">")?;
    push_xml(out, job.target.bytes())?;
    out.push(b"</text>")
}

fn push_job(out: &mut Text, scale: Scale, job: &Job, lane: usize) -> Result<(), NoMemory> {
    let x = scale.pixels(job.start.saturating_sub(scale.first)) + MARGIN;
    let y = (lane as u64).min(1 << 32) * LANE + MARGIN;
    let width = scale.pixels(job.end.saturating_sub(job.start)).max(1);
    out.push(b"<g>")?;
    push_title(out, scale, job)?;
    push_number(out, b"<rect x=\"", x)?;
    push_number(out, b"\" y=\"", y)?;
    push_number(out, b"\" width=\"", width)?;
    push_number(out, b"\" height=\"", LANE - 2)?;
    out.push(b"\" fill=\"#9bc1e6\" stroke=\"#33587c\"/>")?;
    push_name(out, job, x, y, width)?;
    out.push(b"</g>\n")
}

// How high the lanes are.
fn height_of(lanes: &[usize]) -> u64 {
    let mut count = 0;
    for lane in lanes {
        count = (*lane as u64).min(1 << 32).saturating_add(1).max(count);
    }
    count.saturating_mul(LANE).saturating_add(MARGIN)
}

fn push_head(out: &mut Text, height: u64) -> Result<(), NoMemory> {
    out.push(b"<svg xmlns=\"http://www.w3.org/2000/svg\" width=\"1200\"")?;
    push_number(out, b" height=\"", height.saturating_add(LANE))?;
    out.push(b"\" font-family=\"monospace\" font-size=\"10\">\n")
}

// How long all of it took.
fn push_span(out: &mut Text, scale: Scale, height: u64) -> Result<(), NoMemory> {
    push_number(out, b"<text x=\"10\" y=\"", height.saturating_add(13))?;
    out.push(b"\">")?;
    push_millis(out, scale.span)?;
    out.push(b"</text>\n</svg>\n")
}

/// A picture of when jobs ran, as SVG: a bar for each job in its lane, and below them how long it
/// all took.
pub fn picture(alloc: Global, jobs: &[Job], lanes: &[usize]) -> Result<Text, NoMemory> {
    let scale = scale_of(jobs);
    let height = height_of(lanes);
    let mut out = Text::new(alloc);
    push_head(&mut out, height)?;
    for (job, lane) in jobs.iter().zip(lanes) {
        push_job(&mut out, scale, job, *lane)?;
    }
    push_span(&mut out, scale, height)?;
    Ok(out)
}
