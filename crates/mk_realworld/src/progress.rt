//! The line on a terminal that tells how far a build has come, while make waits for a child. It
//! decides nothing: a fault of writing it is passed over.
ghost use Rattle.std.specs.Prelude.{◌≡◌, ◌++◌, decimal, flat_map, take, IfOk, OnOk};
ghost use Rattle.mk_realworld.specs.Progress as spec;

use itoa::Buffer;
use mk_bytes::{NoMemory, Text};
use mk_world::Progress;
use std::alloc::Global;
use std::io::{IsTerminal, Print, Stderr};
use std::time::{Clock, Duration};

// A wait that is shorter shows nothing, so that short commands cause no flicker, in milliseconds.
const PATIENCE: u64 = 100;

// So many bytes of the line are shown, which leave the last column of most terminals free.
const COLUMNS: usize = 79;

// To the beginning of the line, and erase what stands behind it.
const ERASED: &[u8] = b"\r\x1b[K";

/// The line of one wait.
#[derive(Drop)]
pub struct StatusLine<'p> {
    alloc: Global,
    // What is to be told, until that is done or turns out to be impossible.
    progress: Option<Progress<'p>>,
    // How many children run.
    running: u32,
    // When the wait began, by the clock.
    began: Option<Duration>,
    is_shown: bool,
}

// A byte of a name. A control character would change the terminal.
fn push_byte(line: &mut Text, byte: u8) -> Result<(), NoMemory>
    ensures { OnOk result (line.new ≡ line.old ++ spec.shown_byte byte) }
{
    if byte < 32 || byte == 127 {
        return line.push(b"?");
    }
    line.push(&[byte])
}

fn push_bytes(line: &mut Text, name: &[u8]) -> Result<(), NoMemory>
    ensures { OnOk result (line.new ≡ line.old ++ flat_map spec.shown_byte name.now) }
{
    for byte in name {
        push_byte(line, *byte)?;
    }
    Ok(())
}

// The name of the oldest target, where there is one.
fn push_oldest(line: &mut Text, name: &[u8]) -> Result<(), NoMemory>
    ensures { OnOk result (line.new ≡ line.old ++ spec.oldest name.now) }
{
    if name.is_empty() {
        return Ok(());
    }
    line.push(b", ")?;
    push_bytes(line, name)
}

fn push_number(line: &mut Text, number: u32) -> Result<(), NoMemory>
    ensures { OnOk result (line.new ≡ line.old ++ decimal number) }
{
    line.push(Buffer::new().format(number).as_bytes())
}

// The whole line.
fn line_of(
    alloc: Global,
    made: u32,
    total: u32,
    running: u32,
    name: &[u8],
) -> Result<Text, NoMemory>
    ensures { IfOk result (λ line. line ≡ spec.line made total running name.now) }
{
    let mut line = Text::from_bytes(alloc, b"bmake: ")?;
    push_number(&mut line, made)?;
    line.push(b" of ")?;
    push_number(&mut line, total)?;
    line.push(b" done, ")?;
    push_number(&mut line, running)?;
    line.push(b" running")?;
    push_oldest(&mut line, name)?;
    Ok(line)
}

// As much of a line as has room on a terminal.
fn cut(line: &[u8]) -> &[u8]
    ensures { result.now ≡ take 79 line.now }
{
    &line[..COLUMNS.min(line.len())]
}

// What is written: the line takes the place of what stands before the cursor, and nothing stands
// behind it.
fn written(
    alloc: Global,
    made: u32,
    total: u32,
    running: u32,
    name: &[u8],
) -> Result<Text, NoMemory>
    ensures { IfOk result (λ bytes. bytes ≡ spec.written made total running name.now) }
{
    let line = line_of(alloc, made, total, running, name)?;
    let mut bytes = Text::from_bytes(alloc, b"\r")?;
    bytes.push(cut(line.bytes()))?;
    bytes.push(b"\x1b[K")?;
    Ok(bytes)
}

impl<'p> StatusLine<'p> {
    /// The line of a wait that begins now with so many children. Where there is no progress to show
    /// it never comes.
    pub fn new<C: Clock>(
        clock: &C,
        alloc: Global,
        progress: Option<Progress<'p>>,
        running: usize,
    ) -> StatusLine<'p> {
        let began = match progress {
            Some(_) => clock.monotonic().ok(),
            None => None,
        };
        StatusLine {
            alloc,
            progress,
            running: u32::try_from(running).unwrap_or(u32::MAX),
            began,
            is_shown: false,
        }
    }

    // Whether the wait has been long.
    fn is_due<C: Clock>(&self, clock: &C) -> bool {
        match (self.began, clock.monotonic()) {
            (Some(began), Ok(now)) => {
                now.saturating_sub(began) >= Duration::from_millis(PATIENCE)
            }
            _ => false,
        }
    }

    // Writes it, where standard error is a terminal.
    fn write(&mut self, stderr: &Stderr, progress: Progress) {
        if !stderr.is_terminal() {
            return;
        }
        let Progress {
            made,
            total,
            oldest,
        } = progress;
        if let Ok(bytes) = written(self.alloc, made, total, self.running, oldest) {
            self.is_shown = true;
            let _ = stderr.write_all(bytes.bytes());
        }
    }

    /// Shows it on standard error, where that is a terminal and the wait has been long. It is
    /// written once, as nothing of it changes until a child is taken in.
    pub fn show<C: Clock>(&mut self, clock: &C, stderr: &Stderr) {
        if let Some(progress) = self.progress {
            if self.is_due(clock) {
                self.progress = None;
                self.write(stderr, progress);
            }
        }
    }

    /// Takes it away, where it was shown, so that nothing of it stays before other output.
    pub fn erase(&mut self, stderr: &Stderr) {
        if self.is_shown {
            self.is_shown = false;
            let _ = stderr.write_all(ERASED);
        }
    }
}
