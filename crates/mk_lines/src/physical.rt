//! Physical lines one after the other, and the two ends of a line that joining looks at.
ghost use Rattle.std.specs.Prelude.{◌≡◌, ◌+◌, ◌^◌, ◌<◌, ◌≤◌, ◌∷◌, [], length, reverse, take_while};
ghost use Rattle.std.specs.Prelude.{IfSome, IfNone, OnSome};
ghost use Rattle.std.specs.List.{before_first, after_first};
ghost use Rattle.mk_lines.specs.Lines as spec;

use memchr::memchr;

/// The physical lines of a text that are left, and how many came before them.
#[derive(Clone, Copy)]
pub struct PhysicalLines<'t> {
    pub rest: &'t [u8],
    pub done: u32,
    ghost countable: { done + length rest.now < 2 ^ 32 },
}

impl<'t> PhysicalLines<'t> {
    /// Takes the next physical line, without its newline; `None` where no byte is left.
    pub fn take_line(&mut self) -> Option<&'t [u8]>
        ensures first { IfSome result (λ line.
            spec.physical_lines self.old.rest.now
            ≡ line.now ∷ spec.physical_lines self.new.rest.now) }
        ensures done { OnSome result (self.new.done ≡ self.old.done + 1) }
        ensures shorter { OnSome result (length self.new.rest.now < length self.old.rest.now) }
        ensures room { IfSome result (λ line.
            length line.now + length self.new.rest.now ≤ length self.old.rest.now) }
        ensures none { IfNone result (spec.physical_lines self.old.rest.now ≡ []) }
        ensures over { IfNone result (self.new ≡ self.old) }
    {
        if self.rest.is_empty() {
            return None;
        }
        let (line, rest) = split_line(self.rest);
        self.rest = rest;
        self.done += 1;
        Some(line)
    }
}

// The first physical line of a text, and what follows its newline.
fn split_line<'t>(text: &'t [u8]) -> (&'t [u8], &'t [u8])
    ensures line { result.0.now ≡ before_first spec.is_newline text.now }
    ensures rest { result.1.now ≡ after_first spec.is_newline text.now }
{
    match memchr(b'\n', text) {
        Some(end) => (&text[..end], &text[end + 1..]),
        None => (text, &text[text.len()..]),
    }
}

/// Whether a line ends in an odd number of backslashes.
pub fn is_continued(line: &[u8]) -> bool
    ensures { result ≡ spec.is_continued line.now }
{
    final_backslashes(line) % 2 == 1
}

fn final_backslashes(line: &[u8]) -> usize
    ensures { result ≡ length (take_while spec.is_backslash (reverse line.now)) }
{
    line.iter().rev().take_while(|byte| **byte == b'\\').count()
}
