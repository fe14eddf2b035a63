//! The text by which one make hands words to another, in `BMAKE_FLAGS`.
ghost use Rattle.std.specs.Prelude.{◌≡◌, ◌++◌, IfOk, OnOk};
ghost use Rattle.mk_mods.specs.Quotes as quotes;
ghost use Rattle.mk_inherit.specs.Flags as spec;
ghost use Rattle.mk_inherit.specs.declared.flags.Mode.TheVariants as mode;

use mk_bytes::{Items, NoMemory, Text, Texts};
use std::alloc::Global;

/// Where a reading of words stands.
#[derive(Clone, Copy, PartialEq, Eq)]
pub enum Mode {
    /// Before a word.
    Between,
    /// Inside of one.
    Inside,
    /// Behind a backslash.
    Escaped,
    /// Between quotes.
    Quoted,
}

/// What has been read of a text: the words, and the beginning of one.
#[derive(Drop)]
pub struct Split {
    pub mode: Mode,
    pub word: Text,
    pub words: Texts,
}

// Whether a byte is itself in a quoted word.
fn is_plain(byte: u8) -> bool
    ensures { result ≡ quotes.is_plain byte }
{
    match byte {
        b'A'..=b'Z' | b'a'..=b'z' | b'0'..=b'9' | 128..=255 => true,
        b'_' | b'-' | b'+' | b'=' | b'.' | b',' | b'/' | b':' | b'@' | b'%' => true,
        _ => false,
    }
}

fn push_quoted(out: &mut Text, byte: u8) -> Result<(), NoMemory>
    ensures { OnOk result (out.new ≡ out.old ++ quotes.quoted_byte byte) }
{
    if is_plain(byte) {
        return out.push(&[byte]);
    }
    if byte == b'\n' {
        return out.push(b"'\n'");
    }
    out.push(&[b'\\', byte])
}

fn push_all_quoted(out: &mut Text, word: &[u8]) -> Result<(), NoMemory>
    ensures { OnOk result (out.new ≡ out.old ++ quotes.quoted word.now) }
{
    for byte in word {
        push_quoted(out, *byte)?;
    }
    Ok(())
}

fn push_word(out: &mut Text, word: &[u8]) -> Result<(), NoMemory>
    ensures { OnOk result (out.new ≡ out.old ++ spec.spelled word.now) }
{
    if word.is_empty() {
        return out.push(b"'' ");
    }
    push_all_quoted(out, word)?;
    out.push(b" ")
}

/// The text of words: each is quoted for a shell, and a space stands behind it.
pub fn flags_of(alloc: Global, words: &Texts) -> Result<Text, NoMemory>
    ensures { IfOk result (λ text. text ≡ spec.flags words.now) }
{
    let mut out = Text::new(alloc);
    for word in words.as_slice() {
        push_word(&mut out, word.bytes())?;
    }
    Ok(out)
}

fn is_blank(byte: u8) -> bool
    ensures { result ≡ spec.is_blank byte }
{
    byte == b' ' || byte == b'\t'
}

impl Split {
    fn new(alloc: Global) -> Result<Split, NoMemory>
        ensures { IfOk result (λ split. split ≡ spec.no_words) }
    {
        Ok(Split {
            mode: Mode::Between,
            word: Text::new(alloc),
            words: Items::new(alloc, 0)?,
        })
    }

    fn add(&mut self, byte: u8) -> Result<(), NoMemory>
        ensures { OnOk result (self.new ≡ spec.with_byte self.old byte) }
    {
        self.mode = Mode::Inside;
        self.word.push(&[byte])
    }

    fn end_word(&mut self, alloc: Global) -> Result<(), NoMemory>
        ensures { OnOk result (self.new ≡ spec.with_end self.old) }
    {
        self.mode = Mode::Between;
        let word = std::mem::replace(&mut self.word, Text::new(alloc));
        self.words.push(word)
    }

    fn take_inside(&mut self, byte: u8) -> Result<(), NoMemory>
        ensures { OnOk result (self.new ≡ spec.inside self.old byte) }
    {
        match byte {
            b'\\' => self.mode = Mode::Escaped,
            b'\'' => self.mode = Mode::Quoted,
            _ => self.add(byte)?,
        }
        Ok(())
    }

    fn take_quoted(&mut self, byte: u8) -> Result<(), NoMemory>
        ensures { OnOk result (self.new ≡ spec.taken_in self.old mode.Quoted byte) }
    {
        if byte == b'\'' {
            self.mode = Mode::Inside;
            return Ok(());
        }
        self.word.push(&[byte])
    }

    fn take(&mut self, alloc: Global, byte: u8) -> Result<(), NoMemory>
        ensures { OnOk result (self.new ≡ spec.taken self.old byte) }
    {
        match self.mode {
            Mode::Between if is_blank(byte) => Ok(()),
            Mode::Inside if is_blank(byte) => self.end_word(alloc),
            Mode::Between | Mode::Inside => self.take_inside(byte),
            Mode::Escaped => self.add(byte),
            Mode::Quoted => self.take_quoted(byte),
        }
    }

    fn finish(self) -> Result<Option<Texts>, NoMemory>
        ensures { IfOk result (λ words. words ≡ spec.finished self) }
    {
        let Split {
            mode,
            word,
            mut words,
        } = self;
        match mode {
            Mode::Between => Ok(Some(words)),
            Mode::Inside => {
                words.push(word)?;
                Ok(Some(words))
            }
            Mode::Escaped | Mode::Quoted => Ok(None),
        }
    }
}

/// The words of a text, as `flags_of` writes it: blanks part them, a backslash stands before a byte
/// that means nothing else than itself, and between quotes all bytes do. `None` exactly where a
/// quote is not closed, or nothing stands behind a backslash.
pub fn words_in(alloc: Global, text: &[u8]) -> Result<Option<Texts>, NoMemory>
    ensures { IfOk result (λ words. words ≡ spec.words_in text.now) }
{
    let mut split = Split::new(alloc)?;
    for byte in text {
        split.take(alloc, *byte)?;
    }
    split.finish()
}
