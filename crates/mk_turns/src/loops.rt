//! Loops, and those whose bodies are being read.
ghost use Rattle.std.specs.Prelude.{◌≡◌, ◌<◌, ◌/◌, ◌%◌, length};

use mk_bytes::Texts;
use mk_lines::LineCursor;

/// The names of a loop, and its words. In each turn the names stand for as many words, in order.
#[derive(Drop)]
pub struct Loop {
    pub names: Texts,
    pub words: Texts,
    pub ghost named: { 0 < length names },
    pub ghost even: { length words % length names ≡ 0 },
}

/// A loop whose body is being read.
#[derive(Drop)]
pub struct OpenLoop<'t> {
    /// Before the first line of its body.
    pub body: LineCursor<'t>,
    /// Its names and words.
    pub header: Loop,
    /// The turn that is being read, counted from 0.
    pub turn: usize,
    /// How many if-blocks are open round it, inside the loop round these.
    pub depth: u32,
    pub ghost within: { turn < length header.words / length header.names },
}
