//! What the words of a command line set before any makefile is read.
ghost use Rattle.std.specs.Prelude.{◌≡◌, IfOk};
ghost use Rattle.mk_values.specs.Locals as names;

use mk_bytes::{NoMemory, Text, Texts};
use std::alloc::Global;

/// The texts with one space between them.
pub fn spaced(alloc: Global, texts: &Texts) -> Result<Text, NoMemory>
    ensures { IfOk result (λ text. text ≡ names.spaced texts.now) }
{
    let [first, rest @ ..] = texts.as_slice() else {
        return Ok(Text::new(alloc));
    };
    let mut text = first.copy(alloc)?;
    for one in rest {
        text.push(b" ")?;
        text.push(one.bytes())?;
    }
    Ok(text)
}
