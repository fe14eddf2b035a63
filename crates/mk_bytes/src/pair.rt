//! Pairs of texts, and lists of texts and of pairs.
ghost use Rattle.std.specs.Prelude.{◌≡◌, IfOk};
ghost use Rattle.mk_bytes.specs.Texts as spec;

use crate::fault::NoMemory;
use crate::items::Items;
use crate::text::Text;
use std::alloc::Global;

/// A name with a value: a variable with its text, or the path of a file with its bytes.
#[derive(Drop)]
pub struct Pair {
    pub name: Text,
    pub value: Text,
}

/// A list of texts.
pub type Texts = Items<Text>;

/// A list of pairs.
pub type Pairs = Items<Pair>;

/// Whether a text is one of these. Takes no memory.
pub fn is_among(texts: &[Text], text: &[u8]) -> bool
    ensures { result ≡ spec.is_among texts.now text.now }
{
    texts.iter().any(|one| text == one.bytes())
}

/// Copies of texts, in order.
pub fn copy_texts(alloc: Global, texts: &[Text]) -> Result<Texts, NoMemory>
    ensures { IfOk result (λ copies. copies ≡ texts.now) }
{
    let mut copies = Items::new(alloc, texts.len())?;
    for text in texts {
        copies.push(text.copy(alloc)?)?;
    }
    Ok(copies)
}

impl Pair {
    /// A pair of the same texts.
    pub fn copy(&self, alloc: Global) -> Result<Pair, NoMemory>
        ensures { IfOk result (λ pair. pair ≡ self.now) }
    {
        Ok(Pair {
            name: self.name.copy(alloc)?,
            value: self.value.copy(alloc)?,
        })
    }
}

/// Copies of pairs, in order.
pub fn copy_pairs(alloc: Global, pairs: &[Pair]) -> Result<Pairs, NoMemory>
    ensures { IfOk result (λ copies. copies ≡ pairs.now) }
{
    let mut copies = Items::new(alloc, pairs.len())?;
    for pair in pairs {
        copies.push(pair.copy(alloc)?)?;
    }
    Ok(copies)
}
