//! Lists of texts, as tables give them and as rows compare them.
use mk_bytes::{Items, NoMemory, Text, Texts};
use std::alloc::Global;

/// These texts.
pub fn texts(alloc: Global, all: &[&[u8]]) -> Result<Texts, NoMemory> {
    let mut texts = Items::new(alloc, all.len())?;
    for bytes in all {
        texts.push(Text::from_bytes(alloc, bytes)?)?;
    }
    Ok(texts)
}

/// Whether these are the texts.
pub fn are(texts: &Texts, wanted: &[&[u8]]) -> bool {
    if texts.len() != wanted.len() {
        return false;
    }
    for (text, bytes) in texts.as_slice().iter().zip(wanted) {
        if text.bytes() != *bytes {
            return false;
        }
    }
    true
}
