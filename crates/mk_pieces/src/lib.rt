//! Pieces of a region, and what is put in place of parts of the words that they show.
//!
//! A word that is changed becomes a piece of bytes that are made, and lies in the region behind
//! what was there; a word that stays keeps its piece. Contracts see the words as plain texts
//! (`specs/Substitution.antt`, `specs/Letters.antt`), and the region as its bytes
//! (`specs/Pieces.antt`).
#![tactic(auto)]

mod fault;
mod fresh;
mod letters;
mod piece;
mod replace;

pub use fault::ModFault;
pub use fresh::MAX_TEXT;
pub use piece::{piece_between, place, shown};
pub use replace::{Change, change_words};
