//! The modifiers of words in references to variables (make(1), "VARIABLE ASSIGNMENTS").
//!
//! A chain of modifiers works on a [`Val`]: items, what stands between them in the printed text,
//! and whether that text is one word. Its items are pieces of a region, so that modifiers which
//! choose, cut or order words place no bytes. Contracts see it as a state of plain texts
//! (`specs/State.antt`), on which each modifier is a function (`specs/Modifiers.antt`).
#![tactic(auto)]

mod chain;
mod choice;
mod modifier;
mod order;
mod part;
mod piece;
mod places;
mod quote;
mod results;
mod val;

pub use chain::{apply, word_pieces};
pub use mk_pieces::{ModFault, shown};
pub use modifier::Mod;
pub use results::{Results, with_results};
pub use val::{Separator, Val, placed_anew, text, with_items, words_of};
