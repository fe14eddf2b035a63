//! Texts, lists, words and paths: the ground that every other crate stands on.
//!
//! Contracts see a [`Text`] as its list of bytes and an [`Items`] as its list of items. Both hold
//! fewer than 2^32 of them; a growth past that is want of memory.
#![tactic(auto)]

mod fault;
mod items;
mod kind;
mod num;
mod pair;
mod part;
mod path;
mod same;
mod text;
mod word;

pub use fault::NoMemory;
pub use items::Items;
pub use kind::Kind;
pub use num::{Num, number, number_up_to};
pub use pair::{Pair, Pairs, Texts, copy_pairs, copy_texts, is_among};
pub use part::{
    begins, is_blank, skip, without_blanks, without_blanks_after, without_blanks_before,
};
pub use path::{are_names, clean_path, is_absolute, is_clean_directory};
pub use same::{same_pairs, same_texts};
pub use text::Text;
pub use word::{Span, first_piece, is_white, next_word, next_word_is_first, words};
