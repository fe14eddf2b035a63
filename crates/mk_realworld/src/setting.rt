//! What each child is given beside its command.
use mk_bytes::{Pairs, Text, Texts};

/// What a world gives to each child: the words of a recorder, which stand before those of the
/// shell; the options of make that reach the makes below, where there are any; and further
/// variables.
#[derive(Drop)]
pub struct Setting {
    pub recorder: Texts,
    pub flags: Option<Text>,
    pub variables: Pairs,
}
