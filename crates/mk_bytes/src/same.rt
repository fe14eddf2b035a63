//! Lists of texts and of pairs, compared.
ghost use Rattle.std.specs.Prelude.{◌≡◌, ◌↔◌, true};

use crate::pair::Pair;
use crate::text::Text;

/// Whether these are the same texts in the same order. Takes no memory.
pub fn same_texts(texts: &[Text], others: &[Text]) -> bool
    ensures { (result ≡ true) ↔ (texts.now ≡ others.now) }
{
    let mut rest = texts;
    let mut behind = others;
    'texts: while let Some((text, more)) = rest.split_first() {
        let Some((other, left)) = behind.split_first() else {
            return false;
        };
        if text.bytes() != other.bytes() {
            return false;
        }
        rest = more;
        behind = left;
    }
    behind.is_empty()
}

fn same_pair(one: &Pair, other: &Pair) -> bool
    ensures { (result ≡ true) ↔ (one.now ≡ other.now) }
{
    one.name.bytes() == other.name.bytes() && one.value.bytes() == other.value.bytes()
}

/// Whether these are the same names with the same values, in the same order. Takes no memory.
pub fn same_pairs(pairs: &[Pair], others: &[Pair]) -> bool
    ensures { (result ≡ true) ↔ (pairs.now ≡ others.now) }
{
    let mut rest = pairs;
    let mut behind = others;
    'pairs: while let Some((pair, more)) = rest.split_first() {
        let Some((other, left)) = behind.split_first() else {
            return false;
        };
        if !same_pair(pair, other) {
            return false;
        }
        rest = more;
        behind = left;
    }
    behind.is_empty()
}
