//! What every part of a condition's reading asks of the bytes in front of it.
ghost use Rattle.std.specs.Prelude.{◌≡◌, ◌≤◌, length};
ghost use Rattle.mk_cond.specs.Terms as spec;

use mk_bytes::without_blanks_before;

/// A text without the blanks that it begins with.
#[tactic(auto, unfolding(crate::specs::Terms::skip_blanks))]
pub fn skip_blanks(text: &[u8]) -> &[u8]
    ensures same { result.now ≡ spec.skip_blanks text.now }
    ensures shorter { length result.now ≤ length text.now }
{
    without_blanks_before(text)
}

/// Whether a text begins so.
#[tactic(auto, unfolding(crate::specs::Terms::begins, mk_bytes::specs::Texts::begins))]
pub fn begins(start: &[u8], text: &[u8]) -> bool
    ensures { result ≡ spec.begins start.now text.now }
{
    mk_bytes::begins(start, text)
}
