//! Parts of texts: without blanks, without their first bytes, and how they begin.
ghost use Rattle.std.specs.Prelude.{◌≡◌, ◌≤◌, drop, length, reverse, take_while};
ghost use Rattle.mk_bytes.specs.Bytes as bytes;
ghost use Rattle.mk_bytes.specs.Texts as spec;

/// Whether a byte is a space or a tab.
pub fn is_blank(byte: u8) -> bool
    ensures { result ≡ bytes.is_blank byte }
{
    byte == b' ' || byte == b'\t'
}

fn leading_blanks(text: &[u8]) -> usize
    ensures len { result ≡ length (take_while bytes.is_blank text.now) }
    ensures within { result ≤ length text.now }
{
    text.iter().take_while(|byte| is_blank(**byte)).count()
}

fn final_blanks(text: &[u8]) -> usize
    ensures len { result ≡ length (take_while bytes.is_blank (reverse text.now)) }
    ensures within { result ≤ length text.now }
{
    text.iter()
        .rev()
        .take_while(|byte| is_blank(**byte))
        .count()
}

/// A text without the blanks that begin it. Takes no memory.
pub fn without_blanks_before<'t>(text: &'t [u8]) -> &'t [u8]
    ensures value { result.now ≡ spec.without_blanks_before text.now }
    ensures shorter { length result.now ≤ length text.now }
{
    &text[leading_blanks(text)..]
}

/// A text without the blanks that end it. Takes no memory.
pub fn without_blanks_after<'t>(text: &'t [u8]) -> &'t [u8]
    ensures { result.now ≡ spec.without_blanks_after text.now }
{
    &text[..text.len() - final_blanks(text)]
}

/// A text without the blanks round it. Takes no memory.
pub fn without_blanks<'t>(text: &'t [u8]) -> &'t [u8]
    ensures { result.now ≡ spec.without_blanks text.now }
{
    without_blanks_after(without_blanks_before(text))
}

/// A text without its first bytes; the empty text where it has no more than these.
pub fn skip<'t>(text: &'t [u8], count: usize) -> &'t [u8]
    ensures { result.now ≡ drop count text.now }
{
    if count > text.len() {
        return b"";
    }
    &text[count..]
}

/// Whether a text begins so. The first byte is compared alone, since it decides most of the time.
#[tactic(auto, unfolding(crate::specs::Texts::begins))]
pub fn begins(start: &[u8], text: &[u8]) -> bool
    ensures { result ≡ spec.begins start.now text.now }
{
    match (start, text) {
        ([], _) => true,
        ([_, ..], []) => false,
        ([first, start @ ..], [byte, text @ ..]) => first == byte && text.starts_with(start),
    }
}
