//! White space round the arguments of functions.
ghost use Rattle.std.specs.Prelude.{◌≡◌, ◌≤◌, length, position, reverse, take_while};
ghost use Rattle.mk_bytes.specs.Words.{is_no_white, is_white};
ghost use Rattle.mk_values.specs.Conditions as spec;

fn first_no_white(text: &[u8]) -> Option<usize>
    ensures { result ≡ position is_no_white text.now }
{
    text.iter()
        .position(|byte| *byte != b' ' && *byte != b'\t' && *byte != b'\n')
}

#[tactic(auto, unfolding(crate::specs::Conditions::without_front))]
fn without_front<'t>(text: &'t [u8]) -> &'t [u8]
    ensures { result.now ≡ spec.without_front text.now }
{
    let white = first_no_white(text).unwrap_or(text.len());
    &text[white..]
}

fn final_white(text: &[u8]) -> usize
    ensures len { result ≡ length (take_while is_white (reverse text.now)) }
    ensures within { result ≤ length text.now }
{
    text.iter()
        .rev()
        .take_while(|byte| **byte == b' ' || **byte == b'\t' || **byte == b'\n')
        .count()
}

#[tactic(auto, unfolding(crate::specs::Conditions::without_back))]
fn without_back<'t>(text: &'t [u8]) -> &'t [u8]
    ensures { result.now ≡ spec.without_back text.now }
{
    &text[..text.len() - final_white(text)]
}

/// A text without the white space round it.
pub fn trimmed<'t>(text: &'t [u8]) -> &'t [u8]
    ensures { result.now ≡ spec.trimmed text.now }
{
    without_back(without_front(text))
}

/// Whether a text has no byte but white space.
pub fn is_white_alone(text: &[u8]) -> bool
    ensures { result ≡ spec.is_white_alone text.now }
{
    first_no_white(text).is_none()
}
