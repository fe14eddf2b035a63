//! The sets of a pattern: `[..]` and `[^..]`.
ghost use Rattle.std.specs.Prelude.{◌≡◌, ℕ, ◌<◌, ◌||◌, [], length, position, Some, None, IfNone};
ghost use Rattle.std.specs.Prelude.{IfSome, MatchOption};
ghost use Rattle.mk_glob.specs.Patterns as spec;

// The first range of a set, from its low byte to its high one, and the members behind it. A member
// alone is the range of itself.
fn first_range(members: &[u8]) -> Option<(u8, u8, &[u8])>
    ensures none { IfNone result (members.now ≡ []) }
    ensures first { IfSome result (λ first. (byte : ℕ) → spec.is_member members.now byte
        ≡ (spec.is_between first.0 first.1 byte || spec.is_member first.2.now byte)) }
    ensures shorter { IfSome result (λ first. length first.2.now < length members.now) }
{
    match members {
        [] => None,
        [low, b'-', high, more @ ..] => Some((*low, *high, more)),
        [member, more @ ..] => Some((*member, *member, more)),
    }
}

/// Whether a byte is a member of a set: alone, or in a range `a-b`.
pub fn is_member(members: &[u8], byte: u8) -> bool
    ensures { result ≡ spec.is_member members.now byte }
{
    let mut rest = members;
    'members: while let Some((low, high, more)) = first_range(rest) {
        if low <= byte && byte <= high {
            return true;
        }
        rest = more;
    }
    false
}

// The place of the first `]`.
fn first_close(bytes: &[u8]) -> Option<usize>
    ensures { result ≡ position spec.is_close bytes.now }
{
    bytes.iter().position(|byte| *byte == b']')
}

/// The members of a set and what follows its `]`, from the bytes behind its `[` or `[^`. `None`
/// where no `]` closes it.
pub fn cut_set(bytes: &[u8]) -> Option<(&[u8], &[u8])>
    ensures cut { MatchOption result (spec.cut_set bytes.now ≡ None)
        (λ cut. spec.cut_set bytes.now ≡ Some (cut.0.now, cut.1.now)) }
    ensures shorter { IfSome result (λ cut. length cut.1.now < length bytes.now) }
{
    let [_, more @ ..] = bytes else {
        return None;
    };
    let at = first_close(more)?;
    Some((&bytes[..at + 1], &bytes[at + 2..]))
}
