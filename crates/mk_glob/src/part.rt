//! The parts of a pattern, read one after the other.
ghost use Rattle.std.specs.Prelude.{◌≡◌, ◌<◌, ◌≤◌, ◌∷◌, [], length, Some, None, IsTrue, IfSome};
ghost use Rattle.std.specs.Prelude.{MatchOption};
ghost use Rattle.mk_glob.specs.Patterns as spec;
ghost use Rattle.mk_glob.specs.Reading.{seen_class, seen_part, has_no_set};

use crate::set::{cut_set, is_member};

/// The bytes of which a part takes one.
#[derive(Clone, Copy)]
pub enum Class<'p> {
    Any,
    Only(u8),
    Within(&'p [u8]),
    Outside(&'p [u8]),
}

/// A part of a pattern: `*`, or one that takes one byte.
#[derive(Clone, Copy)]
pub enum Part<'p> {
    Star,
    One(Class<'p>),
}

impl Class<'_> {
    /// Whether a part of this class takes a byte.
    pub fn takes(self, byte: u8) -> bool
        ensures { result ≡ spec.takes (seen_class self.entry) byte }
    {
        match self {
            Class::Any => true,
            Class::Only(same) => same == byte,
            Class::Within(members) => is_member(members, byte),
            Class::Outside(members) => !is_member(members, byte),
        }
    }
}

/// What is left of a pattern.
#[derive(Clone, Copy)]
pub struct Pattern<'p> {
    pub bytes: &'p [u8],
    // Whether a `[` before these bytes found no `]`. Then no `[` among them finds one, and none
    // looks for it, so that one reading of a pattern looks in vain at most once.
    unclosed: bool,
    ghost no_set: { IsTrue unclosed → IsTrue (has_no_set bytes.now) },
}

// The part that a `[` begins and what follows it, from the bytes behind the `[`. `None` where no
// `]` closes it.
fn read_set(bytes: &[u8]) -> Option<(Part<'_>, &[u8])>
    ensures set { MatchOption result (spec.set_part bytes.now ≡ None)
        (λ set. spec.set_part bytes.now ≡ Some (seen_part set.0, set.1.now)) }
    ensures shorter { IfSome result (λ set. length set.1.now < length bytes.now) }
{
    if let [b'^', rest @ ..] = bytes {
        let (members, after) = cut_set(rest)?;
        return Some((Part::One(Class::Outside(members)), after));
    }
    let (members, after) = cut_set(bytes)?;
    Some((Part::One(Class::Within(members)), after))
}

// The part that a byte begins where that is no set, and what follows it.
fn read_plain(first: u8, rest: &[u8]) -> (Part<'_>, &[u8])
    ensures part { spec.plain_part first rest.now ≡ (seen_part result.0, result.1.now) }
    ensures shorter { length result.1.now ≤ length rest.now }
{
    match first {
        b'*' => (Part::Star, rest),
        b'?' => (Part::One(Class::Any), rest),
        b'\\' => read_escaped(rest),
        _ => (Part::One(Class::Only(first)), rest),
    }
}

// What a backslash stands for, and what follows it: the next byte, and at the end itself.
fn read_escaped(rest: &[u8]) -> (Part<'_>, &[u8])
    ensures part { spec.escaped rest.now ≡ (seen_part result.0, result.1.now) }
    ensures shorter { length result.1.now ≤ length rest.now }
{
    match rest {
        [] => (Part::One(Class::Only(b'\\')), rest),
        [byte, after @ ..] => (Part::One(Class::Only(*byte)), after),
    }
}

impl<'p> Pattern<'p> {
    /// A pattern from its first byte on.
    pub fn new(bytes: &'p [u8]) -> Pattern<'p>
        ensures { result.bytes.now ≡ bytes.now }
    {
        Pattern {
            bytes,
            unclosed: false,
        }
    }

    /// The first part and what is left behind it. `None` at the end of the pattern.
    pub fn split_first(self) -> Option<(Part<'p>, Pattern<'p>)>
        ensures parts { MatchOption result (self.entry.bytes.now ≡ [])
            (λ first. spec.parts_of self.entry.bytes.now
            ≡ seen_part first.0 ∷ spec.parts_of first.1.bytes.now) }
        ensures shorter { IfSome result
            (λ first. length first.1.bytes.now < length self.entry.bytes.now) }
    {
        let [first, rest @ ..] = self.bytes else {
            return None;
        };
        let mut unclosed = self.unclosed;
        if *first == b'[' && !unclosed {
            if let Some((set, bytes)) = read_set(rest) {
                return Some((set, Pattern { bytes, unclosed }));
            }
            unclosed = true;
        }
        let (part, bytes) = read_plain(*first, rest);
        Some((part, Pattern { bytes, unclosed }))
    }
}
