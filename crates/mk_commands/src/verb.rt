//! The words that commands begin with.
ghost use Rattle.std.specs.Prelude.{◌≡◌};
ghost use Rattle.mk_commands.specs.Commands as spec;

/// What a command does.
#[derive(Clone, Copy, PartialEq, Eq)]
pub enum Verb {
    Put,
    Cat,
    Copy,
    Move,
    Del,
    Show,
    Say,
    Pick,
    Probe,
    Env,
    Fail,
}

/// The verb that a word is.
pub fn verb_of(word: &[u8]) -> Option<Verb>
    ensures { result ≡ spec.verb_of word.now }
{
    if word == b"put".as_slice() {
        Some(Verb::Put)
    } else if word == b"cat".as_slice() {
        Some(Verb::Cat)
    } else if word == b"copy".as_slice() {
        Some(Verb::Copy)
    } else if word == b"move".as_slice() {
        Some(Verb::Move)
    } else if word == b"del".as_slice() {
        Some(Verb::Del)
    } else {
        other_verb_of(word)
    }
}

// The verb that a word is, of the last six.
fn other_verb_of(word: &[u8]) -> Option<Verb>
    ensures { result ≡ spec.other_verb_of word.now }
{
    if word == b"show".as_slice() {
        Some(Verb::Show)
    } else if word == b"say".as_slice() {
        Some(Verb::Say)
    } else if word == b"pick".as_slice() {
        Some(Verb::Pick)
    } else if word == b"probe".as_slice() {
        Some(Verb::Probe)
    } else if word == b"env".as_slice() {
        Some(Verb::Env)
    } else if word == b"fail".as_slice() {
        Some(Verb::Fail)
    } else {
        None
    }
}
