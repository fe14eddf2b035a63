//! The words that command lines begin with.
ghost use Rattle.std.specs.Prelude.{◌≡◌};
ghost use Rattle.fmrun.specs.Requests as spec;

/// What a command line is about.
#[derive(Clone, Copy)]
pub enum Verb {
    Put,
    Cat,
    Copy,
    Move,
    Del,
    Show,
    Say,
    Pick,
    Probe,
    Fail,
    Env,
    Meet,
}

/// The verb that a word is.
pub fn verb_of(word: &[u8]) -> Option<Verb>
    ensures { result ≡ spec.verb_of word.now }
{
    if word == b"put".as_slice() {
        Some(Verb::Put)
    } else if word == b"cat".as_slice() {
        Some(Verb::Cat)
    } else if word == b"copy".as_slice() {
        Some(Verb::Copy)
    } else if word == b"move".as_slice() {
        Some(Verb::Move)
    } else {
        verb_behind_move(word)
    }
}

// The verb that a word is, of the last eight.
fn verb_behind_move(word: &[u8]) -> Option<Verb>
    ensures { result ≡ spec.verb_behind_move word.now }
{
    if word == b"del".as_slice() {
        Some(Verb::Del)
    } else if word == b"show".as_slice() {
        Some(Verb::Show)
    } else if word == b"say".as_slice() {
        Some(Verb::Say)
    } else if word == b"pick".as_slice() {
        Some(Verb::Pick)
    } else {
        verb_behind_pick(word)
    }
}

// The verb that a word is, of the last four.
fn verb_behind_pick(word: &[u8]) -> Option<Verb>
    ensures { result ≡ spec.verb_behind_pick word.now }
{
    if word == b"probe".as_slice() {
        Some(Verb::Probe)
    } else if word == b"fail".as_slice() {
        Some(Verb::Fail)
    } else if word == b"env".as_slice() {
        Some(Verb::Env)
    } else if word == b"meet".as_slice() {
        Some(Verb::Meet)
    } else {
        None
    }
}
