//! Braces: `x{a,b}y` stands for `xay xby`.
ghost use Rattle.std.specs.Prelude.{◌≡◌, ◌+◌, ◌<◌, ◌≤◌, ◌≢◌, ◌∷◌, ◌++◌, [], true, false, length};
ghost use Rattle.std.specs.Prelude.{drop, position, IfOk, IfErr, IfSome, OnOk};
ghost use Rattle.mk_bytes.specs.Agrees.{Agrees, AgreesErr};
ghost use Rattle.mk_depline.specs.Braces as spec;
ghost use Rattle.mk_bytes.specs.Words as words;
ghost use Rattle.mk_depline.specs.declared.fault.DepFault.TheVariants.{NoMemory as no_memory};

use crate::fault::DepFault;
use mk_bytes::{Items, NoMemory, Text, Texts, first_piece};
use std::alloc::Global;

fn first_open(word: &[u8]) -> Option<usize>
    ensures { result ≡ position spec.is_open word.now }
{
    word.iter().position(|byte| *byte == b'{')
}

// A text without its first bytes.
fn behind(text: &[u8], at: usize) -> &[u8]
    ensures { result.now ≡ drop at text.now }
{
    if at >= text.len() {
        return b"";
    }
    &text[at..]
}

/// Where groups are closed in each end of a word, and where their first alternatives end, from the
/// shortest end on: a place and one more, and 0 where there is none.
#[derive(Drop)]
pub struct Places {
    pub closes: Vec<usize>,
    pub commas: Vec<usize>,
}

// Whether a text begins with a byte that opens no group.
fn is_plain(text: &[u8]) -> bool
    ensures { result ≡ spec.is_plain text.now }
{
    match text {
        [] => false,
        [byte, ..] => *byte != b'{',
    }
}

fn ends_alternative(text: &[u8]) -> bool
    ensures { result ≡ spec.ends_alternative text.now }
{
    match text {
        [] => false,
        [byte, ..] => *byte == b',' || *byte == b'}',
    }
}

fn moved(number: usize, by: usize) -> usize
    requires { number + by ≤ usize.MAX }
    ensures { result ≡ spec.moved number by }
{
    if number == 0 {
        return 0;
    }
    number + by
}

// The number of a place in a byte and the text behind it, whose places have these numbers.
fn number_behind(wanted: u8, byte: u8, rest: &[u8], closes: &[usize], places: &[usize]) -> usize
    requires wanted { wanted ≢ 123 }
    requires closes { closes.now ≡ spec.numbers_of 125 rest.now }
    requires places { places.now ≡ spec.numbers_of wanted rest.now }
    ensures { result ≡ spec.number_of (spec.place_of wanted (byte ∷ rest.now)) }
{
    if byte == wanted {
        return 1;
    }
    let count = rest.len();
    if byte != b'{' {
        return moved(places[count], 1);
    }
    let close = closes[count];
    if close == 0 {
        return 0;
    }
    moved(places[count - close], close + 1)
}

// The places in a byte and the text behind it.
#[tactic(auto, unfolding(crate::specs::Braces::numbers_of))]
fn push_places(places: &mut Places, byte: u8, rest: &[u8]) -> Result<(), NoMemory>
    requires { spec.ArePlaces rest.now places.old }
    ensures { OnOk result (spec.ArePlaces (byte ∷ rest.now) places.new) }
{
    let closes = places.closes.as_slice();
    let close = number_behind(b'}', byte, rest, closes, closes);
    let comma = number_behind(b',', byte, rest, closes, places.commas.as_slice());
    places.closes.push(close)?;
    places.commas.push(comma)?;
    Ok(())
}

// No place at all.
#[tactic(auto, unfolding(crate::specs::Braces::numbers_of))]
fn no_places(alloc: Global) -> Result<Places, NoMemory>
    ensures { IfOk result (λ places. spec.ArePlaces [] places) }
{
    let mut closes = Vec::new(alloc);
    closes.push(0)?;
    let mut commas = Vec::new(alloc);
    commas.push(0)?;
    Ok(Places { closes, commas })
}

// The places in a word, which is read once, from its last byte on.
fn places_in(alloc: Global, word: &[u8]) -> Result<Places, NoMemory>
    ensures { IfOk result (λ places. spec.ArePlaces word.now places) }
{
    let mut places = no_places(alloc)?;
    let mut at = word.len();
    'bytes: while at > 0 {
        at -= 1;
        push_places(&mut places, word[at], behind(word, at + 1))?;
    }
    Ok(places)
}

fn place_numbered(number: usize) -> Option<usize>
    ensures { result ≡ spec.place_numbered number }
{
    if number == 0 {
        return None;
    }
    Some(number - 1)
}

// Where the group is closed in which a place of a word stands.
fn close_at(places: &Places, word: &[u8], at: usize) -> Option<usize>
    requires places { spec.ArePlaces word.now places.now }
    requires within { at ≤ length word.now }
    ensures value { result ≡ spec.place_of 125 (drop at word.now) }
    ensures within { IfSome result (λ end. end < length (drop at word.now)) }
{
    let closes = places.closes.as_slice();
    place_numbered(closes[word.len() - at])
}

// Where the first comma in no other group stands behind a place of a word.
fn comma_at(places: &Places, word: &[u8], at: usize) -> Option<usize>
    requires places { spec.ArePlaces word.now places.now }
    requires within { at ≤ length word.now }
    ensures value { result ≡ spec.place_of 44 (drop at word.now) }
    ensures within { IfSome result (λ end. end < length (drop at word.now)) }
{
    let commas = places.commas.as_slice();
    place_numbered(commas[word.len() - at])
}

// Where the group is closed whose alternative ends at a place of a word.
fn group_end(places: &Places, word: &[u8], at: usize, depth: usize) -> Option<usize>
    requires places { spec.ArePlaces word.now places.now }
    requires within { at ≤ length word.now }
    ensures value { result ≡ spec.group_end depth (drop at word.now) }
    ensures within { IfSome result (λ end. end < length (drop at word.now)) }
    ensures deep { IfSome result (λ end. 0 < depth) }
{
    if depth == 0 || !ends_alternative(behind(word, at)) {
        return None;
    }
    close_at(places, word, at)
}

// Where the alternative behind the first one begins.
fn next_alternative(places: &Places, word: &[u8], at: usize) -> Option<usize>
    requires places { spec.ArePlaces word.now places.now }
    requires within { at ≤ length word.now }
    ensures value { result
        ≡ spec.next_in (drop at word.now) (spec.place_of 125 (drop at word.now)) }
    ensures within { IfSome result (λ next. next ≤ length (drop at word.now)) }
{
    let end = close_at(places, word, at)?;
    let comma = comma_at(places, word, at)?;
    if comma < end { Some(comma + 1) } else { None }
}

// Adds a word, if it is not empty.
fn push_word(alloc: Global, word: &[u8], names: &mut Texts) -> Result<(), NoMemory>
    ensures { OnOk result (names.new ≡ names.old ++ words.words_among (word.now ∷ [])) }
{
    if word.is_empty() {
        return Ok(());
    }
    names.push(Text::from_bytes(alloc, word)?)
}

/// A word that is read from the left: what it is so far, and the place of the next byte, which
/// stands in so many groups. It may have so many groups more.
#[derive(Drop)]
pub struct Reading {
    pub most: usize,
    pub text: Text,
    pub at: usize,
    pub depth: usize,
}

/// The alternatives of a group from the one at a place on, what stands before the group, and in how
/// many others it stands. Each may have so many groups more.
#[derive(Drop)]
pub struct Pending {
    pub most: usize,
    pub before: Text,
    pub at: usize,
    pub depth: usize,
}

// Reads a byte, or goes from the end of an alternative to behind its group.
fn read_byte(places: &Places, word: &[u8], reading: &mut Reading) -> Result<(), NoMemory>
    requires places { spec.ArePlaces word.now places.now }
    requires plain { spec.is_plain (drop reading.old.at word.now) ≡ true }
    requires placed { spec.IsPlaced word.now reading.old.text reading.old.at reading.old.depth }
    ensures word { OnOk result
        (spec.word_of word.now reading.new ≡ spec.word_of word.now reading.old) }
    ensures most { OnOk result (reading.new.most ≡ reading.old.most) }
    ensures more { OnOk result (reading.old.at < reading.new.at) }
    ensures placed { OnOk result
        (spec.IsPlaced word.now reading.new.text reading.new.at reading.new.depth) }
{
    match group_end(places, word, reading.at, reading.depth) {
        Some(end) => {
            reading.at += end + 1;
            reading.depth -= 1;
        }
        None => {
            reading.text.push(&behind(word, reading.at)[..1])?;
            reading.at += 1;
        }
    }
    Ok(())
}

// Reads up to the next group, or to the end of the word.
fn read_plain(places: &Places, word: &[u8], reading: Reading) -> Result<Reading, NoMemory>
    requires places { spec.ArePlaces word.now places.now }
    requires placed { spec.IsPlaced word.now reading.text reading.at reading.depth }
    ensures word { IfOk result
        (λ new. spec.word_of word.now new ≡ spec.word_of word.now reading) }
    ensures most { IfOk result (λ new. new.most ≡ reading.most) }
    ensures placed { IfOk result
        (λ new. spec.IsPlaced word.now new.text new.at new.depth) }
    ensures over { IfOk result (λ new. spec.is_plain (drop new.at word.now) ≡ false) }
{
    let mut reading = reading;
    'bytes: while is_plain(behind(word, reading.at)) {
        read_byte(places, word, &mut reading)?;
    }
    Ok(reading)
}

fn push_pending(waiting: &mut Vec<Pending>, words: Pending) -> Result<(), NoMemory>
    ensures { OnOk result (waiting.new.items ≡ waiting.old.items ++ words ∷ []) }
{
    waiting.push(words)?;
    Ok(())
}

// The word of the first alternative, and those that are left.
fn next_word(
    alloc: Global,
    places: &Places,
    word: &[u8],
    words: Pending,
) -> Result<(Reading, Option<Pending>), NoMemory>
    requires places { spec.ArePlaces word.now places.now }
    requires placed { spec.IsPlaced word.now words.before words.at (words.depth + 1) }
    ensures words { IfOk result (λ next. spec.pending_words word.now words
        ≡ spec.both_spelled (spec.spelled_in words.most (spec.word_of word.now next.0))
        (spec.words_left word.now next.1)) }
    ensures steps { IfOk result (λ next. spec.pending_steps word.now words
        ≡ 1 + (spec.word_steps words.most (spec.word_of word.now next.0)
        + spec.steps_left word.now next.1)) }
    ensures most { IfOk result (λ next. next.0.most ≡ words.most) }
    ensures placed { IfOk result
        (λ next. spec.IsPlaced word.now next.0.text next.0.at next.0.depth) }
    ensures left { IfOk result (λ next. spec.PlacedLeft word.now next.1) }
{
    match next_alternative(places, word, words.at) {
        Some(count) => {
            let text = Text::from_bytes(alloc, words.before.bytes())?;
            let reading = Reading {
                most: words.most,
                text,
                at: words.at,
                depth: words.depth + 1,
            };
            let left = Pending {
                at: words.at + count,
                ..words
            };
            Ok((reading, Some(left)))
        }
        None => {
            let reading = Reading {
                most: words.most,
                text: words.before,
                at: words.at,
                depth: words.depth + 1,
            };
            Ok((reading, None))
        }
    }
}

// Puts back those that are left.
fn push_left(word: &[u8], waiting: &mut Vec<Pending>, left: Option<Pending>) -> Result<(), NoMemory>
    requires waiting { spec.Placed word.now waiting.old.items }
    requires left { spec.PlacedLeft word.now left }
    ensures words { OnOk result (spec.all_pending word.now waiting.new.items
        ≡ spec.both_spelled (spec.words_left word.now left)
        (spec.all_pending word.now waiting.old.items)) }
    ensures steps { OnOk result (spec.all_steps word.now waiting.new.items
        ≡ spec.all_steps word.now waiting.old.items + spec.steps_left word.now left) }
    ensures placed { OnOk result (spec.Placed word.now waiting.new.items) }
{
    match left {
        Some(words) => {
            push_pending(waiting, words)?;
            Ok(())
        }
        None => Ok(()),
    }
}

// Adds a word that has no group. Of one that has, the words of its first group's alternatives wait.
fn spell(
    alloc: Global,
    places: &Places,
    word: &[u8],
    reading: Reading,
    waiting: &mut Vec<Pending>,
    names: &mut Texts,
) -> Result<(), DepFault>
    requires places { spec.ArePlaces word.now places.now }
    requires reading { spec.IsPlaced word.now reading.text reading.at reading.depth }
    requires waiting { spec.Placed word.now waiting.old.items }
    ensures ok { OnOk result (spec.added names.new (spec.all_pending word.now waiting.new.items)
        ≡ spec.added names.old
        (spec.both_spelled (spec.spelled_in reading.most (spec.word_of word.now reading))
        (spec.all_pending word.now waiting.old.items))) }
    ensures err { IfErr result (λ fault. AgreesErr no_memory fault
        (spec.spelled_in reading.most (spec.word_of word.now reading))) }
    ensures steps { OnOk result (spec.all_steps word.now waiting.new.items
        ≤ spec.all_steps word.now waiting.old.items
        + spec.word_steps reading.most (spec.word_of word.now reading)) }
    ensures placed { OnOk result (spec.Placed word.now waiting.new.items) }
{
    let reading = read_plain(places, word, reading)?;
    if reading.at == word.len() {
        return Ok(push_word(alloc, reading.text.bytes(), names)?);
    }
    match close_at(places, word, reading.at + 1) {
        Some(_) => {
            if reading.most == 0 {
                return Err(DepFault::NoMemory);
            }
            let words = Pending {
                most: reading.most - 1,
                before: reading.text,
                at: reading.at + 1,
                depth: reading.depth,
            };
            Ok(push_pending(waiting, words)?)
        }
        None => Err(DepFault::Brace),
    }
}

// A word of which nothing is read yet. It has fewer groups than bytes.
#[tactic(auto, unfolding(crate::specs::Braces::left))]
fn start(alloc: Global, word: &[u8]) -> Reading
    ensures word { spec.word_of word.now result ≡ word.now }
    ensures most { result.most ≡ length word.now }
    ensures placed { spec.IsPlaced word.now result.text result.at result.depth }
{
    Reading {
        most: word.len(),
        text: Text::new(alloc),
        at: 0,
        depth: 0,
    }
}

// Adds the words that a word with groups stands for. Those of groups that are open wait in a list,
// the innermost last.
fn spell_groups(alloc: Global, word: &[u8], names: &mut Texts) -> Result<(), DepFault>
    ensures { Agrees no_memory (λ _. names.new) result
        (spec.added names.old (spec.spelled_out word.now)) }
{
    let places = places_in(alloc, word)?;
    let mut waiting = Vec::new(alloc);
    spell(
        alloc,
        &places,
        word,
        start(alloc, word),
        &mut waiting,
        names,
    )?;
    'words: while let Some(words) = waiting.pop() {
        let (reading, left) = next_word(alloc, &places, word, words)?;
        push_left(word, &mut waiting, left)?;
        spell(alloc, &places, word, reading, &mut waiting, names)?;
    }
    Ok(())
}

// Adds the words that a word stands for.
fn spell_word(alloc: Global, word: &[u8], names: &mut Texts) -> Result<(), DepFault>
    ensures { Agrees no_memory (λ _. names.new) result
        (spec.added names.old (spec.spelled_out word.now)) }
{
    match first_open(word) {
        Some(_) => spell_groups(alloc, word, names),
        None => Ok(push_word(alloc, word, names)?),
    }
}

// Adds the words that a piece of a text stands for, if it is a word.
fn spell_piece(alloc: Global, piece: &[u8], names: &mut Texts) -> Result<(), DepFault>
    ensures { Agrees no_memory (λ _. names.new) result
        (spec.added names.old (spec.all_spelled_out (words.words_among (piece.now ∷ [])))) }
{
    if piece.is_empty() {
        return Ok(());
    }
    spell_word(alloc, piece, names)
}

/// The words that the words of a text stand for, from the left. `Brace` exactly where a brace of
/// one is not closed.
pub fn spelled_words(alloc: Global, text: &[u8]) -> Result<Texts, DepFault>
    ensures { Agrees no_memory (λ names. names) result
        (spec.all_spelled_out (words.words_of text.now)) }
{
    let mut names = Items::new(alloc, 0)?;
    let mut rest = text;
    'pieces: loop {
        let (piece, more) = first_piece(rest);
        spell_piece(alloc, piece, &mut names)?;
        match more {
            Some(after) => rest = after,
            None => return Ok(names),
        }
    }
}
