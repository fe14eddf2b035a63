//! Which words of a command line reach the makes below.
ghost use Rattle.std.specs.Prelude.{◌≡◌, [], ◌∷◌, ◌++◌, position, IfOk, OnOk};
ghost use Rattle.mk_cli.specs.Assignments.{is_assignment as is_assigned, is_equals};
ghost use Rattle.mk_inherit.specs.Passed as spec;
ghost use Rattle.mk_inherit.specs.declared.passed.Expected.TheVariants as expected;

use mk_bytes::{Items, NoMemory, Text, Texts};
use std::alloc::Global;

/// What is expected at the place of a word.
#[derive(Clone, Copy, PartialEq, Eq)]
pub enum Expected {
    /// An option or an operand.
    Any,
    /// An operand: `--` has ended the options.
    Operand,
    /// The argument of the option with this letter.
    ArgumentOf(u8),
}

fn takes_argument(letter: u8) -> bool
    ensures { result ≡ spec.takes_argument letter }
{
    matches!(letter, b'D' | b'f' | b'I' | b'j' | b'm' | b'V' | b'v')
}

fn reaches_below(letter: u8) -> bool
    ensures { result ≡ spec.reaches_below letter }
{
    match letter {
        b'k' | b'S' | b'i' | b's' | b'n' | b'q' => true,
        b'e' | b'B' | b'r' | b'D' | b'I' | b'm' => true,
        _ => false,
    }
}

fn push_option(alloc: Global, out: &mut Texts, letter: u8) -> Result<(), NoMemory>
    ensures { OnOk result (out.new ≡ out.old ++ spec.option_word letter ∷ []) }
{
    out.push(Text::from_bytes(alloc, &[b'-', letter])?)
}

fn pass_argument(
    alloc: Global,
    out: &mut Texts,
    letter: u8,
    argument: &[u8],
) -> Result<(), NoMemory>
    ensures { OnOk result (out.new ≡ out.old ++ spec.argument_passed letter argument.now) }
{
    if !reaches_below(letter) {
        return Ok(());
    }
    push_option(alloc, out, letter)?;
    out.push(Text::from_bytes(alloc, argument)?)
}

fn pass_flag(alloc: Global, out: &mut Texts, letter: u8) -> Result<(), NoMemory>
    ensures { OnOk result (out.new ≡ out.old ++ spec.flag_passed letter) }
{
    if !reaches_below(letter) {
        return Ok(());
    }
    push_option(alloc, out, letter)
}

// Passes on the letters of a word, and gives what is expected behind it.
fn pass_letters(alloc: Global, out: &mut Texts, letters: &[u8]) -> Result<Expected, NoMemory>
    ensures out { OnOk result (out.new ≡ out.old ++ spec.letters_passed letters.now) }
    ensures expected { IfOk result (λ expected. expected ≡ spec.behind_letters letters.now) }
{
    let mut rest = letters;
    while let [letter, after @ ..] = rest {
        if takes_argument(*letter) {
            if after.is_empty() {
                return Ok(Expected::ArgumentOf(*letter));
            }
            pass_argument(alloc, out, *letter, after)?;
            return Ok(Expected::Any);
        }
        pass_flag(alloc, out, *letter)?;
        rest = after;
    }
    Ok(Expected::Any)
}

// Whether a word has an `=` behind its first byte.
fn is_assignment(word: &[u8]) -> bool
    ensures { result ≡ is_assigned word.now }
{
    match word {
        [] => false,
        [_, rest @ ..] => first_equals(rest).is_some(),
    }
}

fn first_equals(text: &[u8]) -> Option<usize>
    ensures { result ≡ position is_equals text.now }
{
    text.iter().position(|byte| *byte == b'=')
}

fn pass_operand(alloc: Global, out: &mut Texts, word: &[u8]) -> Result<(), NoMemory>
    ensures { OnOk result (out.new ≡ out.old ++ spec.operand_passed word.now) }
{
    if !is_assignment(word) {
        return Ok(());
    }
    if !word.starts_with(b"-") {
        return out.push(Text::from_bytes(alloc, word)?);
    }
    let mut apart = Text::from_bytes(alloc, b" ")?;
    apart.push(word)?;
    out.push(apart)
}

// Passes on a word where an option may stand, and gives what is expected behind it.
fn pass_any(alloc: Global, out: &mut Texts, word: &[u8]) -> Result<Expected, NoMemory>
    ensures out { OnOk result (out.new ≡ out.old ++ spec.word_passed expected.Any word.now) }
    ensures expected { IfOk result (λ next. next ≡ spec.behind_word expected.Any word.now) }
{
    if word.starts_with(b"--") {
        if word == b"--".as_slice() {
            return Ok(Expected::Operand);
        }
        return Ok(Expected::Any);
    }
    if word.starts_with(b"-") && word != b"-".as_slice() {
        return pass_letters(alloc, out, &word[1..]);
    }
    pass_operand(alloc, out, word)?;
    Ok(Expected::Any)
}

// Passes on a word, and gives what is expected behind it.
fn pass_word(
    alloc: Global,
    out: &mut Texts,
    expected: Expected,
    word: &[u8],
) -> Result<Expected, NoMemory>
    ensures out { OnOk result (out.new ≡ out.old ++ spec.word_passed expected word.now) }
    ensures expected { IfOk result (λ next. next ≡ spec.behind_word expected word.now) }
{
    match expected {
        Expected::Any => pass_any(alloc, out, word),
        Expected::Operand => {
            pass_operand(alloc, out, word)?;
            Ok(Expected::Operand)
        }
        Expected::ArgumentOf(letter) => {
            pass_argument(alloc, out, letter, word)?;
            Ok(Expected::Any)
        }
    }
}

/// The words of a command line that reach the makes below, in their order: the options `-k -S -i -s
/// -n -q -e -B -r`, `-D`, `-I` and `-m` with their arguments, and the assignments; not makefiles,
/// the number of jobs, prints and targets.
pub fn passed_on(alloc: Global, words: &Texts) -> Result<Texts, NoMemory>
    ensures { IfOk result (λ passed. passed ≡ spec.passed words.now) }
{
    let mut out = Items::new(alloc, 0)?;
    let mut expected = Expected::Any;
    for word in words.as_slice() {
        expected = pass_word(alloc, &mut out, expected, word.bytes())?;
    }
    Ok(out)
}
