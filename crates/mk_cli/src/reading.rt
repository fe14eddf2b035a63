//! A command line that is read word by word.
ghost use Rattle.std.specs.Prelude.{◌≡◌};
ghost use Rattle.mk_bytes.specs.Agrees.{Agrees};
ghost use Rattle.mk_cli.specs.Assignments.{assignment as written};
ghost use Rattle.mk_cli.specs.Options as options;
ghost use Rattle.mk_cli.specs.Orders as orders;
ghost use Rattle.mk_cli.specs.Words as spec;
ghost use Rattle.mk_cli.specs.declared.order.Usage.TheVariants.{NoMemory as no_memory};

use crate::argument::{add_argument, names_nothing};
use crate::assignment::{assignment, is_assignment};
use crate::letter::{Argument, Flag, Letter, letter_of};
use crate::order::{Order, Usage};
use mk_bytes::{Items, clean_path};
use mk_flags::Flags;
use std::alloc::Global;

/// What the next word may be.
#[derive(Clone, Copy, PartialEq, Eq)]
pub enum Expected {
    /// An option, an assignment or a target.
    Any,
    /// An assignment or a target, since `--` was met.
    Operand,
    /// The argument of an option, which the word at this place is.
    ArgumentOf(u32, Argument),
    /// No word at all.
    Nothing,
}

/// What the words read so far ask for.
#[derive(Drop)]
pub struct Reading {
    pub order: Order,
    /// Whether `-B` was met.
    pub one_job: bool,
    pub expected: Expected,
}

fn no_flags(alloc: Global) -> Flags
    ensures { result ≡ orders.no_flags }
{
    Flags {
        jobs: 1,
        keep_going: false,
        ignore: false,
        silent: false,
        dry: false,
        query: false,
        progress: false,
        requested: Items::new(alloc, 0).unwrap(),
    }
}

fn no_order(alloc: Global) -> Order
    ensures { result ≡ orders.no_order }
{
    Order {
        files: Items::new(alloc, 0).unwrap(),
        near: Items::new(alloc, 0).unwrap(),
        system: Items::new(alloc, 0).unwrap(),
        sets: Items::new(alloc, 0).unwrap(),
        prints: Items::new(alloc, 0).unwrap(),
        env_first: false,
        audit: false,
        explain: false,
        generate: None,
        flags: no_flags(alloc),
    }
}

// What the next word may be, behind the argument of an option.
fn after(argument: Argument) -> Expected
    ensures { result ≡ spec.after argument }
{
    match argument {
        Argument::Generate => Expected::Nothing,
        _ => Expected::Any,
    }
}

// Whether a word is `-` and a letter at least.
fn is_option(word: &[u8]) -> bool
    ensures { result ≡ spec.is_option word.now }
{
    match word {
        [] => false,
        [first, rest @ ..] => *first == b'-' && !rest.is_empty(),
    }
}

// Whether the word at a place is `--generate`, and the first one.
fn is_generate(place: u32, word: &[u8]) -> bool
    ensures { result ≡ spec.is_generate place word.now }
{
    place == 0 && word == b"--generate".as_slice()
}

// Whether a word is `--audit`.
fn is_audit(word: &[u8]) -> bool
    ensures { result ≡ spec.is_audit word.now }
{
    word == b"--audit".as_slice()
}

// Whether a word is `--explain`.
fn is_explain(word: &[u8]) -> bool
    ensures { result ≡ spec.is_explain word.now }
{
    word == b"--explain".as_slice()
}

// Whether a word is `--progress`.
fn is_progress(word: &[u8]) -> bool
    ensures { result ≡ spec.is_progress word.now }
{
    word == b"--progress".as_slice()
}

impl Reading {
    /// Before the first word. Takes no memory.
    pub fn new(alloc: Global) -> Reading
        ensures { result ≡ orders.first_reading }
    {
        Reading {
            order: no_order(alloc),
            one_job: false,
            expected: Expected::Any,
        }
    }

    fn set_flag(&mut self, flag: Flag)
        ensures { self.new ≡ options.with_flag self.old flag }
    {
        let flags = &mut self.order.flags;
        match flag {
            Flag::OneJob => self.one_job = true,
            Flag::EnvFirst => self.order.env_first = true,
            Flag::Ignore => flags.ignore = true,
            Flag::KeepGoing => flags.keep_going = true,
            Flag::Dry => flags.dry = true,
            Flag::Query => flags.query = true,
            Flag::NoBuiltin => {}
            Flag::Stop => flags.keep_going = false,
            Flag::Silent => flags.silent = true,
        }
    }

    fn read_argument(
        &mut self,
        alloc: Global,
        place: u32,
        argument: Argument,
        text: &[u8],
    ) -> Result<(), Usage>
        ensures { Agrees no_memory (λ _. self.new) result
            (spec.read_argument place self.old argument text.now) }
    {
        add_argument(alloc, &mut self.order, place, argument, text)?;
        self.expected = after(argument);
        Ok(())
    }

    // The argument of an option, where it is the rest of its word.
    fn read_rest(
        &mut self,
        alloc: Global,
        place: u32,
        argument: Argument,
        rest: &[u8],
    ) -> Result<(), Usage>
        ensures { Agrees no_memory (λ _. self.new) result
            (spec.read_rest place self.old argument rest.now) }
    {
        if rest.is_empty() {
            self.expected = Expected::ArgumentOf(place, argument);
            return Ok(());
        }
        self.read_argument(alloc, place, argument, rest)
    }

    fn read_letters(&mut self, alloc: Global, place: u32, letters: &[u8]) -> Result<(), Usage>
        ensures { Agrees no_memory (λ _. self.new) result
            (spec.read_letters place self.old letters.now) }
    {
        let mut rest = letters;
        while let [letter, after @ ..] = rest {
            match letter_of(*letter) {
                None => return Err(Usage::Word(place)),
                Some(Letter::Alone(flag)) => self.set_flag(flag),
                Some(Letter::Takes(argument)) => {
                    return self.read_rest(alloc, place, argument, after);
                }
            }
            rest = after;
        }
        Ok(())
    }

    fn read_assignment(&mut self, alloc: Global, place: u32, word: &[u8]) -> Result<(), Usage>
        ensures { Agrees no_memory (λ _. self.new) result
            (spec.read_assignment place self.old (written word.now)) }
    {
        match assignment(alloc, word)? {
            Some(set) => {
                self.order.sets.push(set)?;
                Ok(())
            }
            None => Err(Usage::Word(place)),
        }
    }

    fn read_operand(
        &mut self,
        alloc: Global,
        cwd: &[u8],
        place: u32,
        word: &[u8],
    ) -> Result<(), Usage>
        ensures { Agrees no_memory (λ _. self.new) result
            (spec.read_operand cwd.now place self.old word.now) }
    {
        if names_nothing(word) {
            return Err(Usage::Word(place));
        }
        if is_assignment(word) {
            return self.read_assignment(alloc, place, word);
        }
        let target = clean_path(alloc, cwd, word)?;
        self.order.flags.requested.push(target)?;
        Ok(())
    }

    // A word where an option may stand.
    fn read_any(&mut self, alloc: Global, cwd: &[u8], place: u32, word: &[u8]) -> Result<(), Usage>
        ensures { Agrees no_memory (λ _. self.new) result
            (spec.read_any cwd.now place self.old word.now) }
    {
        if word == b"--".as_slice() {
            self.expected = Expected::Operand;
            return Ok(());
        }
        if is_generate(place, word) {
            self.expected = Expected::ArgumentOf(place, Argument::Generate);
            return Ok(());
        }
        if is_audit(word) {
            self.order.audit = true;
            return Ok(());
        }
        if is_explain(word) {
            self.order.explain = true;
            return Ok(());
        }
        if is_progress(word) {
            self.order.flags.progress = true;
            return Ok(());
        }
        if is_option(word) {
            return self.read_letters(alloc, place, &word[1..]);
        }
        self.read_operand(alloc, cwd, place, word)
    }

    /// Reads the word at a place. Fails with the place that is refused, or for want of memory; the
    /// reading is then of no use.
    pub fn read(&mut self, alloc: Global, cwd: &[u8], place: u32, word: &[u8]) -> Result<(), Usage>
        ensures { Agrees no_memory (λ _. self.new) result
            (spec.read_expected cwd.now place self.old self.old.expected word.now) }
    {
        match self.expected {
            Expected::Any => self.read_any(alloc, cwd, place, word),
            Expected::Operand => self.read_operand(alloc, cwd, place, word),
            Expected::ArgumentOf(_, argument) => self.read_argument(alloc, place, argument, word),
            Expected::Nothing => Err(Usage::Word(place)),
        }
    }

    /// What all words ask for. Fails where the argument of the last option is missing.
    pub fn finish(self) -> Result<Order, Usage>
        ensures { result ≡ spec.finished self self.expected }
    {
        let Reading {
            mut order,
            one_job,
            expected,
        } = self;
        if let Expected::ArgumentOf(option, _) = expected {
            drop(order);
            return Err(Usage::Word(option));
        }
        if one_job {
            order.flags.jobs = 1;
        }
        Ok(order)
    }
}
