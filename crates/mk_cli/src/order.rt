//! What a command line asks for, and why it is refused.
use mk_bytes::{Items, NoMemory, Text, Texts};
use mk_flags::Flags;
use mk_scopes::Class;

/// How an assignment changes its variable (make(1), "VARIABLE ASSIGNMENTS").
#[derive(Clone, Copy, PartialEq, Eq)]
pub enum AssignOp {
    /// `=`: sets the text as it is.
    Plain,
    /// `+=`: appends after one space.
    Append,
    /// `?=`: sets where the variable is undefined.
    Default,
    /// `:=`: sets the text expanded.
    Now,
    /// `!=`: sets the output of a command. The command line refuses it.
    Shell,
}

/// An assignment: in which class of variables, how, to what name, and which text.
#[derive(Drop)]
pub struct Set {
    pub class: Class,
    pub op: AssignOp,
    pub name: Text,
    pub value: Text,
}

/// The assignments of a command line, in the order of its words.
pub type Sets = Items<Set>;

/// A print: the text that is expanded where it has a `$`, or the name of the variable whose value
/// is printed, the raw one for `-V` and the expanded one for `-v`.
#[derive(Drop)]
pub struct Print {
    /// Whether it was asked for by `-v`.
    pub full: bool,
    pub text: Text,
}

/// The prints of a command line, in the order of its words.
pub type Prints = Items<Print>;

/// What a command line asks for.
#[derive(Drop)]
pub struct Order {
    /// `-f`: the makefiles.
    pub files: Texts,
    /// `-I`: where makefiles in quotes are sought.
    pub near: Texts,
    /// `-m`: where makefiles in angle brackets are sought, and at last those in quotes.
    pub system: Texts,
    /// The assignments to variables of the command line, and the globals that `-D` sets to `1`.
    pub sets: Sets,
    /// What `-V` and `-v` ask to print.
    pub prints: Prints,
    /// `-e`: the environment stands above the globals.
    pub env_first: bool,
    /// `--audit`: what breaches what a build stands on is told, and nothing is made.
    pub audit: bool,
    /// `--explain`: why each target is out of date is told, and nothing is made.
    pub explain: bool,
    /// `--generate`: how many makefiles are to be generated, 1 to 10,000.
    pub generate: Option<u32>,
    /// The other options, and the targets.
    pub flags: Flags,
}

/// Why a command line is not carried out.
#[derive(Clone, Copy, PartialEq, Eq)]
pub enum Usage {
    /// The place, counted from 0, of the first word that is refused.
    Word(u32),
    /// Memory ran out.
    NoMemory,
}

impl From<NoMemory> for Usage {
    ghost use Rattle.std.specs.Prelude.{◌≡◌};
    ghost use Rattle.mk_cli.specs.declared.order.Usage.TheVariants.{NoMemory as no_memory};

    ghost from_gives = { λ _ usage. usage ≡ no_memory };

    fn from(_: NoMemory) -> Usage {
        Usage::NoMemory
    }
}
