//! The letters of options (make(1), "OPTIONS").
ghost use Rattle.std.specs.Prelude.{◌≡◌};
ghost use Rattle.mk_cli.specs.Letters as spec;

/// An option without an argument.
#[derive(Clone, Copy, PartialEq, Eq)]
pub enum Flag {
    /// `-B`: one job at a time, whatever `-j` says.
    OneJob,
    /// `-e`: the environment stands above the globals.
    EnvFirst,
    /// `-i`: a command that fails is passed over.
    Ignore,
    /// `-k`: after an error, what does not depend on it is still made.
    KeepGoing,
    /// `-n`: commands are printed and not run.
    Dry,
    /// `-q`: nothing is made.
    Query,
    /// `-r`: accepted without effect, since no rules are built in.
    NoBuiltin,
    /// `-S`: an error ends the build, which takes back `-k`.
    Stop,
    /// `-s`: commands are not printed.
    Silent,
}

/// An option with an argument.
#[derive(Clone, Copy, PartialEq, Eq)]
pub enum Argument {
    /// `-D`: a variable that is set to `1`.
    Define,
    /// `-f`: a makefile.
    File,
    /// `--generate`: how many makefiles are to be generated.
    Generate,
    /// `-j`: how many jobs may run at once.
    Jobs,
    /// `-I`: a directory for makefiles in quotes.
    Near,
    /// `-V`: a print of a raw value.
    Print,
    /// `-v`: a print of an expanded value.
    PrintFull,
    /// `-m`: a directory for makefiles in angle brackets.
    System,
}

/// What a letter behind `-` stands for.
#[derive(Clone, Copy, PartialEq, Eq)]
pub enum Letter {
    Alone(Flag),
    Takes(Argument),
}

/// The meaning of a letter. `None` where it is unknown.
pub fn letter_of(byte: u8) -> Option<Letter>
    ensures { result ≡ spec.letter_of byte }
{
    match byte {
        b'B' => Some(Letter::Alone(Flag::OneJob)),
        b'e' => Some(Letter::Alone(Flag::EnvFirst)),
        b'i' => Some(Letter::Alone(Flag::Ignore)),
        b'k' => Some(Letter::Alone(Flag::KeepGoing)),
        b'n' => Some(Letter::Alone(Flag::Dry)),
        b'q' => Some(Letter::Alone(Flag::Query)),
        b'r' => Some(Letter::Alone(Flag::NoBuiltin)),
        b'S' => Some(Letter::Alone(Flag::Stop)),
        b's' => Some(Letter::Alone(Flag::Silent)),
        b'D' => Some(Letter::Takes(Argument::Define)),
        b'f' => Some(Letter::Takes(Argument::File)),
        b'I' => Some(Letter::Takes(Argument::Near)),
        b'j' => Some(Letter::Takes(Argument::Jobs)),
        b'm' => Some(Letter::Takes(Argument::System)),
        b'V' => Some(Letter::Takes(Argument::Print)),
        b'v' => Some(Letter::Takes(Argument::PrintFull)),
        _ => None,
    }
}
