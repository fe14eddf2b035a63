//! The program `bmeta`: what the meta files below the current directory tell of the project that
//! was built there.
#![tactic(auto)]

mod answer;
mod load;
mod refusal;
mod walk;

use crate::answer::{Asked, print_answer};
use crate::refusal::{Refusal, tell};
use mk_bytes::{Items, Text, Texts};
use std::env;
use std::io::{ErrorKind, Print};
use std::process::ExitCode;

const HELP: &[u8] = b"usage: bmeta readers FILE
       bmeta reads TARGET
       bmeta graph | compdb
       bmeta timeline [--svg]

Reads the meta files below the current directory, the files that end in .meta,
and tells of the project that was built there in meta mode:

  readers FILE     the targets whose jobs read FILE, or looked for it and missed it
  reads TARGET     the paths that the job of TARGET read, and behind '- ' those
                   that it looked for and missed
  graph            an edge from each target to each path that its job read, in
                   the language DOT of Graphviz
  compdb           the commands that compile, as compile_commands.json
  timeline         what ran when and how long, as a trace that browsers open
  timeline --svg   the same as a picture

  --help           prints this text, where it is the only word
  --version        prints the version, where it is the only word

The exit status is 0; 1 where nothing fits; 2 for wrong words; 3 where something
cannot be read or written. A file that is no meta file is named and passed over.
";

const VERSION: &[u8] = b"bmeta 0.1.0\n";

fn main(rt: HostRuntime) -> ExitCode {
    ExitCode::from(match words(&rt) {
        Ok(Some(words)) => status(&rt, &words),
        Ok(None) => {
            let _ = rt.stderr().write_all(b"bmeta: a word is not UTF-8\n");
            2
        }
        Err(refusal) => refused(&rt, &refusal),
    })
}

// The words of the command line, without the program's name; `None` where one is not UTF-8.
fn words(rt: &HostRuntime) -> Result<Option<Texts>, Refusal> {
    let args = match env::args(rt) {
        Ok(args) => args,
        Err(error) if error.kind() == ErrorKind::InvalidData => return Ok(None),
        Err(_) => return Err(Refusal::NoMemory),
    };
    let mut words = Items::new(rt.alloc(), 0)?;
    for arg in args.skip(1) {
        words.push(Text::from_bytes(rt.alloc(), arg.as_bytes())?)?;
    }
    Ok(Some(words))
}

// What one word asks for.
fn asked_by(word: &[u8]) -> Option<Asked<'static>> {
    if word == b"graph".as_slice() {
        return Some(Asked::Graph);
    }
    if word == b"compdb".as_slice() {
        return Some(Asked::Database);
    }
    if word == b"timeline".as_slice() {
        return Some(Asked::Trace);
    }
    None
}

// What two words ask for.
fn asked_of<'w>(first: &[u8], second: &'w [u8]) -> Option<Asked<'w>> {
    if first == b"readers".as_slice() {
        return Some(Asked::Readers(second));
    }
    if first == b"reads".as_slice() {
        return Some(Asked::Reads(second));
    }
    if first == b"timeline".as_slice() && second == b"--svg".as_slice() {
        return Some(Asked::Picture);
    }
    None
}

// The exit status for the words of the command line.
fn status(rt: &HostRuntime, words: &Texts) -> u8 {
    let asked = match words.as_slice() {
        [word] if word.bytes() == b"--help".as_slice() => return printed(rt, HELP),
        [word] if word.bytes() == b"--version".as_slice() => return printed(rt, VERSION),
        [word] => asked_by(word.bytes()),
        [first, second] => asked_of(first.bytes(), second.bytes()),
        _ => None,
    };
    let Some(asked) = asked else {
        let _ = rt.stderr().write_all(HELP);
        return 2;
    };
    match print_answer(rt, asked) {
        Ok(status) => status,
        Err(refusal) => refused(rt, &refusal),
    }
}

fn printed(rt: &HostRuntime, text: &[u8]) -> u8 {
    if rt.stdout().write_all(text).is_ok() {
        0
    } else {
        3
    }
}

fn refused(rt: &HostRuntime, refusal: &Refusal) -> u8 {
    match refusal {
        Refusal::NoMemory => {
            let _ = rt.stderr().write_all(b"bmeta: out of memory\n");
        }
        Refusal::NotWritten => tell(rt, b"standard output", b"cannot be written"),
        Refusal::NoDirectory => tell(rt, b".", b"its path is not known"),
    }
    3
}
