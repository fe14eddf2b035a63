//! The program `fmrun`: small commands on files, which append what they did to the log of a
//! recorder, as NetBSD filemon(4) does for any command.
#![tactic(auto)]

mod deed;
mod file;
mod log;
mod look;
mod refusal;
mod request;
mod verb;
mod word;

use crate::deed::{Change, Deed, Sight, deed_of};
use crate::log::{log_of, ops_of};
use crate::look::{Seen, refused_at, see};
use crate::refusal::Refusal;
use crate::request::{Act, Request, asked, is_recorded};
use mk_bytes::{Items, NoMemory, Text, Texts};
use std::env;
use std::env::VarError;
use std::io::{ErrorKind, Print, Stdout};
use std::process::ExitCode;

const HELP: &[u8] = b"usage: fmrun COMMAND [WORD ..]

  put P W ..    write the words to P, as a line
  cat P S ..    write the contents of the files S to P
  copy A B      write the contents of A to B
  move A B      give the file A the path B, with a new time
  del A         remove A
  show S        print the contents of S
  say W ..      print the words, as a line
  pick P N S    write line N of S to P, or nothing where there is none
  probe P Q     write yes to P where Q stands, and else no
  fail N        end with status N, 1 to 255
  env P N       write the value of the variable N of the environment to P, as a line
  meet A B      write A, look for B up to a million times, and end with 1 where it is not found
  --help        print this text, where it is the only word
  --version     print the version, where it is the only word

Where BMAKE_FILEMON is set and not empty, the directory, and what the command reads, misses, writes,
deletes and moves, are appended to the file that it names, before anything changes. meet is not recorded.

Exit status: 0 where all went well, 1 where a file is missing, the system refuses something or memory
runs out, 2 for a wrong number of words or a bad number, 127 for an unknown command. Where a file is
missing nothing changes, but for probe.
";

const VERSION: &[u8] = b"fmrun 0.1.0\n";

// The variable that names the log of a recorder.
const LOG: &str = "BMAKE_FILEMON";

fn main(rt: HostRuntime) -> ExitCode {
    ExitCode::from(match words(&rt) {
        Ok(Some(words)) => status(&rt, &words),
        Ok(None) => bad_words(&rt),
        Err(refusal) => refused(&rt, &refusal),
    })
}

// The words of the command line, without the program's name; `None` where one is not UTF-8.
fn words(rt: &HostRuntime) -> Result<Option<Texts>, Refusal> {
    let args = match env::args(rt) {
        Ok(args) => args,
        Err(error) if error.kind() == ErrorKind::InvalidData => return Ok(None),
        Err(_) => return Err(Refusal::NoMemory),
    };
    let mut words = Items::new(rt.alloc(), 0)?;
    for arg in args.skip(1) {
        words.push(Text::from_bytes(rt.alloc(), arg.as_bytes())?)?;
    }
    Ok(Some(words))
}

// The exit status for the words of the command line.
fn status(rt: &HostRuntime, words: &Texts) -> u8 {
    if let [word] = words.as_slice() {
        if word.bytes() == b"--help".as_slice() {
            return answer(rt.stdout(), HELP);
        }
        if word.bytes() == b"--version".as_slice() {
            return answer(rt.stdout(), VERSION);
        }
    }
    match obey(rt, words.as_slice()) {
        Ok(status) => status,
        Err(refusal) => refused(rt, &refusal),
    }
}

// Where a command line is run: the current directory, and the log of a recorder, where there is
// one.
#[derive(Drop)]
struct Place {
    directory: Text,
    log: Option<Text>,
}

// Does what the words ask for, and gives its status.
fn obey(rt: &HostRuntime, words: &[Text]) -> Result<u8, Refusal> {
    let request = asked(rt.alloc(), words)?;
    match place_of_run(rt, words) {
        Ok(place) => {
            let went = answered(rt, &place, request);
            drop(place);
            went
        }
        Err(refusal) => {
            drop(request);
            Err(refusal)
        }
    }
}

// Where a command line of these words is run.
fn place_of_run(rt: &HostRuntime, words: &[Text]) -> Result<Place, Refusal> {
    let directory = directory(rt)?;
    let log = log_path(rt, words)?;
    Ok(Place { directory, log })
}

// Looks at what a request asks for, and does what it comes to.
fn answered(rt: &HostRuntime, place: &Place, request: Request) -> Result<u8, Refusal> {
    let Request { looks, act } = request;
    let went = looked(rt, place, looks.as_slice(), act);
    drop(looks);
    went
}

// Looks at these files, and does what the act comes to by what stands there.
fn looked(rt: &HostRuntime, place: &Place, looks: &[Text], act: Act) -> Result<u8, Refusal> {
    match see(rt, &act, looks) {
        Ok(Seen { sights, text }) => {
            let went = acted(
                rt,
                place,
                looks,
                sights.as_slice(),
                deed_of(rt.alloc(), act, sights.as_slice(), text),
            );
            drop(sights);
            went
        }
        Err(refusal) => {
            drop(act);
            Err(refusal)
        }
    }
}

// Does what a request came to, where memory held it.
fn acted(
    rt: &HostRuntime,
    place: &Place,
    looks: &[Text],
    sights: &[Sight],
    deed: Result<Deed, NoMemory>,
) -> Result<u8, Refusal> {
    let deed = deed?;
    let went = done(rt, place, looks, sights, &deed);
    drop(deed);
    went
}

// Records what a request comes to, does it, and gives its status.
fn done(
    rt: &HostRuntime,
    place: &Place,
    looks: &[Text],
    sights: &[Sight],
    deed: &Deed,
) -> Result<u8, Refusal> {
    recorded(rt, place, looks, sights, &deed.change)?;
    file::make(rt, place.directory.bytes(), &deed.change)?;
    if rt.stdout().write_all(deed.output.bytes()).is_err() {
        return Err(Refusal::of(rt.alloc(), b"standard output"));
    }
    match refused_at(looks, sights) {
        Some(path) => Err(Refusal::of(rt.alloc(), path.bytes())),
        None => Ok(deed.status),
    }
}

// Appends looks and what changes to the log, where there is one.
fn recorded(
    rt: &HostRuntime,
    place: &Place,
    looks: &[Text],
    sights: &[Sight],
    change: &Change,
) -> Result<(), Refusal> {
    let Some(path) = &place.log else {
        return Ok(());
    };
    let ops = ops_of(rt.alloc(), looks, sights, change)?;
    let lines = log_of(rt.alloc(), place.directory.bytes(), ops.as_slice())?;
    file::append(rt, path.bytes(), lines.bytes())
}

// The current directory.
fn directory(rt: &HostRuntime) -> Result<Text, Refusal> {
    match env::current_dir(rt) {
        Ok(path) => Ok(Text::from_bytes(rt.alloc(), path.as_str().as_bytes())?),
        Err(_) => Err(Refusal::of(rt.alloc(), b"the current directory")),
    }
}

// Where a command is recorded, if it is.
fn log_path(rt: &HostRuntime, words: &[Text]) -> Result<Option<Text>, Refusal> {
    if !is_recorded(words) {
        return Ok(None);
    }
    match env::var(rt, LOG) {
        Ok(path) if path.is_empty() => Ok(None),
        Ok(path) => Ok(Some(Text::from_bytes(rt.alloc(), path.as_bytes())?)),
        Err(VarError::NotPresent) => Ok(None),
        Err(VarError::NotUnicode) => Err(Refusal::of(rt.alloc(), LOG.as_bytes())),
        Err(VarError::OutOfMemory) => Err(Refusal::NoMemory),
    }
}

fn answer(stdout: Stdout, text: &[u8]) -> u8 {
    if stdout.write_all(text).is_ok() { 0 } else { 3 }
}

fn bad_words(rt: &HostRuntime) -> u8 {
    let _ = rt.stderr().write_all(b"fmrun: a word is not UTF-8\n");
    2
}

fn refused(rt: &HostRuntime, refusal: &Refusal) -> u8 {
    let stderr = rt.stderr();
    match refusal {
        Refusal::NoMemory => {
            let _ = stderr.write_all(b"fmrun: out of memory\n");
        }
        Refusal::System(name) => {
            let _ = stderr.write_all(b"fmrun: the system refuses ");
            let _ = stderr.write_all(name.bytes());
            let _ = stderr.write_all(b"\n");
        }
    }
    1
}
