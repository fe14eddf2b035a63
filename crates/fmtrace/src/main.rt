//! The program `fmtrace`: runs a command under strace, and appends what it read, missed, wrote and
//! deleted to the log of a recorder, as NetBSD filemon(4) does.
#![tactic(auto)]

mod family;
mod file;
mod interpreter;
mod log;
mod refusal;
mod run;
mod search;
mod source;
mod stream;
mod trace;

use crate::refusal::Refusal;
use mk_bytes::{Items, Text, Texts};
use std::env;
use std::env::VarError;
use std::io::{ErrorKind, Print, Stdout};
use std::process::ExitCode;

const HELP: &[u8] = b"usage: fmtrace COMMAND [WORD]..
       fmtrace --records DIRECTORY <TRACE

Runs a command, and appends to the file that BMAKE_FILEMON names what the
command read, missed, wrote and deleted. Where BMAKE_FILEMON is not set or
empty the command is run as it is. Where it is recorded already, by another
fmtrace around it, its records are those that the other one's trace tells of;
where something else traces it, it has none.

The second form prints the records of a trace that was written by
'strace -f -y -s 0 -o TRACE COMMAND', begun in an absolute directory. It looks
at no other file.

  --help      prints this text, where it is the only word
  --version   prints the version, where it is the only word

The exit status is that of the command, or 128 and the number of the signal
that ended it; 127 where the command is not found, or where strace is missing;
126 where it cannot be executed; 2 without a command.
";

const VERSION: &[u8] = b"fmtrace 0.2.0\n";

// The variable that names the log of a recorder.
const LOG: &str = "BMAKE_FILEMON";

fn main(rt: HostRuntime) -> ExitCode {
    ExitCode::from(match words(&rt) {
        Ok(Some(words)) => status(&rt, &words),
        Ok(None) => told(&rt, b"a word is not UTF-8", 2),
        Err(refusal) => refused(&rt, &refusal),
    })
}

// The words of the command line, without the program's name; `None` where one is not UTF-8.
fn words(rt: &HostRuntime) -> Result<Option<Texts>, Refusal> {
    let args = match env::args(rt) {
        Ok(args) => args,
        Err(error) if error.kind() == ErrorKind::InvalidData => return Ok(None),
        Err(_) => return Err(Refusal::NoMemory),
    };
    let mut words = Items::new(rt.alloc(), 0)?;
    for arg in args.skip(1) {
        words.push(Text::from_bytes(rt.alloc(), arg.as_bytes())?)?;
    }
    Ok(Some(words))
}

// The exit status for the words of the command line.
fn status(rt: &HostRuntime, words: &Texts) -> u8 {
    match words.as_slice() {
        [] => {
            let _ = rt.stderr().write_all(HELP);
            return 2;
        }
        [word] if word.bytes() == b"--help".as_slice() => return answer(rt.stdout(), HELP),
        [word] if word.bytes() == b"--version".as_slice() => {
            return answer(rt.stdout(), VERSION);
        }
        _ => {}
    }
    match obey(rt, words.as_slice()) {
        Ok(status) => status,
        Err(refusal) => refused(rt, &refusal),
    }
}

// Does what the words ask for, and gives its status.
fn obey(rt: &HostRuntime, words: &[Text]) -> Result<u8, Refusal> {
    if let [first, directory] = words {
        if first.bytes() == b"--records".as_slice() {
            return trace::print_records(rt, directory.bytes());
        }
    }
    match log_path(rt)? {
        Some(log) => {
            let status = recorded(rt, log.bytes(), words);
            drop(log);
            status
        }
        None => run::plain(rt, words),
    }
}

// Runs a command that has this log.
fn recorded(rt: &HostRuntime, log: &[u8], words: &[Text]) -> Result<u8, Refusal> {
    if !run::is_traced(rt)? {
        return run::recorded(rt, log, words);
    }
    match outer_trace(rt)? {
        Some(trace) => run::recorded_within(rt, log, trace, words),
        None => run::plain(rt, words),
    }
}

// The trace of a recorder around this one, if there is one.
fn outer_trace(rt: &HostRuntime) -> Result<Option<Text>, Refusal> {
    match env::var(rt, run::TRACE) {
        Ok(path) if path.is_empty() => Ok(None),
        Ok(path) => Ok(Some(Text::from_bytes(rt.alloc(), path.as_bytes())?)),
        Err(VarError::OutOfMemory) => Err(Refusal::NoMemory),
        Err(_) => Ok(None),
    }
}

// Where a command is recorded, if it is.
fn log_path(rt: &HostRuntime) -> Result<Option<Text>, Refusal> {
    match env::var(rt, LOG) {
        Ok(path) if path.is_empty() => Ok(None),
        Ok(path) => Ok(Some(Text::from_bytes(rt.alloc(), path.as_bytes())?)),
        Err(VarError::NotPresent) => Ok(None),
        Err(VarError::NotUnicode) => Err(Refusal::of(rt.alloc(), LOG.as_bytes(), 127)),
        Err(VarError::OutOfMemory) => Err(Refusal::NoMemory),
    }
}

fn answer(stdout: Stdout, text: &[u8]) -> u8 {
    if stdout.write_all(text).is_ok() { 0 } else { 3 }
}

fn told(rt: &HostRuntime, text: &[u8], status: u8) -> u8 {
    let stderr = rt.stderr();
    let _ = stderr.write_all(b"fmtrace: ");
    let _ = stderr.write_all(text);
    let _ = stderr.write_all(b"\n");
    status
}

fn refused(rt: &HostRuntime, refusal: &Refusal) -> u8 {
    match refusal {
        Refusal::NoMemory => told(rt, b"out of memory", 127),
        Refusal::System { text, status } => told(rt, text.bytes(), *status),
    }
}
