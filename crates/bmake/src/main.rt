//! The program `bmake`: it makes the real world and its sinks, and hands all else to `run`.
#![tactic(auto)]

ghost use Rattle.std.specs.Prelude.{IsTrue};
ghost use Rattle.mk_bytes.specs.Paths.{is_clean_directory as is_clean};

mod above;
mod process;

use mk_bytes::{Items, NoMemory, Text, Texts, is_clean_directory};
use mk_realworld::{RealSink, RealWorld};
use mk_scopes::Env;
use mk_top::run;
use std::alloc::Global;
use std::io::{Print, Stdout};
use std::mem::forget;
use std::process::ExitCode;
use std::str;

const HELP: &[u8] = b"usage: bmake [options] [NAME=VALUE ..] [TARGET ..]

  -f FILE      read this makefile; without -f, makefile or Makefile
  -I DIR       seek makefiles in quotes here
  -m DIR       seek makefiles in angle brackets here
  -D NAME      set this variable to 1
  -V NAME      print the raw value of this variable, or a text with a $ expanded
  -v NAME      print the expanded value of this variable, or a text with a $ expanded
  -e           the environment stands above the makefiles' variables
  -j N         run up to N jobs at once, 1 to 256; without -j, one
  -B           run one job at a time, whatever -j says
  -k           after a failure still make what does not need it
  -S           stop at the first failure: undoes a -k before it
  -i           pass over commands that fail
  -s           do not print commands before they run
  -n           print the commands that would be run; only those marked + are run
  -q           make nothing: status 1 where a target is out of date
  -r           taken, and without effect: no rules are built in
  --audit      make nothing: tell what breaches what a build in meta mode stands on
  --explain    make nothing: tell of each target that is out of date why it is
  --progress   where standard error is a terminal, show there how far the build has come
  --generate N make a project of N targets in memory and build it twice, where it is the first word
  --           the words after it are no options
  NAME=VALUE   set this variable above all others; also with +=, ?= and :=
  TARGET       make this target; without one, the makefile's first is made
  --help       print this text, where it is the only word
  --version    print the version, where it is the only word

Each command of a target is run by /bin/sh, in the current directory, and what it prints is printed when
it has ended. With a recorder in BMAKE_RECORDER, as fmtrace, that is run before each /bin/sh. Options
but -f, -j, -V, -v and targets reach the makes below, by BMAKE_FLAGS.

Exit status: 0 where all went well, 1 where a command failed or, with -q, a target is out of date or,
with --audit, something is breached, 2 for a bad word, a fault in a makefile or a target that cannot be
made, 3 where an outside call failed, 4 where memory ran out.
";

const VERSION: &[u8] = b"bmake 0.1.0\n";

fn main(rt: HostRuntime) -> ExitCode {
    match process::words(&rt) {
        Ok(words) => ExitCode::from(status(&rt, &words)),
        Err(NoMemory) => ExitCode::from(out_of_memory(&rt)),
    }
}

// The exit status for the words of the command line.
fn status(rt: &HostRuntime, words: &Texts) -> u8 {
    if let [word] = words.as_slice() {
        if word.bytes() == b"--help".as_slice() {
            return answer(rt.stdout(), HELP);
        }
        if word.bytes() == b"--version".as_slice() {
            return answer(rt.stdout(), VERSION);
        }
    }
    match process::environment(rt) {
        Ok(Some(env)) => run_in(rt, words, &env),
        Ok(None) => outside_failed(rt),
        Err(NoMemory) => out_of_memory(rt),
    }
}

// Runs in the directory of the process, if it has a clean one.
fn run_in(rt: &HostRuntime, words: &Texts, env: &Env) -> u8 {
    if !is_clean_directory(env.cwd.bytes()) {
        return outside_failed(rt);
    }
    match run_words(rt, words, env) {
        Ok(status) => status,
        Err(NoMemory) => out_of_memory(rt),
    }
}

// The first word that is not UTF-8.
fn first_bad(words: &Texts) -> Option<&Text> {
    for word in words.as_slice() {
        if str::from_utf8(word.bytes()).is_err() {
            return Some(word);
        }
    }
    None
}

// Runs what the words ask for, behind those of the make above.
fn run_words(rt: &HostRuntime, words: &Texts, env: &Env) -> Result<u8, NoMemory>
    requires { IsTrue (is_clean env.now.cwd) }
{
    let all = words_of_all(rt, words, env)?;
    if let Some(word) = first_bad(&all) {
        return Ok(bad_word(rt, word.bytes()));
    }
    run_all(rt, &all, env)
}

// The words of the make above, where it hands on some, and those of the command line. Behind others
// `--generate` would not be the first word, and it takes no options.
fn words_of_all(rt: &HostRuntime, words: &Texts, env: &Env) -> Result<Texts, NoMemory> {
    let alloc = rt.alloc();
    let is_generate = match words.as_slice() {
        [first, ..] => first.bytes() == b"--generate".as_slice(),
        [] => false,
    };
    if is_generate {
        return above::all_words(alloc, Items::new(alloc, 0)?, words);
    }
    match above::inherited(alloc, env)? {
        Some(inherited) => above::all_words(alloc, inherited, words),
        None => {
            let _ = rt
                .stderr()
                .write_all(b"bmake: BMAKE_FLAGS is passed over: a quote is open\n");
            above::all_words(alloc, Items::new(alloc, 0)?, words)
        }
    }
}

// Runs what all words ask for in the real world.
fn run_all(rt: &HostRuntime, all: &Texts, env: &Env) -> Result<u8, NoMemory>
    requires { IsTrue (is_clean env.now.cwd) }
{
    let place = process::place_of_children(rt, env)?;
    let setting = above::setting(rt.alloc(), env, all)?;
    let mut world = RealWorld::new(rt, setting, place, rt.stderr())?;
    let mut out = RealSink::out(rt.stdout(), rt.stderr());
    let mut err = RealSink::err(rt.stderr());
    let report = run(rt.alloc(), all, env, &mut world, &mut out, &mut err);
    let status = report.status;
    // The process ends: what stands in memory need not be given back piece by piece.
    forget(report);
    forget(world);
    Ok(status)
}

fn answer(stdout: Stdout, text: &[u8]) -> u8 {
    if stdout.write_all(text).is_ok() { 0 } else { 3 }
}

fn bad_word(rt: &HostRuntime, word: &[u8]) -> u8 {
    let stderr = rt.stderr();
    let _ = stderr.write_all(b"bmake: bad word: ");
    let _ = stderr.write_all(word);
    let _ = stderr.write_all(b"\n");
    2
}

fn outside_failed(rt: &HostRuntime) -> u8 {
    let _ = rt.stderr().write_all(b"bmake: an outside call failed\n");
    3
}

fn out_of_memory(rt: &HostRuntime) -> u8 {
    let _ = rt.stderr().write_all(b"bmake: out of memory\n");
    4
}
