//! The shell that runs a command.
ghost use Rattle.std.specs.Prelude.{◌≡◌, [], ◌∷◌, ◌++◌, Some, codes, IfOk, OnOk};
ghost use Rattle.std.specs.Process.{command_program, command_args, command_var, SameProgramAndArgs};
ghost use Rattle.mk_realworld.specs.Commands.{words_of};

use crate::named::Named;
use crate::refusal::{Reason, Refusal};
use crate::setting::Setting;
use mk_bytes::{Pair, Text, Texts};
use mk_world::Cmd;
use std::alloc::Global;
use std::io::PipeWriter;
use std::process::{Command, Stdio};
use std::str;

/// The shell of the system, whatever `PATH` a makefile gives.
pub const SHELL: &str = "/bin/sh";

// Where a recorder finds the path of its log.
const LOG: &str = "BMAKE_FILEMON";

// Where a make finds the options of the make above it.
const FLAGS: &str = "BMAKE_FLAGS";

/// Which streams of a command are its output.
#[derive(Clone, Copy, PartialEq, Eq)]
pub enum Streams {
    /// Standard output and standard error, as they come.
    Both,
    /// Standard output alone; standard error is that of make.
    OutputAlone,
}

#[tactic(auto, using(crate::proofs::WordLemmas::words_behind))]
/// A shell for a command, behind the words of a recorder, where there is one. It has the variables
/// that this exports, one that names the log, and the options for makes below.
pub fn shell(alloc: Global, setting: &Setting, log: &Text, cmd: &Cmd) -> Result<Command, Refusal>
    ensures words { IfOk result (λ shell. command_program shell ∷ command_args shell
        ≡ words_of setting.now.recorder cmd.now.text) }
    ensures log { IfOk result (λ shell. command_var shell (codes "BMAKE_FILEMON")
        ≡ Some (Some log.now)) }
{
    let mut shell = recorded_shell(alloc, &setting.recorder)?;
    match equip(&mut shell, setting, log, cmd) {
        Ok(()) => Ok(shell),
        Err(refusal) => {
            drop(shell);
            Err(refusal)
        }
    }
}

// The shell, behind the words of a recorder.
fn recorded_shell(alloc: Global, recorder: &Texts) -> Result<Command, Refusal>
    ensures { IfOk result (λ shell. command_program shell ∷ command_args shell
        ≡ recorder.now ++ codes "/bin/sh" ∷ []) }
{
    match recorder.as_slice() {
        [] => Ok(Command::new(alloc, SHELL)?),
        [program, words @ ..] => {
            let mut shell = Command::new(alloc, str::from_utf8(program.bytes())?)?;
            add_words(&mut shell, words)?;
            shell.arg(SHELL)?;
            Ok(shell)
        }
    }
}

fn add_words(shell: &mut Command, words: &[Text]) -> Result<(), Refusal>
    ensures program { OnOk result (command_program shell.new ≡ command_program shell.old) }
    ensures words { OnOk result (command_args shell.new ≡ command_args shell.old ++ words.now) }
{
    for word in words {
        shell.arg(str::from_utf8(word.bytes())?)?;
    }
    Ok(())
}

// Gives a shell its command and its variables.
fn equip(shell: &mut Command, setting: &Setting, log: &Text, cmd: &Cmd) -> Result<(), Refusal>
    ensures program { OnOk result (command_program shell.new ≡ command_program shell.old) }
    ensures words { OnOk result (command_args shell.new
        ≡ command_args shell.old ++ codes "-c" ∷ cmd.now.text ∷ []) }
    ensures log { OnOk result (command_var shell.new (codes "BMAKE_FILEMON")
        ≡ Some (Some log.now)) }
{
    shell.arg("-c")?.arg(str::from_utf8(cmd.text.bytes())?)?;
    export(shell, setting.variables.as_slice())?;
    export(shell, cmd.exports.as_slice())?;
    pass_on(shell, setting)?;
    shell.env(LOG, str::from_utf8(log.bytes())?)?;
    Ok(())
}

/// Whether the values of variables can be said to the system. The first that cannot is named.
pub fn check_exports(named: &mut Named, variables: &[Pair]) -> Result<(), Refusal> {
    for pair in variables {
        if str::from_utf8(pair.value.bytes()).is_err() {
            named.name(b"export", pair.name.bytes(), Reason::NotText);
            return Err(Refusal::Outside(Reason::NotText));
        }
    }
    Ok(())
}

// Gives a shell variables.
fn export(shell: &mut Command, variables: &[Pair]) -> Result<(), Refusal>
    ensures { OnOk result (SameProgramAndArgs shell.old shell.new) }
{
    for pair in variables {
        shell.env(
            str::from_utf8(pair.name.bytes())?,
            str::from_utf8(pair.value.bytes())?,
        )?;
    }
    Ok(())
}

// Gives a shell the options of make that reach the makes below it, and no others.
fn pass_on(shell: &mut Command, setting: &Setting) -> Result<(), Refusal>
    ensures { OnOk result (SameProgramAndArgs shell.old shell.new) }
{
    match &setting.flags {
        Some(flags) => shell.env(FLAGS, str::from_utf8(flags.bytes())?)?,
        None => shell.env_remove(FLAGS)?,
    };
    Ok(())
}

/// Connects a shell: it has no input, and what it prints goes into a pipe.
pub fn connect(shell: &mut Command, streams: Streams, output: PipeWriter) -> Result<(), Refusal> {
    shell.stdin(Stdio::null());
    if streams == Streams::Both {
        shell.stderr(Stdio::from(output.try_clone()?));
    }
    shell.stdout(Stdio::from(output));
    Ok(())
}
