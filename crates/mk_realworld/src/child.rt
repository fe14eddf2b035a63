//! Children: shells that run one command each.
ghost use Rattle.std.specs.Prelude.{◌≡◌, ℕ, IfOk, OnOk};
ghost use Rattle.std.specs.Option.{option_copied};
ghost use Rattle.std.specs.Process.{exit_code};
ghost use Rattle.mk_realworld.specs.Known.{IsForgotten};
ghost use Rattle.mk_realworld.specs.Logs as logs;
ghost use Rattle.mk_realworld.specs.Statuses as statuses;

use crate::child_files::log_file;
use crate::file::{plain_text, remove_file};
use crate::output::Output;
use crate::refusal::{Reason, Refusal};
use crate::shell::{Streams, check_exports, connect, shell};
use crate::system::System;
use mk_bytes::{NoMemory, Text};
use mk_filemon::read_log;
use mk_world::{Cmd, Ops, Ticket};
use std::alloc::Global;
use std::fs::{File, Files};
use std::marker::Model;
use std::process::{Child, Command, ExitStatus, OpenProcess, Processes};

/// The shell that was started for a command, with what it prints and its log. Contracts see its
/// ticket.
#[derive(Drop)]
pub struct RealKid<P: OpenProcess + Drop> {
    child: Child<P>,
    ticket: u32,
    output: Output,
    log: Text,
    cwd: Text,
}

/// What is known of a child when it is taken in: its ticket, what it printed, and the records of
/// its steps, where a recorder left a whole log.
#[derive(Drop)]
pub struct Told {
    pub ticket: u32,
    pub output: Text,
    pub records: Option<Ops>,
}

impl<P: OpenProcess + Drop> Model for RealKid<P> {
    ghost Value = { ℕ };

    ghost view = { λ kid. kid.ticket };
}

// The exit status, from 0 to 255; that of a child which a signal ended is 255.
fn status_of(status: ExitStatus) -> u8
    ensures { result ≡ statuses.status_of (exit_code status) }
{
    match status.code() {
        Some(code) if (0..256).contains(&code) => code as u8,
        _ => 255,
    }
}

// The records of a log, where there is one and it is whole. Paths are named from the directory of
// its command.
fn records_of(alloc: Global, cwd: &[u8], log: Option<&Text>) -> Result<Option<Ops>, NoMemory>
    ensures { IfOk result (λ records. records ≡ logs.records_of cwd.now (option_copied log.entry)) }
{
    match log {
        None => Ok(None),
        Some(log) => read_log(alloc, log.bytes(), cwd),
    }
}

// Runs a shell, and lets go its end of the pipe into which it prints.
fn spawn<R: Processes>(rt: &R, mut shell: Command) -> Result<Child<R::Started>, Refusal> {
    let child = shell.spawn(rt)?;
    drop(shell);
    Ok(child)
}

impl<P: OpenProcess + Drop> RealKid<P> {
    /// Starts a shell that runs a command. From then on no time of a file is known that was known
    /// before.
    pub fn start<R: Processes<Started = P> + Files<File = File> + AllocGlobal + Clone + Drop>(
        system: &mut System<R>,
        streams: Streams,
        ticket: Ticket,
        cmd: &Cmd,
    ) -> Result<RealKid<P>, Refusal>
        ensures known { IsForgotten system.new.times }
        ensures ticket { IfOk result (λ kid. kid ≡ ticket.0) }
    {
        system.times.forget();
        let kid = RealKid::start_in(system, streams, ticket, cmd)?;
        system.times.begin_child();
        Ok(kid)
    }

    // Starts a shell whose log has a path in the directory for these.
    fn start_in<R: Processes<Started = P> + Files<File = File> + AllocGlobal + Clone + Drop>(
        system: &mut System<R>,
        streams: Streams,
        ticket: Ticket,
        cmd: &Cmd,
    ) -> Result<RealKid<P>, Refusal>
        ensures times { system.new.times ≡ system.old.times }
        ensures ticket { IfOk result (λ kid. kid ≡ ticket.0) }
    {
        check_exports(&mut system.named, cmd.exports.as_slice())?;
        let rt = &system.rt;
        let directory = system.room.enter(rt, &mut system.named)?;
        let log = log_file(rt.alloc(), directory.bytes(), ticket.0)?;
        let cwd = cmd.cwd.copy(rt.alloc())?;
        let (output, writer) = Output::new(rt)?;
        let mut shell = shell(rt.alloc(), &system.setting, &log, cmd)?;
        connect(&mut shell, streams, writer)?;
        let child = spawn(rt, shell)?;
        Ok(RealKid {
            child,
            ticket: ticket.0,
            output,
            log,
            cwd,
        })
    }

    /// The number by which the system knows the pipe into which it prints; below 0 where nobody can
    /// write there any more.
    pub fn output_number(&self) -> i32 {
        self.output.number()
    }

    /// Takes in what it has printed.
    pub fn drain(&mut self, buffer: &mut [u8]) -> Result<(), Refusal>
        ensures { self.new ≡ self.old }
    {
        self.output.drain(buffer)
    }

    /// The exit status, where it has ended.
    pub fn ended(&mut self) -> Result<Option<u8>, Refusal>
        ensures { self.new ≡ self.old }
    {
        Ok(self.child.try_wait()?.map(status_of))
    }

    /// The exit status, when it has ended.
    pub fn wait(&mut self) -> Result<u8, Refusal>
        ensures { self.new ≡ self.old }
    {
        Ok(status_of(self.child.wait()?))
    }

    // The text of its log, where a plain file stands there, which is removed. One above 64 MiB is
    // none.
    fn take_log<R: Files + AllocGlobal>(
        &self,
        system: &mut System<R>,
    ) -> Result<Option<Text>, Refusal> {
        let path = self.log.bytes();
        let log = match plain_text(&system.rt, system.buffer.as_mut_slice(), path) {
            Ok(None) => return Ok(None),
            Ok(log) => log,
            Err(Refusal::Outside(Reason::TooLong)) => None,
            Err(refusal) => return Err(refusal),
        };
        remove_file(&system.rt, path)?;
        Ok(log)
    }

    /// What is told of it, when its shell has ended: what it printed until then, and what its log
    /// tells.
    pub fn told<R: Files<File = File> + AllocGlobal>(
        &mut self,
        system: &mut System<R>,
    ) -> Result<Told, Refusal>
        ensures same { self.new ≡ self.old }
        ensures ticket { IfOk result (λ told. told.ticket ≡ self.old) }
    {
        self.output.drain(system.buffer.as_mut_slice())?;
        let log = self.take_log(system)?;
        let alloc = system.rt.alloc();
        let records = records_of(alloc, self.cwd.bytes(), log.as_ref())?;
        let (output, late) = self.output.take(Text::new(alloc));
        if let Some(reader) = late {
            system.late.add(reader);
        }
        system.times.end_child();
        Ok(Told {
            ticket: self.ticket,
            output,
            records,
        })
    }

    /// Ends it, takes it in, and removes its log.
    pub fn give_up<R: Files>(mut self, rt: &R) {
        if self.child.kill().is_ok() {
            let _ = self.child.wait();
        }
        let _ = remove_file(rt, self.log.bytes());
        drop(self);
    }
}
