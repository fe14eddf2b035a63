ghost use Rattle.std.specs.Prelude.{◌≡◌, ◌++◌, ◌∷◌, ◌<◌, ◌≤◌, [], None, length, nat_eq, false};
ghost use Rattle.std.specs.Prelude.{IsSome, IfOk, IfSome, OnOk, OnErr};
ghost use Rattle.std.specs.List.{list_any};
ghost use Rattle.mk_world.specs.Calls.{TakenOut};
ghost use Rattle.mk_world.specs.Causes.{HasCause, Rose};
ghost use Rattle.mk_world.specs.Listings.{AreInOrder};
ghost use Rattle.mk_world.specs.declared.fault.WorldFault.TheVariants.{Failed};
ghost use Rattle.mk_realworld.specs.Stops.{Stops};

use crate::child::RealKid;
use crate::file::file_text;
use crate::named::Named;
use crate::refusal::{Refusal, counted};
use crate::room::{Place, Room};
use crate::setting::Setting;
use crate::shell::Streams;
use crate::system::System;
use crate::waiting::{run, wait_over};
use crate::write::{remove, write_later};
use mk_bytes::{NoMemory, Text, Texts};
use mk_world::{Cmd, Ended, Kids, Progress, Ticket, Time, When, World, WorldFault};
use std::alloc::Global;
use std::fs::{File, Files};
use std::io::Stderr;
use std::process::Processes;
use std::time::Clock;

/// The files and processes of the system. Relative paths are taken from the process's current
/// directory, and children run in it. A call that is refused is the last one: behind it each
/// further call is refused and does nothing, but that `abandon` ends the children that run.
#[derive(Drop)]
pub struct RealWorld<R: Files + Processes + Clock + AllocGlobal> {
    system: System<R>,
    faults: u64,
    // Why a call was refused, behind which no call does anything.
    stopped: Option<Refusal>,
}

impl<R: Files + Processes + Clock + AllocGlobal + Drop> RealWorld<R> {
    /// The files and processes that this runtime reaches, with a count of faults of 0.
    ///
    /// The logs of recorders stand in a directory at this place, which is made before the first
    /// child, for its owner alone, and removed when none is left; where something stands there
    /// already, it has a number behind its name. Directories of makes that are gone are removed
    /// then. Children are given what the setting says. The first fault of a run is named on
    /// `stderr`, in a line of its own: `bmake: CALL PATH: REASON`.
    pub fn new(
        rt: R,
        setting: Setting,
        place: Place,
        stderr: Stderr,
    ) -> Result<RealWorld<R>, NoMemory>
        ensures { IfOk result (λ world. world.faults ≡ 0) }
    {
        let system = System::new(rt, setting, Room::new(place), Named::new(stderr))?;
        Ok(RealWorld {
            system,
            faults: 0,
            stopped: None,
        })
    }
}

impl<R: Files + Processes + Clock + AllocGlobal> RealWorld<R> {
    // Whether a call may do something: behind one that was refused none does, and is refused as
    // that was.
    fn go_on(&mut self) -> Result<(), WorldFault>
        ensures same { self.new.system ≡ self.old.system }
        ensures ok { OnOk result (self.old.stopped ≡ None) }
        ensures err { OnErr result (IsSome self.new.stopped) }
        ensures cause { HasCause Failed self.old.faults self.new.faults result }
    {
        match self.stopped {
            None => Ok(()),
            Some(refusal) => Err(counted(refusal, &mut self.faults)),
        }
    }

    // The answer of a call that is refused, which is the last: where the outside refused, it is
    // counted, and the first such call is named.
    fn refused(&mut self, call: &[u8], path: &[u8], refusal: Refusal) -> WorldFault
        ensures stops { IsSome self.new.stopped }
        ensures kept { self.old.faults ≤ self.new.faults }
        ensures answered { self.old.faults < self.new.faults → result ≡ Failed }
        ensures rose { result ≡ Failed → Rose self.old.faults self.new.faults }
    {
        if let Refusal::Outside(reason) = refusal {
            self.system.named.name(call, path, reason);
        }
        self.stopped = Some(refusal);
        counted(refusal, &mut self.faults)
    }

    // The same of a call that is about a child.
    fn refused_child(&mut self, call: &[u8], refusal: Refusal) -> WorldFault
        ensures stops { IsSome self.new.stopped }
        ensures kept { self.old.faults ≤ self.new.faults }
        ensures answered { self.old.faults < self.new.faults → result ≡ Failed }
        ensures rose { result ≡ Failed → Rose self.old.faults self.new.faults }
    {
        if let Refusal::Outside(reason) = refusal {
            self.system.name_child(call, reason);
        }
        self.stopped = Some(refusal);
        counted(refusal, &mut self.faults)
    }
}

impl<R: Files<File = File> + Processes + Clock + AllocGlobal + Clone + Drop> World
    for RealWorld<R> {
    ghost use Rattle.std.specs.Prelude.{None};
    ghost use Rattle.mk_world.specs.Untold.{untold};
    ghost use Rattle.mk_world.specs.Talks.{silent};

    type Kid = RealKid<R::Started>;

    ghost meaning = { silent };

    ghost history = { λ _. None };

    ghost faults = { λ world. world.faults };

    ghost runs = { λ _ _. Unit {0} };

    ghost told_children = { λ _ history _ _ is. untold _ history is };

    /// The bytes of a file. A directory, an unreadable file, one above 64 MiB and a path that is
    /// not UTF-8 are counted faults; a path below a plain file is a missing file, and so is a pipe
    /// with a name that stands at the path of a meta file, which nobody would ever end.
    fn read(&mut self, _: Global, path: &[u8]) -> Result<Option<Text>, WorldFault>
        ensures cause { HasCause Failed self.old.faults self.new.faults result }
        ensures stops { Stops self.old.stopped self.new.stopped
            (self.new.system ≡ self.old.system) result }
    {
        self.go_on()?;
        match self.system.read(path) {
            Ok(text) => Ok(text),
            Err(refusal) => Err(self.refused(b"read", path, refusal)),
        }
    }

    /// The time of a file or directory, in nanoseconds. While no child runs, the system is asked
    /// once for a path, until make changes a file or starts a child. A time that is more than two
    /// seconds later than the system's clock is unknown, and so is all that the system does not
    /// tell.
    fn time(&mut self, _: Global, path: &[u8]) -> Result<When, WorldFault>
        ensures cause { HasCause Failed self.old.faults self.new.faults result }
        ensures stops { Stops self.old.stopped self.new.stopped
            (self.new.system ≡ self.old.system) result }
    {
        self.go_on()?;
        match self.system.see(path) {
            Ok(sight) => Ok(sight.time),
            Err(refusal) => Err(self.refused(b"stat", path, refusal)),
        }
    }

    /// The later of the times of a file's bytes and of its inode, as `time`: an older file that is
    /// moved to its path has a new time then.
    fn changed(&mut self, _: Global, path: &[u8]) -> Result<When, WorldFault>
        ensures cause { HasCause Failed self.old.faults self.new.faults result }
        ensures stops { Stops self.old.stopped self.new.stopped
            (self.new.system ≡ self.old.system) result }
    {
        self.go_on()?;
        match self.system.see(path) {
            Ok(sight) => Ok(sight.changed),
            Err(refusal) => Err(self.refused(b"stat", path, refusal)),
        }
    }

    /// The names in a directory, but `.` and `..`, in the order of their bytes. A directory that
    /// may not be read and a path that is not UTF-8 are counted faults; at a plain file there is no
    /// directory.
    fn list(&mut self, _: Global, dir: &[u8]) -> Result<Option<Texts>, WorldFault>
        ensures ordered { IfOk result (λ names. IfSome names AreInOrder) }
        ensures cause { HasCause Failed self.old.faults self.new.faults result }
        ensures stops { Stops self.old.stopped self.new.stopped
            (self.new.system ≡ self.old.system) result }
    {
        self.go_on()?;
        match self.system.list(dir) {
            Ok(names) => Ok(names),
            Err(refusal) => Err(self.refused(b"list", dir, refusal)),
        }
    }

    /// Writes the head of a meta file, until its time is later than `after`. Missing directories
    /// above it are made, and a pipe with a name that stands there gives way. At every moment the
    /// file is as before, or holds bytes of the head from its beginning. A head above 64 MiB, a
    /// path that is not UTF-8, and no later time within a little more than a second are counted
    /// faults.
    fn stamp(
        &mut self,
        _: Global,
        path: &[u8],
        head: &[u8],
        after: Time,
    ) -> Result<Time, WorldFault>
        ensures later { IfOk result (λ time. after.0 < time.0) }
        ensures cause { HasCause Failed self.old.faults self.new.faults result }
        ensures stops { Stops self.old.stopped self.new.stopped
            (self.new.system ≡ self.old.system) result }
    {
        self.go_on()?;
        match write_later(&mut self.system, path, head, after) {
            Ok(time) => Ok(time),
            Err(refusal) => Err(self.refused(b"write", path, refusal)),
        }
    }

    /// Writes a whole file, as `stamp` does.
    fn put(&mut self, _: Global, path: &[u8], bytes: &[u8], after: Time) -> Result<Time, WorldFault>
        ensures later { IfOk result (λ time. after.0 < time.0) }
        ensures cause { HasCause Failed self.old.faults self.new.faults result }
        ensures stops { Stops self.old.stopped self.new.stopped
            (self.new.system ≡ self.old.system) result }
    {
        self.go_on()?;
        match write_later(&mut self.system, path, bytes, after) {
            Ok(time) => Ok(time),
            Err(refusal) => Err(self.refused(b"write", path, refusal)),
        }
    }

    /// Removes a file. A directory is a counted fault.
    fn remove(&mut self, _: Global, path: &[u8]) -> Result<(), WorldFault>
        ensures cause { HasCause Failed self.old.faults self.new.faults result }
        ensures stops { Stops self.old.stopped self.new.stopped
            (self.new.system ≡ self.old.system) result }
    {
        self.go_on()?;
        match remove(&mut self.system, path) {
            Ok(()) => Ok(()),
            Err(refusal) => Err(self.refused(b"remove", path, refusal)),
        }
    }

    /// Runs `/bin/sh -c` with the command to its end, behind the words of a recorder, where there
    /// is one. Standard error is that of make, and what is printed on standard output comes by a
    /// pipe, as in `start`. Where no child runs, the directory of logs is removed behind it.
    fn ask(&mut self, _: Global, cmd: &Cmd) -> Result<Ended, WorldFault>
        ensures ticket { IfOk result (λ ended. ended.ticket.0 ≡ 0) }
        ensures cause { HasCause Failed self.old.faults self.new.faults result }
        ensures stops { Stops self.old.stopped self.new.stopped
            (self.new.system ≡ self.old.system) result }
    {
        self.go_on()?;
        let answer = run(&mut self.system, cmd);
        self.system.leave_if_idle();
        match answer {
            Ok(ended) => Ok(ended),
            Err(refusal) => Err(self.refused_child(b"run", refusal)),
        }
    }

    /// Starts `/bin/sh -c` with the command, behind the words of a recorder, where there is one.
    /// What it prints on standard output and standard error comes by one pipe, and a recorder may
    /// write its log into the file `fm.TICKET` in the world's own directory, of which the records
    /// are told when the child is taken in. Where the directory cannot be made, that is a counted
    /// fault.
    fn start(
        &mut self,
        _: Global,
        kids: &mut Kids<RealKid<R::Started>>,
        ticket: Ticket,
        _: Time,
        cmd: &Cmd,
    ) -> Result<(), WorldFault>
        requires room { length kids.old.tickets < kids.old.room }
        requires fresh { list_any (nat_eq ticket.0) kids.old.tickets ≡ false }
        ensures added { OnOk result (kids.new.tickets ≡ kids.old.tickets ++ ticket.0 ∷ []) }
        ensures same { OnErr result (kids.new ≡ kids.old) }
        ensures same_room { kids.new.room ≡ kids.old.room }
        ensures cause { HasCause Failed self.old.faults self.new.faults result }
        ensures stops { Stops self.old.stopped self.new.stopped
            (self.new.system ≡ self.old.system) result }
    {
        self.go_on()?;
        match RealKid::start(&mut self.system, Streams::Both, ticket, cmd) {
            Ok(kid) => {
                kids.add(ticket, kid);
                Ok(())
            }
            Err(refusal) => Err(self.refused_child(b"run", refusal)),
        }
    }

    /// Waits for what children print, and for their ends; of several that have ended, the oldest is
    /// taken in. A child that a signal ended has the status 255. What a process in the background
    /// prints behind the end of its shell belongs to nobody. Where a progress is given, standard
    /// error is a terminal and the wait lasts longer than a tenth of a second, a line tells the
    /// progress there until the wait is over.
    fn wait_any(
        &mut self,
        _: Global,
        kids: &mut Kids<RealKid<R::Started>>,
        progress: Option<Progress>,
    ) -> Result<Ended, WorldFault>
        requires some { 0 < length kids.old.tickets }
        ensures taken { IfOk result
            (λ ended. TakenOut ended.ticket.0 kids.old.tickets kids.new.tickets) }
        ensures same { OnErr result (kids.new ≡ kids.old) }
        ensures same_room { kids.new.room ≡ kids.old.room }
        ensures cause { HasCause Failed self.old.faults self.new.faults result }
        ensures stops { Stops self.old.stopped self.new.stopped
            (self.new.system ≡ self.old.system) result }
    {
        self.go_on()?;
        match wait_over(&mut self.system, kids, progress) {
            Ok(over) => {
                let (ticket, kid) = kids.take(over.place);
                drop(kid);
                Ok(Ended {
                    ticket,
                    status: over.status,
                    output: over.told.output,
                    records: over.told.records,
                })
            }
            Err(refusal) => Err(self.refused_child(b"wait", refusal)),
        }
    }

    /// Ends and takes in the shells of all children, and not what these started themselves. Their
    /// logs are removed, and then the directory of these. A call that is refused stays the last
    /// one.
    fn abandon(&mut self, kids: &mut Kids<RealKid<R::Started>>)
        ensures none { kids.new.tickets ≡ [] }
        ensures same_room { kids.new.room ≡ kids.old.room }
        ensures faults { self.new.faults ≡ self.old.faults }
        ensures stopped { self.new.stopped ≡ self.old.stopped }
    {
        while !kids.is_empty() {
            let (_, kid) = kids.take(0);
            kid.give_up(&self.system.rt);
        }
        self.system.times.end_children();
        self.system.leave_if_idle();
    }
}
