//! The system as a world uses it: what the runtime reaches, what children are given, the directory
//! for their logs, and the buffer by way of which files are read.
ghost use Rattle.std.specs.Prelude.{◌≡◌, ◌+◌, IfOk, IfSome, OnErr};
ghost use Rattle.mk_world.specs.Listings.{AreInOrder};
ghost use Rattle.mk_realworld.specs.Known.{IsForgotten, sights_in};
ghost use Rattle.mk_realworld.specs.Sights.{settled};

use crate::file::{Sight, file_text, look};
use crate::known::KnownTimes;
use crate::late::Late;
use crate::listing::names_in;
use crate::named::Named;
use crate::refusal::{Reason, Refusal};
use crate::room::Room;
use crate::setting::Setting;
use crate::shell::SHELL;
use libc::types::pollfd;
use mk_bytes::{NoMemory, Text, Texts};
use mk_world::When;
use std::fs::Files;
use std::time::Clock;

// How many bytes are asked for at once.
const CHUNK: usize = 65_536;

// How the path of a meta file ends.
const META: &[u8] = b".meta";

// A file's time that is so much later than the system's clock is one of the future, in nanoseconds.
const FUTURE: u64 = 2_000_000_000;

/// What a world keeps of the system.
#[derive(Drop)]
pub struct System<R> {
    pub rt: R,
    pub setting: Setting,
    pub room: Room,
    pub buffer: Vec<u8>,
    /// What is known of the times of files since the last change that make, or a child, may have
    /// made.
    pub times: KnownTimes,
    /// The outputs of children that were taken in, which processes in the background still have.
    pub late: Late,
    /// What is asked for when make waits for output.
    pub polls: Vec<pollfd>,
    pub named: Named,
    // The latest time that is not one of the future, by the clock when it was read last.
    bound: u64,
}

impl<R: AllocGlobal + Drop> System<R> {
    /// What this runtime reaches.
    pub fn new(rt: R, setting: Setting, room: Room, named: Named) -> Result<System<R>, NoMemory> {
        let buffer = vec![in rt.alloc(); 0u8; CHUNK]?;
        let times = KnownTimes::new(rt.alloc());
        let late = Late::new(rt.alloc());
        let polls = Vec::new(rt.alloc());
        Ok(System {
            rt,
            setting,
            room,
            buffer,
            times,
            late,
            polls,
            named,
            bound: 0,
        })
    }
}

// A time that is not later than a bound, and else unknown.
fn settled_by(bound: u64, when: When) -> When
    ensures { result ≡ settled bound when }
{
    match when {
        When::At(time) if time.0 > bound => When::Unknown,
        _ => when,
    }
}

fn is_within(bound: u64, when: When) -> bool {
    match when {
        When::At(time) => time.0 <= bound,
        When::Missing | When::Unknown => true,
    }
}

impl<R> System<R> {
    /// Names a call about a child that failed, by the program that was to be run, where no other
    /// call was named before.
    pub fn name_child(&mut self, call: &[u8], reason: Reason) {
        match self.setting.recorder.as_slice() {
            [program, ..] => self.named.name(call, program.bytes(), reason),
            [] => self.named.name(call, SHELL.as_bytes(), reason),
        }
    }
}

impl<R: Clock> System<R> {
    // The latest time that is not one of the future, by the clock.
    fn read_clock(&mut self) {
        if let Ok(since) = self.rt.since_1970() {
            let now = u64::try_from(since.as_nanos()).unwrap_or(u64::MAX);
            self.bound = now.saturating_add(FUTURE);
        }
    }

    // What was seen, where times of the future count as unknown. The clock is read again where such
    // a time is met.
    fn settle(&mut self, sight: Sight) -> Sight {
        if !is_within(self.bound, sight.time) || !is_within(self.bound, sight.changed) {
            self.read_clock();
        }
        Sight {
            time: settled_by(self.bound, sight.time),
            changed: settled_by(self.bound, sight.changed),
            is_pipe: sight.is_pipe,
        }
    }
}

impl<R: Files + Clock + AllocGlobal> System<R> {
    /// What stands at a path: what is known of it, where it is known, and else what the system
    /// tells, which comes to be known while no child runs.
    pub fn see(&mut self, path: &[u8]) -> Result<Sight, Refusal>
        ensures known { IfSome (sights_in self.old.times path.now)
            (λ sight. IfOk result (λ seen. seen ≡ sight)) }
    {
        if let Some(sight) = self.times.of(path) {
            return Ok(sight);
        }
        let sight = look(&self.rt, path)?;
        let sight = self.settle(sight);
        self.times.learn(path, sight)?;
        Ok(sight)
    }

    /// The bytes of a file, or `None` where it is missing, or where a pipe with a name stands at
    /// the path of a meta file.
    pub fn read(&mut self, path: &[u8]) -> Result<Option<Text>, Refusal> {
        if path.ends_with(META) && self.see(path)?.is_pipe {
            return Ok(None);
        }
        file_text(&self.rt, self.buffer.as_mut_slice(), path)
    }

    /// The names in a directory, in the order of their bytes, each once; `None` where there is
    /// none.
    pub fn list(&mut self, dir: &[u8]) -> Result<Option<Texts>, Refusal>
        ensures { IfOk result (λ names. IfSome names AreInOrder) }
    {
        names_in(&self.rt, self.buffer.as_mut_slice(), dir)
    }

    /// Removes the directory of the logs of children, where no child runs.
    pub fn leave_if_idle(&mut self) {
        if self.times.running() == 0 {
            self.room.leave(&self.rt);
        }
    }
}
