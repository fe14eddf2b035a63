//! The veil.
ghost use Rattle.std.specs.Prelude.{◌≡◌, ◌+◌, ◌<◌, ◌≤◌, ℕ, List, [], ◌∷◌, ◌++◌, true, false};
ghost use Rattle.std.specs.Prelude.{IsTrue, IfOk, OnOk, OnErr, vec_len, vec_capacity};
ghost use Rattle.mk_bytes.specs.Paths.{is_clean_directory};
ghost use Rattle.mk_world.specs.Calls.{Adds, OwnAsk, OwnUnanswered};
ghost use Rattle.mk_world.specs.Causes.{HasCause, Rose};
ghost use Rattle.mk_world.specs.declared.fault.WorldFault.TheVariants.{Failed};
ghost use Rattle.mk_veil.specs.Idle.{told-idle};
ghost use Rattle.mk_veil.specs.Records as spec;
ghost use Rattle.mk_veil.specs.Veiled.{told_by};

use crate::hidden::Hidden;
use crate::names::bare_list;
use mk_bytes::{NoMemory, Text, Texts};
use mk_world::{Cmd, Ended, Kids, Op, Ops, Progress, Ticket, Time, When, World, WorldFault};
use std::alloc::Global;

/// A world over another one, in which hidden paths do not stand.
pub struct Veil<'a, W: World> {
    world: &'a mut W,
    hidden: &'a Hidden,
    // the paths at which it was looked, in order
    looked: Vec<Text>,
    // its own faults
    faults: u64,
    // it tells nothing
    silent: bool,
}

impl<'a, W: World> Veil<'a, W> {
    /// A veil over a world that runs no child. Takes no memory.
    pub fn new(alloc: Global, world: &'a mut W, hidden: &'a Hidden) -> Veil<'a, W>
        requires { W.runs world.old [] }
        ensures same_reference { result.world.ghost_name ≡ world.entry.ghost_name }
        ensures world { result.world.now ≡ world.old }
        ensures hidden { result.hidden.now ≡ hidden.now }
        ensures looked { result.looked.items ≡ [] }
        ensures faults { result.faults ≡ 0 }
        ensures silent { result.silent ≡ false }
    {
        Veil {
            world,
            hidden,
            looked: Vec::new(alloc),
            faults: 0,
            silent: false,
        }
    }
}

// What it takes to note a look: a copy of its path, and room for it.
fn ready(alloc: Global, looked: &mut Vec<Text>, path: &[u8]) -> Result<Text, NoMemory>
    ensures copy { IfOk result (λ look. look ≡ path.now) }
    ensures room { OnOk result (vec_len looked.new + 1 ≤ vec_capacity looked.new) }
    ensures same { looked.new.items ≡ looked.old.items }
{
    looked.reserve(1)?;
    Text::from_bytes(alloc, path)
}

// Notes a look, in room that there is.
fn note(looked: &mut Vec<Text>, look: Text)
    requires { vec_len looked.old < vec_capacity looked.old }
    ensures { looked.new.items ≡ looked.old.items ++ look ∷ [] }
{
    looked.push(look).unwrap();
}

// One fault more, behind which nothing is told.
fn fault(faults: &mut u64, silent: &mut bool) -> WorldFault
    ensures failed { result ≡ Failed }
    ensures kept { faults.old ≤ faults.new }
    ensures rose { Rose faults.old faults.new }
    ensures silent { silent.new ≡ true }
{
    *faults = faults.saturating_add(1);
    *silent = true;
    WorldFault::Failed
}

// Whether records have looks alone, and none at a hidden path.
fn are_quiet(hidden: &Hidden, ops: &[Op]) -> bool
    ensures { result ≡ spec.are_quiet hidden.now ops.now }
{
    ops.iter().all(|op| is_quiet(hidden, op))
}

fn is_quiet(hidden: &Hidden, op: &Op) -> bool
    ensures { result ≡ spec.is_quiet hidden.now op.now }
{
    match op {
        Op::Read(path) | Op::Miss(path) => !hidden.has(path.bytes()),
        Op::Write(_) | Op::Delete(_) | Op::Move(_, _) => false,
    }
}

// Whether there are records, and they have looks alone, none of them at a hidden path.
fn have_quiet_records(hidden: &Hidden, records: &Option<Ops>) -> bool
    ensures { result ≡ spec.have_quiet hidden.now records.now }
{
    match records {
        None => false,
        Some(ops) => are_quiet(hidden, ops.as_slice()),
    }
}

// Takes out all children, which stand for nothing.
fn give_up(kids: &mut Kids<()>)
    ensures none { kids.new.tickets ≡ [] }
    ensures room { kids.new.room ≡ kids.old.room }
{
    while !kids.is_empty() {
        kids.take(0);
    }
}

impl<'a, W: World> World for Veil<'a, W> {
    type Kid = ();

    ghost meaning = { W.meaning };

    ghost history = { λ veil. told_by veil.hidden.now veil.looked.items veil.silent
        (W.history veil.world.now) };

    ghost faults = { λ veil. W.faults veil.world.now + veil.faults };

    ghost runs = { λ veil kids. veil.silent ≡ false → kids ≡ [] };

    ghost told_children = { λ veil history kids runs told.
        told-idle veil.hidden.now veil.looked.items veil.silent (W.history veil.world.now) history
        kids runs told };

    /// The whole of a file, which is missing where its path is hidden; nothing is asked below then.
    fn read(&mut self, alloc: Global, path: &[u8]) -> Result<Option<Text>, WorldFault> {
        let look = ready(alloc, &mut self.looked, path)?;
        if self.hidden.has(path) {
            note(&mut self.looked, look);
            return Ok(None);
        }
        let answer = self.world.read(alloc, path)?;
        note(&mut self.looked, look);
        Ok(answer)
    }

    /// The time of a file, which is missing where its path is hidden; nothing is asked below then.
    fn time(&mut self, alloc: Global, path: &[u8]) -> Result<When, WorldFault> {
        let look = ready(alloc, &mut self.looked, path)?;
        if self.hidden.has(path) {
            note(&mut self.looked, look);
            return Ok(When::Missing);
        }
        let when = self.world.time(alloc, path)?;
        note(&mut self.looked, look);
        Ok(when)
    }

    /// The time at which a file was changed last in any way; it is missing where its path is
    /// hidden.
    fn changed(&mut self, alloc: Global, path: &[u8]) -> Result<When, WorldFault> {
        let look = ready(alloc, &mut self.looked, path)?;
        if self.hidden.has(path) {
            note(&mut self.looked, look);
            return Ok(When::Missing);
        }
        let when = self.world.changed(alloc, path)?;
        note(&mut self.looked, look);
        Ok(when)
    }

    /// The names that a directory holds below, without those of hidden paths. The veil tells
    /// nothing behind this call, since other paths may lie below a name or not.
    fn list(&mut self, alloc: Global, dir: &[u8]) -> Result<Option<Texts>, WorldFault> {
        self.silent = true;
        let names = self.world.list(alloc, dir)?;
        let bare = bare_list(alloc, self.hidden, dir, &names)?;
        Ok(bare)
    }

    /// It writes nothing: this is a fault.
    fn stamp(&mut self, _: Global, _: &[u8], _: &[u8], _: Time) -> Result<Time, WorldFault> {
        Err(fault(&mut self.faults, &mut self.silent))
    }

    /// It writes nothing: this is a fault.
    fn put(&mut self, _: Global, _: &[u8], _: &[u8], _: Time) -> Result<Time, WorldFault> {
        Err(fault(&mut self.faults, &mut self.silent))
    }

    /// It removes nothing: this is a fault.
    fn remove(&mut self, _: Global, _: &[u8]) -> Result<(), WorldFault> {
        Err(fault(&mut self.faults, &mut self.silent))
    }

    /// Runs a command below. Where its records are missing, change a path or look at a hidden one,
    /// this is a fault. The veil tells nothing behind this call.
    fn ask(&mut self, alloc: Global, cmd: &Cmd) -> Result<Ended, WorldFault>
        requires directory { IsTrue (is_clean_directory cmd.now.cwd) }
        ensures done { IfOk result (λ ended. Adds W.meaning
            (told_by self.old.hidden.now self.old.looked.items self.old.silent
            (W.history self.old.world.now))
            (told_by self.new.hidden.now self.new.looked.items self.new.silent
            (W.history self.new.world.now)) (OwnAsk W.meaning cmd.now ended)) }
        ensures refused { OnErr result (Adds W.meaning
            (told_by self.old.hidden.now self.old.looked.items self.old.silent
            (W.history self.old.world.now))
            (told_by self.new.hidden.now self.new.looked.items self.new.silent
            (W.history self.new.world.now)) (OwnUnanswered cmd.now)) }
        ensures ticket { IfOk result (λ ended. ended.ticket.0 ≡ 0) }
        ensures cause { HasCause Failed (W.faults self.old.world.now + self.old.faults)
            (W.faults self.new.world.now + self.new.faults) result }
        ensures children { (kids : List ℕ) → (self.old.silent ≡ false → kids ≡ [])
            → self.new.silent ≡ false → kids ≡ [] }

        // An answer has records, of looks alone, none of them at a hidden path.
        ensures quiet { IfOk result
            (λ ended. spec.have_quiet self.old.hidden.now ended.records ≡ true) }
    {
        self.silent = true;
        let ended = self.world.ask(alloc, cmd)?;
        if have_quiet_records(self.hidden, &ended.records) {
            return Ok(ended);
        }
        Err(fault(&mut self.faults, &mut self.silent))
    }

    /// It starts no child: this is a fault.
    fn start(
        &mut self,
        _: Global,
        _: &mut Kids<()>,
        _: Ticket,
        _: Time,
        _: &Cmd,
    ) -> Result<(), WorldFault> {
        Err(fault(&mut self.faults, &mut self.silent))
    }

    /// There is no child to wait for.
    fn wait_any(
        &mut self,
        _: Global,
        _: &mut Kids<()>,
        _: Option<Progress>,
    ) -> Result<Ended, WorldFault> {
        Err(fault(&mut self.faults, &mut self.silent))
    }

    /// There is no child to give up.
    fn abandon(&mut self, kids: &mut Kids<()>) {
        give_up(kids);
    }
}
