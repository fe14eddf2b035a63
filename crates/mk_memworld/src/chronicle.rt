//! A history, with the present state beside it.
ghost use Rattle.std.specs.Prelude.{◌≡◌, ◌↔◌, ◌+◌, ◌^◌, ◌<◌, ◌≤◌, ◌==◌, [], ◌∷◌, ◌++◌, Some};
ghost use Rattle.std.specs.Prelude.{length, position, vec_len, IsSome, IsTrue, IfOk, OnOk, OnErr};
ghost use Rattle.std.specs.Option.{option_copied};
ghost use Rattle.mk_world.specs.Deeds.{changes};
ghost use Rattle.mk_world.specs.History.{at_time, child_in, effected_all, files_of, state_of};
ghost use Rattle.mk_world.specs.History.{stepped, tickets_of, without_child};
ghost use Rattle.mk_world.specs.Listings.{Lists};
ghost use Rattle.mk_world.specs.Talks.{does};
ghost use Rattle.mk_world.specs.declared.history.Happening.TheVariants.{Ask, Edit, End, Gone, Look};
ghost use Rattle.mk_world.specs.declared.history.Happening.TheVariants.{Start};
ghost use Rattle.mk_commands.specs.Clock.{last_number, numbers, numbers_of, timed};
ghost use Rattle.mk_commands.specs.Files.{as_filed, files_in};
ghost use Rattle.mk_commands.specs.Meaning.{language};
ghost use Rattle.mk_commands.specs.Rest.{answer_of, doing_of};
ghost use Rattle.mk_memworld.specs.Endings.{ended_by, steps_of, told_by};
ghost use Rattle.mk_memworld.specs.Going.{IsTurn};
ghost use Rattle.mk_memworld.specs.Schedule.{deed_by, going, gone_on, named, newly_ended};

use crate::going::Going;
use crate::writing::{Writing, beginning};
use mk_bytes::{Items, NoMemory, Text, Texts};
use mk_commands::{
    Files, Rest, Stored, all_taken, answers_with, copy_cmd, copy_deed, deed_after, is_over,
    numbers_taken, records_of, rest_of, taken_by_step,
};
use mk_world::{Bases, Child, Cmd, Deed, Deeds, Ended, Happening, Ticket, Timed};
use std::alloc::Global;
use std::marker::Model;

/// A history that can be asked for its present state. Contracts see the history.
#[derive(Drop)]
pub struct Chronicle {
    alloc: Global,
    base: Bases,
    events: Vec<Happening>,
    files: Files,
    clock: u64,
    children: Vec<Child>,
}

impl Model for Chronicle {
    ghost use Rattle.mk_world.specs.declared.history.History.{History};

    ghost Value = { History };

    ghost use Rattle.mk_memworld.specs.Chronicle.{IsPresent, told};

    ghost view = { told };

    ghost invariant = { IsPresent };
}

impl Chronicle {
    ghost use Rattle.mk_memworld.specs.Chronicle.{with_event};
    ghost use Rattle.mk_memworld.specs.Running.{DidStep, GivesUp, IsRest, OfOldest};
    ghost use Rattle.mk_memworld.specs.Endings.{DidLast};
    ghost use Rattle.mk_memworld.specs.Writes.{event_of, part_written};

    /// These files, with nothing done to them yet.
    pub fn new(alloc: Global, base: Bases) -> Result<Chronicle, NoMemory>
        ensures { IfOk result (λ chronicle. chronicle ≡ record { base = base; events = [] }) }
    {
        let mut files = Files::new(alloc);
        let mut clock = 0;
        for file in base.as_slice() {
            files.write(file.path.bytes(), file.bytes.bytes(), file.time)?;
            clock = file.time;
        }
        Ok(Chronicle {
            alloc,
            base,
            events: Vec::new(alloc),
            files,
            clock,
            children: Vec::new(alloc),
        })
    }

    /// The file at a path. Takes no memory.
    pub fn file(&self, path: &[u8]) -> Option<&Stored>
        ensures { as_filed (option_copied result) ≡ (state_of self.now).files path.now }
    {
        self.files.get(path)
    }

    /// The bytes of the file at a path. Takes no memory.
    pub fn bytes(&self, path: &[u8]) -> Option<&Text>
        ensures { option_copied result ≡ files_of self.now path.now }
    {
        self.files.bytes(path)
    }

    /// The names of what stands directly below a directory, in the order of their bytes, each once;
    /// `None` where nothing does, but for `.`, which is always there.
    pub fn list(&self, alloc: Global, dir: &[u8]) -> Result<Option<Texts>, NoMemory>
        ensures { IfOk result (Lists (files_of self.now) dir.now) }
    {
        let names = self.files.names_below(alloc, dir)?;
        if names.is_empty() && dir != b".".as_slice() {
            return Ok(None);
        }
        Ok(Some(names))
    }

    /// The time of the last change, than which the last stamp is no later.
    pub fn clock(&self) -> u64
        ensures time { result ≡ (state_of self.now).clock }
        ensures stamped { (state_of self.now).stamped ≤ result }
    {
        self.clock
    }

    /// Make looks at a path.
    pub fn look(&mut self, path: &[u8]) -> Result<(), NoMemory>
        ensures ok { OnOk result (self.new ≡ with_event self.old (Look path.now)) }
        ensures err { OnErr result (self.new ≡ self.old) }
    {
        self.events.reserve(self.children.len() + 1)?;
        let path = Text::from_bytes(self.alloc, path)?;
        self.events.push(Happening::Look { path }).unwrap();
        Ok(())
    }

    /// Somebody else changes a file, at the next time.
    pub fn edit(&mut self, path: &[u8], bytes: Option<&[u8]>) -> Result<(), NoMemory>
        requires { (state_of self.old).clock < last_number }
        ensures ok { OnOk result (self.new ≡ with_event self.old
            (Edit path.now (option_copied bytes.entry) ((state_of self.old).clock + 1))) }
        ensures err { OnErr result (self.new ≡ self.old) }
    {
        let time = self.clock + 1;
        self.events.reserve(self.children.len() + 1)?;
        let copy = Text::from_bytes(self.alloc, path)?;
        match bytes {
            None => {
                self.files.remove(path);
                self.clock = time;
                let event = Happening::Edit {
                    path: copy,
                    bytes: None,
                    time,
                };
                self.events.push(event).unwrap();
                Ok(())
            }
            Some(bytes) => {
                let text = Text::from_bytes(self.alloc, bytes)?;
                self.files.write(path, bytes, time)?;
                self.clock = time;
                let event = Happening::Edit {
                    path: copy,
                    bytes: Some(text),
                    time,
                };
                self.events.push(event).unwrap();
                Ok(())
            }
        }
    }

    /// Make removes a file, at the next time.
    pub fn remove(&mut self, path: &[u8]) -> Result<(), NoMemory>
        requires { (state_of self.old).clock < last_number }
        ensures ok { OnOk result (self.new ≡ with_event self.old
            (Gone path.now ((state_of self.old).clock + 1))) }
        ensures err { OnErr result (self.new ≡ self.old) }
    {
        let time = self.clock + 1;
        self.events.reserve(self.children.len() + 1)?;
        let copy = Text::from_bytes(self.alloc, path)?;
        self.files.remove(path);
        self.clock = time;
        self.events
            .push(Happening::Gone { path: copy, time })
            .unwrap();
        Ok(())
    }

    /// Make writes a whole file, at this time, which is not earlier than the last change.
    pub fn write(
        &mut self,
        writing: Writing,
        path: &[u8],
        bytes: &[u8],
        time: u64,
    ) -> Result<(), NoMemory>
        requires { (state_of self.old).clock ≤ time }
        ensures ok { OnOk result
            (self.new ≡ with_event self.old (event_of writing path.now bytes.now time)) }
        ensures err { OnErr result (self.new ≡ self.old) }
    {
        self.events.reserve(self.children.len() + 1)?;
        let copy = Text::from_bytes(self.alloc, path)?;
        let text = Text::from_bytes(self.alloc, bytes)?;
        self.files.write(path, bytes, time)?;
        self.clock = time;
        self.events.push(writing.event(copy, text, time)).unwrap();
        Ok(())
    }

    /// Make writes a part of a file from its beginning, where so many bytes are named.
    pub fn write_part(
        &mut self,
        writing: Writing,
        path: &[u8],
        bytes: &[u8],
        time: u64,
        count: Option<usize>,
    ) -> Result<(), NoMemory>
        requires { (state_of self.old).clock ≤ time }
        ensures ok { OnOk result
            (self.new ≡ part_written self.old writing path.now bytes.now time count) }
        ensures err { OnErr result (self.new ≡ self.old) }
    {
        match count {
            None => Ok(()),
            Some(count) => self.write(writing, path, beginning(bytes, count), time),
        }
    }

    /// What a command does from its beginning to its end, on the files as they stand after the
    /// turn.
    pub fn doing(&self, going: &Going, cmd: &Cmd) -> Result<Rest, NoMemory>
        requires { IsTurn self.now going.now }
        ensures { IfOk result (λ rest. doing_of rest
            ≡ does language cmd.now (files_of (gone_on self.now going.now.ticket))) }
    {
        let seen = Items::new(self.alloc, 0)?;
        rest_of(self.alloc, &self.files, going.deed.as_ref(), cmd, seen)
    }

    /// Make runs a command to its end, with nothing between its steps. After a refusal nothing has
    /// happened.
    pub fn ask(&mut self, cmd: &Cmd, rest: Rest) -> Result<Ended, NoMemory>
        requires { (state_of self.old).clock + numbers rest.deeds ≤ last_number }
        ensures ok { OnOk result (self.new ≡ with_event self.old
            (Ask cmd.now (timed (state_of self.old).clock rest.deeds))) }
        ensures answer { IfOk result (λ ended. ended ≡ answer_of (doing_of rest)) }
        ensures err { OnErr result (self.new ≡ self.old) }
    {
        let Rest {
            deeds,
            status,
            output,
        } = rest;
        let records = records_of(self.alloc, deeds.as_slice(), &[])?;
        self.run(cmd, &deeds)?;
        Ok(Ended {
            ticket: Ticket(0),
            status,
            output,
            records: Some(records),
        })
    }

    // A command does these steps, with nothing between them.
    fn run(&mut self, cmd: &Cmd, deeds: &Deeds) -> Result<(), NoMemory>
        requires { (state_of self.old).clock + numbers deeds.now ≤ last_number }
        ensures ok { OnOk result (self.new ≡ with_event self.old
            (Ask cmd.now (timed (state_of self.old).clock deeds.now))) }
        ensures err { OnErr result (self.new ≡ self.old) }
    {
        self.events.reserve(self.children.len() + 1)?;
        let cmd = copy_cmd(self.alloc, cmd)?;
        let steps = mk_commands::timed(self.alloc, self.clock, deeds.as_slice())?;
        self.files.apply_all(steps.as_slice())?;
        self.clock += all_taken(deeds.as_slice());
        self.events.push(Happening::Ask { cmd, steps }).unwrap();
        Ok(())
    }

    /// Make starts a child.
    pub fn start(&mut self, ticket: u32, owner: u64, cmd: &Cmd) -> Result<(), NoMemory>
        ensures ok { OnOk result (self.new ≡ with_event self.old (Start ticket owner cmd.now)) }
        ensures err { OnErr result (self.new ≡ self.old) }
    {
        // for this event, and for the one that ends each child
        self.events.reserve(self.children.len() + 2)?;
        let child = new_child(self.alloc, ticket, owner, cmd)?;
        let cmd = copy_cmd(self.alloc, cmd)?;
        self.children.push(child)?;
        self.events
            .push(Happening::Start { ticket, owner, cmd })
            .unwrap();
        Ok(())
    }

    /// The child that a number names, counted from 1, among those that have not come to their end.
    pub fn named(&self, ended: &[u32], number: u32) -> Option<u32>
        ensures { result
            ≡ named number (going ended.now (tickets_of (state_of self.now).children)) }
    {
        nth_going(&self.children, ended, number)
    }

    // The next step of a child on the files as they stand; `None` where it is at its end, and where
    // there is no such child.
    fn deed(&self, ticket: u32) -> Result<Option<Deed>, NoMemory>
        ensures { IfOk result (λ deed. deed ≡ deed_by (state_of self.now) ticket) }
    {
        match find(&self.children, ticket) {
            None => Ok(None),
            Some(child) => {
                deed_after(self.alloc, &self.files, &child.cmd, child.deeds.as_slice())
            }
        }
    }

    // The child with a ticket, where it has come to its end when its next step is done, if it has
    // one; so it has where there is no such child.
    fn ended(&self, ticket: u32, deed: Option<&Deed>) -> Result<Option<u32>, NoMemory>
        requires { option_copied deed ≡ deed_by (state_of self.now) ticket }
        ensures { IfOk result (λ ended. ended
            ≡ newly_ended (state_of (gone_on self.now (Some ticket))) (Some ticket)) }
    {
        let Some(child) = find(&self.children, ticket) else {
            return Ok(Some(ticket));
        };
        let answers = answers_with(self.alloc, child.deeds.as_slice(), deed)?;
        if is_over(self.alloc, &child.cmd, answers)? {
            return Ok(Some(ticket));
        }
        Ok(None)
    }

    /// The turn of the child with a ticket.
    pub fn going(&self, ticket: u32) -> Result<Going, NoMemory>
        ensures ticket { IfOk result (λ going. going.ticket ≡ Some ticket) }
        ensures turn { IfOk result (IsTurn self.now) }
    {
        let deed = self.deed(ticket)?;
        match self.ended(ticket, deed.as_ref()) {
            Err(fault) => {
                drop(deed);
                Err(fault)
            }
            Ok(ended) => Ok(Going {
                ticket: Some(ticket),
                deed,
                ended,
            }),
        }
    }

    /// Whether the clock has enough numbers for the step of the turn, and for so many changes
    /// behind it.
    pub fn has_numbers(&self, going: &Going, more: u64) -> bool
        requires { IsTurn self.now going.now }
        ensures { IsTrue result ↔ ((state_of (gone_on self.now going.now.ticket)).clock + more
            ≤ last_number) }
    {
        let left = u64::MAX - self.clock;
        let taken = taken_by_step(going.deed.as_ref());
        taken <= left && more <= left - taken
    }

    /// What a child does from the turn on to its end.
    pub fn rest(&self, going: &Going, ticket: u32) -> Result<Rest, NoMemory>
        requires turn { IsTurn self.now going.now }
        requires held { IsSome (child_in (state_of self.now).children ticket) }
        ensures { IfOk result (λ rest. IsRest
            (state_of (gone_on self.now going.now.ticket)) ticket (doing_of rest)) }
    {
        let child = find(&self.children, ticket).unwrap();
        let own = going.step_of(child.ticket);
        let seen = answers_with(self.alloc, child.deeds.as_slice(), own)?;
        rest_of(
            self.alloc,
            &self.files,
            going.deed.as_ref(),
            &child.cmd,
            seen,
        )
    }

    // A child does one step.
    fn step(&mut self, ticket: u32, deed: &Deed) -> Result<(), NoMemory>
        requires held { IsSome (child_in (state_of self.old).children ticket) }
        requires numbers { (state_of self.old).clock + numbers_of deed.now ≤ last_number }
        ensures ok { OnOk result (DidStep self.old ticket deed.now self.new) }
        ensures err { OnErr result (self.new ≡ self.old) }
    {
        let owner = find(&self.children, ticket).unwrap().owner;
        let time = self.clock + numbers_taken(deed);
        self.events.reserve(self.children.len() + 1)?;
        let copy = copy_deed(self.alloc, deed)?;
        let done = do_step(
            self.alloc,
            &mut self.files,
            &mut self.children,
            ticket,
            deed,
            time,
        );
        match done {
            Err(fault) => {
                drop(copy);
                Err(fault)
            }
            Ok(()) => {
                self.clock = time;
                let event = Happening::Step {
                    ticket,
                    owner,
                    deed: copy,
                    time,
                };
                self.events.push(event).unwrap();
                Ok(())
            }
        }
    }

    /// The child whose turn it is goes on.
    pub fn go_on(&mut self, going: &Going) -> Result<(), NoMemory>
        requires turn { IsTurn self.old going.now }
        requires numbers { (state_of (gone_on self.old going.now.ticket)).clock ≤ last_number }
        ensures ok { OnOk result (self.new ≡ gone_on self.old going.now.ticket) }
        ensures err { OnErr result (self.new ≡ self.old) }
    {
        match going.ticket {
            None => Ok(()),
            Some(ticket) => match &going.deed {
                None => Ok(()),
                Some(deed) => self.step(ticket, deed),
            },
        }
    }

    /// A child does all its remaining steps, and is taken in. After a refusal nothing has happened.
    pub fn finish(&mut self, ticket: u32, rest: Rest) -> Result<Ended, NoMemory>
        requires is_rest { IsRest (state_of self.old) ticket (doing_of rest) }
        requires numbers { (state_of self.old).clock + numbers rest.deeds ≤ last_number }
        ensures history { OnOk result (self.new ≡ ended_by self.old ticket) }
        ensures told { IfOk result (λ ended. Some ended ≡ told_by self.old ticket) }
        ensures same { OnErr result (self.new ≡ self.old) }
    {
        let Rest {
            deeds,
            status,
            output,
        } = rest;
        let child = find(&self.children, ticket).unwrap();
        let records = records_of(self.alloc, child.deeds.as_slice(), deeds.as_slice())?;
        self.end(ticket, &deeds)?;
        Ok(Ended {
            ticket: Ticket(ticket),
            status,
            output,
            records: Some(records),
        })
    }

    // A child does these steps, with nothing between them, and is at its end.
    fn end(&mut self, ticket: u32, deeds: &Deeds) -> Result<(), NoMemory>
        requires held { IsSome (child_in (state_of self.old).children ticket) }
        requires numbers { (state_of self.old).clock + numbers deeds.now ≤ last_number }
        ensures ok { OnOk result (DidLast self.old ticket deeds.now self.new) }
        ensures err { OnErr result (self.new ≡ self.old) }
    {
        let child = find(&self.children, ticket).unwrap();
        let timed = mk_commands::timed(self.alloc, self.clock, deeds.as_slice())?;
        let mut events = last_events(self.alloc, child, timed.as_slice())?;
        self.events.reserve(events.len() + self.children.len())?;
        self.files.apply_all(timed.as_slice())?;
        self.clock += all_taken(deeds.as_slice());
        drop(take_child(&mut self.children, ticket));
        self.events.append(&mut events).unwrap();
        Ok(())
    }

    /// The oldest child is given up. Takes no memory.
    pub fn leave(&mut self)
        requires { 0 < length (state_of self.old).children }
        ensures { OfOldest (state_of self.old).children (GivesUp self.old self.new) }
    {
        let child = self.children.remove(0);
        let Child { ticket, owner, .. } = &child;
        let event = Happening::Left {
            ticket: *ticket,
            owner: *owner,
        };
        drop(child);
        self.events.push(event).unwrap();
    }
}

// A child that has done nothing.
fn new_child(alloc: Global, ticket: u32, owner: u64, cmd: &Cmd) -> Result<Child, NoMemory>
    ensures { IfOk result (λ child. child
        ≡ record { ticket = ticket; owner = owner; cmd = cmd.now; deeds = [] }) }
{
    Ok(Child {
        ticket,
        owner,
        cmd: copy_cmd(alloc, cmd)?,
        deeds: Items::new(alloc, 0)?,
    })
}

// The first child with a ticket.
fn find(children: &[Child], ticket: u32) -> Option<&Child>
    ensures { option_copied result ≡ child_in children.now ticket }
{
    for child in children {
        if child.ticket == ticket {
            return Some(child);
        }
    }
    None
}

// Where the first child with a ticket stands.
fn place_of(children: &[Child], ticket: u32) -> Option<usize>
    ensures { result ≡ position (λ child. child.ticket == ticket) children.now }
{
    children.iter().position(|child| child.ticket == ticket)
}

// Steps of a child at their times, and its end behind them.
fn last_events(alloc: Global, child: &Child, steps: &[Timed]) -> Result<Vec<Happening>, NoMemory>
    ensures { IfOk result (λ events. events.items
        ≡ steps_of child.now steps.now ++ End child.now.ticket child.now.owner ∷ []) }
{
    let mut events = Vec::new(alloc);
    for step in steps {
        events.push(Happening::Step {
            ticket: child.ticket,
            owner: child.owner,
            deed: copy_deed(alloc, &step.deed)?,
            time: step.time,
        })?;
    }
    events.push(Happening::End {
        ticket: child.ticket,
        owner: child.owner,
    })?;
    Ok(events)
}

// The first child with a ticket is taken out.
fn take_child(children: &mut Vec<Child>, ticket: u32) -> Child
    requires { IsSome (child_in children.old.items ticket) }
    ensures child { child_in children.old.items ticket ≡ Some result }
    ensures others { children.new.items ≡ without_child ticket children.old.items }
    ensures fewer { vec_len children.new + 1 ≡ vec_len children.old }
{
    let place = place_of(children, ticket).unwrap();
    children.remove(place)
}

// The child that a number names, counted from 1, among those that have not come to their end.
fn nth_going(children: &[Child], ended: &[u32], number: u32) -> Option<u32>
    ensures { result ≡ named number (going ended.now (tickets_of children.now)) }
{
    let mut left = number;
    for child in children {
        if ended.contains(&child.ticket) {
            continue;
        }
        if left == 1 {
            return Some(child.ticket);
        }
        left = left.saturating_sub(1);
    }
    None
}

// A child does a step.
fn do_step(
    alloc: Global,
    files: &mut Files,
    children: &mut Vec<Child>,
    ticket: u32,
    deed: &Deed,
    time: u64,
) -> Result<(), NoMemory>
    requires { IsSome (child_in children.old.items ticket) }
    ensures files { OnOk result (files_in files.new
        ≡ effected_all (files_in files.old) (at_time time (changes deed.now))) }
    ensures children { OnOk result
        (children.new.items ≡ stepped ticket deed.now children.old.items) }
    ensures count { vec_len children.new ≡ vec_len children.old }
    ensures same_files { OnErr result (files_in files.new ≡ files_in files.old) }
    ensures same_children { OnErr result (children.new.items ≡ children.old.items) }
{
    let change = files.prepare(deed, time)?;
    match add_deed(alloc, children, ticket, deed) {
        Err(fault) => {
            drop(change);
            Err(fault)
        }
        Ok(()) => {
            files.make(change);
            Ok(())
        }
    }
}

fn add_deed(
    alloc: Global,
    children: &mut Vec<Child>,
    ticket: u32,
    deed: &Deed,
) -> Result<(), NoMemory>
    requires { IsSome (child_in children.old.items ticket) }
    ensures ok { OnOk result (children.new.items ≡ stepped ticket deed.now children.old.items) }
    ensures err { OnErr result (children.new.items ≡ children.old.items) }
    ensures count { vec_len children.new ≡ vec_len children.old }
{
    let copy = copy_deed(alloc, deed)?;
    let place = place_of(children, ticket).unwrap();
    children[place].deeds.push(copy)?;
    Ok(())
}
