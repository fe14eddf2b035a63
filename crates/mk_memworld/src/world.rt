ghost use Rattle.std.specs.Prelude.{◌≡◌, ◌↔◌, ◌⊎◌, ◌+◌, ◌<◌, ℕ, List, [], ◌∷◌, ◌++◌, Some, false};
ghost use Rattle.std.specs.Prelude.{drop, length, nat_eq, remove, slice_get, slice_index, IsTrue};
ghost use Rattle.std.specs.Prelude.{IfOk, IfSome, OnOk, OnErr};
ghost use Rattle.std.specs.List.{list_any};
ghost use Rattle.std.specs.Option.{option_copied};
ghost use Rattle.mk_bytes.specs.Paths.{is_clean_directory};
ghost use Rattle.mk_world.specs.Calls as spec;
ghost use Rattle.mk_world.specs.Calls.{Adds, AddsEvents, OwnAsk, OwnEnd, OwnGone, OwnLeft, OwnList};
ghost use Rattle.mk_world.specs.Calls.{OwnNothing, OwnPut, OwnPutPart, OwnRead, OwnStamp};
ghost use Rattle.mk_world.specs.Calls.{OwnStampPart, OwnStart, OwnTime, OwnUnanswered, TakenOut};
ghost use Rattle.mk_world.specs.Causes.{HasCause};
ghost use Rattle.mk_world.specs.History.{files_of, state_of, tickets_of};
ghost use Rattle.mk_world.specs.Lawful.{IsLawful};
ghost use Rattle.mk_world.specs.Listings.{AreInOrder};
ghost use Rattle.mk_world.specs.Runs.{Run};
ghost use Rattle.mk_world.specs.Talks.{does};
ghost use Rattle.mk_world.specs.declared.fault.WorldFault.TheVariants.{Failed};
ghost use Rattle.mk_world.specs.declared.history.Happening.TheVariants.{Ask, Edit, Gone, Look, Put};
ghost use Rattle.mk_world.specs.declared.history.Happening.TheVariants.{Stamp, Start};
ghost use Rattle.mk_commands.specs.Clock.{last_number, numbers, timed};
ghost use Rattle.mk_commands.specs.Files.{as_filed};
ghost use Rattle.mk_commands.specs.Meaning.{language};
ghost use Rattle.mk_commands.specs.Rest.{answer_of};
ghost use Rattle.mk_memworld.specs.Base.{are_clean, base_of};
ghost use Rattle.mk_memworld.specs.Children.{without_first};
ghost use Rattle.mk_memworld.specs.Chronicle.{with_event};
ghost use Rattle.mk_memworld.specs.Endings.{ended_by, told_by};
ghost use Rattle.mk_memworld.specs.Going.{IsTurn};
ghost use Rattle.mk_memworld.specs.Outages.{FailsWhere, IsStruck, OnFailed, OnNoMemory};
ghost use Rattle.mk_memworld.specs.Outages.{first_outages, made_of, with_answer, with_call};
ghost use Rattle.mk_memworld.specs.Running.{AddsSteps};
ghost use Rattle.mk_memworld.specs.Schedule.{course_after, gone_on, next_taken, or_oldest};
ghost use Rattle.mk_memworld.specs.Schedule.{taken_in, with_ended, with_number_taken};
ghost use Rattle.mk_memworld.specs.ToldChildren.{told_children};
ghost use Rattle.mk_memworld.specs.Turned.{HasFailed, HasGoneOn, HasRefused, HasStood, HasTurned};
ghost use Rattle.mk_memworld.specs.Turned.{IsNext, IsOldOrTurned, IsTooShort, IsTurnShort};
ghost use Rattle.mk_memworld.specs.Turned.{changes_to_end, turned};
ghost use Rattle.mk_memworld.specs.Writes.{HasFailedToWrite, HasNoTime, OwnPartOf, event_of};
ghost use Rattle.mk_memworld.specs.Writes.{kind_of, write_time};
ghost use Rattle.mk_memworld.specs.declared.outage.CallKind.TheVariants as kind;
ghost use Rattle.mk_memworld.specs.declared.writing.Writing.TheVariants as writing;

use crate::base;
use crate::chronicle::Chronicle;
use crate::going::Going;
use crate::outage::{CallKind, Fails, Outages};
use crate::schedule::{Schedule, Turns};
use crate::writing::Writing;
use mk_bytes::{NoMemory, Pairs, Text, Texts};
use mk_commands::{Stored, copy_bytes};
use mk_world::{Cmd, Ended, Kids, Progress, Ticket, Time, When, World, WorldFault};
use std::alloc::Global;

/// A world in memory. It tells everything.
#[derive(Drop)]
pub struct MemWorld {
    chronicle: Chronicle,
    outages: Outages,
    schedule: Schedule,
}

impl MemWorld {
    /// A world with these files, which get the times 1, 2, 3 and so on, in which children go on as
    /// this schedule says, and in which these calls fail. The paths are clean, as they are named
    /// from `cwd`, and differ (`are_clean`).
    pub fn new(
        alloc: Global,
        cwd: Text,
        files: Pairs,
        schedule: Turns,
        fails: Fails,
    ) -> Result<MemWorld, NoMemory>
        requires directory { IsTrue (is_clean_directory cwd) }
        requires clean { IsTrue (are_clean cwd files) }
        ensures fresh { IfOk result
            (λ world. world.chronicle ≡ record { base = base_of files; events = [] }) }
        ensures outages { IfOk result (λ world. world.outages ≡ first_outages fails) }
        ensures schedule { IfOk result
            (λ world. world.schedule ≡ record { numbers = schedule; ended = [] }) }
        ensures lawful { IfOk result (λ world. IsLawful language world.chronicle) }
        ensures idle { IfOk result
            (λ world. tickets_of (state_of world.chronicle).children ≡ []) }
    {
        let chronicle = first_chronicle(alloc, &files);
        drop(files);
        drop(cwd);
        Ok(MemWorld {
            chronicle: chronicle?,
            outages: Outages::new(fails),
            schedule: Schedule::new(alloc, schedule),
        })
    }

    /// The bytes of a file, or `None` exactly where it is missing. Takes no memory.
    pub fn file(&self, path: &[u8]) -> Option<&Text>
        ensures { option_copied result ≡ files_of self.now.chronicle path.now }
    {
        self.chronicle.bytes(path)
    }

    /// How many calls of a kind were made. Takes no memory.
    pub fn calls(&self, kind: CallKind) -> u64
        ensures { result ≡ made_of self.now.outages.made kind }
    {
        self.outages.calls(kind)
    }

    /// Changes a file from outside to these bytes, or to missing, at the next time; this is a
    /// change also where a missing file is removed. No child runs. `Failed`, which is counted,
    /// comes exactly where the clock is at its last number. After a refusal nothing has changed.
    pub fn edit(&mut self, path: &[u8], bytes: Option<&[u8]>) -> Result<(), WorldFault>
        requires idle { tickets_of (state_of self.old.chronicle).children ≡ [] }
        ensures done { OnOk result (self.new.chronicle ≡ with_event self.old.chronicle
            (Edit path.now (option_copied bytes.entry)
            ((state_of self.old.chronicle).clock + 1))) }
        ensures lawful { OnOk result (Run language self.old.chronicle self.new.chronicle) }
        ensures refused { OnErr result (self.new.chronicle ≡ self.old.chronicle) }
        ensures exactly { FailsWhere ((state_of self.old.chronicle).clock ≡ last_number) result }
        ensures counted { self.new.outages ≡ with_answer self.old.outages result }
        ensures schedule { self.new.schedule ≡ self.old.schedule }
        ensures idle { tickets_of (state_of self.new.chronicle).children ≡ [] }
    {
        if self.chronicle.clock() == u64::MAX {
            self.outages.fail();
            return Err(WorldFault::Failed);
        }
        self.chronicle.edit(path, bytes)?;
        Ok(())
    }
}

// How a call begins.
impl MemWorld {
    // The next number is taken, which names the child whose turn it is.
    fn next(&mut self) -> Result<Going, NoMemory>
        ensures turn { IfOk result (IsNext self.old) }
        ensures taken { self.new.schedule ≡ with_number_taken self.old.schedule }
        ensures history { self.new.chronicle ≡ self.old.chronicle }
        ensures outages { self.new.outages ≡ self.old.outages }
    {
        let number = self.schedule.take();
        match self.chronicle.named(self.schedule.ended(), number) {
            None => Ok(Going::nobody()),
            Some(ticket) => self.chronicle.going(ticket),
        }
    }

    // The child whose turn it is goes on. `Failed`, which is counted, comes exactly where the clock
    // has too few numbers for its step and for so many changes behind it; nobody goes on then.
    fn go_on(&mut self, going: &Going, more: u64) -> Result<(), WorldFault>
        requires turn { IsTurn self.old.chronicle going.now }
        ensures history { OnOk result
            (self.new.chronicle ≡ gone_on self.old.chronicle going.now.ticket) }
        ensures course { OnOk result (self.new.schedule ≡ record self.old.schedule {
          ended = with_ended self.old.schedule.ended going.now.ended;
        }) }
        ensures same { OnFailed result (self.new.chronicle ≡ self.old.chronicle) }
        ensures same_course { OnErr result (self.new.schedule ≡ self.old.schedule) }
        ensures out_of_memory { OnNoMemory result ((self.new.chronicle ≡ self.old.chronicle)
            ⊎ (self.new.chronicle ≡ gone_on self.old.chronicle going.now.ticket)) }
        ensures steps { AddsSteps self.old.chronicle self.new.chronicle }
        ensures tickets { tickets_of (state_of self.new.chronicle).children
            ≡ tickets_of (state_of self.old.chronicle).children }
        ensures exactly { FailsWhere (IsTurnShort self.old going.now more) result }
        ensures counted { self.new.outages ≡ with_answer self.old.outages result }
        ensures cause { HasCause Failed self.old.outages.faults self.new.outages.faults result }
    {
        if !self.chronicle.has_numbers(going, more) {
            self.outages.fail();
            return Err(WorldFault::Failed);
        }
        self.chronicle.go_on(going)?;
        self.schedule.note(going.ended)?;
        Ok(())
    }

    // The child whose turn it is goes on in a call that makes so many changes behind it. `Failed`,
    // which is counted, comes exactly where the clock has too few numbers for these, and nobody
    // goes on then, and where the call is to fail.
    fn proceed(&mut self, going: Going, changes: u64, is_struck: bool) -> Result<(), WorldFault>
        requires turn { IsTurn self.old.chronicle going }
        ensures went_on { OnOk result (HasGoneOn going self.old self.new) }
        ensures failed { OnFailed result (HasRefused going changes self.old self.new) }
        ensures taken { self.new.schedule.numbers ≡ self.old.schedule.numbers }
        ensures out_of_memory { OnNoMemory result ((self.new.chronicle ≡ self.old.chronicle)
            ⊎ (self.new.chronicle ≡ gone_on self.old.chronicle going.ticket)) }
        ensures steps { AddsSteps self.old.chronicle self.new.chronicle }
        ensures tickets { tickets_of (state_of self.new.chronicle).children
            ≡ tickets_of (state_of self.old.chronicle).children }
        ensures exactly { FailsWhere
            (IsTrue is_struck ⊎ IsTurnShort self.old going changes) result }
        ensures counted { self.new.outages ≡ with_answer self.old.outages result }
        ensures cause { HasCause Failed self.old.outages.faults self.new.outages.faults result }
    {
        let went = self.go_on(&going, changes);
        drop(going);
        went?;
        if is_struck {
            self.outages.fail();
            return Err(WorldFault::Failed);
        }
        Ok(())
    }

    // A call that makes so many changes begins: it is counted, takes its number, and lets the child
    // go on that this names. `Failed` comes exactly where the call is to fail, and where the clock
    // has too few numbers.
    fn begin(&mut self, kind: CallKind, changes: u64) -> Result<(), WorldFault>
        ensures turned { OnOk result (HasTurned self.old self.new) }
        ensures failed { OnFailed result (HasFailed changes self.old self.new) }
        ensures out_of_memory { OnNoMemory result (IsOldOrTurned self.old self.new) }
        ensures taken { self.new.schedule.numbers ≡ drop 1 self.old.schedule.numbers }
        ensures steps { AddsSteps self.old.chronicle self.new.chronicle }
        ensures tickets { tickets_of (state_of self.new.chronicle).children
            ≡ tickets_of (state_of self.old.chronicle).children }
        ensures exactly { FailsWhere
            (IsStruck self.old.outages kind ⊎ IsTooShort self.old changes) result }
        ensures counted { self.new.outages ≡ with_answer (with_call self.old.outages kind) result }
        ensures cause { HasCause Failed self.old.outages.faults self.new.outages.faults result }
    {
        let is_struck = self.outages.strikes(kind);
        let going = self.next()?;
        self.proceed(going, changes, is_struck)
    }

    // A call that writes a file, at a time later than `after`, begins: it is counted, takes its
    // number, and lets the child go on that this names. `Failed` comes exactly where there is no
    // such time, and nobody goes on then. Else it is told whether the call is to fail.
    fn begin_write(&mut self, writing: Writing, after: u64) -> Result<bool, WorldFault>
        ensures turned { OnOk result (HasTurned self.old self.new) }
        ensures struck { IfOk result
            (λ is_struck. IsTrue is_struck ↔ IsStruck self.old.outages (kind_of writing)) }
        ensures failed { OnFailed result (HasStood self.old self.new) }
        ensures out_of_memory { OnNoMemory result (IsOldOrTurned self.old self.new) }
        ensures taken { self.new.schedule.numbers ≡ drop 1 self.old.schedule.numbers }
        ensures steps { AddsSteps self.old.chronicle self.new.chronicle }
        ensures tickets { tickets_of (state_of self.new.chronicle).children
            ≡ tickets_of (state_of self.old.chronicle).children }
        ensures exactly { FailsWhere (HasNoTime self.old after) result }
        ensures counted { self.new.outages
            ≡ with_answer (with_call self.old.outages (kind_of writing)) result }
        ensures cause { HasCause Failed self.old.outages.faults self.new.outages.faults result }
    {
        let is_struck = self.outages.strikes(writing.kind());
        if after == u64::MAX {
            self.schedule.take();
            self.outages.fail();
            return Err(WorldFault::Failed);
        }
        let going = self.next()?;
        let went = self.go_on(&going, 1);
        drop(going);
        went?;
        Ok(is_struck)
    }

    // Writes a whole file at a time later than `after`. This is one change, for which the clock
    // needs a number, beside that for the step of the child that goes on.
    fn write(
        &mut self,
        writing: Writing,
        path: &[u8],
        bytes: &[u8],
        after: u64,
    ) -> Result<Time, WorldFault>
        ensures done { IfOk result (λ time. AddsEvents language (λ _ own.
            own ≡ event_of writing path.now bytes.now time.0 ∷ [])
            self.old.chronicle self.new.chronicle) }
        ensures later { IfOk result (λ time. after < time.0) }
        ensures refused { OnErr result (AddsEvents language (OwnPartOf writing path.now bytes.now)
            self.old.chronicle self.new.chronicle) }
        ensures cause { HasCause Failed self.old.outages.faults self.new.outages.faults result }
        ensures children { (kids : List ℕ)
            → tickets_of (state_of self.old.chronicle).children ≡ kids
            → tickets_of (state_of self.new.chronicle).children ≡ kids }
        ensures time { IfOk result (λ time. time.0 ≡ write_time (turned self.old) after) }
        ensures history { IfOk result (λ time. self.new.chronicle
            ≡ with_event (turned self.old) (event_of writing path.now bytes.now time.0)) }
        ensures course { OnOk result (self.new.schedule
            ≡ course_after self.old.chronicle self.old.schedule) }
        ensures exactly { FailsWhere
            (IsStruck self.old.outages (kind_of writing) ⊎ HasNoTime self.old after) result }
        ensures failed { OnFailed result
            (HasFailedToWrite writing path.now bytes.now after self.old self.new) }
        ensures out_of_memory { OnNoMemory result (IsOldOrTurned self.old self.new) }
        ensures taken { self.new.schedule.numbers ≡ drop 1 self.old.schedule.numbers }
        ensures counted { self.new.outages
            ≡ with_answer (with_call self.old.outages (kind_of writing)) result }
    {
        let left = self.outages.next_left(writing);
        let is_struck = self.begin_write(writing, after)?;
        let time = Ord::max(self.chronicle.clock(), after) + 1;
        if is_struck {
            self.chronicle.write_part(writing, path, bytes, time, left)?;
            self.outages.fail();
            return Err(WorldFault::Failed);
        }
        self.chronicle.write(writing, path, bytes, time)?;
        Ok(Time(time))
    }

    // Where the child stands that is to be taken in behind this turn.
    fn place(&self, kids: &Kids<()>, going: &Going) -> usize
        requires { 0 < length kids.now.tickets }
        ensures within { result < length kids.now.tickets }
        ensures taken { slice_get kids.now.tickets result ≡ next_taken (record self.now.schedule {
          ended = with_ended self.now.schedule.ended going.now.ended;
        }) kids.now.tickets }
        ensures first { without_first (slice_index kids.now.tickets result) kids.now.tickets
            ≡ remove kids.now.tickets result }
    {
        match self.schedule.chosen(going.ended) {
            None => 0,
            Some(ticket) => place_in(kids, ticket),
        }
    }
}

// A history that begins with these files.
fn first_chronicle(alloc: Global, files: &Pairs) -> Result<Chronicle, NoMemory>
    ensures { IfOk result
        (λ chronicle. chronicle ≡ record { base = base_of files.now; events = [] }) }
{
    Chronicle::new(alloc, base::base_of(alloc, files)?)
}

// Where the child with a ticket stands; where there is none, the oldest one.
fn place_in(kids: &Kids<()>, ticket: u32) -> usize
    requires { 0 < length kids.now.tickets }
    ensures within { result < length kids.now.tickets }
    ensures taken { slice_get kids.now.tickets result ≡ or_oldest kids.now.tickets (Some ticket) }
    ensures first { without_first (slice_index kids.now.tickets result) kids.now.tickets
        ≡ remove kids.now.tickets result }
{
    for place in 0..kids.len() {
        if kids.ticket(place).0 == ticket {
            return place;
        }
    }
    0
}

// When a file was changed last.
fn when_of(file: Option<&Stored>) -> When
    ensures { result ≡ spec.when_of (as_filed (option_copied file.entry)) }
{
    match file {
        None => When::Missing,
        Some(file) => When::At(Time(file.time)),
    }
}

#[tactic(auto, using(crate::proofs::WorldLemmas::refused_here, crate::proofs::WorldLemmas::refused_same, crate::proofs::WorldLemmas::refused_after, crate::proofs::WorldLemmas::refused_later, crate::proofs::WorldLemmas::refused_both, crate::proofs::RunningLemmas::refused_behind, crate::proofs::AskLemmas::unanswered_after, crate::proofs::AskLemmas::unanswered_later, crate::proofs::AskLemmas::unanswered_behind, crate::proofs::AskLemmas::unanswered_here, crate::proofs::AskLemmas::unanswered_same))]
impl World for MemWorld {
    type Kid = ();

    ghost meaning = { language };

    ghost history = { λ world. Some world.chronicle };

    ghost faults = { λ world. world.outages.faults };

    ghost runs = { λ world kids. tickets_of (state_of world.chronicle).children ≡ kids };

    ghost told_children = { λ world history kids runs told.
        told_children world.chronicle history kids runs told };

    /// The whole of a file, or `None` where it is missing.
    ///
    /// This call, as all but `abandon`, takes a number of the schedule and begins with the turn of
    /// the child that this names. `Failed`, which is counted, comes exactly where the call is to
    /// fail, and where the clock has fewer numbers left than the step of this child and the changes
    /// of the call behind it take; here these are none. Where it is too short, nobody goes on. Any
    /// other call that is to fail lets the child go on, and does nothing of its own, beside what
    /// `stamp` and `put` may leave. Where memory runs out, nothing has happened, or the child went
    /// on and nothing else happened.
    fn read(&mut self, alloc: Global, path: &[u8]) -> Result<Option<Text>, WorldFault>
        ensures done { IfOk result (λ answer. Adds language (Some self.old.chronicle)
            (Some self.new.chronicle) (OwnRead path.now answer)) }
        ensures history { OnOk result
            (self.new.chronicle ≡ with_event (turned self.old) (Look path.now)) }
        ensures course { OnOk result (self.new.schedule
            ≡ course_after self.old.chronicle self.old.schedule) }
        ensures refused { OnErr result (Adds language (Some self.old.chronicle)
            (Some self.new.chronicle) OwnNothing) }
        ensures cause { HasCause Failed self.old.outages.faults self.new.outages.faults result }
        ensures children { (kids : List ℕ)
            → tickets_of (state_of self.old.chronicle).children ≡ kids
            → tickets_of (state_of self.new.chronicle).children ≡ kids }
        ensures exactly { FailsWhere
            (IsStruck self.old.outages kind.Read ⊎ IsTooShort self.old 0) result }
        ensures failed { OnFailed result (HasFailed 0 self.old self.new) }
        ensures out_of_memory { OnNoMemory result (IsOldOrTurned self.old self.new) }
        ensures taken { self.new.schedule.numbers ≡ drop 1 self.old.schedule.numbers }
        ensures counted { self.new.outages
            ≡ with_answer (with_call self.old.outages kind.Read) result }
    {
        self.begin(CallKind::Read, 0)?;
        let bytes = copy_bytes(alloc, self.chronicle.bytes(path))?;
        self.chronicle.look(path)?;
        Ok(bytes)
    }

    /// The time of a file.
    fn time(&mut self, _: Global, path: &[u8]) -> Result<When, WorldFault>
        ensures done { IfOk result (λ when. Adds language (Some self.old.chronicle)
            (Some self.new.chronicle) (OwnTime path.now when)) }
        ensures history { OnOk result
            (self.new.chronicle ≡ with_event (turned self.old) (Look path.now)) }
        ensures course { OnOk result (self.new.schedule
            ≡ course_after self.old.chronicle self.old.schedule) }
        ensures refused { OnErr result (Adds language (Some self.old.chronicle)
            (Some self.new.chronicle) OwnNothing) }
        ensures cause { HasCause Failed self.old.outages.faults self.new.outages.faults result }
        ensures children { (kids : List ℕ)
            → tickets_of (state_of self.old.chronicle).children ≡ kids
            → tickets_of (state_of self.new.chronicle).children ≡ kids }
        ensures exactly { FailsWhere
            (IsStruck self.old.outages kind.Time ⊎ IsTooShort self.old 0) result }
        ensures failed { OnFailed result (HasFailed 0 self.old self.new) }
        ensures out_of_memory { OnNoMemory result (IsOldOrTurned self.old self.new) }
        ensures taken { self.new.schedule.numbers ≡ drop 1 self.old.schedule.numbers }
        ensures counted { self.new.outages
            ≡ with_answer (with_call self.old.outages kind.Time) result }
    {
        self.begin(CallKind::Time, 0)?;
        let when = when_of(self.chronicle.file(path));
        self.chronicle.look(path)?;
        Ok(when)
    }

    /// The time of a file: here it is that of its last change, and the call counts as one for its
    /// time.
    fn changed(&mut self, alloc: Global, path: &[u8]) -> Result<When, WorldFault>
        ensures done { IfOk result (λ when. Adds language (Some self.old.chronicle)
            (Some self.new.chronicle) (OwnTime path.now when)) }
        ensures history { OnOk result
            (self.new.chronicle ≡ with_event (turned self.old) (Look path.now)) }
        ensures course { OnOk result (self.new.schedule
            ≡ course_after self.old.chronicle self.old.schedule) }
        ensures refused { OnErr result (Adds language (Some self.old.chronicle)
            (Some self.new.chronicle) OwnNothing) }
        ensures cause { HasCause Failed self.old.outages.faults self.new.outages.faults result }
        ensures children { (kids : List ℕ)
            → tickets_of (state_of self.old.chronicle).children ≡ kids
            → tickets_of (state_of self.new.chronicle).children ≡ kids }
        ensures exactly { FailsWhere
            (IsStruck self.old.outages kind.Time ⊎ IsTooShort self.old 0) result }
        ensures failed { OnFailed result (HasFailed 0 self.old self.new) }
        ensures out_of_memory { OnNoMemory result (IsOldOrTurned self.old self.new) }
        ensures taken { self.new.schedule.numbers ≡ drop 1 self.old.schedule.numbers }
        ensures counted { self.new.outages
            ≡ with_answer (with_call self.old.outages kind.Time) result }
    {
        self.time(alloc, path)
    }

    /// The names of what stands directly below a directory. It goes through all files.
    fn list(&mut self, alloc: Global, dir: &[u8]) -> Result<Option<Texts>, WorldFault>
        ensures done { IfOk result (λ names. Adds language (Some self.old.chronicle)
            (Some self.new.chronicle) (OwnList dir.now names)) }
        ensures ordered { IfOk result (λ names. IfSome names AreInOrder) }
        ensures history { OnOk result
            (self.new.chronicle ≡ with_event (turned self.old) (Look dir.now)) }
        ensures course { OnOk result (self.new.schedule
            ≡ course_after self.old.chronicle self.old.schedule) }
        ensures refused { OnErr result (Adds language (Some self.old.chronicle)
            (Some self.new.chronicle) OwnNothing) }
        ensures cause { HasCause Failed self.old.outages.faults self.new.outages.faults result }
        ensures children { (kids : List ℕ)
            → tickets_of (state_of self.old.chronicle).children ≡ kids
            → tickets_of (state_of self.new.chronicle).children ≡ kids }
        ensures exactly { FailsWhere
            (IsStruck self.old.outages kind.List ⊎ IsTooShort self.old 0) result }
        ensures failed { OnFailed result (HasFailed 0 self.old self.new) }
        ensures out_of_memory { OnNoMemory result (IsOldOrTurned self.old self.new) }
        ensures taken { self.new.schedule.numbers ≡ drop 1 self.old.schedule.numbers }
        ensures counted { self.new.outages
            ≡ with_answer (with_call self.old.outages kind.List) result }
    {
        self.begin(CallKind::List, 0)?;
        let names = self.chronicle.list(alloc, dir)?;
        self.chronicle.look(dir)?;
        Ok(names)
    }

    /// Writes the head of a meta file at the next time; where this is not later than `after`, at
    /// the time behind `after`, from which the clock goes on. This is one change, for which the
    /// clock needs a number, beside that for the step of the child that goes on; and it is too
    /// short as well where `after` is the greatest number. A call that is to fail else leaves as
    /// many bytes of the head, at the time that it would have had, as the first entry says that
    /// names it, or the old file.
    fn stamp(
        &mut self,
        _: Global,
        path: &[u8],
        head: &[u8],
        after: Time,
    ) -> Result<Time, WorldFault>
        ensures done { IfOk result (λ time. Adds language (Some self.old.chronicle)
            (Some self.new.chronicle) (OwnStamp path.now head.now time.0)) }
        ensures later { IfOk result (λ time. after.0 < time.0) }
        ensures refused { OnErr result (Adds language (Some self.old.chronicle)
            (Some self.new.chronicle) (OwnStampPart path.now head.now)) }
        ensures cause { HasCause Failed self.old.outages.faults self.new.outages.faults result }
        ensures children { (kids : List ℕ)
            → tickets_of (state_of self.old.chronicle).children ≡ kids
            → tickets_of (state_of self.new.chronicle).children ≡ kids }
        ensures time { IfOk result (λ time. time.0 ≡ write_time (turned self.old) after.0) }
        ensures history { IfOk result (λ time. self.new.chronicle
            ≡ with_event (turned self.old) (Stamp path.now head.now time.0)) }
        ensures course { OnOk result (self.new.schedule
            ≡ course_after self.old.chronicle self.old.schedule) }
        ensures exactly { FailsWhere
            (IsStruck self.old.outages kind.Stamp ⊎ HasNoTime self.old after.0) result }
        ensures failed { OnFailed result
            (HasFailedToWrite writing.Stamp path.now head.now after.0 self.old self.new) }
        ensures out_of_memory { OnNoMemory result (IsOldOrTurned self.old self.new) }
        ensures taken { self.new.schedule.numbers ≡ drop 1 self.old.schedule.numbers }
        ensures counted { self.new.outages
            ≡ with_answer (with_call self.old.outages kind.Stamp) result }
    {
        self.write(Writing::Stamp, path, head, after.0)
    }

    /// Writes a whole file. Its time, when the call fails, and what it leaves then, are as in
    /// `stamp`.
    fn put(&mut self, _: Global, path: &[u8], bytes: &[u8], after: Time) -> Result<Time, WorldFault>
        ensures done { IfOk result (λ time. Adds language (Some self.old.chronicle)
            (Some self.new.chronicle) (OwnPut path.now bytes.now time.0)) }
        ensures later { IfOk result (λ time. after.0 < time.0) }
        ensures refused { OnErr result (Adds language (Some self.old.chronicle)
            (Some self.new.chronicle) (OwnPutPart path.now bytes.now)) }
        ensures cause { HasCause Failed self.old.outages.faults self.new.outages.faults result }
        ensures children { (kids : List ℕ)
            → tickets_of (state_of self.old.chronicle).children ≡ kids
            → tickets_of (state_of self.new.chronicle).children ≡ kids }
        ensures time { IfOk result (λ time. time.0 ≡ write_time (turned self.old) after.0) }
        ensures history { IfOk result (λ time. self.new.chronicle
            ≡ with_event (turned self.old) (Put path.now bytes.now time.0)) }
        ensures course { OnOk result (self.new.schedule
            ≡ course_after self.old.chronicle self.old.schedule) }
        ensures exactly { FailsWhere
            (IsStruck self.old.outages kind.Put ⊎ HasNoTime self.old after.0) result }
        ensures failed { OnFailed result
            (HasFailedToWrite writing.Put path.now bytes.now after.0 self.old self.new) }
        ensures out_of_memory { OnNoMemory result (IsOldOrTurned self.old self.new) }
        ensures taken { self.new.schedule.numbers ≡ drop 1 self.old.schedule.numbers }
        ensures counted { self.new.outages
            ≡ with_answer (with_call self.old.outages kind.Put) result }
    {
        self.write(Writing::Put, path, bytes, after.0)
    }

    /// Takes a file away, at the next time, also where it is missing. This is one change, for which
    /// the clock needs a number, beside that for the step of the child that goes on.
    fn remove(&mut self, _: Global, path: &[u8]) -> Result<(), WorldFault>
        ensures done { OnOk result (Adds language (Some self.old.chronicle)
            (Some self.new.chronicle) (OwnGone path.now)) }
        ensures refused { OnErr result (Adds language (Some self.old.chronicle)
            (Some self.new.chronicle) OwnNothing) }
        ensures cause { HasCause Failed self.old.outages.faults self.new.outages.faults result }
        ensures children { (kids : List ℕ)
            → tickets_of (state_of self.old.chronicle).children ≡ kids
            → tickets_of (state_of self.new.chronicle).children ≡ kids }
        ensures history { OnOk result (self.new.chronicle ≡ with_event (turned self.old)
            (Gone path.now ((state_of (turned self.old)).clock + 1))) }
        ensures course { OnOk result (self.new.schedule
            ≡ course_after self.old.chronicle self.old.schedule) }
        ensures exactly { FailsWhere
            (IsStruck self.old.outages kind.Remove ⊎ IsTooShort self.old 1) result }
        ensures failed { OnFailed result (HasFailed 1 self.old self.new) }
        ensures out_of_memory { OnNoMemory result (IsOldOrTurned self.old self.new) }
        ensures taken { self.new.schedule.numbers ≡ drop 1 self.old.schedule.numbers }
        ensures counted { self.new.outages
            ≡ with_answer (with_call self.old.outages kind.Remove) result }
    {
        self.begin(CallKind::Remove, 1)?;
        self.chronicle.remove(path)?;
        Ok(())
    }

    /// Runs a command to its end on the files as they stand after the turn. The clock needs numbers
    /// for its changes, beside that for the step of the child that goes on.
    fn ask(&mut self, _: Global, cmd: &Cmd) -> Result<Ended, WorldFault>
        requires directory { IsTrue (is_clean_directory cmd.now.cwd) }
        ensures done { IfOk result (λ ended. Adds language (Some self.old.chronicle)
            (Some self.new.chronicle) (OwnAsk language cmd.now ended)) }
        ensures refused { OnErr result (Adds language (Some self.old.chronicle)
            (Some self.new.chronicle) (OwnUnanswered cmd.now)) }
        ensures ticket { IfOk result (λ ended. ended.ticket.0 ≡ 0) }
        ensures cause { HasCause Failed self.old.outages.faults self.new.outages.faults result }
        ensures children { (kids : List ℕ)
            → tickets_of (state_of self.old.chronicle).children ≡ kids
            → tickets_of (state_of self.new.chronicle).children ≡ kids }
        ensures answer { IfOk result (λ ended. ended
            ≡ answer_of (does language cmd.now (files_of (turned self.old)))) }
        ensures history { OnOk result (self.new.chronicle ≡ with_event (turned self.old)
            (Ask cmd.now (timed (state_of (turned self.old)).clock
            (does language cmd.now (files_of (turned self.old))).deeds))) }
        ensures course { OnOk result (self.new.schedule
            ≡ course_after self.old.chronicle self.old.schedule) }
        ensures exactly { FailsWhere (IsStruck self.old.outages kind.Ask
            ⊎ IsTooShort self.old
            (numbers (does language cmd.now (files_of (turned self.old))).deeds)) result }
        ensures failed { OnFailed result (HasFailed
            (numbers (does language cmd.now (files_of (turned self.old))).deeds) self.old self.new) }
        ensures out_of_memory { OnNoMemory result (IsOldOrTurned self.old self.new) }
        ensures taken { self.new.schedule.numbers ≡ drop 1 self.old.schedule.numbers }
        ensures counted { self.new.outages
            ≡ with_answer (with_call self.old.outages kind.Ask) result }
    {
        let is_struck = self.outages.strikes(CallKind::Ask);
        let going = self.next()?;
        let rest = match self.chronicle.doing(&going, cmd) {
            Ok(rest) => rest,
            Err(NoMemory) => {
                drop(going);
                return Err(WorldFault::NoMemory);
            }
        };
        self.proceed(going, rest.numbers(), is_struck)?;
        let ended = self.chronicle.ask(cmd, rest)?;
        Ok(ended)
    }

    /// Starts a child. It does nothing yet.
    fn start(
        &mut self,
        _: Global,
        kids: &mut Kids<()>,
        ticket: Ticket,
        owner: Time,
        cmd: &Cmd,
    ) -> Result<(), WorldFault>
        requires exact { tickets_of (state_of self.old.chronicle).children ≡ kids.old.tickets }
        requires room { length kids.old.tickets < kids.old.room }
        requires fresh { list_any (nat_eq ticket.0) kids.old.tickets ≡ false }
        requires directory { IsTrue (is_clean_directory cmd.now.cwd) }
        ensures done { OnOk result (Adds language (Some self.old.chronicle)
            (Some self.new.chronicle) (OwnStart ticket.0 owner.0 cmd.now)) }
        ensures history { OnOk result (self.new.chronicle
            ≡ with_event (turned self.old) (Start ticket.0 owner.0 cmd.now)) }
        ensures course { OnOk result (self.new.schedule
            ≡ course_after self.old.chronicle self.old.schedule) }
        ensures refused { OnErr result (Adds language (Some self.old.chronicle)
            (Some self.new.chronicle) OwnNothing) }
        ensures added { OnOk result (kids.new.tickets ≡ kids.old.tickets ++ ticket.0 ∷ []) }
        ensures same { OnErr result (kids.new ≡ kids.old) }
        ensures same_room { kids.new.room ≡ kids.old.room }
        ensures cause { HasCause Failed self.old.outages.faults self.new.outages.faults result }
        ensures children { tickets_of (state_of self.new.chronicle).children ≡ kids.new.tickets }
        ensures exactly { FailsWhere
            (IsStruck self.old.outages kind.Start ⊎ IsTooShort self.old 0) result }
        ensures failed { OnFailed result (HasFailed 0 self.old self.new) }
        ensures out_of_memory { OnNoMemory result (IsOldOrTurned self.old self.new) }
        ensures taken { self.new.schedule.numbers ≡ drop 1 self.old.schedule.numbers }
        ensures counted { self.new.outages
            ≡ with_answer (with_call self.old.outages kind.Start) result }
    {
        self.begin(CallKind::Start, 0)?;
        self.chronicle.start(ticket.0, owner.0, cmd)?;
        kids.add(ticket, ());
        Ok(())
    }

    /// Takes in a child. Behind the turn a second number is taken, which chooses one of those that
    /// have come to their end; where none has, the oldest child is taken in. It does all its
    /// remaining steps first, and no other child does any. The clock needs numbers for these,
    /// beside that for the step of the child that goes on. A call that fails takes no second
    /// number.
    fn wait_any(
        &mut self,
        _: Global,
        kids: &mut Kids<()>,
        _: Option<Progress>,
    ) -> Result<Ended, WorldFault>
        requires exact { tickets_of (state_of self.old.chronicle).children ≡ kids.old.tickets }
        requires some { 0 < length kids.old.tickets }
        ensures done { IfOk result (λ ended. Adds language (Some self.old.chronicle)
            (Some self.new.chronicle) (OwnEnd language ended)) }
        ensures refused { OnErr result (Adds language (Some self.old.chronicle)
            (Some self.new.chronicle) OwnNothing) }
        ensures taken { IfOk result
            (λ ended. TakenOut ended.ticket.0 kids.old.tickets kids.new.tickets) }
        ensures chosen { IfOk result (λ ended. Some ended.ticket.0
            ≡ next_taken (course_after self.old.chronicle self.old.schedule) kids.old.tickets) }
        ensures history { IfOk result (λ ended. self.new.chronicle
            ≡ ended_by (turned self.old) ended.ticket.0) }
        ensures told { IfOk result (λ ended. Some ended
            ≡ told_by (turned self.old) ended.ticket.0) }
        ensures course { IfOk result (λ ended. self.new.schedule
            ≡ taken_in (course_after self.old.chronicle self.old.schedule) ended.ticket.0) }
        ensures same { OnErr result (kids.new ≡ kids.old) }
        ensures same_room { kids.new.room ≡ kids.old.room }
        ensures cause { HasCause Failed self.old.outages.faults self.new.outages.faults result }
        ensures children { tickets_of (state_of self.new.chronicle).children ≡ kids.new.tickets }
        ensures exactly { FailsWhere (IsStruck self.old.outages kind.WaitAny
            ⊎ IsTooShort self.old (changes_to_end self.old kids.old.tickets)) result }
        ensures failed { OnFailed result
            (HasFailed (changes_to_end self.old kids.old.tickets) self.old self.new) }
        ensures out_of_memory { OnNoMemory result (IsOldOrTurned self.old self.new) }
        ensures taken_number { OnErr result
            (self.new.schedule.numbers ≡ drop 1 self.old.schedule.numbers) }
        ensures counted { self.new.outages
            ≡ with_answer (with_call self.old.outages kind.WaitAny) result }
    {
        let is_struck = self.outages.strikes(CallKind::WaitAny);
        let going = self.next()?;
        let place = self.place(kids, &going);
        let ticket = kids.ticket(place).0;
        let rest = match self.chronicle.rest(&going, ticket) {
            Ok(rest) => rest,
            Err(NoMemory) => {
                drop(going);
                return Err(WorldFault::NoMemory);
            }
        };
        self.proceed(going, rest.numbers(), is_struck)?;
        let ended = self.chronicle.finish(ticket, rest)?;
        self.schedule.take_in(ticket);
        kids.take(place);
        Ok(ended)
    }

    /// Gives up all children, each after the steps that it has done. Nobody goes on, and no number
    /// is taken.
    fn abandon(&mut self, kids: &mut Kids<()>)
        requires exact { tickets_of (state_of self.old.chronicle).children ≡ kids.old.tickets }
        ensures done { Adds language (Some self.old.chronicle) (Some self.new.chronicle) OwnLeft }
        ensures none { kids.new.tickets ≡ [] }
        ensures same_room { kids.new.room ≡ kids.old.room }
        ensures faults { self.new.outages.faults ≡ self.old.outages.faults }
        ensures children { tickets_of (state_of self.new.chronicle).children ≡ [] }
        ensures outages { self.new.outages ≡ self.old.outages }
        ensures course { self.new.schedule ≡ record self.old.schedule { ended = [] } }
    {
        while !kids.is_empty() {
            self.chronicle.leave();
            kids.take(0);
        }
        self.schedule.forget();
    }
}
