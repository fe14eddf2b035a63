ghost use Rattle.std.specs.Prelude.{◌≡◌, ◌<◌, ℕ, List, [], ◌∷◌, ◌++◌, Option, Some, false, length};
ghost use Rattle.std.specs.Prelude.{nat_eq, IsTrue, IfOk, IfSome, OnOk, OnErr};
ghost use Rattle.std.specs.List.{list_any};
ghost use Rattle.mk_bytes.specs.Paths.{is_clean_directory};
ghost use Rattle.mk_world.specs.Calls.{Adds, OwnNothing, OwnRead, OwnList, OwnTime, OwnStamp};
ghost use Rattle.mk_world.specs.Calls.{OwnStampPart, OwnPut, OwnPutPart, OwnGone, OwnAsk};
ghost use Rattle.mk_world.specs.Calls.{OwnUnanswered, OwnStart, OwnEnd, OwnLeft, TakenOut};
ghost use Rattle.mk_world.specs.Causes.{HasCause};
ghost use Rattle.mk_world.specs.History.{state_of, tickets_of};
ghost use Rattle.mk_world.specs.Listings.{AreInOrder};
ghost use Rattle.mk_world.specs.Talks.{Meaning};
ghost use Rattle.mk_world.specs.declared.fault.WorldFault.TheVariants.{Failed};
ghost use Rattle.mk_world.specs.declared.history.History.{History};

use crate::command::Cmd;
use crate::fault::WorldFault;
use crate::kids::Kids;
use crate::progress::Progress;
use crate::step::Ended;
use crate::time::{Ticket, Time, When};
use mk_bytes::{Text, Texts};
use std::alloc::Global;

/// Files and children, as make deals with them. Paths are clean; a relative one is taken from the
/// current directory.
///
/// Every call adds to the history, where the world tells it, steps of running children and the
/// events of its own that its clauses name, and nothing else; a refused call adds none of its own,
/// except that a refused `stamp`, `put` or `ask` may. `Failed` comes only where the count of faults
/// rose in the call or is at its end.
pub trait World {
    /// A running child.
    type Kid;

    /// What the commands of this world mean. No call changes it.
    ghost meaning: { Meaning };

    /// What has happened, where the world tells it. A world that tells after a call told before it.
    ghost history: { Self → Option History };

    /// How often a call has failed. The count never falls, and stands still at its last value.
    ghost faults: { Self → ℕ };

    /// These are the tickets of the children that this world has started and not taken in.
    ghost runs: { Self → List ℕ → Type 0 };

    /// The whole of a file, or `None` where it is missing: what stands at the moment of the look.
    fn read(&mut self, alloc: Global, path: &[u8]) -> Result<Option<Text>, WorldFault>
        ensures done { IfOk result (λ answer. Adds meaning (history self.old) (history self.new) (OwnRead path.now answer)) }
        ensures refused { OnErr result (Adds meaning (history self.old) (history self.new) OwnNothing) }
        ensures cause { HasCause Failed (faults self.old) (faults self.new) result }
        ensures children { (kids : List ℕ) → runs self.old kids → runs self.new kids };

    /// The time of a file: what stands at the moment of the look. For a directory it is that of the
    /// directory; a world that tells has files alone, all with known times.
    fn time(&mut self, alloc: Global, path: &[u8]) -> Result<When, WorldFault>
        ensures done { IfOk result (λ when. Adds meaning (history self.old) (history self.new) (OwnTime path.now when)) }
        ensures refused { OnErr result (Adds meaning (history self.old) (history self.new) OwnNothing) }
        ensures cause { HasCause Failed (faults self.old) (faults self.new) result }
        ensures children { (kids : List ℕ) → runs self.old kids → runs self.new kids };

    /// The time at which a file was changed last in any way: in its bytes, or by another file that
    /// was moved to its path with an older time of its own. A world that tells has one time for
    /// both.
    fn changed(&mut self, alloc: Global, path: &[u8]) -> Result<When, WorldFault>
        ensures done { IfOk result (λ when. Adds meaning (history self.old) (history self.new) (OwnTime path.now when)) }
        ensures refused { OnErr result (Adds meaning (history self.old) (history self.new) OwnNothing) }
        ensures cause { HasCause Failed (faults self.old) (faults self.new) result }
        ensures children { (kids : List ℕ) → runs self.old kids → runs self.new kids };

    /// The names directly below a directory, each once, in the order of their bytes, or `None`
    /// where there is no such directory: what stands at the moment of the look. A world that tells
    /// has files alone: a directory is there where a file lies below it, and `.` is always there.
    fn list(&mut self, alloc: Global, dir: &[u8]) -> Result<Option<Texts>, WorldFault>
        ensures done { IfOk result (λ names. Adds meaning (history self.old) (history self.new) (OwnList dir.now names)) }
        ensures ordered { IfOk result (λ names. IfSome names AreInOrder) }
        ensures refused { OnErr result (Adds meaning (history self.old) (history self.new) OwnNothing) }
        ensures cause { HasCause Failed (faults self.old) (faults self.new) result }
        ensures children { (kids : List ℕ) → runs self.old kids → runs self.new kids };

    /// Writes the head of a meta file, with which a job begins, and gives the file's time, which is
    /// later than `after`. After a refusal the file is as before, or holds a part of the head from
    /// its beginning.
    fn stamp(
        &mut self,
        alloc: Global,
        path: &[u8],
        head: &[u8],
        after: Time,
    ) -> Result<Time, WorldFault>
        ensures done { IfOk result (λ time. Adds meaning (history self.old) (history self.new)
            (OwnStamp path.now head.now time.0)) }
        ensures later { IfOk result (λ time. after.0 < time.0) }
        ensures refused { OnErr result (Adds meaning (history self.old) (history self.new)
            (OwnStampPart path.now head.now)) }
        ensures cause { HasCause Failed (faults self.old) (faults self.new) result }
        ensures children { (kids : List ℕ) → runs self.old kids → runs self.new kids };

    /// Writes a whole file, and gives its time, which is later than `after`. After a refusal the
    /// file is as before, or holds a part of the bytes from their beginning.
    fn put(
        &mut self,
        alloc: Global,
        path: &[u8],
        bytes: &[u8],
        after: Time,
    ) -> Result<Time, WorldFault>
        ensures done { IfOk result (λ time. Adds meaning (history self.old) (history self.new)
            (OwnPut path.now bytes.now time.0)) }
        ensures later { IfOk result (λ time. after.0 < time.0) }
        ensures refused { OnErr result (Adds meaning (history self.old) (history self.new)
            (OwnPutPart path.now bytes.now)) }
        ensures cause { HasCause Failed (faults self.old) (faults self.new) result }
        ensures children { (kids : List ℕ) → runs self.old kids → runs self.new kids };

    /// Takes a file away. A missing file is no fault: it is removed like another one, at a time of
    /// its own. After a refusal it is as it was.
    fn remove(&mut self, alloc: Global, path: &[u8]) -> Result<(), WorldFault>
        ensures done { OnOk result (Adds meaning (history self.old) (history self.new) (OwnGone path.now)) }
        ensures refused { OnErr result (Adds meaning (history self.old) (history self.new) OwnNothing) }
        ensures cause { HasCause Failed (faults self.old) (faults self.new) result }
        ensures children { (kids : List ℕ) → runs self.old kids → runs self.new kids };

    /// Runs a command to its end, with nothing between its steps, and answers with its status, what
    /// it printed, and the records of its steps, where there are any; the ticket of the answer is
    /// 0. After a refusal the command has not run, or has run to its end.
    fn ask(&mut self, alloc: Global, cmd: &Cmd) -> Result<Ended, WorldFault>
        requires directory { IsTrue (is_clean_directory cmd.now.cwd) }
        ensures done { IfOk result (λ ended. Adds meaning (history self.old) (history self.new) (OwnAsk meaning cmd.now ended)) }
        ensures refused { OnErr result (Adds meaning (history self.old) (history self.new) (OwnUnanswered cmd.now)) }
        ensures ticket { IfOk result (λ ended. ended.ticket.0 ≡ 0) }
        ensures cause { HasCause Failed (faults self.old) (faults self.new) result }
        ensures children { (kids : List ℕ) → runs self.old kids → runs self.new kids };

    /// Starts a child with a ticket that is not held, for an owner, the start stamp of its job or
    /// 0. It is added at the end of `kids`; after a refusal `kids` is as before and no child was
    /// made.
    fn start(
        &mut self,
        alloc: Global,
        kids: &mut Kids<Self::Kid>,
        ticket: Ticket,
        owner: Time,
        cmd: &Cmd,
    ) -> Result<(), WorldFault>
        requires exact { runs self.old kids.old.tickets }
        requires room { length kids.old.tickets < kids.old.room }
        requires fresh { list_any (nat_eq ticket.0) kids.old.tickets ≡ false }
        requires directory { IsTrue (is_clean_directory cmd.now.cwd) }
        ensures done { OnOk result (Adds meaning (history self.old) (history self.new) (OwnStart ticket.0 owner.0 cmd.now)) }
        ensures refused { OnErr result (Adds meaning (history self.old) (history self.new) OwnNothing) }
        ensures added { OnOk result (kids.new.tickets ≡ kids.old.tickets ++ ticket.0 ∷ []) }
        ensures same { OnErr result (kids.new ≡ kids.old) }
        ensures same_room { kids.new.room ≡ kids.old.room }
        ensures cause { HasCause Failed (faults self.old) (faults self.new) result }
        ensures children { runs self.new kids.new.tickets };

    /// Waits until a child has ended, and takes it out of `kids`; the others stay in order. After a
    /// refusal `kids` is as before. Meanwhile the progress may be shown, where there is one to
    /// show: no answer hangs on it.
    fn wait_any(
        &mut self,
        alloc: Global,
        kids: &mut Kids<Self::Kid>,
        progress: Option<Progress>,
    ) -> Result<Ended, WorldFault>
        requires exact { runs self.old kids.old.tickets }
        requires some { 0 < length kids.old.tickets }
        ensures done { IfOk result (λ ended. Adds meaning (history self.old) (history self.new) (OwnEnd meaning ended)) }
        ensures refused { OnErr result (Adds meaning (history self.old) (history self.new) OwnNothing) }
        ensures taken { IfOk result (λ ended. TakenOut ended.ticket.0 kids.old.tickets kids.new.tickets) }
        ensures same { OnErr result (kids.new ≡ kids.old) }
        ensures same_room { kids.new.room ≡ kids.old.room }
        ensures cause { HasCause Failed (faults self.old) (faults self.new) result }
        ensures children { runs self.new kids.new.tickets };

    /// Ends and takes in all children, each after some of its steps. It cannot be refused and takes
    /// no memory.
    fn abandon(&mut self, kids: &mut Kids<Self::Kid>)
        requires exact { runs self.old kids.old.tickets }
        ensures done { Adds meaning (history self.old) (history self.new) OwnLeft }
        ensures none { kids.new.tickets ≡ [] }
        ensures same_room { kids.new.room ≡ kids.old.room }
        ensures faults { faults self.new ≡ faults self.old }
        ensures children { runs self.new [] };

    /// A world that tells runs those children that its history has.
    ghost told_children: { (w : Self) (h : History) (kids : List ℕ) → runs w kids → history w ≡ Some h → tickets_of (state_of h).children ≡ kids };
}
