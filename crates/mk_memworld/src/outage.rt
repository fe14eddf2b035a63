//! Which calls fail, and how the failures are counted.
ghost use Rattle.std.specs.Prelude.{◌≡◌, ◌↔◌, ◌≤◌, IsTrue};
ghost use Rattle.mk_world.specs.Causes.{Rose};
ghost use Rattle.mk_memworld.specs.Outages as spec;
ghost use Rattle.mk_memworld.specs.Outages.{IsNamed};
ghost use Rattle.mk_memworld.specs.Writes.{left_by, next_left};

use crate::writing::Writing;
use mk_bytes::Items;

/// A kind of call.
#[derive(Clone, Copy, PartialEq, Eq)]
pub enum CallKind {
    Read,
    Time,
    List,
    Stamp,
    Put,
    Remove,
    Ask,
    Start,
    WaitAny,
    Write,
}

/// A call that is to fail: the `nth` of its kind, counted from 1.
#[derive(Clone, Copy, PartialEq, Eq)]
pub struct Fail {
    pub call: CallKind,
    pub nth: u32,
    /// How many bytes of the new file stand after a failed `Stamp` or `Put`; with `None` the old
    /// file stands.
    pub left: Option<usize>,
}

/// The calls that are to fail. Of several entries for one call the first counts.
pub type Fails = Items<Fail>;

/// How many calls of each kind were made. A count stands still at its last value.
#[derive(Drop)]
pub struct Made {
    pub read: u64,
    pub time: u64,
    pub list: u64,
    pub stamp: u64,
    pub put: u64,
    pub remove: u64,
    pub ask: u64,
    pub start: u64,
    pub wait_any: u64,
    pub write: u64,
}

impl Made {
    // One call more, and how many of its kind there are then.
    fn count(&mut self, kind: CallKind) -> u64
        ensures made { self.new ≡ spec.counted self.old kind }
        ensures nth { result ≡ spec.one_more (spec.made_of self.old kind) }
    {
        match kind {
            CallKind::Read => count_one(&mut self.read),
            CallKind::Time => count_one(&mut self.time),
            CallKind::List => count_one(&mut self.list),
            CallKind::Stamp => count_one(&mut self.stamp),
            CallKind::Put => count_one(&mut self.put),
            CallKind::Remove => count_one(&mut self.remove),
            CallKind::Ask => count_one(&mut self.ask),
            CallKind::Start => count_one(&mut self.start),
            CallKind::WaitAny => count_one(&mut self.wait_any),
            CallKind::Write => count_one(&mut self.write),
        }
    }
}

// One more, and how many there are then.
fn count_one(count: &mut u64) -> u64
    ensures counted { count.new ≡ spec.one_more count.old }
    ensures now { result ≡ spec.one_more count.old }
{
    *count = count.saturating_add(1);
    *count
}

/// The failures of a world or a sink: which calls are to fail, how many were made, and how many
/// failed.
#[derive(Drop)]
pub struct Outages {
    fails: Fails,
    made: Made,
    faults: u64,
}

impl Outages {
    /// No call was made yet.
    pub fn new(fails: Fails) -> Outages
        ensures { result ≡ spec.first_outages fails }
    {
        Outages {
            fails,
            made: Made {
                read: 0,
                time: 0,
                list: 0,
                stamp: 0,
                put: 0,
                remove: 0,
                ask: 0,
                start: 0,
                wait_any: 0,
                write: 0,
            },
            faults: 0,
        }
    }

    /// How many calls of a kind were made.
    pub fn calls(&self, kind: CallKind) -> u64
        ensures { result ≡ spec.made_of self.now.made kind }
    {
        match kind {
            CallKind::Read => self.made.read,
            CallKind::Time => self.made.time,
            CallKind::List => self.made.list,
            CallKind::Stamp => self.made.stamp,
            CallKind::Put => self.made.put,
            CallKind::Remove => self.made.remove,
            CallKind::Ask => self.made.ask,
            CallKind::Start => self.made.start,
            CallKind::WaitAny => self.made.wait_any,
            CallKind::Write => self.made.write,
        }
    }

    // Whether the nth call of a kind is to fail.
    fn names(&self, kind: CallKind, nth: u64) -> bool
        ensures { IsTrue result ↔ IsNamed kind nth self.now.fails }
    {
        for fail in self.fails.as_slice() {
            if fail.call == kind && u64::from(fail.nth) == nth {
                return true;
            }
        }
        false
    }

    // How many bytes of the new file stand after the nth call, by the first entry that names it.
    fn left_by(&self, writing: Writing, nth: u64) -> Option<usize>
        ensures { result ≡ left_by writing nth self.now.fails }
    {
        for fail in self.fails.as_slice() {
            if writing.is_of(fail.call) && u64::from(fail.nth) == nth {
                return fail.left;
            }
        }
        None
    }

    /// How many bytes of the new file stand after the next call of this kind, where it is to fail;
    /// `None` where the old file stands.
    pub fn next_left(&self, writing: Writing) -> Option<usize>
        ensures { result ≡ next_left self.now writing }
    {
        self.left_by(writing, self.calls(writing.kind()).saturating_add(1))
    }

    /// Counts a call, and says whether it is to fail.
    pub fn strikes(&mut self, kind: CallKind) -> bool
        ensures struck { IsTrue result ↔ spec.IsStruck self.old kind }
        ensures counted { self.new ≡ spec.with_call self.old kind }
    {
        let nth = self.made.count(kind);
        self.names(kind, nth)
    }

    /// One fault more.
    pub fn fail(&mut self)
        ensures counted { self.new ≡ spec.with_fault self.old }
        ensures kept { self.old.faults ≤ self.new.faults }
        ensures rose { Rose self.old.faults self.new.faults }
    {
        self.faults = self.faults.saturating_add(1);
    }
}
