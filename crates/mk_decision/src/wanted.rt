//! Nodes that are still to be looked at.
ghost use Rattle.std.specs.Prelude.{◌≡◌, ◌≤◌, ◌==◌, ◌||◌, ◌&&◌, not, ℕ, true, false, IfSome};
ghost use Rattle.std.specs.Prelude.{IfNone, OnOk};
ghost use Rattle.mk_decision.specs.Ages.{is_one_of};
ghost use Rattle.mk_decision.specs.Rising.{IsLast, rise, rise_below};
ghost use Rattle.std.specs.BTreeSet.{contains};
ghost use Rattle.std.specs.Ordering.{nat_cmp};

use mk_bytes::NoMemory;
use std::alloc::Global;
use std::collections::BTreeSet;

/// Some nodes of a plan, by their places: those of a list that rises, which is lent, and others.
#[derive(Drop)]
pub struct Wanted<'p> {
    rising: &'p [u32],
    others: BTreeSet<u32>,
    ghost rises: { rise rising.now ≡ true },
}

/// Whether each of these places is before the next one, and the last is before this one.
pub fn rise_below(places: &[u32], bound: u32) -> bool
    ensures { result ≡ rise_below places.now bound }
{
    let mut next = bound;
    let mut left = places.len();
    while left > 0 {
        left -= 1;
        if places[left] >= next {
            return false;
        }
        next = places[left];
    }
    true
}

// Drops the last of some places where it is this one.
fn without_last<'p>(places: &'p [u32], place: u32) -> &'p [u32]
    requires rising { rise places.now ≡ true }
    requires most { (one : ℕ) → is_one_of places.now one ≡ true → one ≤ place }
    ensures rising { rise result.now ≡ true }
    ensures others { (one : ℕ) → is_one_of result.now one
        ≡ (is_one_of places.now one && not (place == one)) }
{
    match places {
        [before @ .., last] if *last == place => before,
        _ => places,
    }
}

// The last of places that rise.
fn last_rising(places: &[u32]) -> Option<u32>
    requires { rise places.now ≡ true }
    ensures some { IfSome result (λ place. IsLast place (is_one_of places.now)) }
    ensures none { IfNone result ((one : ℕ) → is_one_of places.now one ≡ false) }
{
    Some(*places.last()?)
}

// The last place of a set.
fn last_other(others: &BTreeSet<u32>) -> Option<u32>
    ensures some { IfSome result (λ place. IsLast place (contains nat_cmp others.now)) }
    ensures none { IfNone result ((one : ℕ) → contains nat_cmp others.now one ≡ false) }
{
    Some(*others.last()?)
}

impl<'p> Wanted<'p> {
    ghost use Rattle.mk_decision.specs.Sights.{IsTaken};
    ghost use Rattle.mk_decision.specs.Wants.{has};

    /// No nodes. Takes no memory.
    pub fn none(alloc: Global) -> Wanted<'p>
        ensures { (one : ℕ) → has result one ≡ false }
    {
        Wanted {
            rising: &[],
            others: BTreeSet::new(alloc),
        }
    }

    /// The nodes at places that rise. Takes no memory.
    pub fn of_rising(alloc: Global, rising: &'p [u32]) -> Wanted<'p>
        requires { rise rising.now ≡ true }
        ensures { (one : ℕ) → has result one ≡ is_one_of rising.now one }
    {
        Wanted {
            rising,
            others: BTreeSet::new(alloc),
        }
    }

    /// Adds a node.
    pub fn add(&mut self, place: u32) -> Result<(), NoMemory>
        ensures { OnOk result ((one : ℕ) → has self.new one ≡ (has self.old one || place == one)) }
    {
        self.others.insert(place)?;
        Ok(())
    }

    // The last of them.
    fn last(&self) -> Option<u32>
        ensures some { IfSome result (λ place. IsLast place (has self.now)) }
        ensures none { IfNone result ((one : ℕ) → has self.now one ≡ false) }
    {
        match (last_rising(self.rising), last_other(&self.others)) {
            (None, other) => other,
            (rising, None) => rising,
            (Some(rising), Some(other)) => Some(rising.max(other)),
        }
    }

    /// Takes the last of them.
    pub fn take_last(&mut self) -> Option<u32>
        ensures taken { IfSome result (λ place. IsTaken place (has self.old) (has self.new)) }
        ensures none { IfNone result ((one : ℕ) → has self.old one ≡ false) }
    {
        let last = self.last()?;
        self.rising = without_last(self.rising, last);
        self.others.remove(&last);
        Some(last)
    }
}
