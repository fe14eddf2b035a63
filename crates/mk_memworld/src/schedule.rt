//! Which child goes on at each call, and which one is taken in.
ghost use Rattle.std.specs.Prelude.{◌≡◌, ◌==◌, [], position, OnOk, OnErr};

use mk_bytes::{Items, NoMemory};
use std::alloc::Global;
use std::marker::Model;

/// The numbers of a schedule.
pub type Turns = Items<u32>;

/// A schedule, and the children that have come to their end, by their tickets, in the order of
/// coming to it. Contracts see what is left of the numbers, and these tickets.
#[derive(Drop)]
pub struct Schedule {
    numbers: Turns,
    taken: usize,
    ended: Vec<u32>,
}

impl Model for Schedule {
    ghost use Rattle.std.specs.Prelude.{drop};
    ghost use Rattle.mk_memworld.specs.Schedule.{Course};

    ghost Value = { Course };

    ghost view = { λ schedule. record {
      numbers = drop schedule.taken schedule.numbers;
      ended = schedule.ended.items;
    } };
}

impl Schedule {
    ghost use Rattle.mk_memworld.specs.Schedule.{chosen, first_number, taken_in, with_ended};
    ghost use Rattle.mk_memworld.specs.Schedule.{with_number_taken};

    /// No number was taken yet, and no child runs.
    pub fn new(alloc: Global, numbers: Turns) -> Schedule
        ensures { result ≡ record { numbers = numbers; ended = [] } }
    {
        Schedule {
            numbers,
            taken: 0,
            ended: Vec::new(alloc),
        }
    }

    // The next number, 0 at the end.
    fn number(&self) -> u32
        ensures { result ≡ first_number self.now.numbers }
    {
        if self.taken < self.numbers.len() {
            *self.numbers.get(self.taken)
        } else {
            0
        }
    }

    /// Takes the next number, 0 at the end.
    pub fn take(&mut self) -> u32
        ensures number { result ≡ first_number self.old.numbers }
        ensures taken { self.new ≡ with_number_taken self.old }
    {
        let number = self.number();
        if self.taken < self.numbers.len() {
            self.taken += 1;
        }
        number
    }

    /// The children that have come to their end, in the order of coming to it.
    pub fn ended(&self) -> &[u32]
        ensures { result.now ≡ self.now.ended }
    {
        self.ended.as_slice()
    }

    /// A child has come to its end, where one has.
    pub fn note(&mut self, ended: Option<u32>) -> Result<(), NoMemory>
        ensures ok { OnOk result
            (self.new ≡ record self.old { ended = with_ended self.old.ended ended }) }
        ensures err { OnErr result (self.new ≡ self.old) }
    {
        if let Some(ticket) = ended {
            self.ended.push(ticket)?;
        }
        Ok(())
    }

    /// The child that the next number chooses among those that have come to their end and this one
    /// behind them, where there is one, counted from 0 and round; `None` where there is none at
    /// all. The number is not taken.
    pub fn chosen(&self, ended: Option<u32>) -> Option<u32>
        ensures { result ≡ chosen (first_number self.now.numbers)
            (with_ended self.now.ended ended) }
    {
        let count = self.ended.len();
        match ended {
            None => {
                if count == 0 {
                    return None;
                }
                Some(self.ended[self.number() as usize % count])
            }
            Some(ticket) => {
                let place = self.number() as usize % (count + 1);
                if place == count {
                    return Some(ticket);
                }
                Some(self.ended[place])
            }
        }
    }

    /// No child runs any more.
    pub fn forget(&mut self)
        ensures { self.new ≡ record self.old { ended = [] } }
    {
        self.ended.clear();
    }

    /// A child is taken in, for which a number is taken.
    pub fn take_in(&mut self, ticket: u32)
        ensures { self.new ≡ taken_in self.old ticket }
    {
        self.take();
        match place_of(self.ended.as_slice(), ticket) {
            None => {}
            Some(place) => {
                self.ended.remove(place);
            }
        }
    }
}

// Where a ticket stands first.
fn place_of(tickets: &[u32], ticket: u32) -> Option<usize>
    ensures { result ≡ position (λ one. one == ticket) tickets.now }
{
    tickets.iter().position(|one| *one == ticket)
}
