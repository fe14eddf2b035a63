//! The running children, as make holds them.
ghost use Rattle.std.specs.Prelude.{◌≡◌, ◌<◌, [], ◌∷◌, ◌++◌, length, slice_index, slice_get, Some};
ghost use Rattle.std.specs.Prelude.{remove, false, nat_eq, ◌↔◌, IsTrue, IfOk};
ghost use Rattle.std.specs.List.{list_any};

use crate::time::Ticket;
use mk_bytes::NoMemory;
use std::alloc::Global;
use std::marker::Model;

/// The children that were started and not taken in. It must be spent: `finish` is its only end, and
/// asks that no child is left. Contracts see the tickets and the children in the order of start,
/// and the room.
pub struct Kids<K> {
    tickets: Vec<u32>,
    kids: Vec<K>,
    room: usize,
}

impl<K> Model for Kids<K> {
    ghost use Rattle.std.specs.Prelude.{◌≡◌, ◌≤◌, vec_len, vec_capacity};
    ghost use Rattle.mk_world.specs.Held.{Held};

    ghost Value = { Held K };

    ghost view = { λ kids. record { tickets = kids.tickets.items; kids = kids.kids.items; room = kids.room } };

    ghost invariant = { λ kids. (vec_len kids.kids ≡ vec_len kids.tickets) × (kids.room ≤ vec_capacity kids.kids) × (kids.room ≤ vec_capacity kids.tickets) };
}

impl<K> Kids<K> {
    ghost use Rattle.std.specs.Borrow.{sem};
    ghost use Rattle.mk_world.specs.KidsLent.{LendsKid};

    /// No children, with room for so many.
    pub fn new(alloc: Global, room: usize) -> Result<Self, NoMemory>
        ensures { IfOk result (λ kids. kids ≡ record { tickets = []; kids = []; room = room }) }
    {
        let tickets = Vec::with_capacity(alloc, room)?;
        match Vec::with_capacity(alloc, room) {
            Ok(kids) => Ok(Kids {
                tickets,
                kids,
                room,
            }),
            Err(_) => Err(NoMemory),
        }
    }

    /// How many children there are. Takes no memory.
    pub fn len(&self) -> usize
        ensures { result ≡ length self.now.tickets }
    {
        self.tickets.len()
    }

    /// Whether there is none.
    pub fn is_empty(&self) -> bool
        ensures { IsTrue result ↔ (self.now.tickets ≡ []) }
    {
        self.tickets.is_empty()
    }

    /// For how many there is room. Takes no memory.
    pub fn room(&self) -> usize
        ensures { result ≡ self.now.room }
    {
        self.room
    }

    /// The ticket at a place.
    pub fn ticket(&self, i: usize) -> Ticket
        requires { i < length self.now.tickets }
        ensures { result.0 ≡ slice_index self.now.tickets i }
    {
        Ticket(self.tickets[i])
    }

    /// Adds a child at the end, in room that there is. Takes no memory.
    pub fn add(&mut self, ticket: Ticket, kid: K)
        requires room { length self.old.tickets < self.old.room }
        requires fresh { list_any (nat_eq ticket.0) self.old.tickets ≡ false }
        ensures tickets { self.new.tickets ≡ self.old.tickets ++ ticket.0 ∷ [] }
        ensures kids { self.new.kids ≡ self.old.kids ++ kid ∷ [] }
        ensures room { self.new.room ≡ self.old.room }
    {
        self.tickets.push(ticket.0).unwrap();
        self.kids.push(kid).unwrap();
    }

    /// The child at a place, to be changed. The others, the tickets and the room stay.
    pub fn kid(&mut self, i: usize) -> &mut K
        requires { i < length self.old.tickets }
        ensures* writes_back { sem 𝓛 (LendsKid K.row self.entry i result) }
        ensures value { Some result.now ≡ slice_get self.old.kids i }
    {
        &mut self.kids[i]
    }

    /// Takes out the child at a place; the others close up. Takes no memory.
    pub fn take(&mut self, i: usize) -> (Ticket, K)
        requires { i < length self.old.tickets }
        ensures ticket { result.0.0 ≡ slice_index self.old.tickets i }
        ensures kid { Some result.1 ≡ slice_get self.old.kids i }
        ensures tickets { self.new.tickets ≡ remove self.old.tickets i }
        ensures kids { self.new.kids ≡ remove self.old.kids i }
        ensures room { self.new.room ≡ self.old.room }
    {
        let ticket = Ticket(self.tickets.remove(i));
        let kid = self.kids.remove(i);
        (ticket, kid)
    }

    /// Gives it up, where no child is left: the only way to do so. Takes no memory.
    pub fn finish(self)
        requires { self.tickets ≡ [] }
    {
        let Kids {
            tickets: _,
            kids,
            room: _,
        } = self;
        kids.destroy_empty();
    }
}
