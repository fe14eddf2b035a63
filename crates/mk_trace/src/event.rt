ghost use Rattle.std.specs.Prelude.{◌≡◌, ◌+◌, ◌≤◌, ◌<◌, [], ◌∷◌, ◌++◌, OnOk, OnErr, vec_capacity};
ghost use Rattle.std.specs.Prelude.{vec_len};

use mk_bytes::NoMemory;
use std::alloc::Global;
use std::marker::Model;

/// What a build did with a node, which is named by its place in the plan, and with its lines,
/// which are counted from 1.
#[derive(Clone, Copy, PartialEq, Eq)]
pub enum Event {
    /// The node was up to date.
    Kept(u32),
    /// This line of the node could not be expanded.
    Refused(u32, u32),
    /// This line of the node was shown by a dry run.
    Shown(u32, u32),
    /// This line of the node was started.
    Start(u32, u32),
    /// This line of the node ended with this status.
    End(u32, u32, u8),
    /// Make waited for a child.
    Wait,
}

/// Adds an event at the end of a report that is being written.
pub fn tell(events: &mut Vec<Event>, event: Event) -> Result<(), NoMemory>
    ensures ok { OnOk result (events.new.items ≡ events.old.items ++ event ∷ []) }
    ensures err { OnErr result (events.new.items ≡ events.old.items) }
{
    events.push(event)?;
    Ok(())
}

/// Adds an event at the end of a report that has room for it. Takes no memory.
pub fn put(events: &mut Vec<Event>, event: Event)
    requires { vec_len events.old < vec_capacity events.old }
    ensures told { events.new.items ≡ events.old.items ++ event ∷ [] }
    ensures len { vec_len events.new ≡ vec_len events.old + 1 }
    ensures capacity { vec_capacity events.old ≤ vec_capacity events.new }
{
    events.push(event).unwrap();
}

/// What a build did, in order. Contracts see the list of events.
#[derive(Drop)]
pub struct Events {
    events: Vec<Event>,
}

impl Model for Events {
    ghost use Rattle.std.specs.Prelude.{List};
    ghost use Rattle.mk_trace.specs.declared.event.Event.{Event};

    ghost Value = { List Event };

    ghost view = { λ events. events.events.items };
}

impl Events {
    /// No events. Takes no memory.
    pub fn new(alloc: Global) -> Events
        ensures { result ≡ [] }
    {
        Events {
            events: Vec::new(alloc),
        }
    }

    /// These events. Takes no memory.
    pub fn of(events: Vec<Event>) -> Events
        ensures { result ≡ events.items }
    {
        Events { events }
    }

    /// All events in order. Takes no memory.
    pub fn as_slice(&self) -> &[Event]
        ensures { result.now ≡ self.now }
    {
        self.events.as_slice()
    }

    /// Adds an event at the end.
    pub fn push(&mut self, event: Event) -> Result<(), NoMemory>
        ensures ok { OnOk result (self.new ≡ self.old ++ event ∷ []) }
        ensures err { OnErr result (self.new ≡ self.old) }
    {
        self.events.push(event)?;
        Ok(())
    }
}
