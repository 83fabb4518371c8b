ghost use Rattle.std.specs.Prelude.{◌≡◌, [], ◌∷◌, ◌+◌, ◌-◌, ◌<◌, IfErr, IfOk, length, reverse, OnErr, OnOk};

use crate::event::Event;
use pl_value::OutOfMemory;
use std::alloc::Global;
use std::marker::Model;

/// The events of a run, and the room that was reserved for more. The newest event is seen first, so that a
/// prefix of the history is a tail of the list.
#[derive(Debug, Drop)]
pub struct History {
    events: Vec<Event>,
    /// How many events can be appended without memory.
    room: usize,
}

impl Model for History {
    ghost use Rattle.std.specs.Prelude.{◌+◌, ◌≤◌, reverse, length, vec_capacity};
    ghost use Rattle.std.specs.Coded.{codes};
    ghost use Rattle.pl_events.specs.contracts.event.Event as row;
    ghost use Rattle.pl_events.specs.Seen.{Seen};

    ghost Value = { Seen };

    ghost coded = { Prim.hlevel (codes, row.the_row.coded) };

    ghost view = { λ a. record { events = reverse a.events.items; room = a.room } };

    ghost invariant = { λ a. length a.events.items + a.room ≤ vec_capacity a.events };
}

impl History {
    /// Takes no memory.
    pub fn new(alloc: Global) -> History
        ensures { result ≡ record { events = []; room = 0 } }
    {
        History {
            events: Vec::new(alloc),
            room: 0,
        }
    }

    /// The number of events.
    pub fn len(&self) -> usize
        ensures { result ≡ length self.now.events }
    {
        self.events.len()
    }

    /// The number of events that can be appended without memory.
    pub fn room(&self) -> usize
        ensures { result ≡ self.now.room }
    {
        self.room
    }

    /// Makes room for `more` further events. Room that a `usize` cannot count is `OutOfMemory` too.
    pub fn reserve(&mut self, more: usize) -> Result<(), OutOfMemory>
        ensures reserved { OnOk result (self.new ≡ record self.old { room = self.old.room + more }) }
        ensures unchanged { OnErr result (self.new ≡ self.old) }
    {
        let Some(room) = self.room.checked_add(more) else {
            return Err(OutOfMemory);
        };
        self.events.reserve(room)?;
        self.room = room;
        Ok(())
    }

    /// Appends an event and leaves the room as it was; after `OutOfMemory` nothing was appended and the event
    /// is handed back.
    pub fn push(&mut self, event: Event) -> Result<(), (Event, OutOfMemory)>
        ensures appended { OnOk result (self.new ≡ record self.old { events = event ∷ self.old.events }) }
        ensures unchanged { OnErr result (self.new ≡ self.old) }
        ensures back { IfErr result (λ refused. refused.0 ≡ event) }
    {
        if self.reserve(1).is_err() {
            return Err((event, OutOfMemory));
        }
        self.push_reserved(event);
        Ok(())
    }

    /// Appends an event where room was reserved; takes no memory.
    pub fn push_reserved(&mut self, event: Event)
        requires { 0 < self.old.room }
        ensures { self.new ≡ record { events = event ∷ self.old.events; room = self.old.room - 1 } }
    {
        self.events.push_reserved(event);
        self.room -= 1;
    }

    /// Copies the events and reserves the same room.
    pub fn copy(&self, alloc: Global) -> Result<History, OutOfMemory>
        ensures { IfOk result (λ made. made ≡ self.now) }
    {
        let mut copied = Vec::new(alloc);
        for event in &self.events {
            copied.push(event.copy(alloc)?)?;
        }
        copied.reserve(self.room)?;
        Ok(History {
            events: copied,
            room: self.room,
        })
    }

    /// Gives the events back, the oldest first; takes no memory.
    pub fn into_events(self) -> Vec<Event>
        ensures { reverse result.items ≡ self.events }
    {
        let History { events, room: _ } = self;
        events
    }
}
