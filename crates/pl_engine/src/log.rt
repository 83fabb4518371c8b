ghost use Rattle.std.specs.Prelude.{◌≡◌, [], ◌∷◌, false, IfOk, length, reverse, OnErr, OnOk};
ghost use Rattle.pl_engine.specs.Closing.{end_event, stop_event};
ghost use Rattle.pl_events.specs.Closing.{has_host_end, has_stop};

use pl_events::{Event, History, HostEnd, Stop, What};
use pl_value::OutOfMemory;
use std::alloc::Global;
use std::marker::Model;

/// The seat of the thread that reads the host's messages.
pub const REGISTRAR: u64 = 0;

/// The history of a run, seen as the list of its events with the newest first.
///
/// Room for the host's end and for one stop is reserved at the beginning and kept for them, so these two are
/// written down without memory.
#[derive(Debug, Drop)]
pub struct Log {
    history: History,
}

impl Model for Log {
    ghost use Rattle.std.specs.Prelude.{List, ◌≤◌};
    ghost use Rattle.std.specs.Coded.{codes, coded_list};
    ghost use Rattle.pl_events.specs.declared.event.Event.{Event};
    ghost use Rattle.pl_events.specs.contracts.event.Event as row;
    ghost use Rattle.pl_engine.specs.Closing.{closings_left};

    ghost Value = { List Event };

    ghost coded = { coded_list (Prim.hlevel (codes, row.the_row.coded)) };

    ghost view = { λ a. a.history.events };

    ghost invariant = { λ a. closings_left a.history.events ≤ a.history.room };
}

impl Log {
    /// No event yet.
    pub fn new(alloc: Global) -> Result<Log, OutOfMemory>
        ensures { IfOk result (λ made. made ≡ []) }
    {
        let mut history = History::new(alloc);
        history.reserve(2)?;
        Ok(Log { history })
    }

    /// The number of events.
    pub fn len(&self) -> usize
        ensures { result ≡ length self.now }
    {
        self.history.len()
    }

    /// Appends an event; after `OutOfMemory` nothing was appended.
    pub fn push(&mut self, event: Event) -> Result<(), OutOfMemory>
        ensures appended { OnOk result (self.new ≡ event ∷ self.old) }
        ensures unchanged { OnErr result (self.new ≡ self.old) }
    {
        self.history.push(event).map_err(|refused| refused.1)
    }

    /// Appends the host's end; takes no memory.
    pub fn end_host(&mut self, end: HostEnd)
        requires { has_host_end self.old ≡ false }
        ensures { self.new ≡ end_event end ∷ self.old }
    {
        self.history.push_reserved(Event {
            seat: REGISTRAR,
            what: What::HostGone(end),
        });
    }

    /// Appends a stop; takes no memory.
    pub fn stop(&mut self, stop: Stop)
        requires { has_stop self.old ≡ false }
        ensures { self.new ≡ stop_event stop ∷ self.old }
    {
        self.history.push_reserved(Event {
            seat: REGISTRAR,
            what: What::Stopped(stop),
        });
    }

    /// Gives the events back, the oldest first; takes no memory.
    pub fn into_events(self) -> Vec<Event>
        ensures { reverse result.items ≡ self }
    {
        let Log { history } = self;
        history.into_events()
    }
}
