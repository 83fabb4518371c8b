ghost use Rattle.std.specs.Prelude.{◌≡◌, ◌≤◌, false, is_some, length, OnErr, OnOk, IfOk, slice_get, true};
ghost use Rattle.std.specs.List.{list_any};
ghost use Rattle.std.specs.Option.{option_copied};
ghost use Rattle.pl_errands.specs.Tickets.{events_of, newest_reply, nothing_kept, with_answer, with_begun, with_loss, without_answer};
ghost use Rattle.pl_model.specs.Tickets as spec;

use crate::index::{Index, drop_reply, first_place, has_op, keep_begun, keep_reply};
use crate::lane::{
    Lane, add_to_lane, any_coming, any_configured, count_from, free_place, give_to_lane, lane_at,
    take_from_lane,
};
use crate::row::{
    Replied, Row, Standing, close, is_configured_by, reopen, replied_at, row_at, standing_of,
};
use pl_events::{Op, Reply, Source};
use pl_model::{Closed, Errand};
use pl_value::OutOfMemory;
use std::alloc::Global;
use std::collections::HashMap;
use std::marker::Model;

/// The operations of a run by their tickets, and the lanes that they were sent to.
#[derive(Debug, Drop)]
pub struct Errands {
    /// By ticket.
    rows: Vec<Row>,
    /// In the order in which they came.
    replies: Vec<Replied>,
    /// By operation.
    index: Index,
    lost: Vec<u64>,
    /// By number.
    lanes: Vec<Lane>,
    /// How many tickets are open.
    open_tickets: u64,
    ready: bool,
}

impl Model for Errands {
    ghost use Rattle.std.specs.Coded.{codes};
    ghost use Rattle.pl_errands.specs.Tickets.{Kept};
    ghost use Rattle.pl_model.specs.contracts.errand.Closed as row;

    ghost Value = { Kept };

    ghost coded = { Prim.hlevel (codes, row.the_row.coded) };

    ghost use Rattle.pl_errands.specs.Kept.{kept_by, IsKept};

    ghost view = { kept_by };

    ghost invariant = { IsKept };
}

impl Errands {
    /// No operation yet; takes no memory.
    pub fn new(alloc: Global) -> Errands
        ensures { result ≡ nothing_kept }
    {
        Errands {
            rows: Vec::new(alloc),
            replies: Vec::new(alloc),
            index: HashMap::new(alloc),
            lost: Vec::new(alloc),
            lanes: Vec::new(alloc),
            open_tickets: 0,
            ready: false,
        }
    }

    /// Takes the memory that one more operation wants up to its answer or its loss, of whatever lane it is.
    pub fn prepare(&mut self) -> Result<(), OutOfMemory>
        ensures ready { OnOk result (self.new ≡ record self.old { ready = true }) }
        ensures unchanged { OnErr result (self.new ≡ self.old) }
    {
        self.rows.reserve(1)?;
        let wanted = self.rows.len() + 1;
        self.replies.reserve(wanted - self.replies.len())?;
        self.lost.reserve(wanted - self.lost.len())?;
        self.lanes.reserve(1)?;
        self.index.reserve(1)?;
        self.ready = true;
        Ok(())
    }

    /// Begins an operation on a lane that there is or on the next one, and gives its ticket; takes no memory.
    pub fn begin_prepared(&mut self, seat: u64, lane: u64, op: Op) -> u64
        requires ready { self.old.ready ≡ true }
        requires lane { lane ≤ spec.lane_count (events_of self.old.tickets) }
        ensures number { result ≡ spec.next_ticket (events_of self.old.tickets) }
        ensures begun { self.new ≡ record { tickets = with_begun seat result lane op self.old.tickets; ready = false } }
    {
        let ticket = self.rows.len() as u64;
        let errand = Errand {
            ticket,
            seat,
            lane,
            op,
        };
        let standing = Standing::Open;
        self.rows.push(Row { errand, standing }).unwrap();
        add_to_lane(&mut self.lanes, lane, op);
        keep_begun(&mut self.index, op);
        self.open_tickets += 1;
        self.ready = false;
        ticket
    }

    /// Begins an operation on a lane that there is or on the next one, and gives its ticket.
    pub fn begin(&mut self, seat: u64, lane: u64, op: Op) -> Result<u64, OutOfMemory>
        requires { lane ≤ spec.lane_count (events_of self.old.tickets) }
        ensures number { IfOk result (λ ticket. ticket ≡ spec.next_ticket (events_of self.old.tickets)) }
        ensures begun { IfOk result (λ ticket.
            self.new ≡ record { tickets = with_begun seat ticket lane op self.old.tickets; ready = false }) }
        ensures unchanged { OnErr result (self.new ≡ self.old) }
    {
        self.prepare()?;
        Ok(self.begin_prepared(seat, lane, op))
    }

    /// The reply to an open ticket came; takes no memory.
    pub fn answer(&mut self, ticket: u64, reply: Reply)
        requires { spec.is_open (events_of self.old.tickets) ticket ≡ true }
        ensures { self.new ≡ record self.old { tickets = with_answer ticket reply self.old.tickets } }
    {
        let standing = standing_of(&reply);
        let errand = close(&mut self.rows, ticket, standing);
        take_from_lane(&mut self.lanes, errand.lane, standing);
        self.open_tickets -= 1;
        keep_reply(&mut self.index, errand.op, self.replies.len());
        let closed = Closed {
            op: errand.op,
            reply,
        };
        self.replies.push(Replied { ticket, closed }).unwrap();
    }

    /// Takes the newest answer back, if there is one, and gives its reply: its ticket is open again. Takes no memory.
    pub fn retract_answer(&mut self) -> Option<Reply>
        ensures reply { result ≡ newest_reply self.old.tickets }
        ensures retracted { self.new ≡ record self.old { tickets = without_answer self.old.tickets } }
    {
        let newest = self.replies.pop()?;
        let errand = reopen(&mut self.rows, newest.ticket);
        let configured = is_configured_by(self.rows.as_slice(), errand.lane);
        give_to_lane(&mut self.lanes, errand.lane, configured);
        drop_reply(&mut self.index, newest.closed.op, self.replies.len());
        self.open_tickets += 1;
        Some(newest.closed.reply)
    }

    /// No reply to an open ticket will come; takes no memory.
    pub fn lose(&mut self, ticket: u64)
        requires { spec.is_open (events_of self.old.tickets) ticket ≡ true }
        ensures { self.new ≡ record self.old { tickets = with_loss ticket self.old.tickets } }
    {
        let errand = close(&mut self.rows, ticket, Standing::Lost);
        take_from_lane(&mut self.lanes, errand.lane, Standing::Lost);
        self.open_tickets -= 1;
        self.lost.push(ticket).unwrap();
    }
}

impl Errands {
    /// The ticket of the next operation.
    pub fn next_ticket(&self) -> u64
        ensures { result ≡ spec.next_ticket (events_of self.now.tickets) }
    {
        self.rows.len() as u64
    }

    /// The operation of a ticket.
    pub fn errand(&self, ticket: u64) -> Option<Errand>
        ensures { result ≡ spec.errand_at (events_of self.now.tickets) ticket }
    {
        let row = row_at(self.rows.as_slice(), ticket)?;
        Some(row.errand)
    }

    /// Whether a ticket was begun, and neither answered nor lost.
    pub fn is_open(&self, ticket: u64) -> bool
        ensures { result ≡ spec.is_open (events_of self.now.tickets) ticket }
    {
        match row_at(self.rows.as_slice(), ticket) {
            None => false,
            Some(row) => row.is_open(),
        }
    }

    /// How many tickets are open.
    pub fn open_count(&self) -> u64
        ensures { result ≡ length (spec.open_errands (events_of self.now.tickets)) }
    {
        self.open_tickets
    }

    /// Whether a ticket is open.
    pub fn has_open(&self) -> bool
        ensures { result ≡ is_some (slice_get (spec.open_errands (events_of self.now.tickets)) 0) }
    {
        self.open_tickets > 0
    }

    /// Whether an operation was begun.
    pub fn was_begun(&self, op: Op) -> bool
        ensures { result ≡ spec.was_begun (events_of self.now.tickets) op }
    {
        has_op(&self.index, op)
    }

    /// The first reply that came to an operation.
    pub fn reply_to(&self, op: Op) -> Option<&Reply>
        ensures { option_copied result ≡ spec.reply_to self.now.tickets.answers op }
    {
        let place = first_place(&self.index, op)?;
        match replied_at(self.replies.as_slice(), place) {
            None => None,
            Some(one) => Some(&one.closed.reply),
        }
    }
}

impl Errands {
    /// The number of lanes.
    pub fn lane_count(&self) -> u64
        ensures { result ≡ spec.lane_count (events_of self.now.tickets) }
    {
        self.lanes.len() as u64
    }

    /// The provider that a lane was started for.
    pub fn lane_source(&self, lane: u64) -> Option<Source>
        ensures { result ≡ spec.lane_source (events_of self.now.tickets) lane }
    {
        let lane = lane_at(self.lanes.as_slice(), lane)?;
        lane.source
    }

    /// Whether a lane is configured.
    pub fn is_configured(&self, lane: u64) -> bool
        ensures { result ≡ spec.is_configured (events_of self.now.tickets) lane }
    {
        match lane_at(self.lanes.as_slice(), lane) {
            None => false,
            Some(lane) => lane.configured,
        }
    }

    /// Whether a ticket of a lane is open.
    pub fn is_out(&self, lane: u64) -> bool
        ensures { result ≡ spec.is_out (events_of self.now.tickets) lane }
    {
        match lane_at(self.lanes.as_slice(), lane) {
            None => false,
            Some(lane) => lane.is_out(),
        }
    }

    /// Whether a ticket of a lane was lost.
    pub fn is_lost(&self, lane: u64) -> bool
        ensures { result ≡ spec.is_lost (events_of self.now.tickets) lane }
    {
        match lane_at(self.lanes.as_slice(), lane) {
            None => false,
            Some(lane) => lane.lost,
        }
    }

    /// Whether work can be sent to a lane.
    pub fn is_free(&self, lane: u64) -> bool
        ensures { result ≡ spec.is_free (events_of self.now.tickets) lane }
    {
        match lane_at(self.lanes.as_slice(), lane) {
            None => false,
            Some(lane) => lane.is_free(),
        }
    }

    /// The least lane of a provider that work can be sent to.
    pub fn lane_free(&self, source: Source) -> Option<u64>
        ensures { result ≡ spec.lane_free (events_of self.now.tickets) source }
    {
        let place = free_place(self.lanes.as_slice(), source)?;
        Some(place as u64)
    }

    /// How many lanes a provider has, lost ones too.
    pub fn lanes_from(&self, source: Source) -> u64
        ensures { result ≡ length (spec.lanes_from (events_of self.now.tickets) source) }
    {
        count_from(self.lanes.as_slice(), source) as u64
    }

    /// Whether a lane of a provider is configured.
    pub fn was_configured(&self, source: Source) -> bool
        ensures { result ≡ spec.was_configured (events_of self.now.tickets) source }
    {
        any_configured(self.lanes.as_slice(), source)
    }

    /// Whether a lane of a provider is neither configured nor lost.
    pub fn has_coming(&self, source: Source) -> bool
        ensures { result ≡ list_any (spec.is_coming (events_of self.now.tickets))
            (spec.lanes_from (events_of self.now.tickets) source) }
    {
        any_coming(self.lanes.as_slice(), source)
    }
}
