ghost use Rattle.std.specs.Prelude.{◌≡◌, length};
ghost use Rattle.std.specs.List.{list_any};
ghost use Rattle.std.specs.Option.{option_copied};
ghost use Rattle.pl_columns.specs.Read.{history_by, known_by};
ghost use Rattle.pl_model.specs.Due.{has_open};
ghost use Rattle.pl_model.specs.Tickets as spec;

use crate::columns::Columns;
use pl_events::{Op, Reply, Source};
use pl_model::Errand;

impl Columns {
    /// The ticket of the next operation.
    pub fn next_ticket(&self) -> u64
        ensures { result ≡ spec.next_ticket (history_by self.now) }
    {
        self.errands.next_ticket()
    }

    /// The operation of a ticket.
    pub fn errand(&self, ticket: u64) -> Option<Errand>
        ensures { result ≡ spec.errand_at (history_by self.now) ticket }
    {
        self.errands.errand(ticket)
    }

    /// Whether a ticket was begun, and neither answered nor lost.
    pub fn is_open(&self, ticket: u64) -> bool
        ensures { result ≡ spec.is_open (history_by self.now) ticket }
    {
        self.errands.is_open(ticket)
    }

    /// Whether a ticket is open.
    pub fn has_open(&self) -> bool
        ensures { result ≡ has_open (known_by self.now) }
    {
        self.errands.has_open()
    }

    /// Whether an operation was begun.
    pub fn was_begun(&self, op: Op) -> bool
        ensures { result ≡ spec.was_begun (history_by self.now) op }
    {
        self.errands.was_begun(op)
    }

    /// The first reply that came to an operation.
    pub fn reply_to(&self, op: Op) -> Option<&Reply>
        ensures { option_copied result ≡ spec.reply_to (known_by self.now).answers op }
    {
        self.errands.reply_to(op)
    }
}

impl Columns {
    /// The number of lanes.
    pub fn lane_count(&self) -> u64
        ensures { result ≡ spec.lane_count (history_by self.now) }
    {
        self.errands.lane_count()
    }

    /// The provider that a lane was started for.
    pub fn lane_source(&self, lane: u64) -> Option<Source>
        ensures { result ≡ spec.lane_source (history_by self.now) lane }
    {
        self.errands.lane_source(lane)
    }

    /// Whether a ticket of a lane is open.
    pub fn is_out(&self, lane: u64) -> bool
        ensures { result ≡ spec.is_out (history_by self.now) lane }
    {
        self.errands.is_out(lane)
    }

    /// Whether a ticket of a lane was lost.
    pub fn is_lost(&self, lane: u64) -> bool
        ensures { result ≡ spec.is_lost (history_by self.now) lane }
    {
        self.errands.is_lost(lane)
    }

    /// Whether work can be sent to a lane.
    pub fn is_free(&self, lane: u64) -> bool
        ensures { result ≡ spec.is_free (history_by self.now) lane }
    {
        self.errands.is_free(lane)
    }

    /// The least lane of a provider that work can be sent to.
    pub fn lane_free(&self, source: Source) -> Option<u64>
        ensures { result ≡ spec.lane_free (history_by self.now) source }
    {
        self.errands.lane_free(source)
    }

    /// How many lanes a provider has, lost ones too.
    pub fn lanes_from(&self, source: Source) -> u64
        ensures { result ≡ length (spec.lanes_from (history_by self.now) source) }
    {
        self.errands.lanes_from(source)
    }

    /// Whether a lane of a provider is configured.
    pub fn was_configured(&self, source: Source) -> bool
        ensures { result ≡ spec.was_configured (history_by self.now) source }
    {
        self.errands.was_configured(source)
    }

    /// Whether a lane of a provider is neither configured nor lost.
    pub fn has_coming(&self, source: Source) -> bool
        ensures { result ≡ list_any (spec.is_coming (history_by self.now)) (spec.lanes_from (history_by self.now) source) }
    {
        self.errands.has_coming(source)
    }
}
