ghost use Rattle.std.specs.Prelude.{◌≡◌, true};
ghost use Rattle.pl_columns.specs.Read.{history_by};
ghost use Rattle.pl_course.specs.Course.{known_now, with_event};
ghost use Rattle.pl_errands.specs.Tickets.{with_loss as with_lost};
ghost use Rattle.pl_events.specs.declared.event.What.TheVariants as what;
ghost use Rattle.pl_model.specs.Legal.{MayHappen};
ghost use Rattle.pl_model.specs.Tickets.{errand_at, is_open};
ghost use Rattle.pl_troubles.specs.Follows.{with_loss};

use crate::held::Core;
use crate::laws::model_laws;
use pl_columns::Columns;
use pl_events::{Event, Loss, Stop, What};
use pl_model::Errand;
use pl_troubles::Troubles;

/// The loss of an operation, if there is one.
fn add_loss(troubles: &mut Troubles, at: u64, lost: Option<Errand>, why: &Loss)
    ensures { troubles.new ≡ with_loss at lost why.now troubles.old }
{
    if let Some(errand) = lost {
        troubles.add_loss(at, errand.lane, why);
    }
}

/// No reply to an open ticket will come.
fn lose_ticket(columns: &mut Columns, at: u64, ticket: u64, why: &Loss)
    requires { is_open (history_by columns.old) ticket ≡ true }
    ensures { columns.new ≡ record columns.old {
      errands = record columns.old.errands { tickets = with_lost ticket columns.old.errands.tickets };
      troubles = with_loss at (errand_at (history_by columns.old) ticket) why.now columns.old.troubles;
    } }
{
    let lost = columns.errand(ticket);
    columns.errands.lose(ticket);
    add_loss(&mut columns.troubles, at, lost, why);
}

/// The calls that take no memory: they always succeed.
impl Core {
    /// No reply to an open ticket of this seat will come.
    pub fn lose(&mut self, seat: u64, ticket: u64, why: Loss)
        requires { MayHappen (known_now self.old) seat (what.Lost ticket why) }
        ensures { self.new ≡ with_event seat (what.Lost ticket why) self.old }
    {
        model_laws();
        let at = self.history.len() as u64;
        lose_ticket(&mut self.columns, at, ticket, &why);
        self.history.push_reserved(Event {
            seat,
            what: What::Lost { ticket, why },
        });
    }

    /// A row of the state at the start is taken out without an operation.
    pub fn drop_entry(&mut self, seat: u64, row: u64)
        requires { MayHappen (known_now self.old) seat (what.Dropped row) }
        ensures { self.new ≡ with_event seat (what.Dropped row) self.old }
    {
        model_laws();
        self.columns.records.remove(row);
        self.history.push_reserved(Event {
            seat,
            what: What::Dropped { row },
        });
    }

    /// A pending operation of the state at the start is let go.
    pub fn clear(&mut self, seat: u64, at: u64)
        requires { MayHappen (known_now self.old) seat (what.Cleared at) }
        ensures { self.new ≡ with_event seat (what.Cleared at) self.old }
    {
        model_laws();
        self.columns.records.clear(at);
        self.history.push_reserved(Event {
            seat,
            what: What::Cleared { at },
        });
    }

    /// The run stops taking up work.
    pub fn stop(&mut self, seat: u64, why: Stop)
        requires { MayHappen (known_now self.old) seat (what.Stopped why) }
        ensures { self.new ≡ with_event seat (what.Stopped why) self.old }
    {
        model_laws();
        let at = self.history.len() as u64;
        self.columns.records.stop();
        self.columns.troubles.add_stop(at, why);
        self.history.push_reserved(Event {
            seat,
            what: What::Stopped(why),
        });
    }
}
