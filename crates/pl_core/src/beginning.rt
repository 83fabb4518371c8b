ghost use Rattle.std.specs.Prelude.{◌≡◌, IfOk, OnErr, true};
ghost use Rattle.pl_course.specs.Course.{known_now, with_event};
ghost use Rattle.pl_events.specs.declared.event.What.TheVariants as what;
ghost use Rattle.pl_model.specs.Due.{is_due_on};
ghost use Rattle.pl_model.specs.Tickets.{next_ticket};

use crate::held::Core;
use crate::laws::model_laws;
use pl_events::{Event, Op, What};
use pl_value::OutOfMemory;

impl Core {
    /// Begins an operation that is due on a lane, and gives its ticket; after `OutOfMemory` nothing has changed. It takes
    /// the memory that the operation's loss wants, too.
    pub fn begin(&mut self, seat: u64, op: Op, lane: u64) -> Result<u64, OutOfMemory>
        requires { is_due_on (known_now self.old) op lane ≡ true }
        ensures number { IfOk result (λ ticket. ticket ≡ next_ticket self.old.history) }
        ensures begun { IfOk result (λ ticket. self.new ≡ with_event seat (what.Begun ticket lane op) self.old) }
        ensures unchanged { OnErr result (self.new ≡ self.old) }
    {
        model_laws();
        self.columns.errands.prepare()?;
        self.history.reserve(2)?;
        let ticket = self.columns.errands.begin_prepared(seat, lane, op);
        self.history.push_reserved(Event {
            seat,
            what: What::Begun { ticket, lane, op },
        });
        Ok(ticket)
    }
}
