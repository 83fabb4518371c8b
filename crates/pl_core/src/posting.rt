ghost use Rattle.std.specs.Prelude.{◌≡◌, OnErr, OnOk};
ghost use Rattle.pl_course.specs.Course.{known_now, with_event};
ghost use Rattle.pl_events.specs.declared.event.What.TheVariants as what;
ghost use Rattle.pl_model.specs.Legal.{MayHappen};

use crate::held::Core;
use crate::laws::model_laws;
use pl_events::{Event, What};
use pl_value::OutOfMemory;

impl Core {
    /// A request is answered; after `OutOfMemory` nothing has changed.
    pub fn post(&mut self, seat: u64, n: u64) -> Result<(), OutOfMemory>
        requires { MayHappen (known_now self.old) seat (what.Posted n) }
        ensures posted { OnOk result (self.new ≡ with_event seat (what.Posted n) self.old) }
        ensures unchanged { OnErr result (self.new ≡ self.old) }
    {
        model_laws();
        self.columns.records.prepare()?;
        self.history.reserve(1)?;
        self.columns.records.post_prepared(n);
        self.history.push_reserved(Event {
            seat,
            what: What::Posted { n },
        });
        Ok(())
    }
}
