ghost use Rattle.std.specs.Prelude.{◌≡◌, List};
ghost use Rattle.pl_events.specs.declared.event.Event.{Event};
ghost use Rattle.pl_model.specs.Due as spec;
ghost use Rattle.pl_due.specs.Now.{passes_now};
ghost use Rattle.pl_due.specs.Seen.{Tells, known_after};

use crate::seen::Seen;
use pl_lanes::added_by;
use pl_model::Work;
use pl_state::MOST_RESOURCES;

impl Seen<'_> {
    /// Whether work would make the count greater than it may be.
    pub fn passes_limit(&self, work: Work) -> bool
        ensures now { result ≡ passes_now self.now work }
        ensures limit { (history : List Event) → Tells self.now history → result ≡ spec.passes_limit (known_after self.now history) work }
    {
        let added = added_by(self.columns, work);
        added != 0 && self.count > MOST_RESOURCES - added
    }
}
