ghost use Rattle.std.specs.Prelude.{◌≡◌, find, is_some};
ghost use Rattle.pl_columns.specs.Read.{known_by};
ghost use Rattle.pl_events.specs.Lanes.{LanesTold};
ghost use Rattle.pl_model.specs.Due as due;
ghost use Rattle.pl_due.specs.Now as spec;
ghost use Rattle.pl_due.specs.Seen.{known_in};

use crate::seen::Seen;
use pl_columns::Columns;
use pl_events::{Op, Source, Subject};
use pl_lanes::{checked_there, is_source};

fn is_checked_there(columns: &Columns, provider: Source) -> bool
    ensures { result ≡ is_some (spec.checked_there (known_by columns.now) provider) }
{
    checked_there(columns, provider).is_some()
}

fn row_config(wanting: Option<Source>) -> Option<Op>
    ensures { result ≡ spec.row_config wanting }
{
    match wanting {
        Some(Source::Row(row)) => Some(Op::Configure(Source::Row(row))),
        _ => None,
    }
}

impl Seen<'_> {
    /// Whether the provider that a goal is is to be checked or configured; `wanting` is the first that wants a lane.
    fn configures_now(&self, wanting: Option<Source>, number: u64) -> bool
        ensures { result ≡ spec.configures_now self.now wanting number }
    {
        self.is_wanted_op(Op::CheckConfig(Subject::Goal(number)))
            || (is_checked_there(self.columns, Source::Goal(number))
                || is_source(wanting, Source::Goal(number)))
    }

    fn config_op(&self, number: u64) -> Op
        ensures { result ≡ spec.config_op self.now number }
    {
        let check = Op::CheckConfig(Subject::Goal(number));
        if self.is_wanted_op(check) {
            check
        } else {
            Op::Configure(Source::Goal(number))
        }
    }

    fn first_config(&self, wanting: Option<Source>) -> Option<u64>
        ensures { result ≡ find (spec.configures_now self.now wanting) (due.goal_numbers (known_in self.now)) }
    {
        let count = self.columns.requests.len();
        for number in 0..count {
            if self.configures_now(wanting, number) {
                return Some(number);
            }
        }
        None
    }

    /// The first check or configuration of a provider that is to be sent, where no problem stands.
    pub fn first_configure(&self) -> Option<Op>
        ensures { (table : LanesTold) → result ≡ find (spec.sends_now self.now table) (due.configures_of (known_in self.now)) }
    {
        let wanting = self.wanting();
        match self.first_config(wanting) {
            Some(number) => Some(self.config_op(number)),
            None => row_config(wanting),
        }
    }
}
