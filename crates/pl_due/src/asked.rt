ghost use Rattle.std.specs.Prelude.{◌≡◌};
ghost use Rattle.pl_lemmas.specs.Words.{some_passes};
ghost use Rattle.pl_model.specs.Due as spec;
ghost use Rattle.pl_model.specs.Known.{asked_at};
ghost use Rattle.pl_model.specs.Problems as problems;
ghost use Rattle.pl_model.specs.Rows.{row_at};
ghost use Rattle.pl_due.specs.Seen.{known_in};

use crate::seen::Seen;
use pl_events::{Op, Subject};
use pl_lanes::{is_refresh, is_to_read};
use pl_ready::{is_delete_ready, is_imported, is_invoke, is_send_ready};

impl Seen<'_> {
    fn on_goal(&self, op: Op, about: Subject) -> bool
        ensures { result ≡ spec.on_goal (known_in self.now) op about }
    {
        match about {
            Subject::Goal(number) => is_send_ready(self.columns, number, op),
            _ => false,
        }
    }

    fn is_delete_asked(&self, about: Subject) -> bool
        ensures { result ≡ spec.on_row (known_in self.now) (spec.is_delete_ready (known_in self.now)) about }
    {
        match about {
            Subject::Row(row) => is_delete_ready(self.columns, self.over, row),
            _ => false,
        }
    }

    fn is_row_to_read(&self, row: u64) -> bool
        ensures { result ≡ some_passes problems.is_to_read (row_at (known_in self.now) row) }
    {
        match self.columns.row(row) {
            None => false,
            Some(entry) => is_to_read(entry),
        }
    }

    /// Whether something is to be read: a goal's thing, a row, or what a pending creation made.
    fn is_read_ready(&self, op: Op, about: Subject) -> bool
        ensures { result ≡ spec.is_read_ready (known_in self.now) op about }
    {
        let mode = &self.columns.run().mode;
        match about {
            Subject::Goal(number) => is_send_ready(self.columns, number, op),
            Subject::Row(row) => is_refresh(mode) && self.is_row_to_read(row),
            Subject::Pending(at) => is_refresh(mode) && is_imported(self.columns, at),
        }
    }

    fn is_invoke_asked(&self, n: u64) -> bool
        ensures { result ≡ some_passes (λ asked. spec.is_invoke (known_in self.now) asked.request asked.about) (asked_at (known_in self.now) n) }
    {
        match self.columns.asked(n) {
            None => false,
            Some(asked) => is_invoke(self.columns, &asked.request, asked.about),
        }
    }

    /// Whether an operation other than a lane's configuration is to be done, wherever a lane is.
    pub fn is_asked(&self, op: Op) -> bool
        ensures { result ≡ spec.is_asked (known_in self.now) op }
    {
        match op {
            Op::CheckConfig(about) => self.is_config_asked(about),
            Op::Configure(_) => false,
            Op::Check(about) => self.is_check_asked(about),
            Op::Diff(about) => self.is_diff_asked(about),
            Op::Create(about) => self.on_goal(op, about),
            Op::Update(about) => self.on_goal(op, about),
            Op::Delete(about) => self.is_delete_asked(about),
            Op::Read(about) => self.is_read_ready(op, about),
            Op::Invoke(n) => self.is_invoke_asked(n),
        }
    }

    /// The same, and it was not begun.
    pub fn is_wanted_op(&self, op: Op) -> bool
        ensures { result ≡ spec.is_wanted_op (known_in self.now) op }
    {
        !self.columns.was_begun(op) && self.is_asked(op)
    }
}
