ghost use Rattle.std.specs.Prelude.{◌≡◌, length};
ghost use Rattle.std.specs.Option.{option_copied};
ghost use Rattle.pl_columns.specs.Read.{history_by, known_by};
ghost use Rattle.pl_lemmas.specs.Words.{has_number};
ghost use Rattle.pl_model.specs.Known as spec;
ghost use Rattle.pl_model.specs.Recording.{cleared_of};
ghost use Rattle.pl_model.specs.Rows as rows;
ghost use Rattle.pl_model.specs.Run.{has_host as has, rows_of};

use crate::columns::Columns;
use pl_model::{Fixed, Mode};
use pl_state::Entry;

/// Whether a host registers goals in the run.
fn has_host(mode: &Mode) -> bool
    ensures { result ≡ has mode.now }
{
    matches!(mode, Mode::Up | Mode::Preview)
}

impl Columns {
    /// What the run is over.
    pub fn run(&self) -> &Fixed
        ensures { result.now ≡ self.now.claims.run }
    {
        self.claims.run()
    }

    /// The number of rows of the state at the start.
    pub fn row_count(&self) -> u64
        ensures { result ≡ length (rows_of self.now.claims.run) }
    {
        self.claims.base().len()
    }

    /// A row of the state at the start.
    pub fn row(&self, row: u64) -> Option<&Entry>
        ensures { option_copied result ≡ rows.row_at (known_by self.now) row }
    {
        self.claims.row(row)
    }

    /// Whether a row was deleted or dropped.
    pub fn was_removed(&self, row: u64) -> bool
        ensures { result ≡ rows.was_removed (known_by self.now) row }
    {
        self.records.was_removed(row)
    }

    /// Whether a pending operation of the state at the start was cleared.
    pub fn was_cleared(&self, at: u64) -> bool
        ensures { result ≡ has_number (cleared_of (history_by self.now)) at }
    {
        self.records.was_cleared(at)
    }

    /// Whether a row is the claim of a goal that is deleted first.
    pub fn is_deleted_first(&self, row: u64) -> bool
        ensures { result ≡ rows.is_deleted_first (known_by self.now) row }
    {
        self.claims.is_deleted_first(row)
    }

    /// Whether the host has ended; where a run has none, from the start.
    pub fn host_ended(&self) -> bool
        ensures { result ≡ spec.host_ended (known_by self.now) }
    {
        !has_host(&self.run().mode) || self.records.host_gone()
    }

    /// Whether the host has ended and every goal is recorded. Its time grows with the number of goals.
    pub fn is_over(&self) -> bool
        ensures { result ≡ spec.is_over (known_by self.now) }
    {
        self.host_ended() && self.all_recorded()
    }

    /// Whether every goal is recorded.
    fn all_recorded(&self) -> bool
        ensures { result ≡ spec.all_recorded (known_by self.now) }
    {
        (0..self.requests.len()).all(|goal| self.is_recorded(goal))
    }
}
