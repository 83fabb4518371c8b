ghost use Rattle.std.specs.Prelude.{◌≡◌, ◌&&◌, not};
ghost use Rattle.std.specs.List.{list_any};
ghost use Rattle.pl_columns.specs.Read.{known_by};
ghost use Rattle.pl_decide.specs.Permits as permits;
ghost use Rattle.pl_lemmas.specs.Words.{some_passes};
ghost use Rattle.pl_model.specs.Known.{is_over};
ghost use Rattle.pl_model.specs.Rows as spec;
ghost use Rattle.pl_model.specs.Run as run;

use crate::left::{is_left, is_marked};
use pl_columns::Columns;
use pl_decide::{is_provided_row, is_wanted};
use pl_model::Mode;
use pl_state::Entry;

/// Whether a row of a chain goes along now: it is flagged, or no goal claims it.
fn goes_now(columns: &Columns, row: u64) -> bool
    ensures { result ≡ spec.goes_now (known_by columns.now) row }
{
    match columns.row(row) {
        None => false,
        Some(_) => is_marked(columns, row) || !columns.claims.is_claimed(row),
    }
}

/// Whether some goal that is deleted first takes the row along.
pub fn takes_along(columns: &Columns, row: u64) -> bool
    ensures { result ≡ list_any (spec.takes_along (known_by columns.now) row) (known_by columns.now).decided }
{
    columns.is_deleted_first(row) || (columns.claims.is_chained(row) && goes_now(columns, row))
}

/// Whether the run reads everything anew.
fn is_refresh(mode: &Mode) -> bool
    ensures { result ≡ run.is_refresh mode.now }
{
    matches!(mode, Mode::Refresh { .. })
}

/// Whether the run deletes everything.
fn is_destroy(mode: &Mode) -> bool
    ensures { result ≡ run.is_destroy mode.now }
{
    matches!(mode, Mode::Destroy)
}

/// In a run that deletes everything, whether the limits leave the row to be deleted.
fn is_target(columns: &Columns, row: u64) -> bool
    ensures { result ≡ spec.is_target (known_by columns.now) row }
{
    !is_destroy(&columns.run().mode) || is_wanted_row(columns, row)
}

fn is_wanted_row(columns: &Columns, row: u64) -> bool
    ensures { result ≡ some_passes (λ entry. permits.is_wanted columns.now.claims.run.limits entry.urn) (spec.row_at (known_by columns.now) row) }
{
    match columns.row(row) {
        None => false,
        Some(entry) => is_wanted(&columns.run().limits, &entry.urn),
    }
}

/// Whether a row that is left is to be deleted or dropped; `over` says whether the host has ended and every goal is
/// recorded.
pub fn is_doomed(columns: &Columns, over: bool, row: u64) -> bool
    requires { over ≡ is_over (known_by columns.now) }
    ensures { result ≡ spec.is_doomed (known_by columns.now) row }
{
    is_left(columns, row)
        && !is_refresh(&columns.run().mode)
        && is_target(columns, row)
        && (over || takes_along(columns, row))
}

/// Whether the thing of a row is one to be deleted by a provider.
fn is_deletable(row: &Entry) -> bool
    ensures { result ≡ spec.is_deletable row.now }
{
    is_provided_row(row) && !row.external && !row.retain_on_delete
}

fn is_deletable_at(columns: &Columns, row: u64) -> bool
    ensures { result ≡ some_passes spec.is_deletable (spec.row_at (known_by columns.now) row) }
{
    match columns.row(row) {
        None => false,
        Some(entry) => is_deletable(entry),
    }
}

/// Whether the thing of a row goes with that of another one, whose deletion takes it along.
fn goes_with(columns: &Columns, over: bool, row: u64) -> bool
    requires { over ≡ is_over (known_by columns.now) }
    ensures { result ≡ spec.goes_with (known_by columns.now) row }
{
    match columns.claims.base().deleter_row(row) {
        None => false,
        Some(other) => is_doomed(columns, over, other) && is_deletable_at(columns, other),
    }
}

/// Whether the deletion of a row is sent to a provider; else it is dropped. `over` is as for `is_doomed`.
pub fn is_sent(columns: &Columns, over: bool, row: u64) -> bool
    requires { over ≡ is_over (known_by columns.now) }
    ensures { result ≡ spec.is_sent (known_by columns.now) row }
{
    is_own_sent(columns, row) && !goes_with(columns, over, row)
}

fn is_own_sent(columns: &Columns, row: u64) -> bool
    ensures { result ≡ some_passes (λ entry. spec.is_deletable entry && not entry.pending_replacement) (spec.row_at (known_by columns.now) row) }
{
    match columns.row(row) {
        None => false,
        Some(entry) => is_deletable(entry) && !entry.pending_replacement,
    }
}
