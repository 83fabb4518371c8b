ghost use Rattle.std.specs.Prelude.{◌≡◌};
ghost use Rattle.std.specs.List.{list_any};
ghost use Rattle.pl_columns.specs.Read.{known_by};
ghost use Rattle.pl_lemmas.specs.Words.{some_passes};
ghost use Rattle.pl_model.specs.Rows as spec;

use crate::claimers::{is_replaced, is_taken_over};
use pl_columns::Columns;

/// Whether a row was deleted or dropped.
pub fn was_removed(columns: &Columns, row: u64) -> bool
    ensures { result ≡ spec.was_removed (known_by columns.now) row }
{
    columns.was_removed(row)
}

/// Whether a row's thing was deleted to be made anew: the row holds its URN until its goal is recorded.
fn is_held(columns: &Columns, row: u64) -> bool
    ensures { result ≡ spec.is_held (known_by columns.now) row }
{
    was_removed(columns, row) && columns.is_deleted_first(row)
}

/// Whether a row was deleted or dropped, and holds its URN for no goal.
fn is_taken_out(columns: &Columns, row: u64) -> bool
    ensures { result ≡ spec.is_taken_out (known_by columns.now) row }
{
    was_removed(columns, row) && !columns.is_deleted_first(row)
}

/// Whether a row is still among the old entries.
pub fn is_left(columns: &Columns, row: u64) -> bool
    ensures { result ≡ spec.is_left (known_by columns.now) row }
{
    row < columns.row_count() && !is_taken_out(columns, row) && !is_taken_over(columns, row)
}

/// Whether a row is flagged to be deleted: in the state at the start, or since it was replaced.
pub fn is_marked(columns: &Columns, row: u64) -> bool
    ensures { result ≡ spec.is_marked (known_by columns.now) row }
{
    is_flagged(columns, row) || is_replaced(columns, row)
}

fn is_flagged(columns: &Columns, row: u64) -> bool
    ensures { result ≡ some_passes (λ entry. entry.doomed) (spec.row_at (known_by columns.now) row) }
{
    match columns.row(row) {
        None => false,
        Some(entry) => entry.doomed,
    }
}

/// Whether the replacement of a row is pending: in the state at the start, or since the row was deleted first.
pub fn is_to_be_made(columns: &Columns, row: u64) -> bool
    ensures { result ≡ spec.is_to_be_made (known_by columns.now) row }
{
    is_pending(columns, row) || is_held(columns, row)
}

fn is_pending(columns: &Columns, row: u64) -> bool
    ensures { result ≡ some_passes (λ entry. entry.pending_replacement) (spec.row_at (known_by columns.now) row) }
{
    match columns.row(row) {
        None => false,
        Some(entry) => entry.pending_replacement,
    }
}

/// Whether a later row that refers to this one is left.
pub fn has_dependents(columns: &Columns, row: u64) -> bool
    ensures { result ≡ spec.has_dependents (known_by columns.now) row }
{
    any_left(columns, columns.claims.base().dependents(row))
}

fn any_left(columns: &Columns, rows: &[u64]) -> bool
    ensures { result ≡ list_any (spec.is_left (known_by columns.now)) rows.now }
{
    rows.iter().any(|row| is_left(columns, *row))
}
