ghost use Rattle.std.specs.Prelude.{◌≡◌, IfOk};
ghost use Rattle.pl_lemmas.specs.Words.{first_some};
ghost use Rattle.pl_model.specs.Problems as spec;

use pl_decide::{Problem, is_provided_row};
use pl_state::Entry;
use pl_value::OutOfMemory;

/// That an entry names no provider.
pub fn names_none(entry: &Entry) -> Result<Option<Problem>, OutOfMemory>
    ensures { IfOk result (λ found. found ≡ spec.names_none entry.now) }
{
    if entry.provider.is_none() {
        Ok(Some(Problem::MissingProvider(entry.urn.copy()?)))
    } else {
        Ok(None)
    }
}

/// Whether a row is to be read anew.
fn is_to_read(row: &Entry) -> bool
    ensures { result ≡ spec.is_to_read row.now }
{
    is_provided_row(row) && !row.pending_replacement
}

/// That a row which is to be read anew names no provider.
fn unread_row(row: &Entry) -> Result<Option<Problem>, OutOfMemory>
    ensures { IfOk result (λ found. found ≡ spec.unread_row row.now) }
{
    if is_to_read(row) {
        names_none(row)
    } else {
        Ok(None)
    }
}

/// The same, of the first such row.
pub fn first_unread(rows: &[Entry]) -> Result<Option<Problem>, OutOfMemory>
    ensures { IfOk result (λ found. found ≡ first_some spec.unread_row rows.now) }
{
    for row in rows {
        if let Some(problem) = unread_row(row)? {
            return Ok(Some(problem));
        }
    }
    Ok(None)
}
