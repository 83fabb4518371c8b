ghost use Rattle.std.specs.Prelude.{◌≡◌};
ghost use Rattle.pl_columns.specs.Read.{known_by};
ghost use Rattle.pl_model.specs.Rows as spec;

use pl_columns::Columns;
use pl_decide::is_create_first;

/// The goal that claims a row and is recorded.
pub fn recorded_claimer(columns: &Columns, row: u64) -> Option<u64>
    ensures { result ≡ spec.recorded_claimer (known_by columns.now) row }
{
    let goal = columns.claims.claimer(row)?;
    if columns.is_recorded(goal) {
        Some(goal)
    } else {
        None
    }
}

/// Whether a goal puts a new thing beside the one of its claim.
fn stands_beside(columns: &Columns, goal: u64) -> bool
    ensures { result ≡ spec.stands_beside (known_by columns.now) goal }
{
    match columns.decided(goal) {
        None => false,
        Some(one) => is_create_first(&one.decision),
    }
}

/// Whether a row was taken over: a recorded goal claims it and has nothing stand beside it.
pub fn is_taken_over(columns: &Columns, row: u64) -> bool
    ensures { result ≡ spec.is_taken_over (known_by columns.now) row }
{
    match recorded_claimer(columns, row) {
        None => false,
        Some(goal) => !stands_beside(columns, goal),
    }
}

/// Whether a row was replaced by a recorded goal and is still to be deleted.
pub fn is_replaced(columns: &Columns, row: u64) -> bool
    ensures { result ≡ spec.is_replaced (known_by columns.now) row }
{
    match recorded_claimer(columns, row) {
        None => false,
        Some(goal) => stands_beside(columns, goal),
    }
}
