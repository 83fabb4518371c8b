ghost use Rattle.std.specs.Prelude.{◌≡◌, find, IfOk};
ghost use Rattle.std.specs.Option.{option_copied};
ghost use Rattle.pl_columns.specs.Read.{known_by};
ghost use Rattle.pl_decide.specs.Permits as permits;
ghost use Rattle.pl_decide.specs.declared.problem.Problem.TheVariants as problem;
ghost use Rattle.pl_lemmas.specs.Words.{some_passes};
ghost use Rattle.pl_model.specs.Problems as spec;
ghost use Rattle.pl_model.specs.Rows as rows;

use crate::words::urn_of_row;
use pl_columns::Columns;
use pl_decide::{Problem, permits_left};
use pl_old::is_left;
use pl_urn::Urn;
use pl_value::OutOfMemory;

/// The URN of the goal that claims the row which keeps a URN.
fn claimer_urn<'a>(columns: &'a Columns, urn: &Urn) -> Option<&'a Urn>
    ensures { option_copied result ≡ spec.claimer_urn (known_by columns.now) urn.now }
{
    let row = columns.claims.keeper(urn)?;
    let goal = columns.claims.claimer(row)?;
    match columns.goal(goal) {
        None => None,
        Some(goal) => Some(&goal.urn),
    }
}

/// The URN that a goal gave to the row which keeps a URN.
pub fn turned_urn<'a>(columns: &'a Columns, urn: &'a Urn) -> &'a Urn
    ensures { result.now ≡ spec.turned_urn (known_by columns.now) urn.now }
{
    match claimer_urn(columns, urn) {
        None => urn,
        Some(turned) => turned,
    }
}

/// That the limits refuse the deletion of a row which is left: the first such row.
pub fn unpermitted_row(columns: &Columns) -> Result<Option<Problem>, OutOfMemory>
    ensures { IfOk result (λ found. found
        ≡ spec.first_row (known_by columns.now) problem.NotPermitted (spec.is_unpermitted (known_by columns.now))) }
{
    let first = first_unpermitted(columns);
    match urn_of_row(columns, first)? {
        None => Ok(None),
        Some(urn) => Ok(Some(Problem::NotPermitted(urn))),
    }
}

fn first_unpermitted(columns: &Columns) -> Option<u64>
    ensures { result ≡ find (λ row. some_passes (spec.is_unpermitted (known_by columns.now) row) (rows.row_at (known_by columns.now) row))
        (rows.row_numbers (known_by columns.now)) }
{
    (0..columns.row_count()).find(|row| is_unpermitted(columns, *row))
}

fn is_unpermitted(columns: &Columns, row: u64) -> bool
    ensures { result ≡ some_passes (spec.is_unpermitted (known_by columns.now) row) (rows.row_at (known_by columns.now) row) }
{
    match columns.row(row) {
        None => false,
        Some(entry) => is_left(columns, row) && !is_permitted(columns, &entry.urn),
    }
}

/// Whether the limits permit that what is left with a URN be deleted.
fn is_permitted(columns: &Columns, urn: &Urn) -> bool
    ensures { result ≡ permits.permits_left columns.now.claims.run.limits (spec.turned_urn (known_by columns.now) urn.now) urn.now }
{
    permits_left(&columns.run().limits, turned_urn(columns, urn), urn)
}
