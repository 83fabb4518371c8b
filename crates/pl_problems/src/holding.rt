ghost use Rattle.std.specs.Prelude.{◌≡◌, ◌&&◌, find, IfOk};
ghost use Rattle.pl_columns.specs.Read.{known_by};
ghost use Rattle.pl_decide.specs.declared.problem.Problem.TheVariants as problem;
ghost use Rattle.pl_lemmas.specs.Words.{some_passes};
ghost use Rattle.pl_model.specs.Known.{is_over};
ghost use Rattle.pl_model.specs.Problems as spec;
ghost use Rattle.pl_model.specs.Rows as rows;
ghost use Rattle.pl_problems.specs.Holding as holding;
ghost use Rattle.pl_problems.specs.Least.{least};

use crate::words::urn_of_row;
use pl_columns::Columns;
use pl_decide::{Problem, is_wanted};
use pl_old::is_doomed;
use pl_value::OutOfMemory;

/// In a run that deletes everything: that a row which is to be left refers to one that is to be deleted, the first such
/// row. `over` is as for `protected_row`.
pub fn holding_row(columns: &Columns, over: bool) -> Result<Option<Problem>, OutOfMemory>
    requires { over ≡ is_over (known_by columns.now) }
    ensures { IfOk result (λ found. found
        ≡ spec.first_row (known_by columns.now) problem.NotPermitted (spec.holds_doomed (known_by columns.now))) }
{
    let first = first_holding(columns, over);
    match urn_of_row(columns, first)? {
        None => Ok(None),
        Some(urn) => Ok(Some(Problem::NotPermitted(urn))),
    }
}

/// The first such row, found by going over the rows that are to be deleted, each with those that refer to it.
fn first_holding(columns: &Columns, over: bool) -> Option<u64>
    requires { over ≡ is_over (known_by columns.now) }
    ensures { result ≡ find (λ row. some_passes (spec.holds_doomed (known_by columns.now) row) (rows.row_at (known_by columns.now) row))
        (rows.row_numbers (known_by columns.now)) }
{
    let mut first = None;
    for row in 0..columns.row_count() {
        first = least(first, holder_of(columns, over, row));
    }
    first
}

/// The first row that may not be changed and refers to this one, if this one is to be deleted.
fn holder_of(columns: &Columns, over: bool, row: u64) -> Option<u64>
    requires { over ≡ is_over (known_by columns.now) }
    ensures { result ≡ find (holding.holds (known_by columns.now) row) (rows.row_numbers (known_by columns.now)) }
{
    if is_doomed(columns, over, row) {
        first_unwanted(columns, columns.claims.base().dependents(row))
    } else {
        None
    }
}

fn first_unwanted(columns: &Columns, rows: &[u64]) -> Option<u64>
    ensures { result ≡ find (holding.is_unwanted (known_by columns.now)) rows.now }
{
    rows.iter().copied().find(|row| is_unwanted(columns, *row))
}

fn is_unwanted(columns: &Columns, row: u64) -> bool
    ensures { result ≡ holding.is_unwanted (known_by columns.now) row }
{
    match columns.row(row) {
        None => false,
        Some(entry) => !is_wanted(&columns.run().limits, &entry.urn),
    }
}

/// The least of two numbers that may be missing.
fn least(one: Option<u64>, other: Option<u64>) -> Option<u64>
    ensures { result ≡ least one other }
{
    match (one, other) {
        (None, _) => other,
        (Some(_), None) => one,
        (Some(first), Some(second)) => { if second < first { other } else { one } }
    }
}
