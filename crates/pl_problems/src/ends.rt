ghost use Rattle.std.specs.Prelude.{◌≡◌, ◌&&◌, find, IfOk};
ghost use Rattle.pl_columns.specs.Read.{known_by};
ghost use Rattle.pl_decide.specs.declared.problem.Problem.TheVariants as problem;
ghost use Rattle.pl_lemmas.specs.Words.{some_passes};
ghost use Rattle.pl_model.specs.Known.{is_over};
ghost use Rattle.pl_model.specs.Problems as spec;
ghost use Rattle.pl_model.specs.Rows as rows;

use crate::lacking::lacks_provider;
use crate::words::urn_of_row;
use pl_columns::Columns;
use pl_decide::Problem;
use pl_old::is_doomed;
use pl_value::OutOfMemory;

/// That a row which is to be deleted is protected: the first such row.
pub fn protected_row(columns: &Columns, over: bool) -> Result<Option<Problem>, OutOfMemory>
    requires { over ≡ is_over (known_by columns.now) }
    ensures { IfOk result (λ found. found
        ≡ spec.first_row (known_by columns.now) problem.Protected (λ row entry. rows.is_doomed (known_by columns.now) row && entry.protect)) }
{
    let first = first_protected(columns, over);
    match urn_of_row(columns, first)? {
        None => Ok(None),
        Some(urn) => Ok(Some(Problem::Protected(urn))),
    }
}

fn first_protected(columns: &Columns, over: bool) -> Option<u64>
    requires { over ≡ is_over (known_by columns.now) }
    ensures { result ≡ find (λ row. some_passes (λ entry. rows.is_doomed (known_by columns.now) row && entry.protect)
        (rows.row_at (known_by columns.now) row)) (rows.row_numbers (known_by columns.now)) }
{
    (0..columns.row_count()).find(|row| is_protected(columns, over, *row))
}

fn is_protected(columns: &Columns, over: bool, row: u64) -> bool
    requires { over ≡ is_over (known_by columns.now) }
    ensures { result ≡ some_passes (λ entry. rows.is_doomed (known_by columns.now) row && entry.protect) (rows.row_at (known_by columns.now) row) }
{
    match columns.row(row) {
        None => false,
        Some(entry) => is_doomed(columns, over, row) && entry.protect,
    }
}

/// That a row which is to be deleted lacks its provider: the first such row.
pub fn unprovided_row(columns: &Columns, over: bool) -> Result<Option<Problem>, OutOfMemory>
    requires { over ≡ is_over (known_by columns.now) }
    ensures { IfOk result (λ found. found
        ≡ spec.first_row (known_by columns.now) problem.MissingProvider
        (λ row entry. rows.is_doomed (known_by columns.now) row && spec.lacks_provider (known_by columns.now) row)) }
{
    let first = first_unprovided(columns, over);
    match urn_of_row(columns, first)? {
        None => Ok(None),
        Some(urn) => Ok(Some(Problem::MissingProvider(urn))),
    }
}

fn first_unprovided(columns: &Columns, over: bool) -> Option<u64>
    requires { over ≡ is_over (known_by columns.now) }
    ensures { result ≡ find (λ row. some_passes (λ entry. rows.is_doomed (known_by columns.now) row && spec.lacks_provider (known_by columns.now) row)
        (rows.row_at (known_by columns.now) row)) (rows.row_numbers (known_by columns.now)) }
{
    (0..columns.row_count()).find(|row| is_unprovided(columns, over, *row))
}

fn is_unprovided(columns: &Columns, over: bool, row: u64) -> bool
    requires { over ≡ is_over (known_by columns.now) }
    ensures { result ≡ some_passes (λ entry. rows.is_doomed (known_by columns.now) row && spec.lacks_provider (known_by columns.now) row)
        (rows.row_at (known_by columns.now) row) }
{
    match columns.row(row) {
        None => false,
        Some(_) => is_doomed(columns, over, row) && lacks_provider(columns, over, row),
    }
}
