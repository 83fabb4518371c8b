ghost use Rattle.std.specs.Prelude.{◌≡◌, ◌&&◌, find, IfOk, is_none};
ghost use Rattle.pl_columns.specs.Read.{known_by};
ghost use Rattle.pl_lemmas.specs.Words as words;
ghost use Rattle.pl_model.specs.Claims.{chain_of_goal};
ghost use Rattle.pl_model.specs.Known.{is_over};
ghost use Rattle.pl_model.specs.Problems as spec;
ghost use Rattle.pl_model.specs.Rows as rows;

use crate::words::urn_of_row;
use pl_columns::Columns;
use pl_decide::{Problem, is_create_first, is_delete_first};
use pl_model::Decided;
use pl_old::{is_marked, is_sent};
use pl_value::OutOfMemory;

/// Whether a row must be sent for and has no provider; `over` says whether the host has ended and every goal is
/// recorded.
pub fn lacks_provider(columns: &Columns, over: bool, row: u64) -> bool
    requires { over ≡ is_over (known_by columns.now) }
    ensures { result ≡ spec.lacks_provider (known_by columns.now) row }
{
    is_sent(columns, over, row) && names_no_provider(columns, row)
}

fn names_no_provider(columns: &Columns, row: u64) -> bool
    ensures { result ≡ words.some_passes (λ entry. is_none entry.provider) (rows.row_at (known_by columns.now) row) }
{
    match columns.row(row) {
        None => false,
        Some(entry) => entry.provider.is_none(),
    }
}

/// Whether a row of a chain goes along now: it is flagged, or no goal claims it.
fn goes_now(columns: &Columns, row: u64) -> bool
    ensures { result ≡ rows.goes_now (known_by columns.now) row }
{
    match columns.row(row) {
        None => false,
        Some(_) => is_marked(columns, row) || !columns.claims.is_claimed(row),
    }
}

fn is_row(claim: Option<u64>, row: u64) -> bool
    ensures { result ≡ words.is_row claim row }
{
    match claim {
        None => false,
        Some(own) => own == row,
    }
}

fn has_number(numbers: &[u64], number: u64) -> bool
    ensures { result ≡ words.has_number numbers.now number }
{
    numbers.iter().any(|other| *other == number)
}

/// Whether a goal takes a row along, by its claim and its chain.
fn takes_along(columns: &Columns, one: &Decided, chain: &[u64], row: u64) -> bool
    requires { chain.now ≡ chain_of_goal columns.now.claims.run one.now }
    ensures { result ≡ rows.takes_along (known_by columns.now) row one.now }
{
    is_delete_first(&one.decision)
        && (is_row(one.claim, row) || (has_number(chain, row) && goes_now(columns, row)))
}

/// Whether a row is the claim of a goal that is replaced, the new thing first.
fn is_claimed_beside(columns: &Columns, row: u64) -> bool
    ensures { result ≡ spec.is_claimed_beside (known_by columns.now) row }
{
    let Some(goal) = columns.claims.claimer(row) else {
        return false;
    };
    match columns.decided(goal) {
        None => false,
        Some(one) => is_create_first(&one.decision),
    }
}

/// Whether a goal that is deleted first has a row deleted, now or once the row was replaced.
fn has_deleted(columns: &Columns, one: &Decided, chain: &[u64], row: u64) -> bool
    requires { chain.now ≡ chain_of_goal columns.now.claims.run one.now }
    ensures { result ≡ spec.has_deleted (known_by columns.now) one.now row }
{
    takes_along(columns, one, chain, row)
        || (has_number(chain, row) && is_claimed_beside(columns, row))
}

/// The first row that a goal has deleted and that lacks its provider.
fn first_lacking(columns: &Columns, over: bool, one: &Decided, chain: &[u64]) -> Option<u64>
    requires over { over ≡ is_over (known_by columns.now) }
    requires chain { chain.now ≡ chain_of_goal columns.now.claims.run one.now }
    ensures { result ≡ find (λ row. spec.has_deleted (known_by columns.now) one.now row && spec.lacks_provider (known_by columns.now) row)
        (rows.row_numbers (known_by columns.now)) }
{
    (0..columns.row_count()).find(|row| {
        has_deleted(columns, one, chain, *row) && lacks_provider(columns, over, *row)
    })
}

/// That a row which a goal has deleted lacks its provider. A goal that is not deleted first has none deleted, and costs
/// no walk over the rows.
pub fn missing_provider(
    columns: &Columns,
    over: bool,
    one: &Decided,
    chain: &[u64],
) -> Result<Option<Problem>, OutOfMemory>
    requires over { over ≡ is_over (known_by columns.now) }
    requires chain { chain.now ≡ chain_of_goal columns.now.claims.run one.now }
    ensures { IfOk result (λ found. found ≡ spec.missing_provider (known_by columns.now) one.now) }
{
    if !is_delete_first(&one.decision) {
        return Ok(None);
    }
    let lacking = first_lacking(columns, over, one, chain);
    match urn_of_row(columns, lacking)? {
        None => Ok(None),
        Some(urn) => Ok(Some(Problem::MissingProvider(urn))),
    }
}
