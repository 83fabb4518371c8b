ghost use Rattle.std.specs.Prelude.{◌≡◌, ◌≤◌};
ghost use Rattle.pl_columns.specs.Read.{known_by};
ghost use Rattle.pl_lemmas.specs.Words.{some_passes};
ghost use Rattle.pl_model.specs.Due as spec;
ghost use Rattle.pl_model.specs.Rows as rows;

use pl_columns::Columns;
use pl_decide::is_create_first;
use pl_events::{Op, Subject};
use pl_model::Work;
use pl_old::is_left;

fn is_row_left(columns: &Columns, claim: Option<u64>) -> bool
    ensures { result ≡ some_passes (rows.is_left (known_by columns.now)) claim }
{
    match claim {
        None => false,
        Some(row) => is_left(columns, row),
    }
}

/// Whether a goal's claim leaves the old entries when the goal is recorded.
pub fn claim_leaves(columns: &Columns, number: u64) -> bool
    ensures { result ≡ spec.claim_leaves (known_by columns.now) number }
{
    match columns.decided(number) {
        None => false,
        Some(one) => is_row_left(columns, one.claim) && !is_create_first(&one.decision),
    }
}

fn added_by_op(op: Op) -> u64
    ensures added { result ≡ spec.added_by_op op }
    ensures most { result ≤ 1 }
{
    match op {
        Op::Create(_) => 1,
        Op::Read(Subject::Goal(_)) => 1,
        _ => 0,
    }
}

fn added_by_keep(columns: &Columns, number: u64) -> u64
    ensures added { result ≡ spec.added_by (known_by columns.now) (Work.Keep number) }
    ensures most { result ≤ 1 }
{
    if claim_leaves(columns, number) { 0 } else { 1 }
}

/// How much a piece of work adds to the count of resources.
pub fn added_by(columns: &Columns, work: Work) -> u64
    ensures added { result ≡ spec.added_by (known_by columns.now) work }
    ensures most { result ≤ 1 }
{
    match work {
        Work::Keep(number) => added_by_keep(columns, number),
        Work::Send(op) => added_by_op(op),
        _ => 0,
    }
}
