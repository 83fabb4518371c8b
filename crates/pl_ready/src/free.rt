ghost use Rattle.std.specs.Prelude.{◌≡◌, ◌&&◌, not};
ghost use Rattle.pl_columns.specs.Read.{known_by};
ghost use Rattle.pl_lemmas.specs.Words.{is_row as is_claim_of};
ghost use Rattle.pl_model.specs.Due as spec;
ghost use Rattle.pl_model.specs.Rows as rows;
ghost use Rattle.pl_model.specs.Run.{rows_of};
ghost use Rattle.pl_sound.specs.Sound.{IsSound};
ghost use Rattle.pl_ready.specs.Keepers.{AreKeepers};

use pl_columns::Columns;
use pl_model::Decided;
use pl_old::{is_left, is_marked};
use pl_state::Goal;

fn is_row(claim: Option<u64>, row: u64) -> bool
    ensures { result ≡ is_claim_of claim row }
{
    match claim {
        None => false,
        Some(own) => own == row,
    }
}

/// Whether a row is left and not flagged, and is not the goal's claim.
fn is_in_the_way(columns: &Columns, one: &Decided, row: u64) -> bool
    ensures { result ≡ (rows.is_left (known_by columns.now) row && not (rows.is_marked (known_by columns.now) row)
        && not (is_claim_of one.now.claim row)) }
{
    is_left(columns, row) && !is_marked(columns, row) && !is_row(one.claim, row)
}

/// The state at the start is sound. Nothing is done.
fn is_sound(columns: &Columns)
    ensures { IsSound (rows_of columns.now.claims.run) }
{
    columns.claims.base().is_sound();
}

/// Whether no row that is left, not flagged and not the goal's claim has the goal's URN. Only the row that kept the URN at
/// the start can have it, so this one is looked at, in a time that grows with the logarithm of the number of rows.
pub fn urn_is_free(columns: &Columns, goal: &Goal, one: &Decided) -> bool
    requires keepers { AreKeepers (known_by columns.now) }
    ensures { result ≡ spec.urn_is_free (known_by columns.now) goal.now one.now }
{
    is_sound(columns);
    match columns.claims.keeper(&goal.urn) {
        None => true,
        Some(row) => !is_in_the_way(columns, one, row),
    }
}
