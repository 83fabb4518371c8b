ghost use Rattle.std.specs.Prelude.{◌≡◌, option_map};
ghost use Rattle.std.specs.Option.{option_copied};
ghost use Rattle.pl_lemmas.specs.Words.{is_row};
ghost use Rattle.pl_model.specs.Run as run;

use pl_model::Mode;
use pl_state::{Entry, Goal};
use pl_urn::Urn;

/// Whether a run tells what it would do, and does none of it.
pub fn is_preview(mode: &Mode) -> bool
    ensures { result ≡ run.is_preview mode.now }
{
    matches!(mode, Mode::Preview)
}

/// Whether a row is there, and is this one.
pub fn is_row(claim: Option<u64>, row: u64) -> bool
    ensures { result ≡ is_row claim row }
{
    match claim {
        None => false,
        Some(own) => own == row,
    }
}

/// A goal's URN, if there is a goal.
pub fn goal_urn<'a>(goal: Option<&'a Goal>) -> Option<&'a Urn>
    ensures { option_copied result ≡ option_map (λ goal. goal.urn) (option_copied goal.entry) }
{
    match goal {
        None => None,
        Some(goal) => Some(&goal.urn),
    }
}

/// A row's URN, if there is a row.
pub fn row_urn<'a>(row: Option<&'a Entry>) -> Option<&'a Urn>
    ensures { option_copied result ≡ option_map (λ row. row.urn) (option_copied row.entry) }
{
    match row {
        None => None,
        Some(row) => Some(&row.urn),
    }
}
