ghost use Rattle.std.specs.Prelude.{◌≡◌};
ghost use Rattle.pl_columns.specs.Read.{known_by};
ghost use Rattle.pl_lemmas.specs.Words.{some_passes};
ghost use Rattle.pl_model.specs.Decisions as spec;
ghost use Rattle.pl_model.specs.Known.{decided_goal};
ghost use Rattle.pl_model.specs.Run as run;
ghost use Rattle.pl_value.specs.Inside as inside;

use pl_columns::Columns;
use pl_model::Mode;

/// Whether the run tells what would be done, and does none of it.
pub fn is_preview(mode: &Mode) -> bool
    ensures { result ≡ run.is_preview mode.now }
{
    matches!(mode, Mode::Preview)
}

/// Whether the checked inputs of a provider, by its number, hold an unknown.
pub fn has_unknown_inputs(columns: &Columns, provider: Option<u64>) -> bool
    ensures { result ≡ spec.has_unknown_inputs (known_by columns.now).decided provider }
{
    match provider {
        None => false,
        Some(goal) => has_unknown_checked(columns, goal),
    }
}

fn has_unknown_checked(columns: &Columns, goal: u64) -> bool
    ensures { result ≡ some_passes (λ one. inside.any_field_unknown one.checked) (decided_goal (known_by columns.now) goal) }
{
    match columns.decided(goal) {
        None => false,
        Some(one) => one.checked.has_unknown(),
    }
}
