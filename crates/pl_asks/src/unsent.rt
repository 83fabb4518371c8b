ghost use Rattle.std.specs.Prelude.{◌≡◌, ◌&&◌, ◌||◌};
ghost use Rattle.pl_columns.specs.Read.{known_by};
ghost use Rattle.pl_lemmas.specs.Words.{some_passes};
ghost use Rattle.pl_model.specs.Decisions as decisions;
ghost use Rattle.pl_model.specs.Due as spec;
ghost use Rattle.pl_model.specs.Known as known;
ghost use Rattle.pl_model.specs.Run.{is_preview as previews};
ghost use Rattle.pl_value.specs.Inside.{any_field_unknown};

use pl_columns::Columns;
use pl_events::Request;
use pl_model::Mode;
use pl_value::Fields;

fn is_preview(mode: &Mode) -> bool
    ensures { result ≡ previews mode.now }
{
    matches!(mode, Mode::Preview)
}

/// Whether the checked inputs of a goal hold the unknown.
fn has_unknown_checked(columns: &Columns, number: u64) -> bool
    ensures { result ≡ some_passes (λ one. any_field_unknown one.checked) (known.decided_goal (known_by columns.now) number) }
{
    match columns.decided(number) {
        Some(one) => one.checked.has_unknown(),
        None => false,
    }
}

fn has_unknown_inputs(columns: &Columns, provider: Option<u64>) -> bool
    ensures { result ≡ decisions.has_unknown_inputs columns.now.claims.decided provider }
{
    match provider {
        Some(number) => has_unknown_checked(columns, number),
        None => false,
    }
}

/// In a preview, whether an invoke is answered without being sent: its arguments or its provider's inputs are not known.
pub fn is_unsent(columns: &Columns, request: &Request, about: Option<u64>) -> bool
    ensures { result ≡ spec.is_unsent (known_by columns.now) request.now about }
{
    match request {
        Request::Invoke { args, .. } => lacks_inputs(columns, args, about),
        Request::Register { .. } | Request::Outputs { .. } => false,
    }
}

fn lacks_inputs(columns: &Columns, args: &Fields, about: Option<u64>) -> bool
    ensures { result ≡ (previews columns.now.claims.run.mode
        && (any_field_unknown args.now || decisions.has_unknown_inputs columns.now.claims.decided about)) }
{
    is_preview(&columns.run().mode) && is_unknown(columns, args, about)
}

fn is_unknown(columns: &Columns, args: &Fields, about: Option<u64>) -> bool
    ensures { result ≡ (any_field_unknown args.now || decisions.has_unknown_inputs columns.now.claims.decided about) }
{
    args.has_unknown() || has_unknown_inputs(columns, about)
}

/// Whether a goal that a request is about is recorded.
pub fn is_recorded_about(columns: &Columns, about: Option<u64>) -> bool
    ensures { result ≡ spec.is_recorded_about (known_by columns.now) about }
{
    match about {
        Some(number) => columns.is_recorded(number),
        None => false,
    }
}
