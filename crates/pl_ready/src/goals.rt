ghost use Rattle.std.specs.Prelude.{◌≡◌, not};
ghost use Rattle.std.specs.List.{list_all};
ghost use Rattle.std.specs.Option.{option_copied};
ghost use Rattle.pl_columns.specs.Read.{known_by};
ghost use Rattle.pl_decide.specs.Limited.{is_refused as is_refusal};
ghost use Rattle.pl_lemmas.specs.Words.{none_or};
ghost use Rattle.pl_model.specs.Claims.{chain_of_goal};
ghost use Rattle.pl_model.specs.Due as spec;
ghost use Rattle.pl_model.specs.Known.{is_recorded};
ghost use Rattle.pl_model.specs.Rows as rows;
ghost use Rattle.pl_state.specs.References.{further_urns, property_urns};
ghost use Rattle.pl_ready.specs.Keepers.{AreKeepers};

use crate::carried::op_of_goal;
use crate::free::urn_is_free;
use crate::unknown::is_preview;
use pl_columns::Columns;
use pl_decide::{Decision, is_delete_first, is_of_provider};
use pl_events::Source;
use pl_model::Decided;
use pl_old::{is_left, was_removed};
use pl_state::{Goal, Urns};
use pl_urn::Urn;
use pl_value::Text;

/// Whether the goal with a URN is recorded.
fn is_recorded_urn(columns: &Columns, urn: &Urn) -> bool
    ensures { result ≡ spec.is_recorded_urn (known_by columns.now) urn.now }
{
    match columns.goal_number(urn.as_str()) {
        None => false,
        Some(goal) => columns.is_recorded(goal),
    }
}

fn is_urn_recorded(columns: &Columns, urn: Option<&Urn>) -> bool
    ensures { result ≡ none_or (spec.is_recorded_urn (known_by columns.now)) (option_copied urn.entry) }
{
    match urn {
        None => true,
        Some(urn) => is_recorded_urn(columns, urn),
    }
}

fn is_goal_recorded(columns: &Columns, goal: Option<u64>) -> bool
    ensures { result ≡ none_or (is_recorded (known_by columns.now)) goal }
{
    match goal {
        None => true,
        Some(goal) => columns.is_recorded(goal),
    }
}

fn are_recorded(columns: &Columns, urns: &[Urn]) -> bool
    ensures { result ≡ list_all (spec.is_recorded_urn (known_by columns.now)) urns.now }
{
    urns.iter().all(|urn| is_recorded_urn(columns, urn))
}

fn are_properties_recorded(columns: &Columns, pairs: &[(Text, Urns)]) -> bool
    ensures { result ≡ list_all (spec.is_recorded_urn (known_by columns.now)) (property_urns pairs.now) }
{
    are_pairs_recorded(columns, pairs)
}

fn are_pairs_recorded(columns: &Columns, pairs: &[(Text, Urns)]) -> bool
    ensures { result ≡ list_all (λ pair. list_all (spec.is_recorded_urn (known_by columns.now)) pair.1) pairs.now }
{
    pairs
        .iter()
        .all(|pair| are_recorded(columns, pair.1.as_slice()))
}

/// Whether the goals are recorded that a goal refers to beside its parent and its provider.
fn further_recorded(columns: &Columns, goal: &Goal) -> bool
    ensures { result ≡ list_all (spec.is_recorded_urn (known_by columns.now)) (further_urns goal.now) }
{
    are_recorded(columns, goal.dependencies.as_slice())
        && are_properties_recorded(columns, goal.property_dependencies.as_slice())
        && is_urn_recorded(columns, goal.deleted_with.as_ref())
}

/// Whether the goals of a goal's references are recorded. Its time grows with their number.
pub fn references_recorded(columns: &Columns, goal: &Goal) -> bool
    ensures { result ≡ spec.references_recorded (known_by columns.now) goal.now }
{
    is_urn_recorded(columns, goal.parent.as_ref())
        && is_goal_recorded(columns, goal.provider)
        && further_recorded(columns, goal)
}

/// A provider is kept once its first lane is configured, for which a preview does not wait.
pub fn provider_stands(columns: &Columns, number: u64, goal: &Goal) -> bool
    ensures { result ≡ spec.provider_stands (known_by columns.now) number goal.now }
{
    !is_of_provider(&goal.urn)
        || is_preview(&columns.run().mode)
        || columns.was_configured(Source::Goal(number))
}

fn is_refused(decision: &Decision) -> bool
    ensures { result ≡ is_refusal decision.now }
{
    matches!(decision, Decision::Refused(_))
}

/// Whether a goal can be recorded.
pub fn is_placed(columns: &Columns, number: u64, goal: &Goal, one: &Decided) -> bool
    requires keepers { AreKeepers (known_by columns.now) }
    ensures { result ≡ spec.is_placed (known_by columns.now) number goal.now one.now }
{
    !is_refused(&one.decision)
        && !columns.is_recorded(number)
        && references_recorded(columns, goal)
        && (is_preview(&columns.run().mode) || urn_is_free(columns, goal, one))
}

/// Whether a goal can be kept.
pub fn keeps_goal(columns: &Columns, number: u64, goal: &Goal, one: &Decided) -> bool
    requires keepers { AreKeepers (known_by columns.now) }
    ensures { result ≡ spec.keeps_goal (known_by columns.now) number goal.now one.now }
{
    is_placed(columns, number, goal, one)
        && op_of_goal(columns, number, goal, one).is_none()
        && provider_stands(columns, number, goal)
}

fn is_claim_removed(columns: &Columns, claim: Option<u64>) -> bool
    ensures { result ≡ none_or (rows.was_removed (known_by columns.now)) claim }
{
    match claim {
        None => true,
        Some(row) => was_removed(columns, row),
    }
}

fn are_gone(columns: &Columns, chain: &[u64]) -> bool
    ensures { result ≡ list_all (λ row. not (rows.is_left (known_by columns.now) row)) chain.now }
{
    chain.iter().all(|row| !is_left(columns, *row))
}

/// Whether what a goal that is deleted first takes along is gone; `chain` are the rows of its chain.
pub fn way_is_free(columns: &Columns, one: &Decided, chain: &[u64]) -> bool
    requires { chain.now ≡ chain_of_goal columns.now.claims.run one.now }
    ensures { result ≡ spec.way_is_free (known_by columns.now) one.now }
{
    !is_delete_first(&one.decision)
        || (is_claim_removed(columns, one.claim) && are_gone(columns, chain))
}
