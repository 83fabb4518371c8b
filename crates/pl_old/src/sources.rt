ghost use Rattle.std.specs.Prelude.{◌≡◌};
ghost use Rattle.pl_columns.specs.Read.{known_by};
ghost use Rattle.pl_model.specs.Rows as spec;

use crate::claimers::recorded_claimer;
use pl_columns::Columns;
use pl_events::Source;

/// The provider behind a provider's row: the goal that claims the row once that is recorded, and the row itself before.
pub fn source_of_provider(columns: &Columns, row: u64) -> Source
    ensures { result ≡ spec.source_of_provider (known_by columns.now) row }
{
    match recorded_claimer(columns, row) {
        None => Source::Row(row),
        Some(goal) => Source::Goal(goal),
    }
}

/// The provider that a row's operations are sent to.
pub fn source_of_row(columns: &Columns, row: u64) -> Option<Source>
    ensures { result ≡ spec.source_of_row (known_by columns.now) row }
{
    let provider = columns.claims.base().provider_row(row)?;
    Some(source_of_provider(columns, provider))
}

/// The provider that a pending operation of the state at the start is sent to.
pub fn source_of_pending(columns: &Columns, at: u64) -> Option<Source>
    ensures { result ≡ spec.source_of_pending (known_by columns.now) at }
{
    let provider = columns.claims.base().provider_of_pending(at)?;
    Some(source_of_provider(columns, provider))
}

/// The provider that a goal's operations are sent to.
pub fn source_of_goal(columns: &Columns, goal: u64) -> Option<Source>
    ensures { result ≡ spec.source_of_goal (known_by columns.now) goal }
{
    let provider = columns.goal(goal)?.provider?;
    Some(Source::Goal(provider))
}
