ghost use Rattle.std.specs.Prelude.{◌≡◌, IfOk, option_and_then, option_map, true};
ghost use Rattle.std.specs.Option.{option_copied};
ghost use Rattle.pl_columns.specs.Read.{known_by};
ghost use Rattle.pl_lemmas.specs.Words.{none_or};
ghost use Rattle.pl_model.specs.Claims as claims;
ghost use Rattle.pl_model.specs.Entries as entries;
ghost use Rattle.pl_model.specs.Known as spec;

use crate::ids::kept_provider_id;
use pl_columns::Columns;
use pl_reference::ProviderRef;
use pl_state::{Entry, Goal};
use pl_urn::Urn;
use pl_value::{OutOfMemory, Text};
use std::alloc::Global;

/// The row of a claim, if there is one.
pub fn claimed_row(columns: &Columns, claim: Option<u64>) -> Option<&Entry>
    ensures { option_copied result ≡ claims.claimed_row columns.now.claims.run claim }
{
    match claim {
        Some(row) => columns.row(row),
        None => None,
    }
}

/// The row that a decided goal claims.
pub fn claim_row(columns: &Columns, goal: u64) -> Option<&Entry>
    requires { spec.is_decided (known_by columns.now) goal ≡ true }
    ensures { option_copied result ≡ spec.claim_row (known_by columns.now) goal }
{
    match columns.decided(goal) {
        Some(one) => claimed_row(columns, one.claim),
        None => None,
    }
}

/// The id of a decided provider: its claim's, where a reference can name that, or else the one of its keep.
pub fn provider_id(alloc: Global, columns: &Columns, goal: u64) -> Result<Option<Text>, OutOfMemory>
    requires { spec.is_decided (known_by columns.now) goal ≡ true }
    ensures { IfOk result (λ id. id ≡ spec.provider_id (known_by columns.now) goal) }
{
    let claim = claim_row(columns, goal);
    kept_provider_id(alloc, claim, columns.records.fresh(goal))
}

/// The reference to a decided provider, once it has an id.
pub fn reference_to(
    alloc: Global,
    columns: &Columns,
    provider: u64,
) -> Result<Option<ProviderRef>, OutOfMemory>
    requires { spec.is_decided (known_by columns.now) provider ≡ true }
    ensures { IfOk result (λ made. made ≡ entries.reference_to (known_by columns.now) provider) }
{
    match columns.goal(provider) {
        Some(goal) => reference_with(&goal.urn, provider_id(alloc, columns, provider)?),
        None => Ok(None),
    }
}

fn reference_with(urn: &Urn, id: Option<Text>) -> Result<Option<ProviderRef>, OutOfMemory>
    ensures { IfOk result (λ made. made ≡ option_map (λ id. record { urn = urn.now; id = id }) id) }
{
    match id {
        Some(id) => {
            let urn = urn.copy()?;
            Ok(Some(ProviderRef { urn, id }))
        }
        None => Ok(None),
    }
}

/// The reference to the provider of a goal, if it has one.
pub fn reference_of(
    alloc: Global,
    columns: &Columns,
    goal: &Goal,
) -> Result<Option<ProviderRef>, OutOfMemory>
    requires { none_or (spec.is_decided (known_by columns.now)) goal.now.provider ≡ true }
    ensures { IfOk result (λ made. made ≡ option_and_then (entries.reference_to (known_by columns.now)) goal.now.provider) }
{
    match goal.provider {
        Some(provider) => reference_to(alloc, columns, provider),
        None => Ok(None),
    }
}
