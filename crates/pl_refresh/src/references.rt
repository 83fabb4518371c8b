ghost use Rattle.std.specs.Prelude.{◌≡◌, IfOk, length, option_map};
ghost use Rattle.pl_refresh.specs.Refreshed.{if_there, is_there, keyed_left, parent_left, provider_left, urns_left};

use crate::ancestry::Ancestry;
use crate::standing::Standing;
use crate::there::if_there;
use pl_reference::{KeyedUrns, ProviderRef, Urns};
use pl_state::Entry;
use pl_urn::Urn;
use pl_value::{OutOfMemory, Text};
use std::alloc::Global;

fn copy_urn(urn: Option<&Urn>) -> Result<Option<Urn>, OutOfMemory>
    ensures { IfOk result (λ made. made ≡ option_map (λ urn. urn.now) urn.entry) }
{
    match urn {
        None => Ok(None),
        Some(urn) => {
            let copied = urn.copy()?;
            Ok(Some(copied))
        }
    }
}

/// The parent that is left of a row, whose ancestors are found in these rows.
pub fn parent_left<'a>(
    standing: &Standing<'a>,
    ancestry: &Ancestry<'a>,
    row: &'a Entry,
) -> Result<Option<Urn>, OutOfMemory>
    ensures { IfOk result (λ made. made ≡ parent_left ancestry.now standing.now (record { place = length ancestry.now; row = row.now })) }
{
    copy_urn(ancestry.nearest(standing, row.parent.as_ref()))
}

pub fn provider_left<'a>(
    standing: &Standing<'a>,
    provider: &'a Option<ProviderRef>,
) -> Result<Option<ProviderRef>, OutOfMemory>
    ensures { IfOk result (λ made. made ≡ provider_left standing.now provider.now) }
{
    let Some(reference) = provider else {
        return Ok(None);
    };
    if !standing.has_provider(reference) {
        return Ok(None);
    }
    let reference = reference.copy()?;
    Ok(Some(reference))
}

pub fn urns_left(alloc: Global, standing: &Standing<'_>, urns: &[Urn]) -> Result<Urns, OutOfMemory>
    ensures { IfOk result (λ left. left ≡ urns_left standing.now urns.now) }
{
    let mut left = Urns::new(alloc);
    for urn in urns {
        if standing.has_urn(urn) {
            left.push(urn.copy()?)?;
        }
    }
    Ok(left)
}

pub fn keyed_left(
    alloc: Global,
    standing: &Standing<'_>,
    pairs: &[(Text, Urns)],
) -> Result<KeyedUrns, OutOfMemory>
    ensures { IfOk result (λ left. left ≡ keyed_left standing.now pairs.now) }
{
    let mut left = KeyedUrns::new(alloc);
    for pair in pairs {
        let urns = urns_left(alloc, standing, pair.1.as_slice())?;
        left.push((pair.0.copy()?, urns))?;
    }
    Ok(left)
}

/// What a row is deleted with, where it is there.
pub fn deleter_left(standing: &Standing<'_>, row: &Entry) -> Result<Option<Urn>, OutOfMemory>
    ensures { IfOk result (λ made. made ≡ if_there (is_there standing.now) row.now.deleted_with) }
{
    copy_urn(if_there(standing, row.deleted_with.as_ref()))
}
