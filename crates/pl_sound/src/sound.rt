ghost use Rattle.std.specs.Prelude.{◌≡◌, IfErr, MatchOption, OnOk};
ghost use Rattle.std.specs.List.{list_all, list_any};
ghost use Rattle.pl_state.specs.declared.fault.Missing.TheVariants.{DeletedWith, Parent, Provider};
ghost use Rattle.pl_state.specs.References.{has_urn, is_provider, keeps_urn, optional_refs};
ghost use Rattle.pl_sound.specs.Sound.{finds_all, is_met, IsFirstFaulty, IsSound, own_wants, TellsFault};

use crate::seen::Seen;
use pl_reference::ProviderRef;
use pl_state::{Entries, Entry, Unsound, UnsoundOrMemory};
use pl_urn::Urn;
use std::alloc::Global;

/// The first row, from 0, that refers to what does not stand before it or has the URN of an earlier row where
/// neither is to be deleted; takes no memory, in a time that grows with the square of the number of rows.
pub fn fault_of(entries: &Entries) -> Option<u64>
    ensures { MatchOption result (IsSound entries.now) (IsFirstFaulty entries.now) }
{
    let rows = entries.as_slice();
    for (at, row) in rows.iter().enumerate() {
        if !is_row_sound(&rows[..at], row) {
            return Some(at as u64);
        }
    }
    None
}

/// Whether each row finds what it refers to among the rows before it. Else tells the first row that does not,
/// and what it misses first in this order: that no row before it keeps its URN, parent, provider,
/// dependencies, property dependencies, and what it is deleted with. Its time grows with the number of
/// references, times the logarithm of the number of rows.
pub fn is_sound(alloc: Global, entries: &Entries) -> Result<(), UnsoundOrMemory>
    ensures sound { OnOk result (IsSound entries.now) }
    ensures unsound { IfErr result (TellsFault entries.now) }
{
    let rows = entries.as_slice();
    let mut seen = Seen::new(alloc);
    for (at, row) in rows.iter().enumerate() {
        if let Some(missing) = seen.missing_in(row)? {
            let at = at as u64;
            return Err(UnsoundOrMemory::Unsound(Unsound { at, missing }));
        }
        seen.add(row)?;
    }
    Ok(())
}

fn is_row_sound(before: &[Entry], row: &Entry) -> bool
    ensures { result ≡ finds_all before.now row.now }
{
    is_own_met(before, row)
        && is_parent_met(before, row)
        && is_provider_met(before, row)
        && has_urns(before, row.dependencies.as_slice())
        && has_property_urns(before, row)
        && is_deleter_met(before, row)
}

fn is_own_met(before: &[Entry], row: &Entry) -> bool
    ensures { result ≡ list_all (is_met before.now) (own_wants row.now) }
{
    row.doomed || !keeps_urn(before, &row.urn)
}

fn is_parent_met(before: &[Entry], row: &Entry) -> bool
    ensures { result ≡ list_all (is_met before.now) (optional_refs Parent row.now.parent) }
{
    match &row.parent {
        None => true,
        Some(parent) => has_urn(before, parent),
    }
}

fn is_provider_met(before: &[Entry], row: &Entry) -> bool
    ensures { result ≡ list_all (is_met before.now) (optional_refs Provider row.now.provider) }
{
    match &row.provider {
        None => true,
        Some(reference) => has_provider(before, reference),
    }
}

fn is_deleter_met(before: &[Entry], row: &Entry) -> bool
    ensures { result ≡ list_all (is_met before.now) (optional_refs DeletedWith row.now.deleted_with) }
{
    match &row.deleted_with {
        None => true,
        Some(deleter) => has_urn(before, deleter),
    }
}

fn has_urns(before: &[Entry], urns: &[Urn]) -> bool
    ensures { result ≡ list_all (λ urn. list_any (has_urn urn) before.now) urns.now }
{
    urns.iter().all(|urn| has_urn(before, urn))
}

fn has_property_urns(before: &[Entry], row: &Entry) -> bool
    ensures { result ≡ list_all (λ pair. list_all (λ urn. list_any (has_urn urn) before.now) pair.1)
        row.now.property_dependencies }
{
    let pairs = row.property_dependencies.as_slice();
    pairs.iter().all(|pair| has_urns(before, pair.1.as_slice()))
}

fn has_urn(before: &[Entry], urn: &Urn) -> bool
    ensures { result ≡ list_any (has_urn urn.now) before.now }
{
    before.iter().any(|row| row.urn.as_str() == urn.as_str())
}

fn keeps_urn(before: &[Entry], urn: &Urn) -> bool
    ensures { result ≡ list_any (keeps_urn urn.now) before.now }
{
    before
        .iter()
        .any(|row| !row.doomed && row.urn.as_str() == urn.as_str())
}

fn has_provider(before: &[Entry], reference: &ProviderRef) -> bool
    ensures { result ≡ list_any (is_provider reference.now) before.now }
{
    before.iter().any(|row| is_provider(row, reference))
}

/// Whether a row is the provider resource of this URN and id.
fn is_provider(row: &Entry, reference: &ProviderRef) -> bool
    ensures { result ≡ is_provider reference.now row.now }
{
    if row.urn.as_str() != reference.urn.as_str() {
        return false;
    }
    match &row.id {
        None => false,
        Some(id) => id.as_str() == reference.id.as_str(),
    }
}
