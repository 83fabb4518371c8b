ghost use Rattle.std.specs.Prelude.{◌≡◌, ◌&&◌, ℕ, if◌then◌else◌, IfOk, List, map, OnOk, Some};
ghost use Rattle.std.specs.Str.{bytes_eq};
ghost use Rattle.pl_reference.specs.declared.reference.ProviderRef.{ProviderRef};
ghost use Rattle.pl_state.specs.Chain.{last_provider, provider_row_of};
ghost use Rattle.pl_state.specs.References.{is_provider};
ghost use Rattle.pl_base.specs.Index.{LeadsToThings, provider_in, thing_in};
ghost use Rattle.pl_base.specs.Rows.{of_rows};

use pl_state::{Entry, Pending};
use pl_value::OutOfMemory;
use std::alloc::Global;
use std::collections::BTreeMap;

/// Of each URN and id the last row that has them.
type Things<'a> = BTreeMap<(&'a str, &'a str), u64>;

/// The rows of providers.
#[derive(Debug, Drop)]
pub struct Providers {
    /// By row, that of its provider.
    pub rows: Vec<Option<u64>>,
    /// By the place of a pending operation, that of its provider.
    pub pending: Vec<Option<u64>>,
}

/// The row of the provider of each row, among the rows before it, and of each pending operation, among all rows.
pub fn providers_of<'a>(
    alloc: Global,
    rows: &'a [Entry],
    pending: &'a [Pending],
) -> Result<Providers, OutOfMemory>
    ensures rows { IfOk result (λ made. made.rows.items ≡ of_rows (provider_row_of rows.now) rows.now) }
    ensures pending { IfOk result (λ made. made.pending.items
        ≡ map (λ one. last_provider one.entry.provider rows.now) pending.now) }
{
    let mut things = BTreeMap::new(alloc);
    let mut providers = Vec::new(alloc);
    for (place, row) in rows.iter().enumerate() {
        providers.push(provider_of(&things, row))?;
        add_thing(&mut things, row, place as u64)?;
    }
    let pending = providers_of_pending(alloc, &things, pending)?;
    Ok(Providers {
        rows: providers,
        pending,
    })
}

fn providers_of_pending<'a>(
    alloc: Global,
    things: &Things<'a>,
    pending: &'a [Pending],
) -> Result<Vec<Option<u64>>, OutOfMemory>
    ensures { IfOk result (λ made. made.items ≡ map (λ one. provider_in things.now one.entry.provider) pending.now) }
{
    let mut providers = Vec::new(alloc);
    for one in pending {
        providers.push(provider_of(things, &one.entry))?;
    }
    Ok(providers)
}

/// The row that is kept of the provider that an entry names.
fn provider_of<'a>(things: &Things<'a>, entry: &'a Entry) -> Option<u64>
    ensures { result ≡ provider_in things.now entry.now.provider }
{
    match &entry.provider {
        None => None,
        Some(reference) => {
            let key = (reference.urn.as_str(), reference.id.as_str());
            things.get(&key).copied()
        }
    }
}

/// Adds the next row, if it has an id.
fn add_thing<'a>(things: &mut Things<'a>, row: &'a Entry, place: u64) -> Result<(), OutOfMemory>
    ensures { OnOk result ((reference : ProviderRef) → thing_in things.new reference.urn reference.id
        ≡ (if is_provider reference row.now then Some place else thing_in things.old reference.urn reference.id)) }
{
    match &row.id {
        None => Ok(()),
        Some(id) => put_thing(things, row.urn.as_str(), id.as_str(), place),
    }
}

fn put_thing<'a>(
    things: &mut Things<'a>,
    urn: &'a str,
    id: &'a str,
    place: u64,
) -> Result<(), OutOfMemory>
    ensures { OnOk result ((one other : List ℕ) → thing_in things.new one other
        ≡ (if bytes_eq urn.now one && bytes_eq id.now other then Some place else thing_in things.old one other)) }
{
    things.insert((urn, id), place)?;
    Ok(())
}
