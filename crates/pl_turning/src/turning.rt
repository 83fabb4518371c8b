ghost use Rattle.std.specs.Prelude.{◌≡◌, ◌||◌, bytes_eq, IfOk, map, option_map};
ghost use Rattle.std.specs.List.{list_any};
ghost use Rattle.pl_lemmas.specs.Words.{some_passes};
ghost use Rattle.pl_turning.specs.Turning.{is_urn, mentions, turned, turned_entry, turned_pairs, turned_reference};

use pl_reference::{KeyedUrns, ProviderRef, Urns};
use pl_state::Entry;
use pl_urn::Urn;
use pl_value::OutOfMemory;
use std::alloc::Global;

/// Whether both have the same text.
pub fn is_same(urn: &Urn, other: &Urn) -> bool
    ensures { result ≡ bytes_eq urn.now other.now }
{
    urn.as_str() == other.as_str()
}

fn is_there(urn: &Urn, other: &Option<Urn>) -> bool
    ensures { result ≡ some_passes (is_urn urn.now) other.now }
{
    match other {
        None => false,
        Some(other) => is_same(other, urn),
    }
}

fn is_of_reference(urn: &Urn, other: &Option<ProviderRef>) -> bool
    ensures { result ≡ some_passes (λ reference. is_urn urn.now reference.urn) other.now }
{
    match other {
        None => false,
        Some(other) => is_same(&other.urn, urn),
    }
}

fn is_among(urn: &Urn, others: &[Urn]) -> bool
    ensures { result ≡ list_any (is_urn urn.now) others.now }
{
    others.iter().any(|other| is_same(other, urn))
}

fn is_among_pairs(urn: &Urn, others: &KeyedUrns) -> bool
    ensures { result ≡ list_any (λ pair. list_any (is_urn urn.now) pair.1) others.now }
{
    let pairs = others.as_slice();
    pairs.iter().any(|pair| is_among(urn, pair.1.as_slice()))
}

/// Whether a URN is an entry's own or that of one of its references.
pub fn has_mention(urn: &Urn, entry: &Entry) -> bool
    ensures { result ≡ mentions urn.now entry.now }
{
    is_same(&entry.urn, urn)
        || is_there(urn, &entry.parent)
        || is_of_reference(urn, &entry.provider)
        || is_among(urn, entry.dependencies.as_slice())
        || is_among_pairs(urn, &entry.property_dependencies)
        || is_there(urn, &entry.deleted_with)
}

fn turn(urn: &Urn, old: &Urn, new: &Urn) -> Result<Urn, OutOfMemory>
    ensures { IfOk result (λ made. made ≡ turned (record { old = old.now; new = new.now }) urn.now) }
{
    if is_same(urn, old) {
        Ok(new.copy()?)
    } else {
        Ok(urn.copy()?)
    }
}

fn turn_option(urn: &Option<Urn>, old: &Urn, new: &Urn) -> Result<Option<Urn>, OutOfMemory>
    ensures { IfOk result (λ made. made ≡ option_map (turned (record { old = old.now; new = new.now })) urn.now) }
{
    match urn {
        None => Ok(None),
        Some(urn) => {
            let made = turn(urn, old, new)?;
            Ok(Some(made))
        }
    }
}

fn turn_reference(
    reference: &Option<ProviderRef>,
    old: &Urn,
    new: &Urn,
) -> Result<Option<ProviderRef>, OutOfMemory>
    ensures { IfOk result (λ made. made ≡ option_map (turned_reference (record { old = old.now; new = new.now })) reference.now) }
{
    match reference {
        None => Ok(None),
        Some(reference) => {
            let urn = turn(&reference.urn, old, new)?;
            let id = reference.id.copy()?;
            Ok(Some(ProviderRef { urn, id }))
        }
    }
}

fn turn_all(alloc: Global, urns: &Urns, old: &Urn, new: &Urn) -> Result<Urns, OutOfMemory>
    ensures { IfOk result (λ made. made ≡ map (turned (record { old = old.now; new = new.now })) urns.now) }
{
    let mut made = Urns::new(alloc);
    for urn in urns.as_slice() {
        let urn = turn(urn, old, new)?;
        made.push(urn)?;
    }
    Ok(made)
}

fn turn_pairs(
    alloc: Global,
    pairs: &KeyedUrns,
    old: &Urn,
    new: &Urn,
) -> Result<KeyedUrns, OutOfMemory>
    ensures { IfOk result (λ made. made ≡ turned_pairs (record { old = old.now; new = new.now }) pairs.now) }
{
    let mut made = KeyedUrns::new(alloc);
    for pair in pairs.as_slice() {
        let property = pair.0.copy()?;
        let urns = turn_all(alloc, &pair.1, old, new)?;
        made.push((property, urns))?;
    }
    Ok(made)
}

/// A copy of an entry with a URN turned into another one, its own and those of its references.
pub fn turn_entry(alloc: Global, entry: &Entry, old: &Urn, new: &Urn) -> Result<Entry, OutOfMemory>
    ensures { IfOk result (λ made. made ≡ turned_entry entry.now (record { old = old.now; new = new.now })) }
{
    let mut made = entry.copy(alloc)?;
    made.urn = turn(&entry.urn, old, new)?;
    made.parent = turn_option(&entry.parent, old, new)?;
    made.provider = turn_reference(&entry.provider, old, new)?;
    made.dependencies = turn_all(alloc, &entry.dependencies, old, new)?;
    made.property_dependencies = turn_pairs(alloc, &entry.property_dependencies, old, new)?;
    made.deleted_with = turn_option(&entry.deleted_with, old, new)?;
    Ok(made)
}
