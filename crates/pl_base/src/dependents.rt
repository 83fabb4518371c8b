ghost use Rattle.std.specs.Prelude.{◌≡◌, ◌<◌, ◌++◌, [], ◌∷◌, ◌==◌, ℕ, filter, if◌then◌else◌, IfOk, length, List, OnOk, option_map, replicate, slice_get, true};
ghost use Rattle.std.specs.List.{flat_map};
ghost use Rattle.std.specs.Str.{bytes_eq};
ghost use Rattle.pl_lemmas.specs.Words.{has_number, option_list};
ghost use Rattle.pl_state.specs.References.{property_urns};
ghost use Rattle.pl_base.specs.Dependents as spec;
ghost use Rattle.pl_base.specs.Rows.{of_rows};

use pl_reference::ProviderRef;
use pl_state::Entry;
use pl_urn::Urn;
use pl_value::{OutOfMemory, Rows};
use std::alloc::Global;
use std::collections::BTreeMap;

/// Of each URN the rows that have it.
type Groups<'a> = BTreeMap<&'a str, Vec<u64>>;

/// By row, the rows after it that refer to it, rising.
pub fn dependents_of(alloc: Global, rows: &[Entry]) -> Result<Vec<Rows>, OutOfMemory>
    ensures { IfOk result (λ made. made.items ≡ of_rows (spec.dependents_of rows.now) rows.now) }
{
    let mut lists = no_lists(alloc, rows.len())?;
    fill(alloc, lists.as_mut_slice(), rows)?;
    Ok(lists)
}

fn no_lists(alloc: Global, count: usize) -> Result<Vec<Rows>, OutOfMemory>
    ensures { IfOk result (λ lists. lists.items ≡ replicate count []) }
{
    let mut lists = Vec::new(alloc);
    for _ in 0..count {
        lists.push(Rows::new(alloc))?;
    }
    Ok(lists)
}

/// Puts each row at the end of the lists of the rows that it refers to.
fn fill(alloc: Global, lists: &mut [Rows], rows: &[Entry]) -> Result<(), OutOfMemory>
    requires { lists.old ≡ replicate (length rows.now) [] }
    ensures { OnOk result (lists.new ≡ of_rows (spec.dependents_of rows.now) rows.now) }
{
    let mut groups = BTreeMap::new(alloc);
    for (place, row) in rows.iter().enumerate() {
        let met = met_rows(alloc, rows, &groups, row)?;
        join_all(lists, met.as_slice(), place as u64)?;
        add_place(&mut groups, row.urn.as_str(), place as u64)?;
    }
    Ok(())
}

fn add_place<'a>(groups: &mut Groups<'a>, urn: &'a str, place: u64) -> Result<(), OutOfMemory>
    ensures { OnOk result ((other : List ℕ) → spec.group_in groups.new other
        ≡ (if bytes_eq urn.now other then spec.group_in groups.old other ++ place ∷ [] else spec.group_in groups.old other)) }
{
    groups.entry(urn)?.or_default().push(place)?;
    Ok(())
}

fn group_of<'g>(groups: &'g Groups<'_>, urn: &str) -> &'g [u64]
    ensures { result.now ≡ spec.group_in groups.now urn.now }
{
    match groups.get(urn) {
        None => &[],
        Some(group) => group.as_slice(),
    }
}

/// The rows in the index that a row refers to, some of them more than once.
fn met_rows(
    alloc: Global,
    rows: &[Entry],
    groups: &Groups<'_>,
    row: &Entry,
) -> Result<Vec<u64>, OutOfMemory>
    ensures { IfOk result (λ met. met.items ≡ spec.met_by rows.now groups.now row.now) }
{
    let mut met = Vec::new(alloc);
    push_optional(&mut met, groups, &row.parent)?;
    push_provider(&mut met, rows, groups, &row.provider)?;
    push_urns(&mut met, groups, row.dependencies.as_slice())?;
    for pair in row.property_dependencies.as_slice() {
        push_urns(&mut met, groups, pair.1.as_slice())?;
    }
    push_optional(&mut met, groups, &row.deleted_with)?;
    Ok(met)
}

fn push_group(met: &mut Vec<u64>, groups: &Groups<'_>, urn: &Urn) -> Result<(), OutOfMemory>
    ensures { OnOk result (met.new.items ≡ met.old.items ++ spec.group_in groups.now urn.now) }
{
    met.extend_from_slice(group_of(groups, urn.as_str()))?;
    Ok(())
}

fn push_optional(
    met: &mut Vec<u64>,
    groups: &Groups<'_>,
    urn: &Option<Urn>,
) -> Result<(), OutOfMemory>
    ensures { OnOk result (met.new.items ≡ met.old.items ++ flat_map (spec.group_in groups.now) (option_list urn.now)) }
{
    match urn {
        None => Ok(()),
        Some(urn) => push_group(met, groups, urn),
    }
}

fn push_urns(met: &mut Vec<u64>, groups: &Groups<'_>, urns: &[Urn]) -> Result<(), OutOfMemory>
    ensures { OnOk result (met.new.items ≡ met.old.items ++ flat_map (spec.group_in groups.now) urns.now) }
{
    for urn in urns {
        push_group(met, groups, urn)?;
    }
    Ok(())
}

fn push_provider(
    met: &mut Vec<u64>,
    rows: &[Entry],
    groups: &Groups<'_>,
    provider: &Option<ProviderRef>,
) -> Result<(), OutOfMemory>
    ensures { OnOk result (met.new.items
        ≡ met.old.items ++ flat_map (spec.providers_in rows.now groups.now) (option_list provider.now)) }
{
    match provider {
        None => Ok(()),
        Some(reference) => {
            let group = group_of(groups, reference.urn.as_str());
            push_things(met, rows, group, reference.id.as_str())
        }
    }
}

fn push_things(
    met: &mut Vec<u64>,
    rows: &[Entry],
    places: &[u64],
    id: &str,
) -> Result<(), OutOfMemory>
    ensures { OnOk result (met.new.items ≡ met.old.items ++ filter (spec.has_id rows.now id.now) places.now) }
{
    for place in places {
        if has_id(rows, *place, id) {
            met.push(*place)?;
        }
    }
    Ok(())
}

fn has_id(rows: &[Entry], place: u64, id: &str) -> bool
    ensures { result ≡ spec.has_id rows.now id.now place }
{
    match rows.get(place as usize) {
        None => false,
        Some(row) => match &row.id {
            None => false,
            Some(own) => own.as_str() == id,
        },
    }
}

/// Puts a row at the end of the lists of these rows, once.
fn join_all(lists: &mut [Rows], places: &[u64], later: u64) -> Result<(), OutOfMemory>
    requires { (row : ℕ) → has_number places.now row ≡ true → row < length lists.old }
    ensures { OnOk result ((row : ℕ) → slice_get lists.new row
        ≡ option_map (spec.joined_if (has_number places.now row) later) (slice_get lists.old row)) }
{
    for place in places {
        join(lists, *place, later)?;
    }
    Ok(())
}

fn join(lists: &mut [Rows], at: u64, later: u64) -> Result<(), OutOfMemory>
    requires { at < length lists.old }
    ensures { OnOk result ((row : ℕ) → slice_get lists.new row
        ≡ option_map (spec.joined_if (at == row) later) (slice_get lists.old row)) }
{
    join_list(&mut lists[at as usize], later)
}

fn join_list(list: &mut Rows, later: u64) -> Result<(), OutOfMemory>
    ensures { OnOk result (list.new ≡ spec.joined later list.old) }
{
    if ends_in(list, later) {
        return Ok(());
    }
    list.push(later)
}

fn ends_in(list: &Rows, later: u64) -> bool
    ensures { result ≡ spec.ends_in later list.now }
{
    let count = list.len();
    if count == 0 {
        return false;
    }
    match list.get(count - 1) {
        None => false,
        Some(last) => last == later,
    }
}
