ghost use Rattle.std.specs.Prelude.{◌≡◌, [], ◌∷◌, IfOk, length, List, map, option_map};
ghost use Rattle.pl_lemmas.specs.Words.{option_list};
ghost use Rattle.pl_state.specs.declared.entry.Entry.{Entry};
ghost use Rattle.pl_refresh.specs.Covers.{Covers};
ghost use Rattle.pl_refresh.specs.Refreshed.{imported_left, pruned, pruned_behind, pruned_row, replaced_left, rows_left};

use crate::ancestry::Ancestry;
use crate::references::{deleter_left, keyed_left, parent_left, provider_left, urns_left};
use crate::row_now::RowNow;
use crate::rows_now::RowsNow;
use crate::standing::{Standing, index_of};
use pl_sound::Seen;
use pl_state::{Entries, Entry};
use pl_value::OutOfMemory;
use std::alloc::Global;

/// The entries after a refresh: what is left of the base, then the imported entries. A row is to be deleted where an
/// imported entry has its URN. A reference that no earlier entry of the result meets is left out, but in place of a
/// parent stands the nearest ancestor that is there. Its time grows with the number of rows and references, times the
/// logarithm of the number of rows; a row whose parent is gone adds the number of its ancestors that are gone.
pub fn prune(
    alloc: Global,
    base: &Entries,
    now: &RowsNow,
    imported: &Entries,
) -> Result<Entries, OutOfMemory>
    ensures { IfOk result (λ left. left ≡ pruned base.now now.now imported.now) }
{
    let base = base.as_slice();
    let imported = imported.as_slice();
    let (standing, ancestry) = pruned_base(alloc, base, now, imported)?;
    let standing = with_imported(alloc, standing, &ancestry, imported)?;
    Ok(standing.into_rows())
}

fn pruned_base<'a>(
    alloc: Global,
    base: &'a [Entry],
    now: &'a RowsNow,
    imported: &'a [Entry],
) -> Result<(Standing<'a>, Ancestry<'a>), OutOfMemory>
    ensures left { IfOk result (λ both.
        both.0 ≡ pruned_behind base.now [] (map (replaced_left imported.now) (rows_left 0 base.now now.now))) }
    ensures passed { IfOk result (λ both. both.1 ≡ base.now) }
{
    let taken = index_of(alloc, imported)?;
    let mut standing = Standing::new(alloc);
    let mut ancestry = Ancestry::new(alloc, base);
    for (place, row) in base.iter().enumerate() {
        if let Some(left) = row_left(row, now.get(place)) {
            let made = replaced_row(alloc, &standing, &taken, &ancestry, left)?;
            standing = standing.with(left, made)?;
        }
        ancestry = ancestry.with(&base[..place + 1], row)?;
    }
    Ok((standing, ancestry))
}

/// What is left of a row, by what was found in its place.
fn row_left<'a>(row: &'a Entry, found: Option<&'a RowNow>) -> Option<&'a Entry>
    ensures { option_list (option_map (λ left. left.now) result)
        ≡ map (λ left. left.row) (rows_left 0 (row.now ∷ []) (option_list (option_map (λ one. one.now) found.entry))) }
{
    match found {
        None => Some(row),
        Some(RowNow::AsItWas) => Some(row),
        Some(RowNow::Found(entry)) => Some(entry),
        Some(RowNow::Gone) => None,
    }
}

fn with_imported<'a>(
    alloc: Global,
    standing: Standing<'a>,
    ancestry: &Ancestry<'a>,
    imported: &'a [Entry],
) -> Result<Standing<'a>, OutOfMemory>
    ensures { IfOk result (λ all. all ≡ pruned_behind ancestry.now standing.entry (imported_left ancestry.now imported.now)) }
{
    let mut standing = standing;
    for row in imported {
        let made = pruned_row(alloc, &standing, ancestry, row)?;
        standing = standing.with(row, made)?;
    }
    Ok(standing)
}

/// A row of the base without the references that no entry of the result meets, to be deleted where an imported entry
/// has its URN.
fn replaced_row<'a>(
    alloc: Global,
    standing: &Standing<'a>,
    taken: &Seen<'_>,
    ancestry: &Ancestry<'a>,
    row: &'a Entry,
) -> Result<Entry, OutOfMemory>
    ensures { (imported : List Entry) → Covers taken.now imported → IfOk result (λ made.
        made ≡ pruned_row ancestry.now standing.now (replaced_left imported (record { place = length ancestry.now; row = row.now }))) }
{
    let mut made = pruned_row(alloc, standing, ancestry, row)?;
    if taken.has_urn(&row.urn) {
        made.doomed = true;
        Ok(made)
    } else {
        Ok(made)
    }
}

/// A row without the references that no entry of the result meets.
fn pruned_row<'a>(
    alloc: Global,
    standing: &Standing<'a>,
    ancestry: &Ancestry<'a>,
    row: &'a Entry,
) -> Result<Entry, OutOfMemory>
    ensures { IfOk result (λ made. made ≡ pruned_row ancestry.now standing.now (record { place = length ancestry.now; row = row.now })) }
{
    let mut made = row.copy(alloc)?;
    made.parent = parent_left(standing, ancestry, row)?;
    made.provider = provider_left(standing, &row.provider)?;
    made.dependencies = urns_left(alloc, standing, row.dependencies.as_slice())?;
    made.property_dependencies = keyed_left(alloc, standing, row.property_dependencies.as_slice())?;
    made.deleted_with = deleter_left(standing, row)?;
    Ok(made)
}
