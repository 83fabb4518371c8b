ghost use Rattle.std.specs.Prelude.{◌≡◌, ℕ, if◌then◌else◌, IfOk, List, OnOk, option_and_then, Some};
ghost use Rattle.std.specs.Str.{bytes_eq};
ghost use Rattle.pl_refresh.specs.Parents.{place_in};
ghost use Rattle.pl_state.specs.Chain.{deleter_row_of};
ghost use Rattle.pl_base.specs.Rows.{of_rows};

use pl_state::Entry;
use pl_value::OutOfMemory;
use std::alloc::Global;
use std::collections::BTreeMap;

/// Of each URN the last row that has it.
type Places<'a> = BTreeMap<&'a str, u64>;

/// By row, the last row before it with the URN that it is deleted with.
pub fn deleters_of(alloc: Global, rows: &[Entry]) -> Result<Vec<Option<u64>>, OutOfMemory>
    ensures { IfOk result (λ made. made.items ≡ of_rows (deleter_row_of rows.now) rows.now) }
{
    let mut places = BTreeMap::new(alloc);
    let mut deleters = Vec::new(alloc);
    for (place, row) in rows.iter().enumerate() {
        deleters.push(deleter_of(&places, row))?;
        put_place(&mut places, row.urn.as_str(), place as u64)?;
    }
    Ok(deleters)
}

fn deleter_of(places: &Places<'_>, row: &Entry) -> Option<u64>
    ensures { result ≡ option_and_then (place_in places.now) row.now.deleted_with }
{
    match &row.deleted_with {
        None => None,
        Some(urn) => places.get(urn.as_str()).copied(),
    }
}

fn put_place<'a>(places: &mut Places<'a>, urn: &'a str, place: u64) -> Result<(), OutOfMemory>
    ensures { OnOk result ((other : List ℕ) →
        place_in places.new other ≡ (if bytes_eq urn.now other then Some place else place_in places.old other)) }
{
    places.insert(urn, place)?;
    Ok(())
}
