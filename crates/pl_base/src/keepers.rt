ghost use Rattle.std.specs.Prelude.{◌≡◌, ℕ, if◌then◌else◌, IfOk, List, None, OnOk, Some};
ghost use Rattle.std.specs.BTreeMap.{get_by_text};
ghost use Rattle.std.specs.Option.{option_or};
ghost use Rattle.std.specs.Str.{bytes_eq};
ghost use Rattle.pl_state.specs.References.{keeps_urn};
ghost use Rattle.pl_base.specs.Index.{LeadsToKeepers};

use pl_state::Entry;
use pl_value::OutOfMemory;
use std::alloc::Global;
use std::collections::BTreeMap;

/// The row that stands under a URN.
pub fn keeper_in(keepers: &BTreeMap<String, u64>, urn: &str) -> Option<u64>
    ensures { result ≡ get_by_text keepers.now urn.now }
{
    keepers.get(urn).copied()
}

/// Of each URN the first row that keeps it.
pub fn keepers_of(alloc: Global, rows: &[Entry]) -> Result<BTreeMap<String, u64>, OutOfMemory>
    ensures { IfOk result (λ keepers. LeadsToKeepers keepers rows.now) }
{
    let mut keepers = BTreeMap::new(alloc);
    for (place, row) in rows.iter().enumerate() {
        add_keeper(alloc, &mut keepers, row, place as u64)?;
    }
    Ok(keepers)
}

/// Adds the next row, where none before it keeps its URN.
fn add_keeper(
    alloc: Global,
    keepers: &mut BTreeMap<String, u64>,
    row: &Entry,
    place: u64,
) -> Result<(), OutOfMemory>
    ensures { OnOk result ((urn : List ℕ) → get_by_text keepers.new urn
        ≡ option_or (get_by_text keepers.old urn) (if keeps_urn urn row.now then Some place else None)) }
{
    if row.doomed {
        return Ok(());
    }
    add_first(alloc, keepers, row.urn.as_str(), place)
}

/// Puts a place under a URN, where none stands there yet.
fn add_first(
    alloc: Global,
    keepers: &mut BTreeMap<String, u64>,
    urn: &str,
    place: u64,
) -> Result<(), OutOfMemory>
    ensures { OnOk result ((other : List ℕ) → get_by_text keepers.new other
        ≡ option_or (get_by_text keepers.old other) (if bytes_eq urn.now other then Some place else None)) }
{
    if keepers.contains_key(urn) {
        return Ok(());
    }
    let key = String::from_str(alloc, urn)?;
    keepers.insert(key, place)?;
    Ok(())
}
