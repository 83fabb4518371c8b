ghost use Rattle.std.specs.Prelude.{◌≡◌, ◌∷◌, ◌==◌, ◌||◌, [], ℕ, IfOk, OnOk, option_map};
ghost use Rattle.pl_state.specs.Chain.{first_protected, rows_at};
ghost use Rattle.pl_chain.specs.Claimed.{has_number, is_in};

use pl_state::Entry;
use pl_value::{OutOfMemory, Rows};
use std::alloc::Global;
use std::collections::BTreeSet;

/// The numbers of a list, as a set.
pub fn set_of(alloc: Global, rows: &Rows) -> Result<BTreeSet<u64>, OutOfMemory>
    ensures { IfOk result (λ set. (number : ℕ) → has_number set number ≡ is_in rows.now number) }
{
    let mut set = BTreeSet::new(alloc);
    for row in rows.as_slice() {
        add(&mut set, *row)?;
    }
    Ok(set)
}

fn add(set: &mut BTreeSet<u64>, number: u64) -> Result<(), OutOfMemory>
    ensures { OnOk result ((other : ℕ) → has_number set.new other ≡ (number == other || has_number set.old other)) }
{
    set.insert(number)?;
    Ok(())
}

/// The first of these rows that is protected and goes along: it is to be deleted, or no goal claims it.
pub fn first_protected<'a>(
    rows: &'a [Entry],
    claimed: &BTreeSet<u64>,
    places: &[u64],
) -> Option<&'a Entry>
    ensures { option_map (λ row. row.now) result ≡ first_protected (has_number claimed.now) (rows_at rows.now places.now) }
{
    for place in places {
        if let Some(row) = protected_at(rows, claimed, *place) {
            return Some(row);
        }
    }
    None
}

fn protected_at<'a>(rows: &'a [Entry], claimed: &BTreeSet<u64>, place: u64) -> Option<&'a Entry>
    ensures { option_map (λ row. row.now) result ≡ first_protected (has_number claimed.now) (rows_at rows.now (place ∷ [])) }
{
    let row = rows.get(place as usize)?;
    let along = row.doomed || !claimed.contains(&place);
    if along && row.protect {
        Some(row)
    } else {
        None
    }
}
