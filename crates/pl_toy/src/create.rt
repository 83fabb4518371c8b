ghost use Rattle.std.specs.Prelude.{◌≡◌, ℕ, ◌<◌, ◌≤◌, IfOk, OnOk};
ghost use Rattle.pl_urn.specs.Grammar.{name_of};
ghost use Rattle.pl_world.specs.Counts.{Rose};
ghost use Rattle.pl_world.specs.Causes.{OnFailed, OnNoMemory};
ghost use Rattle.pl_json.specs.Spelled.{fields_text};
ghost use Rattle.pl_toy.specs.Things.{Became, IsKeptOrBecame};
ghost use Rattle.pl_toy.specs.Table.{ForHeld, IfNowhere, is_long, made_at, number_for, numbered, place_by, with_created};

use crate::replying::refusal;
use crate::shelf::Shelf;
use pl_events::Reply;
use pl_json::text_of_fields;
use pl_urn::Urn;
use pl_value::{Fields, OutOfMemory, Text};
use pl_world::Trouble;
use std::alloc::Global;

/// The most bytes of an id.
const LONGEST_ID: usize = 100;

/// How many numbers a name has.
const MOST_NUMBERS: u64 = 1000;

/// Where a new thing was placed, if it was.
#[derive(Drop)]
enum Place {
    /// Under this id.
    Under(Text),
    /// Nowhere: the next id would be too long.
    LongName,
    /// Nowhere: each id of the name is taken.
    Full,
}

/// Whether an id has more bytes than an id may have.
pub(crate) fn is_long(id: &str) -> bool
    ensures { result ≡ is_long id.now }
{
    id.len() > LONGEST_ID
}

// The id of a thing by its name and its number.
fn numbered(alloc: Global, name: &str, number: u64) -> Result<Text, OutOfMemory>
    ensures { IfOk result (λ id. id ≡ numbered name.now number) }
{
    let id = format!(in alloc; "{name}-{number}")?;
    Ok(Text::from_string(id))
}

/// Puts a new thing on the shelf, under the least number of the URN's name that is free. After `OutOfMemory` nothing was
/// put there.
pub(crate) fn create<H: Shelf>(
    alloc: Global,
    shelf: &mut H,
    urn: &Urn,
    inputs: &Fields,
) -> Result<Reply, Trouble>
    ensures made { IfOk result (λ reply. ForHeld (H.things shelf.old) (λ held. reply ≡ made_at inputs.now (place_by (name_of urn.now) (number_for held (name_of urn.now))))) }
    ensures created { OnOk result (Became (with_created (name_of urn.now) (fields_text inputs.now)) (H.things shelf.old) (H.things shelf.new)) }
    ensures failed_rose { OnFailed result (Rose (H.faults shelf.old) (H.faults shelf.new)) }
    ensures failed_kept_or_created { OnFailed result (IsKeptOrBecame (with_created (name_of urn.now) (fields_text inputs.now)) (H.things shelf.old) (H.things shelf.new)) }
    ensures no_memory_kept { OnNoMemory result (H.things shelf.new ≡ H.things shelf.old) }
    ensures faults_never_fall { H.faults shelf.old ≤ H.faults shelf.new }
{
    let outputs = inputs.copy(alloc)?;
    let text = text_of_fields(alloc, inputs)?;
    match place_new(alloc, shelf, urn.name(), text.as_str().as_bytes())? {
        Place::Under(id) => Ok(Reply::Made { id, outputs }),
        Place::LongName => Ok(refusal(alloc, "long name")?),
        Place::Full => Ok(refusal(alloc, "shelf full")?),
    }
}

// Puts the bytes under the least number of the name that is free.
fn place_new<H: Shelf>(
    alloc: Global,
    shelf: &mut H,
    name: &str,
    bytes: &[u8],
) -> Result<Place, Trouble>
    ensures by_number { IfOk result (λ place. ForHeld (H.things shelf.old) (λ held. place ≡ place_by name.now (number_for held name.now))) }
    ensures created { OnOk result (Became (with_created name.now bytes.now) (H.things shelf.old) (H.things shelf.new)) }
    ensures nowhere_kept { IfOk result (λ place. IfNowhere place (H.things shelf.new ≡ H.things shelf.old)) }
    ensures failed_rose { OnFailed result (Rose (H.faults shelf.old) (H.faults shelf.new)) }
    ensures failed_kept_or_created { OnFailed result (IsKeptOrBecame (with_created name.now bytes.now) (H.things shelf.old) (H.things shelf.new)) }
    ensures no_memory_kept { OnNoMemory result (H.things shelf.new ≡ H.things shelf.old) }
    ensures faults_never_fall { H.faults shelf.old ≤ H.faults shelf.new }
{
    for number in 1..MOST_NUMBERS + 1 {
        let id = numbered(alloc, name, number)?;
        if is_long(id.as_str()) {
            return Ok(Place::LongName);
        }
        if shelf.put_new(alloc, id.as_str(), bytes)? {
            return Ok(Place::Under(id));
        }
    }
    Ok(Place::Full)
}
