ghost use Rattle.std.specs.Prelude.{◌≡◌, ◌++◌, [], false, IfOk, if◌then◌else◌, map, None, Some};
ghost use Rattle.pl_json.specs.Faults.{behind, element_step, key_step};
ghost use Rattle.pl_checkpoint_text.specs.Formed.{is_one_of, is_whole};
ghost use Rattle.pl_checkpoint_text.specs.Read.{Tells};
ghost use Rattle.pl_checkpoint_text.specs.ReadEntry.{entry_keys, items_fault, members_fault, other_members, unread_fault, unread_of};
ghost use Rattle.serde_json.specs.Data.{object};
ghost use Rattle.serde_json.specs.View.{items_view, members_view, number_view, view};
ghost use Rattle.serde_json.specs.Written.{compact_text, members_have_float};

use crate::version::is_whole;
use pl_checkpoint_text::{Members, ReadFault};
use pl_state::BadCheckpoint;
use pl_value::{JsonFault, OutOfMemory, Text};
use serde_json::{Map, Number, Value as Json, put};
use std::alloc::Global;

/// How many lists and objects may stand in each other in a field that is kept unread.
const MOST_LEVELS: u64 = 64;

/// The keys of an entry that are read.
const ENTRY_KEYS: [&str; 20] = [
    "additionalSecretOutputs",
    "aliases",
    "custom",
    "delete",
    "deletedWith",
    "dependencies",
    "external",
    "id",
    "importID",
    "initErrors",
    "inputs",
    "outputs",
    "parent",
    "pendingReplacement",
    "propertyDependencies",
    "protect",
    "provider",
    "retainOnDelete",
    "type",
    "urn",
];

/// The text of the fields that are kept unread, of the entry at the path.
pub fn entry_rest(alloc: Global, members: &Members, path: &str) -> Result<Text, ReadFault>
    ensures { Tells (unread_of path.now (other_members entry_keys (members_view members.now.entries))) result }
{
    let others = other_members(alloc, members, &ENTRY_KEYS)?;
    unread_of(alloc, others, path)
}

/// The members that have none of these keys.
pub fn other_members(
    alloc: Global,
    members: &Members,
    keys: &[&str],
) -> Result<Members, OutOfMemory>
    ensures { IfOk result (λ others. members_view others.entries
        ≡ other_members (map (λ own. own.now) keys.now) (members_view members.now.entries)) }
{
    let mut others = Map::new(alloc);
    for (key, value) in members.iter() {
        if !is_one_of(keys, key.as_str()) {
            put(&mut others, alloc, key.as_str(), value.clone()?)?;
        }
    }
    Ok(others)
}

fn is_one_of(keys: &[&str], key: &str) -> bool
    ensures { result ≡ is_one_of (map (λ own. own.now) keys.now) key.now }
{
    for own in keys {
        if *own == key {
            return true;
        }
    }
    false
}

/// The text of the members that are kept unread, of the object at the path.
#[tactic(auto, unfolding(pl_checkpoint_text::specs::ReadEntry::unread_of))]
pub fn unread_of(alloc: Global, members: Members, path: &str) -> Result<Text, ReadFault>
    ensures { Tells (unread_of path.now (members_view members.entries)) result }
{
    if let Some(fault) = members_fault(alloc, &members, MOST_LEVELS)? {
        let fault = behind(alloc, path, fault)?;
        return Err(ReadFault::Bad(BadCheckpoint::BadValue(fault)));
    }
    Ok(text_of(alloc, members)?)
}

/// The text of an object of these members.
fn text_of(alloc: Global, members: Members) -> Result<Text, OutOfMemory>
    ensures { IfOk result (λ text. members_have_float (members_view members.entries) ≡ false
        → text ≡ compact_text (object (members_view members.entries))) }
{
    let text = Json::Object(members).to_string(alloc)?;
    Ok(Text::from_string(text))
}

/// Why the value is not kept unread, where so many lists and objects may stand in each other.
#[cycle(unread_fault)]
fn unread_fault(alloc: Global, value: &Json, levels: u64) -> Result<Option<JsonFault>, OutOfMemory>
    ensures { IfOk result (λ fault. fault ≡ unread_fault levels (view value.now)) }
{
    match value {
        Json::Number(number) => Ok(number_fault(alloc, number)),
        Json::Array(items) => match levels.checked_sub(1) {
            Some(inside) => items_fault(alloc, items.as_slice(), inside),
            None => Ok(Some(JsonFault::TooDeep(no_path(alloc)))),
        },
        Json::Object(members) => match levels.checked_sub(1) {
            Some(inside) => members_fault(alloc, members, inside),
            None => Ok(Some(JsonFault::TooDeep(no_path(alloc)))),
        },
        _ => Ok(None),
    }
}

fn number_fault(alloc: Global, number: &Number) -> Option<JsonFault>
    ensures { result ≡ (if is_whole (number_view number.now) then None else Some (JsonFault.NotWhole [])) }
{
    if is_whole(number) {
        return None;
    }
    Some(JsonFault::NotWhole(no_path(alloc)))
}

#[cycle(unread_fault)]
fn items_fault(alloc: Global, items: &[Json], levels: u64) -> Result<Option<JsonFault>, OutOfMemory>
    ensures { IfOk result (λ fault. fault ≡ items_fault levels 0 (items_view items.now)) }
{
    for (place, item) in items.iter().enumerate() {
        if let Some(fault) = unread_fault(alloc, item, levels)? {
            return Ok(Some(in_element(alloc, place, fault)?));
        }
    }
    Ok(None)
}

#[cycle(unread_fault)]
fn members_fault(
    alloc: Global,
    members: &Members,
    levels: u64,
) -> Result<Option<JsonFault>, OutOfMemory>
    ensures { IfOk result (λ fault. fault ≡ members_fault levels (members_view members.now.entries)) }
{
    for (key, value) in members.iter() {
        if let Some(fault) = unread_fault(alloc, value, levels)? {
            return Ok(Some(in_field(alloc, key.as_str(), fault)?));
        }
    }
    Ok(None)
}

fn in_element(alloc: Global, place: usize, fault: JsonFault) -> Result<JsonFault, OutOfMemory>
    ensures { IfOk result (λ made. made ≡ behind (element_step place) fault) }
{
    let step = format!(in alloc; "[{place}]")?;
    behind(alloc, step.as_str(), fault)
}

fn in_field(alloc: Global, key: &str, fault: JsonFault) -> Result<JsonFault, OutOfMemory>
    ensures { IfOk result (λ made. made ≡ behind (key_step key.now) fault) }
{
    let step = format!(in alloc; ".{key}")?;
    behind(alloc, step.as_str(), fault)
}

/// The fault with this before its path.
fn behind(alloc: Global, step: &str, fault: JsonFault) -> Result<JsonFault, OutOfMemory>
    ensures { IfOk result (λ made. made ≡ behind step.now fault) }
{
    Ok(match fault {
        JsonFault::NotWhole(path) => JsonFault::NotWhole(joined(alloc, step, &path)?),
        JsonFault::SecretSealed(path) => JsonFault::SecretSealed(joined(alloc, step, &path)?),
        JsonFault::BadSecret(path) => JsonFault::BadSecret(joined(alloc, step, &path)?),
        JsonFault::TooDeep(path) => JsonFault::TooDeep(joined(alloc, step, &path)?),
        JsonFault::OutOfMemory => JsonFault::OutOfMemory,
    })
}

fn joined(alloc: Global, first: &str, second: &Text) -> Result<Text, OutOfMemory>
    ensures { IfOk result (λ made. made ≡ first.now ++ second.now) }
{
    let second = second.as_str();
    Ok(Text::from_string(format!(in alloc; "{first}{second}")?))
}

/// The path of a value that stands alone; takes no memory.
fn no_path(alloc: Global) -> Text
    ensures { result ≡ [] }
{
    Text::from_string(String::new(alloc))
}
