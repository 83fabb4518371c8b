ghost use Rattle.std.specs.Prelude.{◌≡◌, OnOk};
ghost use Rattle.serde_json.specs.Data.{no_items};
ghost use Rattle.serde_json.specs.View.{items_view, members_view, view};
ghost use Rattle.pl_checkpoint_text.specs.Read.{count_items, count_of, deployment_keys, deployment_of, if_sound, makes_one, Tells, TellsAs, with_own_manifest, within_limit};
ghost use Rattle.pl_checkpoint_text.specs.ReadEntry.{entry_in, other_members, pending_in, unread_of};
ghost use Rattle.pl_checkpoint_text.specs.ReadField.{elements, items_in, optional};

use crate::entry::entry_in;
use crate::kept::{other_members, unread_of};
use crate::kinds::{given, wrong_kind};
use crate::operation::pending_in;
use crate::path::{element_path, field_path};
use crate::reader::members_if_some;
use pl_checkpoint_text::{Members, ReadFault};
use pl_sound::is_sound;
use pl_state::{BadCheckpoint, Entries, MOST_RESOURCES, Pendings, Snapshot, UnsoundOrMemory};
use pl_value::{OutOfMemory, Text};
use serde_json::{Map, Value as Json, put};
use std::alloc::Global;

/// The keys of a deployment that are read.
const DEPLOYMENT_KEYS: [&str; 2] = ["pending_operations", "resources"];

/// The state of a stack of this name, whose deployment has these members and stands at the path.
#[tactic(auto, unfolding(pl_checkpoint_text::specs::Read::deployment_of))]
pub fn deployment_of(
    alloc: Global,
    path: &str,
    stack: Text,
    members: &Members,
) -> Result<Snapshot, ReadFault>
    ensures { Tells (deployment_of path.now stack (members_view members.now.entries)) result }
{
    let resources = items_at(alloc, members, path, "resources")?;
    let operations = items_at(alloc, members, path, "pending_operations")?;
    let _ = members_if_some(alloc, members, path, "manifest")?;
    check_count(resources, operations)?;
    let rest = deployment_rest(alloc, members, path)?;
    let entries = entries_of(
        alloc,
        resources,
        field_path(alloc, path, "resources")?.as_str(),
    )?;
    let pending = pendings_of(
        alloc,
        operations,
        field_path(alloc, path, "pending_operations")?.as_str(),
    )?;
    if_sound(
        alloc,
        Snapshot {
            stack,
            entries,
            pending,
            rest,
        },
    )
}

/// A list; an empty one where it is absent.
#[tactic(auto, unfolding(pl_checkpoint_text::specs::ReadField::optional))]
fn items_at<'a>(
    alloc: Global,
    members: &'a Members,
    path: &str,
    key: &str,
) -> Result<&'a [Json], ReadFault>
    ensures { TellsAs (λ items. items_view items.now)
        (optional no_items items_in path.now key.now (members_view members.now.entries)) result }
{
    let Some(value) = given(members, key) else {
        return Ok(&[]);
    };
    match value.as_array() {
        Some(items) => Ok(items.as_slice()),
        None => Err(wrong_kind(field_path(alloc, path, key)?)),
    }
}

fn check_count(resources: &[Json], operations: &[Json]) -> Result<(), ReadFault>
    ensures { Tells (within_limit (count_of (items_view resources.now) (items_view operations.now))) result }
{
    let making = making_operations(operations);
    let Some(count) = (resources.len() as u64).checked_add(making) else {
        return Err(ReadFault::OutOfMemory);
    };
    if count > MOST_RESOURCES {
        return Err(ReadFault::Bad(BadCheckpoint::TooMany(count)));
    }
    Ok(())
}

/// How many of the operations may make a resource.
fn making_operations(operations: &[Json]) -> u64
    ensures { result ≡ count_items makes_one (items_view operations.now) }
{
    let mut count = 0;
    for operation in operations {
        if may_make(operation) {
            count += 1;
        }
    }
    count
}

fn may_make(operation: &Json) -> bool
    ensures { result ≡ makes_one (view operation.now) }
{
    match operation.get("type").and_then(Json::as_str) {
        Some("updating" | "deleting") => false,
        _ => true,
    }
}

/// The text of the fields that are kept unread, of the deployment at the path.
fn deployment_rest(alloc: Global, members: &Members, path: &str) -> Result<Text, ReadFault>
    ensures { Tells (unread_of path.now
        (with_own_manifest (other_members deployment_keys (members_view members.now.entries)))) result }
{
    let mut others = other_members(alloc, members, &DEPLOYMENT_KEYS)?;
    add_manifest(alloc, &mut others)?;
    unread_of(alloc, others, path)
}

/// Puts an empty manifest where there is none or a null one.
fn add_manifest(alloc: Global, members: &mut Members) -> Result<(), OutOfMemory>
    ensures { OnOk result (members_view members.new.entries ≡ with_own_manifest (members_view members.old.entries)) }
{
    if given(members, "manifest").is_none() {
        put(members, alloc, "manifest", Json::Object(Map::new(alloc)))?;
    }
    Ok(())
}

/// The elements of the list of resources at the path.
#[tactic(auto, unfolding(pl_checkpoint_text::specs::ReadField::elements))]
fn entries_of(alloc: Global, items: &[Json], path: &str) -> Result<Entries, ReadFault>
    ensures { Tells (elements entry_in path.now 0 (items_view items.now)) result }
{
    let mut entries = Entries::new(alloc);
    for (place, item) in items.iter().enumerate() {
        let path = element_path(alloc, path, place)?;
        let entry = entry_in(alloc, item, path)?;
        entries.push(entry)?;
    }
    Ok(entries)
}

/// The elements of the list of pending operations at the path.
#[tactic(auto, unfolding(pl_checkpoint_text::specs::ReadField::elements))]
fn pendings_of(alloc: Global, items: &[Json], path: &str) -> Result<Pendings, ReadFault>
    ensures { Tells (elements pending_in path.now 0 (items_view items.now)) result }
{
    let mut pendings = Pendings::new(alloc);
    for (place, item) in items.iter().enumerate() {
        let path = element_path(alloc, path, place)?;
        let pending = pending_in(alloc, item, path)?;
        pendings.push(pending)?;
    }
    Ok(pendings)
}

/// The state, where it is sound.
fn if_sound(alloc: Global, state: Snapshot) -> Result<Snapshot, ReadFault>
    ensures { Tells (if_sound state) result }
{
    match is_sound(alloc, &state.entries) {
        Ok(()) => Ok(state),
        Err(UnsoundOrMemory::Unsound(fault)) => Err(ReadFault::Bad(BadCheckpoint::Unsound(fault))),
        Err(UnsoundOrMemory::OutOfMemory) => Err(ReadFault::OutOfMemory),
    }
}
