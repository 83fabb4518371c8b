ghost use Rattle.std.specs.Prelude.{◌≡◌, [], IfErr, IfOk, Ok, option_map, Some, unwrap_or};
ghost use Rattle.serde_json.specs.Data.{no_members};
ghost use Rattle.serde_json.specs.View.{members_view, view};
ghost use Rattle.pl_checkpoint_text.specs.Formed.{IsFormed};
ghost use Rattle.pl_checkpoint_text.specs.Laws.{AreValued};
ghost use Rattle.pl_json.specs.Texts.{json_of};
ghost use Rattle.pl_checkpoint_text.specs.Read.{checkpoint_read, data_reading, reading_of, Tells, TellsAs, TellsFault};
ghost use Rattle.pl_checkpoint_text.specs.ReadField.{members_in, optional, required};

use crate::deployment::deployment_of;
use crate::kinds::{given, missing, required_text, wrong_kind};
use crate::path::field_path;
use crate::version::check_version;
use pl_checkpoint_text::{Members, ReadFault};
use pl_state::{BadCheckpoint, Snapshot};
use pl_value::Text;
use serde_json::{Map, Value as Json};
use std::alloc::Global;

/// Reads the state that the bytes of a checkpoint tell. It is sound, and has no more resources than there may be. What the
/// bytes hold beside a state's own fields is kept in it unread, and written again.
pub fn read(alloc: Global, bytes: &[u8]) -> Result<Snapshot, ReadFault>
    ensures read { IfOk result (λ state. reading_of bytes.now ≡ Ok state) }
    ensures refused { IfErr result (λ fault. TellsFault (reading_of bytes.now) fault) }
    ensures formed { IfOk result (λ state. IsFormed state) }
    ensures valued { IfOk result (λ state. AreValued state) }
{
    read_bytes(alloc, bytes)
}

#[tactic(auto, unfolding(pl_checkpoint_text::specs::Read::reading_of))]
fn read_bytes(alloc: Global, bytes: &[u8]) -> Result<Snapshot, ReadFault>
    ensures { Tells (reading_of bytes.now) result }
{
    let value = json_of(alloc, bytes)?;
    checkpoint_of(alloc, &value)
}

/// The JSON value that the bytes spell.
fn json_of(alloc: Global, bytes: &[u8]) -> Result<Json, ReadFault>
    ensures read { IfOk result (λ value. json_of bytes.now ≡ Some (view value)) }
    ensures refused { IfErr result (λ fault. TellsFault (data_reading (json_of bytes.now)) fault) }
{
    match Json::from_slice(alloc, bytes) {
        Ok(value) => Ok(value),
        Err(error) if error.is_memory() => Err(ReadFault::OutOfMemory),
        Err(_) => Err(ReadFault::Bad(BadCheckpoint::NotJson)),
    }
}

/// The state that the value tells.
#[tactic(auto, unfolding(pl_checkpoint_text::specs::Read::checkpoint_read))]
fn checkpoint_of(alloc: Global, value: &Json) -> Result<Snapshot, ReadFault>
    ensures { Tells (checkpoint_read (view value.now)) result }
{
    let outermost = outermost_of(alloc, value)?;
    check_version(alloc, outermost)?;
    let checkpoint = required_members(alloc, outermost, "", "checkpoint")?;
    let stack = required_text(alloc, checkpoint, "checkpoint", "stack")?;
    let latest = members_if_some(alloc, checkpoint, "checkpoint", "latest")?;
    let path = field_path(alloc, "checkpoint", "latest")?;
    match latest {
        Some(latest) => deployment_of(alloc, path.as_str(), stack, latest),
        None => deployment_of(alloc, path.as_str(), stack, &Map::new(alloc)),
    }
}

/// The members of the outermost object.
fn outermost_of<'a>(alloc: Global, value: &'a Json) -> Result<&'a Members, ReadFault>
    ensures { TellsAs (λ ms. members_view ms.now.entries) (members_in [] (view value.now)) result }
{
    match value.as_object() {
        Some(members) => Ok(members),
        None => Err(wrong_kind(Text::from_string(String::new(alloc)))),
    }
}

/// An object that has to be there.
#[tactic(auto, unfolding(pl_checkpoint_text::specs::ReadField::required))]
fn required_members<'a>(
    alloc: Global,
    members: &'a Members,
    path: &str,
    key: &str,
) -> Result<&'a Members, ReadFault>
    ensures { TellsAs (λ ms. members_view ms.now.entries)
        (required members_in path.now key.now (members_view members.now.entries)) result }
{
    let path = field_path(alloc, path, key)?;
    let Some(value) = given(members, key) else {
        return Err(missing(path));
    };
    match value.as_object() {
        Some(found) => Ok(found),
        None => Err(wrong_kind(path)),
    }
}

/// An object, where it is there.
#[tactic(auto, unfolding(pl_checkpoint_text::specs::ReadField::optional))]
pub fn members_if_some<'a>(
    alloc: Global,
    members: &'a Members,
    path: &str,
    key: &str,
) -> Result<Option<&'a Members>, ReadFault>
    ensures { TellsAs (λ found. unwrap_or (option_map (λ ms. members_view ms.now.entries) found) no_members)
        (optional no_members members_in path.now key.now (members_view members.now.entries)) result }
{
    let Some(value) = given(members, key) else {
        return Ok(None);
    };
    match value.as_object() {
        Some(found) => Ok(Some(found)),
        None => Err(wrong_kind(field_path(alloc, path, key)?)),
    }
}
