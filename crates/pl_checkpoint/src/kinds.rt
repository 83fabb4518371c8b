ghost use Rattle.std.specs.Prelude.{◌≡◌, false, None, [], option_map};
ghost use Rattle.serde_json.specs.Find.{get_member};
ghost use Rattle.serde_json.specs.View.{members_view, view};
ghost use Rattle.pl_checkpoint_text.specs.Read.{Tells};
ghost use Rattle.pl_checkpoint_text.specs.ReadField.{flag_in, given, nonempty_in, optional, reference_of, required, some_in, text_in, text_of, unless_empty_text, urn_in, urn_of, values_in};

use crate::path::field_path;
use pl_checkpoint_text::{Members, ReadFault};
use pl_json::FieldsFault;
use pl_state::{BadCheckpoint, ProviderRef, RefFault, read_ref};
use pl_urn::{Urn, UrnFault};
use pl_value::{Fields, JsonFault, Text};
use serde_json::Value as Json;
use std::alloc::Global;

/// What stands under the key.
pub fn member<'a>(members: &'a Members, key: &str) -> Option<&'a Json>
    ensures { option_map (λ found. view found.now) result ≡ get_member key.now (members_view members.now.entries) }
{
    members.get(key)
}

/// What stands under the key, unless it is null.
pub fn given<'a>(members: &'a Members, key: &str) -> Option<&'a Json>
    ensures { option_map (λ value. view value.now) result ≡ given key.now (members_view members.now.entries) }
{
    let value = member(members, key)?;
    if value.is_null() { None } else { Some(value) }
}

/// The value at the path is of the wrong kind.
pub fn wrong_kind(path: Text) -> ReadFault
    ensures { result ≡ ReadFault.Bad (BadCheckpoint.WrongKind path) }
{
    ReadFault::Bad(BadCheckpoint::WrongKind(path))
}

pub fn missing(path: Text) -> ReadFault
    ensures { result ≡ ReadFault.Bad (BadCheckpoint.MissingField path) }
{
    ReadFault::Bad(BadCheckpoint::MissingField(path))
}

fn bad_urn(path: Text) -> ReadFault
    ensures { result ≡ ReadFault.Bad (BadCheckpoint.BadUrn path) }
{
    ReadFault::Bad(BadCheckpoint::BadUrn(path))
}

/// A flag, which is false where it is absent.
#[tactic(auto, unfolding(pl_checkpoint_text::specs::ReadField::optional))]
pub fn flag(alloc: Global, members: &Members, path: &str, key: &str) -> Result<bool, ReadFault>
    ensures { Tells (optional false flag_in path.now key.now (members_view members.now.entries)) result }
{
    let Some(value) = given(members, key) else {
        return Ok(false);
    };
    match value.as_bool() {
        Some(flag) => Ok(flag),
        None => Err(wrong_kind(field_path(alloc, path, key)?)),
    }
}

/// A text at the path.
pub fn text_in(alloc: Global, value: &Json, path: Text) -> Result<Text, ReadFault>
    ensures { Tells (text_in path (view value.now)) result }
{
    match value.as_str() {
        Some(text) => Ok(Text::from_str(alloc, text)?),
        None => Err(wrong_kind(path)),
    }
}

/// A text that has to be there.
#[tactic(auto, unfolding(pl_checkpoint_text::specs::ReadField::required))]
pub fn required_text(
    alloc: Global,
    members: &Members,
    path: &str,
    key: &str,
) -> Result<Text, ReadFault>
    ensures { Tells (required text_in path.now key.now (members_view members.now.entries)) result }
{
    let path = field_path(alloc, path, key)?;
    match given(members, key) {
        Some(value) => text_in(alloc, value, path),
        None => Err(missing(path)),
    }
}

fn unless_empty(text: &str) -> Option<&str>
    ensures { option_map (λ found. found.now) result ≡ unless_empty_text text.now }
{
    if text.is_empty() { None } else { Some(text) }
}

/// A text that has to be there and is not empty.
#[tactic(auto, unfolding(pl_checkpoint_text::specs::ReadField::required))]
pub fn nonempty(alloc: Global, members: &Members, path: &str, key: &str) -> Result<Text, ReadFault>
    ensures { Tells (required nonempty_in path.now key.now (members_view members.now.entries)) result }
{
    let path = field_path(alloc, path, key)?;
    let Some(value) = given(members, key) else {
        return Err(missing(path));
    };
    match value.as_str().and_then(unless_empty) {
        Some(text) => Ok(Text::from_str(alloc, text)?),
        None => Err(wrong_kind(path)),
    }
}

/// The text at the path as a URN.
fn urn_of(alloc: Global, text: &str, path: Text) -> Result<Urn, ReadFault>
    ensures { Tells (urn_of path text.now) result }
{
    match pl_urn::parse(alloc, text) {
        Ok(urn) => Ok(urn),
        Err(UrnFault::OutOfMemory) => Err(ReadFault::OutOfMemory),
        Err(
            UrnFault::NoPrefix | UrnFault::TooFewParts | UrnFault::EmptyPart(_) | UrnFault::BadType,
        ) => Err(bad_urn(path)),
    }
}

/// A URN at the path.
pub fn urn_in(alloc: Global, value: &Json, path: Text) -> Result<Urn, ReadFault>
    ensures { Tells (urn_in path (view value.now)) result }
{
    match value.as_str() {
        Some(text) => urn_of(alloc, text, path),
        None => Err(wrong_kind(path)),
    }
}

/// A URN that has to be there.
#[tactic(auto, unfolding(pl_checkpoint_text::specs::ReadField::required))]
pub fn required_urn(
    alloc: Global,
    members: &Members,
    path: &str,
    key: &str,
) -> Result<Urn, ReadFault>
    ensures { Tells (required urn_in path.now key.now (members_view members.now.entries)) result }
{
    let path = field_path(alloc, path, key)?;
    match given(members, key) {
        Some(value) => urn_in(alloc, value, path),
        None => Err(missing(path)),
    }
}

/// A text; none where it is absent or empty.
#[tactic(auto, unfolding(pl_checkpoint_text::specs::ReadField::optional))]
pub fn text_if_some(
    alloc: Global,
    members: &Members,
    path: &str,
    key: &str,
) -> Result<Option<Text>, ReadFault>
    ensures { Tells (optional None (some_in text_of) path.now key.now (members_view members.now.entries)) result }
{
    let Some(value) = given(members, key) else {
        return Ok(None);
    };
    let path = field_path(alloc, path, key)?;
    let Some(text) = value.as_str() else {
        return Err(wrong_kind(path));
    };
    match unless_empty(text) {
        Some(text) => Ok(Some(Text::from_str(alloc, text)?)),
        None => Ok(None),
    }
}

/// A URN; none where it is absent or an empty text.
#[tactic(auto, unfolding(pl_checkpoint_text::specs::ReadField::optional))]
pub fn urn_if_some(
    alloc: Global,
    members: &Members,
    path: &str,
    key: &str,
) -> Result<Option<Urn>, ReadFault>
    ensures { Tells (optional None (some_in urn_of) path.now key.now (members_view members.now.entries)) result }
{
    let Some(value) = given(members, key) else {
        return Ok(None);
    };
    let path = field_path(alloc, path, key)?;
    let Some(text) = value.as_str() else {
        return Err(wrong_kind(path));
    };
    match unless_empty(text) {
        Some(text) => Ok(Some(urn_of(alloc, text, path)?)),
        None => Ok(None),
    }
}

/// The text at the path as a provider's URN and id.
fn reference_of(alloc: Global, text: &str, path: Text) -> Result<ProviderRef, ReadFault>
    ensures { Tells (reference_of path text.now) result }
{
    match read_ref(alloc, text) {
        Ok(reference) => Ok(reference),
        Err(RefFault::OutOfMemory) => Err(ReadFault::OutOfMemory),
        Err(RefFault::NotAReference) => Err(bad_urn(path)),
    }
}

/// A provider's URN and id; none where they are absent or an empty text.
#[tactic(auto, unfolding(pl_checkpoint_text::specs::ReadField::optional))]
pub fn reference_if_some(
    alloc: Global,
    members: &Members,
    path: &str,
    key: &str,
) -> Result<Option<ProviderRef>, ReadFault>
    ensures { Tells (optional None (some_in reference_of) path.now key.now (members_view members.now.entries)) result }
{
    let Some(value) = given(members, key) else {
        return Ok(None);
    };
    let path = field_path(alloc, path, key)?;
    let Some(text) = value.as_str() else {
        return Err(wrong_kind(path));
    };
    match unless_empty(text) {
        Some(text) => Ok(Some(reference_of(alloc, text, path)?)),
        None => Ok(None),
    }
}

/// An object of values; none where it is absent.
#[tactic(auto, unfolding(pl_checkpoint_text::specs::ReadField::optional))]
pub fn values(alloc: Global, members: &Members, path: &str, key: &str) -> Result<Fields, ReadFault>
    ensures { Tells (optional [] values_in path.now key.now (members_view members.now.entries)) result }
{
    let Some(value) = given(members, key) else {
        return Ok(Fields::new(alloc));
    };
    let path = field_path(alloc, path, key)?;
    match pl_json::read_fields(alloc, value, path.as_str()) {
        Ok(fields) => Ok(fields),
        Err(FieldsFault::WrongKind) => Err(wrong_kind(path)),
        Err(FieldsFault::Json(JsonFault::OutOfMemory)) => Err(ReadFault::OutOfMemory),
        Err(FieldsFault::Json(fault)) => Err(ReadFault::Bad(BadCheckpoint::BadValue(fault))),
    }
}
