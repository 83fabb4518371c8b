ghost use Rattle.std.specs.Prelude.{◌≡◌, [], Some};
ghost use Rattle.serde_json.specs.View.{items_view, members_view, view};
ghost use Rattle.pl_checkpoint_text.specs.Read.{Tells};
ghost use Rattle.pl_checkpoint_text.specs.ReadField.{elements, optional, or_default, properties_in, properties_of, text_in, texts_in, unless_null, urn_in, urns_in};

use crate::kinds::{given, text_in, urn_in, wrong_kind};
use crate::path::{element_path, field_path};
use pl_checkpoint_text::{Members, ReadFault};
use pl_state::{KeyedUrns, Urns};
use pl_value::{Text, Texts};
use serde_json::Value as Json;
use std::alloc::Global;

/// A list of texts; none where it is absent.
#[tactic(auto, unfolding(pl_checkpoint_text::specs::ReadField::optional))]
pub fn texts(alloc: Global, members: &Members, path: &str, key: &str) -> Result<Texts, ReadFault>
    ensures { Tells (optional [] texts_in path.now key.now (members_view members.now.entries)) result }
{
    let Some(value) = given(members, key) else {
        return Ok(Texts::new(alloc));
    };
    let path = field_path(alloc, path, key)?;
    match value.as_array() {
        Some(items) => texts_of(alloc, items.as_slice(), path.as_str()),
        None => Err(wrong_kind(path)),
    }
}

/// The elements of the list of texts at the path.
#[tactic(auto, unfolding(pl_checkpoint_text::specs::ReadField::elements))]
fn texts_of(alloc: Global, items: &[Json], path: &str) -> Result<Texts, ReadFault>
    ensures { Tells (elements text_in path.now 0 (items_view items.now)) result }
{
    let mut texts = Texts::new(alloc);
    for (place, item) in items.iter().enumerate() {
        let path = element_path(alloc, path, place)?;
        let text = text_in(alloc, item, path)?;
        texts.push(text)?;
    }
    Ok(texts)
}

/// A list of URNs; none where it is absent.
#[tactic(auto, unfolding(pl_checkpoint_text::specs::ReadField::optional))]
pub fn urns(alloc: Global, members: &Members, path: &str, key: &str) -> Result<Urns, ReadFault>
    ensures { Tells (optional [] urns_in path.now key.now (members_view members.now.entries)) result }
{
    match given(members, key) {
        Some(value) => urns_in(alloc, value, field_path(alloc, path, key)?),
        None => Ok(Urns::new(alloc)),
    }
}

/// A list of URNs at the path.
fn urns_in(alloc: Global, value: &Json, path: Text) -> Result<Urns, ReadFault>
    ensures { Tells (urns_in path (view value.now)) result }
{
    match value.as_array() {
        Some(items) => urns_of(alloc, items.as_slice(), path.as_str()),
        None => Err(wrong_kind(path)),
    }
}

/// The elements of the list of URNs at the path.
#[tactic(auto, unfolding(pl_checkpoint_text::specs::ReadField::elements))]
fn urns_of(alloc: Global, items: &[Json], path: &str) -> Result<Urns, ReadFault>
    ensures { Tells (elements urn_in path.now 0 (items_view items.now)) result }
{
    let mut urns = Urns::new(alloc);
    for (place, item) in items.iter().enumerate() {
        let path = element_path(alloc, path, place)?;
        let urn = urn_in(alloc, item, path)?;
        urns.push(urn)?;
    }
    Ok(urns)
}

/// Lists of URNs by their keys; none where they are absent.
#[tactic(auto, unfolding(pl_checkpoint_text::specs::ReadField::optional))]
pub fn properties(
    alloc: Global,
    members: &Members,
    path: &str,
    key: &str,
) -> Result<KeyedUrns, ReadFault>
    ensures { Tells (optional [] properties_in path.now key.now (members_view members.now.entries)) result }
{
    let Some(value) = given(members, key) else {
        return Ok(KeyedUrns::new(alloc));
    };
    let path = field_path(alloc, path, key)?;
    match value.as_object() {
        Some(lists) => properties_of(alloc, lists, path.as_str()),
        None => Err(wrong_kind(path)),
    }
}

/// The lists of URNs in the object at the path; a null list is empty.
#[tactic(auto, unfolding(pl_checkpoint_text::specs::ReadField::properties_of))]
fn properties_of(alloc: Global, members: &Members, path: &str) -> Result<KeyedUrns, ReadFault>
    ensures { Tells (properties_of path.now (members_view members.now.entries)) result }
{
    let mut pairs = KeyedUrns::new(alloc);
    for (key, value) in members.iter() {
        let path = field_path(alloc, path, key.as_str())?;
        let urns = urns_or_none(alloc, value, path)?;
        let key = Text::from_str(alloc, key.as_str())?;
        pairs.push((key, urns))?;
    }
    Ok(pairs)
}

/// A list of URNs at the path; none where it is null.
fn urns_or_none(alloc: Global, value: &Json, path: Text) -> Result<Urns, ReadFault>
    ensures { Tells (or_default [] (urns_in path) (unless_null (Some (view value.now)))) result }
{
    if value.is_null() {
        return Ok(Urns::new(alloc));
    }
    urns_in(alloc, value, path)
}
