ghost use Rattle.std.specs.Prelude.{◌≡◌, map, OnOk, IfOk, Some, option_map};
ghost use Rattle.pl_json.specs.Spelled.{spelled_fields};
ghost use Rattle.pl_reference.specs.Reference.{reference_text};
ghost use Rattle.pl_json.specs.Objects.{flag_data, put_if_some, text_data, texts_data, unless_empty, with_fields};
ghost use Rattle.pl_checkpoint_text.specs.Spelled.{properties_data, property_field};
ghost use Rattle.serde_json.specs.Data.{array, boolean, no_members, object, string};
ghost use Rattle.serde_json.specs.View.{items_of, items_view, members_view, view};

use pl_state::{KeyedUrns, ProviderRef, Urns};
use pl_urn::Urn;
use pl_value::{Fields, OutOfMemory, Text, Texts};
use serde_json::{Map, Value as Json, put};
use std::alloc::Global;

/// An object that is being put together.
pub type Members = Map<String, Json>;

/// Puts the truth value under the key.
pub fn put_bool(
    alloc: Global,
    members: &mut Members,
    key: &str,
    truth: bool,
) -> Result<(), OutOfMemory>
    ensures { OnOk result (members_view members.new.entries
        ≡ put_if_some key.now (Some (boolean truth)) (members_view members.old.entries)) }
{
    put(members, alloc, key, Json::Bool(truth))?;
    Ok(())
}

/// Puts the flag under the key, where it is set.
pub fn put_flag(
    alloc: Global,
    members: &mut Members,
    key: &str,
    flag: bool,
) -> Result<(), OutOfMemory>
    ensures { OnOk result (members_view members.new.entries
        ≡ put_if_some key.now (flag_data flag) (members_view members.old.entries)) }
{
    if flag {
        put(members, alloc, key, Json::Bool(true))?;
    }
    Ok(())
}

/// Puts the text under the key.
pub fn put_text(
    alloc: Global,
    members: &mut Members,
    key: &str,
    text: &str,
) -> Result<(), OutOfMemory>
    ensures { OnOk result (members_view members.new.entries
        ≡ put_if_some key.now (Some (string text.now)) (members_view members.old.entries)) }
{
    let text = Json::try_from_str(alloc, text)?;
    put(members, alloc, key, text)?;
    Ok(())
}

/// Puts the text under the key, where there is one.
pub fn put_text_if_some(
    alloc: Global,
    members: &mut Members,
    key: &str,
    text: &Option<Text>,
) -> Result<(), OutOfMemory>
    ensures { OnOk result (members_view members.new.entries
        ≡ put_if_some key.now (text_data text.now) (members_view members.old.entries)) }
{
    if let Some(text) = text {
        put_text(alloc, members, key, text.as_str())?;
    }
    Ok(())
}

/// Puts the URN under the key, where there is one.
pub fn put_urn_if_some(
    alloc: Global,
    members: &mut Members,
    key: &str,
    urn: &Option<Urn>,
) -> Result<(), OutOfMemory>
    ensures { OnOk result (members_view members.new.entries
        ≡ put_if_some key.now (text_data urn.now) (members_view members.old.entries)) }
{
    if let Some(urn) = urn {
        put_text(alloc, members, key, urn.as_str())?;
    }
    Ok(())
}

/// Puts the provider's URN and id as one text under the key, where there is a provider.
pub fn put_reference_if_some(
    alloc: Global,
    members: &mut Members,
    key: &str,
    provider: &Option<ProviderRef>,
) -> Result<(), OutOfMemory>
    ensures { OnOk result (members_view members.new.entries
        ≡ put_if_some key.now (text_data (option_map reference_text provider.now)) (members_view members.old.entries)) }
{
    if let Some(reference) = provider {
        let text = text_of_reference(alloc, reference)?;
        put_text(alloc, members, key, text.as_str())?;
    }
    Ok(())
}

fn text_of_reference(alloc: Global, reference: &ProviderRef) -> Result<Text, OutOfMemory>
    ensures { IfOk result (λ text. text ≡ reference_text reference.now) }
{
    let mut text = String::from_str(alloc, reference.urn.as_str())?;
    text.push_str("::")?;
    text.push_str(reference.id.as_str())?;
    Ok(Text::from_string(text))
}

/// Puts the texts under the key, where there are some.
pub fn put_texts(
    alloc: Global,
    members: &mut Members,
    key: &str,
    texts: &Texts,
) -> Result<(), OutOfMemory>
    ensures { OnOk result (members_view members.new.entries
        ≡ put_if_some key.now (unless_empty texts.now (texts_data texts.now)) (members_view members.old.entries)) }
{
    if texts.len() > 0 {
        let list = spell_texts(alloc, texts.as_slice())?;
        put(members, alloc, key, Json::Array(list))?;
    }
    Ok(())
}

fn spell_texts(alloc: Global, texts: &[Text]) -> Result<Vec<Json>, OutOfMemory>
    ensures { IfOk result (λ made. items_view made.items ≡ items_of (map string texts.now)) }
{
    let mut made = Vec::new(alloc);
    for text in texts {
        made.push(Json::try_from_str(alloc, text.as_str())?)?;
    }
    Ok(made)
}

/// Puts the URNs under the key, where there are some.
pub fn put_urns(
    alloc: Global,
    members: &mut Members,
    key: &str,
    urns: &Urns,
) -> Result<(), OutOfMemory>
    ensures { OnOk result (members_view members.new.entries
        ≡ put_if_some key.now (unless_empty urns.now (texts_data urns.now)) (members_view members.old.entries)) }
{
    if urns.len() > 0 {
        let list = spell_urns(alloc, urns.as_slice())?;
        put(members, alloc, key, Json::Array(list))?;
    }
    Ok(())
}

fn spell_urns(alloc: Global, urns: &[Urn]) -> Result<Vec<Json>, OutOfMemory>
    ensures { IfOk result (λ made. items_view made.items ≡ items_of (map string urns.now)) }
{
    let mut made = Vec::new(alloc);
    for urn in urns {
        made.push(Json::try_from_str(alloc, urn.as_str())?)?;
    }
    Ok(made)
}

/// Puts the values under the key, where there are some.
pub fn put_values(
    alloc: Global,
    members: &mut Members,
    key: &str,
    values: &Fields,
) -> Result<(), OutOfMemory>
    ensures { OnOk result (members_view members.new.entries
        ≡ put_if_some key.now (unless_empty values.now (spelled_fields values.now)) (members_view members.old.entries)) }
{
    if values.len() > 0 {
        let object = pl_json::spell_fields(alloc, values)?;
        put(members, alloc, key, object)?;
    }
    Ok(())
}

/// Puts the lists of URNs under the key, as an object, where there are some.
pub fn put_properties(
    alloc: Global,
    members: &mut Members,
    key: &str,
    properties: &KeyedUrns,
) -> Result<(), OutOfMemory>
    ensures { OnOk result (members_view members.new.entries
        ≡ put_if_some key.now (unless_empty properties.now (properties_data properties.now)) (members_view members.old.entries)) }
{
    if properties.len() > 0 {
        let lists = spell_properties(alloc, properties.as_slice())?;
        put(members, alloc, key, Json::Object(lists))?;
    }
    Ok(())
}

fn spell_properties(alloc: Global, pairs: &[(Text, Urns)]) -> Result<Members, OutOfMemory>
    ensures { IfOk result (λ made. members_view made.entries ≡ with_fields (map property_field pairs.now) no_members) }
{
    let mut made = Map::new(alloc);
    for pair in pairs {
        let list = spell_urns(alloc, pair.1.as_slice())?;
        put(&mut made, alloc, pair.0.as_str(), Json::Array(list))?;
    }
    Ok(made)
}
