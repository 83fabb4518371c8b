ghost use Rattle.std.specs.Prelude.{◌≡◌, IfOk, OnOk, map, option_map};
ghost use Rattle.serde_json.specs.Data.{boolean, no_members, put, string};
ghost use Rattle.serde_json.specs.View.{members_view, view};
ghost use Rattle.pl_json.specs.Spelled.{spelled_fields};
ghost use Rattle.pl_json.specs.Objects.{flag_data, put_if_some, text_data, texts_data, with_fields};
ghost use Rattle.pl_members.specs.Spelled.{keyed_data, keyed_field, list_data, pairs_data};

use pl_json::spell_fields;
use pl_state::KeyedTexts;
use pl_value::{Fields, OutOfMemory, Text, Texts};
use serde_json::{Map, Value, put};
use std::alloc::Global;

/// An object that is being put together.
pub type Members = Map<String, Value>;

/// Puts the text under the name.
pub fn put_text(
    alloc: Global,
    members: &mut Members,
    name: &str,
    text: &str,
) -> Result<(), OutOfMemory>
    ensures { OnOk result (members_view members.new.entries
        ≡ put name.now (string text.now) (members_view members.old.entries)) }
{
    let text = Value::try_from_str(alloc, text)?;
    put(members, alloc, name, text)?;
    Ok(())
}

/// Puts the text under the name, where there is one.
pub fn put_text_if_some(
    alloc: Global,
    members: &mut Members,
    name: &str,
    text: &Option<Text>,
) -> Result<(), OutOfMemory>
    ensures { OnOk result (members_view members.new.entries
        ≡ put_if_some name.now (text_data text.now) (members_view members.old.entries)) }
{
    if let Some(text) = text {
        put_text(alloc, members, name, text.as_str())?;
    }
    Ok(())
}

/// Puts true or false under the name.
pub fn put_bool(
    alloc: Global,
    members: &mut Members,
    name: &str,
    flag: bool,
) -> Result<(), OutOfMemory>
    ensures { OnOk result (members_view members.new.entries
        ≡ put name.now (boolean flag) (members_view members.old.entries)) }
{
    put(members, alloc, name, Value::Bool(flag))?;
    Ok(())
}

/// Puts the flag under the name, where it is set.
pub fn put_flag(
    alloc: Global,
    members: &mut Members,
    name: &str,
    flag: bool,
) -> Result<(), OutOfMemory>
    ensures { OnOk result (members_view members.new.entries
        ≡ put_if_some name.now (flag_data flag) (members_view members.old.entries)) }
{
    if flag {
        put(members, alloc, name, Value::Bool(true))?;
    }
    Ok(())
}

/// Puts true or false under the name, where it is one of them.
pub fn put_flag_if_some(
    alloc: Global,
    members: &mut Members,
    name: &str,
    flag: Option<bool>,
) -> Result<(), OutOfMemory>
    ensures { OnOk result (members_view members.new.entries
        ≡ put_if_some name.now (option_map boolean flag) (members_view members.old.entries)) }
{
    if let Some(flag) = flag {
        put(members, alloc, name, Value::Bool(flag))?;
    }
    Ok(())
}

/// Puts the texts under the name, where there are some.
pub fn put_texts(
    alloc: Global,
    members: &mut Members,
    name: &str,
    texts: &Texts,
) -> Result<(), OutOfMemory>
    ensures { OnOk result (members_view members.new.entries
        ≡ put_if_some name.now (list_data texts.now) (members_view members.old.entries)) }
{
    if texts.len() > 0 {
        let list = spell_texts(alloc, texts.as_slice())?;
        put(members, alloc, name, list)?;
    }
    Ok(())
}

/// The texts as an array.
pub fn spell_texts(alloc: Global, texts: &[Text]) -> Result<Value, OutOfMemory>
    ensures { IfOk result (λ made. view made ≡ texts_data texts.now) }
{
    let mut made = Vec::new(alloc);
    for text in texts {
        made.push(Value::try_from_str(alloc, text.as_str())?)?;
    }
    Ok(Value::Array(made))
}

/// Puts the fields as an object under the name.
pub fn put_fields(
    alloc: Global,
    members: &mut Members,
    name: &str,
    fields: &Fields,
) -> Result<(), OutOfMemory>
    ensures { OnOk result (members_view members.new.entries
        ≡ put name.now (spelled_fields fields.now) (members_view members.old.entries)) }
{
    let object = spell_fields(alloc, fields)?;
    put(members, alloc, name, object)?;
    Ok(())
}

/// Puts the fields as an object under the name, where there are some.
pub fn put_pairs(
    alloc: Global,
    members: &mut Members,
    name: &str,
    fields: &Fields,
) -> Result<(), OutOfMemory>
    ensures { OnOk result (members_view members.new.entries
        ≡ put_if_some name.now (pairs_data fields.now) (members_view members.old.entries)) }
{
    if fields.len() > 0 {
        put_fields(alloc, members, name, fields)?;
    }
    Ok(())
}

/// Puts the lists of texts as an object under the name, where there are some.
pub fn put_keyed(
    alloc: Global,
    members: &mut Members,
    name: &str,
    pairs: &KeyedTexts,
) -> Result<(), OutOfMemory>
    ensures { OnOk result (members_view members.new.entries
        ≡ put_if_some name.now (keyed_data pairs.now) (members_view members.old.entries)) }
{
    if pairs.len() > 0 {
        let lists = spell_keyed(alloc, pairs.as_slice())?;
        put(members, alloc, name, Value::Object(lists))?;
    }
    Ok(())
}

fn spell_keyed(alloc: Global, pairs: &[(Text, Texts)]) -> Result<Members, OutOfMemory>
    ensures { IfOk result (λ made. members_view made.entries ≡ with_fields (map keyed_field pairs.now) no_members) }
{
    let mut made = Map::new(alloc);
    for pair in pairs {
        let list = spell_texts(alloc, pair.1.as_slice())?;
        put(&mut made, alloc, pair.0.as_str(), list)?;
    }
    Ok(made)
}
