ghost use Rattle.std.specs.Prelude.{◌≡◌, IfOk, false};
ghost use Rattle.pl_value.specs.IsValue.{IsValue, AreFields, AreValues};
ghost use Rattle.pl_json.specs.Spelled.{secret_data, spelled, spelled_fields, spelled_items, spelled_members};
ghost use Rattle.serde_json.specs.View.{view, items_view, members_view};
ghost use Rattle.serde_json.specs.Written.{compact_text, has_float};

use crate::keys::plaintext_key;
use pl_value::{Fields, OutOfMemory, Text, Value, secret_key, secret_mark, unknown_text};
use serde_json::{Map, Value as Json, put};
use std::alloc::Global;

/// The value in JSON. A secret holds the text of its value, so each secret around another doubles the escapes
/// inside: from some depth on there is no memory for it.
#[cycle(spell)]
pub fn spell(alloc: Global, value: &Value) -> Result<Json, OutOfMemory>
    requires { IsValue value.now }
    ensures { IfOk result (λ made. view made ≡ spelled value.now) }
{
    match value {
        Value::Null => Ok(Json::Null),
        Value::Flag(flag) => Ok(Json::Bool(*flag)),
        Value::Whole(number) => Ok(Json::from(*number)),
        Value::Text(text) => Ok(Json::try_from_str(alloc, text.as_str())?),
        Value::List(values) => Ok(Json::Array(spell_items(alloc, values.as_slice())?)),
        Value::Object(fields) => Ok(Json::Object(spell_members(alloc, fields.as_slice())?)),
        Value::Secret(inner) => spell_secret(alloc, &spell(alloc, inner.get())?),
        Value::Unknown => Ok(Json::try_from_str(alloc, unknown_text())?),
    }
}

#[cycle(spell)]
fn spell_items(alloc: Global, values: &[Value]) -> Result<Vec<Json>, OutOfMemory>
    requires { AreValues values.now }
    ensures { IfOk result (λ made. items_view made.items ≡ spelled_items values.now) }
{
    let mut made = Vec::new(alloc);
    for value in values {
        made.push(spell(alloc, value)?)?;
    }
    Ok(made)
}

#[cycle(spell)]
fn spell_members(alloc: Global, fields: &[(Text, Value)]) -> Result<Map<String, Json>, OutOfMemory>
    requires { AreFields fields.now }
    ensures { IfOk result (λ made. members_view made.entries ≡ spelled_members fields.now) }
{
    let mut made = Map::new(alloc);
    for (key, value) in fields {
        let member = spell(alloc, value)?;
        put(&mut made, alloc, key.as_str(), member)?;
    }
    Ok(made)
}

fn spell_secret(alloc: Global, inner: &Json) -> Result<Json, OutOfMemory>
    requires { has_float (view inner.now) ≡ false }
    ensures { IfOk result (λ made. view made ≡ secret_data (compact_text (view inner.now))) }
{
    let text = inner.to_string(alloc)?;
    let mark = Json::try_from_str(alloc, secret_mark())?;
    let mut members = Map::new(alloc);
    put(&mut members, alloc, secret_key(), mark)?;
    put(&mut members, alloc, plaintext_key(), Json::String(text))?;
    Ok(Json::Object(members))
}

/// The fields as an object in JSON.
pub fn spell_fields(alloc: Global, fields: &Fields) -> Result<Json, OutOfMemory>
    ensures { IfOk result (λ made. view made ≡ spelled_fields fields.now) }
{
    Ok(Json::Object(spell_members(alloc, fields.as_slice())?))
}
