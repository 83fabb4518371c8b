ghost use Rattle.std.specs.Prelude.{◌≡◌, ◌≢◌, ◌+◌, ◌≤◌, IfErr, IfOk, IfSome, None, Some, Ok, Err, [], false, option_map};
ghost use Rattle.pl_value.specs.Inside.{depth, greatest_field_depth};
ghost use Rattle.pl_value.specs.Depth.{most_levels};
ghost use Rattle.pl_value.specs.IsValue.{IsValue};
ghost use Rattle.serde_json.specs.Find.{as_i64, get_member};
ghost use Rattle.serde_json.specs.Read as json;
ghost use Rattle.serde_json.specs.View.{items_view, members_view, number_view, view};
ghost use Rattle.pl_json.specs.Read as spec;

use crate::fault::FieldsFault;
use crate::keys::{ciphertext_key, plaintext_key};
use crate::path::{in_element, in_field, in_secret, in_value, no_path};
use pl_value::{
    Fields, JsonFault, MOST_LEVELS, Text, Value, Values, secret_key, secret_mark, unknown_text,
};
use serde_json::{Map, Number, Value as Json};
use sqlite_items::Boxed;
use std::alloc::Global;

/// The property value that the JSON spells. The path is where it stands, and the path of a fault begins with it.
pub fn read_value(alloc: Global, json: &Json, path: &str) -> Result<Value, JsonFault>
    ensures read { IfOk result (λ value. spec.value_read path.now (view json.now) ≡ Ok value) }
    ensures refused { IfErr result (λ fault. fault ≢ JsonFault.OutOfMemory
        → spec.value_read path.now (view json.now) ≡ Err fault) }
    ensures sound { IfOk result (λ value. IsValue value) }
    ensures shallow { IfOk result (λ value. depth value ≤ most_levels) }
{
    match read(alloc, json, deepest()) {
        Ok(value) => Ok(value),
        Err(fault) => Err(in_value(alloc, path, fault)),
    }
}

/// The fields of the object of values that the JSON spells. Each of its values may be as deep as a value that stands
/// alone.
pub fn read_fields(alloc: Global, json: &Json, path: &str) -> Result<Fields, FieldsFault>
    ensures read { IfOk result (λ fields. spec.fields_read path.now (view json.now) ≡ Ok fields) }
    ensures refused { IfErr result (λ fault. fault ≢ FieldsFault.Json JsonFault.OutOfMemory
        → spec.fields_read path.now (view json.now) ≡ Err fault) }
    ensures shallow { IfOk result (λ fields. greatest_field_depth fields ≤ most_levels) }
{
    let Json::Object(members) = json else {
        return Err(FieldsFault::WrongKind);
    };
    match fields_in(alloc, members) {
        Ok(Some(fields)) => Ok(fields),
        Ok(None) => Err(FieldsFault::WrongKind),
        Err(fault) => Err(FieldsFault::Json(in_value(alloc, path, fault))),
    }
}

/// The fields of an object; none where it spells a secret.
fn fields_in(alloc: Global, members: &Map<String, Json>) -> Result<Option<Fields>, JsonFault>
    ensures read { IfOk result (λ fields. spec.unless_secret (members_view members.now.entries) ≡ Ok fields) }
    ensures refused { IfErr result (λ fault. fault ≢ JsonFault.OutOfMemory
        → spec.unless_secret (members_view members.now.entries) ≡ Err fault) }
    ensures shallow { IfOk result (λ fields. IfSome fields (λ found. greatest_field_depth found ≤ most_levels)) }
{
    if is_marked(alloc, members)? {
        read_secret(alloc, members, deepest())?;
        return Ok(None);
    }
    Ok(Some(read_members(alloc, members, deepest())?))
}

/// How many lists, objects and secrets may stand in each other.
fn deepest() -> u64
    ensures { result ≡ spec.deepest }
{
    MOST_LEVELS
}

/// The value, in which so many lists, objects and secrets may stand in each other. The path of a fault begins at it.
#[cycle(read)]
fn read(alloc: Global, json: &Json, levels: u64) -> Result<Value, JsonFault>
    ensures read { IfOk result (λ value. spec.read_in levels (view json.now) ≡ Ok value) }
    ensures refused { IfErr result (λ fault. fault ≢ JsonFault.OutOfMemory
        → spec.read_in levels (view json.now) ≡ Err fault) }
    ensures sound { IfOk result (λ value. IsValue value) }
{
    match json {
        Json::Null => Ok(Value::Null),
        Json::Bool(flag) => Ok(Value::Flag(*flag)),
        Json::Number(number) => read_number(alloc, number),
        Json::String(text) => read_text(alloc, text.as_str()),
        Json::Array(items) => read_list(alloc, items.as_slice(), levels_inside(alloc, levels)?),
        Json::Object(members) => read_object(alloc, members, levels_inside(alloc, levels)?),
    }
}

/// How many levels may stand in what stands in so many; there must be one at least.
fn levels_inside(alloc: Global, levels: u64) -> Result<u64, JsonFault>
    ensures inside { IfOk result (λ inside. inside + 1 ≡ levels) }
    ensures none { IfErr result (λ fault. (levels ≡ 0) × (spec.too_deep ≡ fault)) }
{
    match levels.checked_sub(1) {
        Some(inside) => Ok(inside),
        None => Err(JsonFault::TooDeep(no_path(alloc))),
    }
}

fn read_number(alloc: Global, number: &Number) -> Result<Value, JsonFault>
    ensures read { IfOk result (λ value. spec.whole_read (as_i64 (number_view number.now)) ≡ Ok value) }
    ensures refused { IfErr result (λ fault. spec.whole_read (as_i64 (number_view number.now)) ≡ Err fault) }
    ensures sound { IfOk result (λ value. IsValue value) }
{
    match number.as_i64() {
        Some(whole) => Ok(Value::Whole(whole)),
        None => Err(JsonFault::NotWhole(no_path(alloc))),
    }
}

fn read_text(alloc: Global, text: &str) -> Result<Value, JsonFault>
    ensures read { IfOk result (λ value. value ≡ spec.text_read text.now) }
    ensures refused { IfErr result (λ fault. fault ≡ JsonFault.OutOfMemory) }
    ensures sound { IfOk result (λ value. IsValue value) }
{
    if text == unknown_text() {
        return Ok(Value::Unknown);
    }
    match Text::from_str(alloc, text) {
        Ok(text) => Ok(Value::Text(text)),
        Err(_) => Err(JsonFault::OutOfMemory),
    }
}

#[cycle(read)]
fn read_list(alloc: Global, items: &[Json], levels: u64) -> Result<Value, JsonFault>
    ensures read { IfOk result (λ value. spec.list_read (spec.read_in levels) (items_view items.now) ≡ Ok value) }
    ensures refused { IfErr result (λ fault. fault ≢ JsonFault.OutOfMemory
        → spec.list_read (spec.read_in levels) (items_view items.now) ≡ Err fault) }
    ensures sound { IfOk result (λ value. IsValue value) }
{
    let mut values = Values::new(alloc);
    for (place, item) in items.iter().enumerate() {
        let value = match read(alloc, item, levels) {
            Ok(value) => value,
            Err(fault) => return Err(in_element(alloc, place, fault)),
        };
        values.push(value).map_err(|_| JsonFault::OutOfMemory)?;
    }
    Ok(Value::from_values(values))
}

#[cycle(read)]
fn read_object(alloc: Global, members: &Map<String, Json>, levels: u64) -> Result<Value, JsonFault>
    ensures read { IfOk result (λ value. spec.object_read (spec.read_in levels) (members_view members.now.entries) ≡ Ok value) }
    ensures refused { IfErr result (λ fault. fault ≢ JsonFault.OutOfMemory
        → spec.object_read (spec.read_in levels) (members_view members.now.entries) ≡ Err fault) }
    ensures sound { IfOk result (λ value. IsValue value) }
{
    if is_marked(alloc, members)? {
        return read_secret(alloc, members, levels);
    }
    Ok(Value::from_fields(read_members(alloc, members, levels)?))
}

/// Whether the object is a secret's, by what stands under the secret's key.
fn is_marked(alloc: Global, members: &Map<String, Json>) -> Result<bool, JsonFault>
    ensures read { IfOk result (λ marked. spec.is_marked (members_view members.now.entries) ≡ Ok marked) }
    ensures refused { IfErr result (λ fault. spec.is_marked (members_view members.now.entries) ≡ Err fault) }
{
    match member(members, secret_key()) {
        None => Ok(false),
        Some(Json::String(text)) => Ok(text.as_str() == secret_mark()),
        Some(_) => Err(JsonFault::BadSecret(no_path(alloc))),
    }
}

fn member<'a>(members: &'a Map<String, Json>, key: &str) -> Option<&'a Json>
    ensures { option_map (λ found. view found.now) result ≡ get_member key.now (members_view members.now.entries) }
{
    members.get(key)
}

/// The fields of an object that is no secret.
#[cycle(read)]
fn read_members(
    alloc: Global,
    members: &Map<String, Json>,
    levels: u64,
) -> Result<Fields, JsonFault>
    requires { spec.is_marked (members_view members.now.entries) ≡ Ok false }
    ensures read { IfOk result (λ fields. spec.members_read (spec.read_in levels) (members_view members.now.entries) ≡ Ok fields) }
    ensures refused { IfErr result (λ fault. fault ≢ JsonFault.OutOfMemory
        → spec.members_read (spec.read_in levels) (members_view members.now.entries) ≡ Err fault) }
{
    let mut fields = Fields::new(alloc);
    for (key, data) in members.iter() {
        let value = match read(alloc, data, levels) {
            Ok(value) => value,
            Err(fault) => return Err(in_field(alloc, key.as_str(), fault)),
        };
        let key = Text::from_str(alloc, key.as_str()).map_err(|_| JsonFault::OutOfMemory)?;
        fields.push(key, value).map_err(|_| JsonFault::OutOfMemory)?;
    }
    Ok(fields)
}

#[cycle(read)]
fn read_secret(alloc: Global, members: &Map<String, Json>, levels: u64) -> Result<Value, JsonFault>
    ensures read { IfOk result (λ value. spec.secret_read (spec.read_in levels) (members_view members.now.entries) ≡ Ok value) }
    ensures refused { IfErr result (λ fault. fault ≢ JsonFault.OutOfMemory
        → spec.secret_read (spec.read_in levels) (members_view members.now.entries) ≡ Err fault) }
    ensures sound { IfOk result (λ value. IsValue value) }
{
    match member(members, plaintext_key()) {
        Some(Json::String(text)) => read_plaintext(alloc, text.as_str(), levels),
        Some(_) => Err(JsonFault::BadSecret(no_path(alloc))),
        None if member(members, ciphertext_key()).is_some() => {
            Err(JsonFault::SecretSealed(no_path(alloc)))
        }
        None => Err(JsonFault::BadSecret(no_path(alloc))),
    }
}

/// The secret of the value that the text spells.
#[cycle(read)]
fn read_plaintext(alloc: Global, text: &str, levels: u64) -> Result<Value, JsonFault>
    ensures read { IfOk result (λ value. spec.plaintext_read (spec.read_in levels) (json.read text.now) ≡ Ok value) }
    ensures refused { IfErr result (λ fault. fault ≢ JsonFault.OutOfMemory
        → spec.plaintext_read (spec.read_in levels) (json.read text.now) ≡ Err fault) }
    ensures sound { IfOk result (λ value. IsValue value) }
{
    let json = parsed(alloc, text)?;
    match read(alloc, &json, levels) {
        Ok(value) => secret(alloc, value),
        Err(fault) => Err(in_secret(alloc, fault)),
    }
}

fn secret(alloc: Global, value: Value) -> Result<Value, JsonFault>
    requires { IsValue value }
    ensures read { IfOk result (λ made. made ≡ Value.Secret value) }
    ensures refused { IfErr result (λ fault. fault ≡ JsonFault.OutOfMemory) }
    ensures sound { IfOk result (λ made. IsValue made) }
{
    match Boxed::new(alloc, value) {
        Ok(inner) => Ok(Value::Secret(inner)),
        Err(_) => Err(JsonFault::OutOfMemory),
    }
}

fn parsed(alloc: Global, text: &str) -> Result<Json, JsonFault>
    ensures read { IfOk result (λ made. json.read text.now ≡ Some (view made)) }
    ensures refused { IfErr result (λ fault. fault ≢ JsonFault.OutOfMemory
        → (json.read text.now ≡ None) × (fault ≡ JsonFault.BadSecret [])) }
{
    match Json::from_str(alloc, text) {
        Ok(json) => Ok(json),
        Err(error) if error.is_memory() => Err(JsonFault::OutOfMemory),
        Err(_) => Err(JsonFault::BadSecret(no_path(alloc))),
    }
}
