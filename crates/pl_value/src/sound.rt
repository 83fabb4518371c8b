ghost use Rattle.std.specs.Prelude.{◌≡◌, ◌<◌, drop, length};
ghost use Rattle.pl_value.specs.IsValue as spec;
ghost use Rattle.pl_value.specs.Keys as keys;

use crate::marks::{secret_key, secret_mark, unknown_text};
use crate::value::Value;
use pl_text::Text;
use std::cmp::Ordering;

#[cycle(sound)]
pub fn is_value(value: &Value) -> bool
    ensures { result ≡ spec.is_value value.now }
{
    match value {
        Value::Text(text) => text.as_str() != unknown_text(),
        Value::List(values) => are_values(values.as_slice()),
        Value::Object(fields) => are_fields(fields.as_slice()),
        Value::Secret(inner) => is_value(inner.get()),
        Value::Null | Value::Flag(_) | Value::Whole(_) | Value::Unknown => true,
    }
}

/// Whether each of these is the value of a property.
#[cycle(sound)]
pub fn are_values(values: &[Value]) -> bool
    ensures { result ≡ spec.are_values values.now }
{
    for value in values {
        if !is_value(value) {
            return false;
        }
    }
    true
}

/// Whether these may be the fields of an object: the keys rise, each holds the value of a property,
/// and none spells a secret.
#[cycle(sound)]
pub fn are_fields(fields: &[(Text, Value)]) -> bool
    ensures { result ≡ spec.are_fields fields.now }
{
    are_rising(fields) && each_is_value(fields) && each_may_stand(fields)
}

#[cycle(sound)]
fn each_is_value(fields: &[(Text, Value)]) -> bool
    ensures { result ≡ spec.each_is_value fields.now }
{
    for (_, value) in fields {
        if !is_value(value) {
            return false;
        }
    }
    true
}

fn each_may_stand(fields: &[(Text, Value)]) -> bool
    ensures { result ≡ spec.each_may_stand fields.now }
{
    for (key, value) in fields {
        if !may_stand_under(key.as_str(), value) {
            return false;
        }
    }
    true
}

/// Whether an object with this value under this key spells no secret.
pub fn may_stand_under(key: &str, value: &Value) -> bool
    ensures { result ≡ spec.may_stand_under key.now value.now }
{
    key != secret_key() || is_unmarked(value)
}

fn is_unmarked(value: &Value) -> bool
    ensures { result ≡ spec.is_unmarked value.now }
{
    match value {
        Value::Text(text) => text.as_str() != secret_mark(),
        Value::Unknown => true,
        _ => false,
    }
}

fn are_rising(fields: &[(Text, Value)]) -> bool
    ensures { result ≡ keys.are_rising (keys.keys_of fields.now) }
{
    let mut left = fields;
    while left.len() > 1 {
        if !is_below(&left[0].0, &left[1].0) {
            return false;
        }
        left = rest(left);
    }
    true
}

/// Whether the first is below the second by their bytes.
pub fn is_below(first: &Text, second: &Text) -> bool
    ensures { result ≡ keys.is_below first.now second.now }
{
    is_text_below(first.as_str(), second.as_str())
}

pub fn is_text_below(first: &str, second: &str) -> bool
    ensures { result ≡ keys.is_below first.now second.now }
{
    first.cmp(second) == Ordering::Less
}

/// The fields but for the first.
pub fn rest(fields: &[(Text, Value)]) -> &[(Text, Value)]
    requires { 0 < length fields.now }
    ensures { result.now ≡ drop 1 fields.now }
{
    &fields[1..]
}
