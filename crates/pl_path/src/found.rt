ghost use Rattle.std.specs.Prelude.{◌≡◌, bytes_eq, find, IfSome};
ghost use Rattle.std.specs.Option.{option_copied};
ghost use Rattle.pl_value.specs.IsValue.{IsValue};
ghost use Rattle.pl_value.specs.Keys as keys;
ghost use Rattle.pl_path.specs.Found as spec;

use crate::segment::{Path, Segment};
use pl_value::{Fields, Text, Value};

/// What stands at the path, if anything does. It looks through secrets on its way, and what it answers may be a
/// secret.
pub fn get<'a>(path: &Path, fields: &'a Fields) -> Option<&'a Value>
    ensures value { option_copied result ≡ spec.found_at path.now fields.now }
    ensures sound { IfSome result (λ value. IsValue value.now) }
{
    let (first, rest) = path.as_slice().split_first()?;
    let mut found = value_under(fields.as_slice(), first)?;
    for segment in rest {
        found = inside(segment, found)?;
    }
    Some(found)
}

fn value_under<'a>(fields: &'a [(Text, Value)], segment: &Segment) -> Option<&'a Value>
    ensures { option_copied result ≡ spec.value_under segment.now fields.now }
{
    match segment {
        Segment::Key(key) => value_at_key(fields, key.as_slice()),
        Segment::Index(_) => None,
    }
}

/// The field of this key, if there is one.
pub fn field_under<'a>(fields: &'a [(Text, Value)], key: &[u8]) -> Option<&'a (Text, Value)>
    ensures first { option_copied result ≡ find (λ field. bytes_eq field.0 key.now) fields.now }
    ensures named { IfSome result (λ field. field.now.0 ≡ key.now) }
{
    fields
        .iter()
        .find(|field| field.0.as_str().as_bytes() == key)
}

fn value_at_key<'a>(fields: &'a [(Text, Value)], key: &[u8]) -> Option<&'a Value>
    ensures { option_copied result ≡ keys.value_at key.now fields.now }
{
    match field_under(fields, key) {
        Some(field) => Some(&field.1),
        None => None,
    }
}

/// What a value has at a segment, if it has anything there.
fn inside<'a>(segment: &Segment, holder: &'a Value) -> Option<&'a Value>
    ensures { option_copied result ≡ spec.inside segment.now holder.now }
{
    match segment {
        Segment::Key(key) => value_at_key(fields_of(holder), key.as_slice()),
        Segment::Index(place) => elements_of(holder).get(*place as usize),
    }
}

/// The value without the secrets around it.
#[tactic(auto, using(crate::proofs::Levels::bare_rules))]
fn bare(holder: &Value) -> &Value
    ensures { result.now ≡ spec.bare holder.now }
{
    match holder {
        Value::Secret(inner) => bare(inner.get()),
        Value::List(_) | Value::Object(_) | Value::Text(_) => holder,
        Value::Null | Value::Flag(_) | Value::Whole(_) | Value::Unknown => holder,
    }
}

/// The fields of an object, looked at through secrets; none of another value.
#[tactic(auto, using(crate::proofs::Levels::out_rules))]
pub fn fields_of(holder: &Value) -> &[(Text, Value)]
    ensures { result.now ≡ spec.fields_of holder.now }
{
    match bare(holder) {
        Value::Object(fields) => fields.as_slice(),
        _ => &[],
    }
}

/// The elements of a list, looked at through secrets; none of another value.
#[tactic(auto, using(crate::proofs::Levels::out_rules))]
pub fn elements_of(holder: &Value) -> &[Value]
    ensures { result.now ≡ spec.elements_of holder.now }
{
    match bare(holder) {
        Value::List(values) => values.as_slice(),
        _ => &[],
    }
}
