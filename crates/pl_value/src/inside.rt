ghost use Rattle.std.specs.Prelude.{◌≡◌, ◌-◌, ◌^◌, min};
ghost use Rattle.pl_value.specs.Inside as spec;

use crate::value::Value;
use pl_text::Text;

#[cycle(unknown)]
pub fn has_unknown(value: &Value) -> bool
    ensures { result ≡ spec.has_unknown value.now }
{
    match value {
        Value::List(values) => any_unknown(values.as_slice()),
        Value::Object(fields) => any_field_unknown(fields.as_slice()),
        Value::Secret(inner) => has_unknown(inner.get()),
        Value::Unknown => true,
        Value::Null | Value::Flag(_) | Value::Whole(_) | Value::Text(_) => false,
    }
}

#[cycle(unknown)]
fn any_unknown(values: &[Value]) -> bool
    ensures { result ≡ spec.any_unknown values.now }
{
    for value in values {
        if has_unknown(value) {
            return true;
        }
    }
    false
}

#[cycle(unknown)]
/// Whether an unknown stands in one of the fields.
pub fn any_field_unknown(fields: &[(Text, Value)]) -> bool
    ensures { result ≡ spec.any_field_unknown fields.now }
{
    for (_, value) in fields {
        if has_unknown(value) {
            return true;
        }
    }
    false
}

#[cycle(depth)]
pub fn depth(value: &Value) -> u64
    ensures { result ≡ min (spec.depth value.now) (2 ^ 64 - 1) }
{
    match value {
        Value::List(values) => greatest(values.as_slice()).saturating_add(1),
        Value::Object(fields) => greatest_field(fields.as_slice()).saturating_add(1),
        Value::Secret(inner) => depth(inner.get()).saturating_add(1),
        Value::Null | Value::Flag(_) | Value::Whole(_) | Value::Text(_) | Value::Unknown => 0,
    }
}

#[cycle(depth)]
fn greatest(values: &[Value]) -> u64
    ensures { result ≡ min (spec.greatest_depth values.now) (2 ^ 64 - 1) }
{
    let mut most = 0;
    for value in values {
        most = most.max(depth(value));
    }
    most
}

#[cycle(depth)]
fn greatest_field(fields: &[(Text, Value)]) -> u64
    ensures { result ≡ min (spec.greatest_field_depth fields.now) (2 ^ 64 - 1) }
{
    let mut most = 0;
    for (_, value) in fields {
        most = most.max(depth(value));
    }
    most
}
