ghost use Rattle.std.specs.Prelude.{◌≡◌, ◌↔◌, IsTrue};

use crate::value::Value;
use pl_text::Text;

#[cycle(same)]
pub fn same(a: &Value, b: &Value) -> bool
    ensures { IsTrue result ↔ (a.now ≡ b.now) }
{
    match (a, b) {
        (Value::Null, Value::Null) | (Value::Unknown, Value::Unknown) => true,
        (Value::Flag(a), Value::Flag(b)) => a == b,
        (Value::Whole(a), Value::Whole(b)) => a == b,
        (Value::Text(a), Value::Text(b)) => a.same_as(b),
        (Value::List(a), Value::List(b)) => same_values(a.as_slice(), b.as_slice()),
        (Value::Object(a), Value::Object(b)) => same_fields(a.as_slice(), b.as_slice()),
        (Value::Secret(a), Value::Secret(b)) => same(a.get(), b.get()),
        _ => false,
    }
}

#[cycle(same)]
fn same_values(a: &[Value], b: &[Value]) -> bool
    ensures { IsTrue result ↔ (a.now ≡ b.now) }
{
    if a.len() != b.len() {
        return false;
    }
    for (place, value) in a.iter().enumerate() {
        if !same(value, &b[place]) {
            return false;
        }
    }
    true
}

#[cycle(same)]
fn same_fields(a: &[(Text, Value)], b: &[(Text, Value)]) -> bool
    ensures { IsTrue result ↔ (a.now ≡ b.now) }
{
    if a.len() != b.len() {
        return false;
    }
    for (place, field) in a.iter().enumerate() {
        let (key, value) = &b[place];
        if !field.0.same_as(key) || !same(&field.1, value) {
            return false;
        }
    }
    true
}
