ghost use Rattle.std.specs.Prelude.{◌≡◌, IfOk, map};
ghost use Rattle.pl_value.specs.Shown as spec;

use crate::marks::shown_secret;
use crate::value::Value;
use pl_text::{OutOfMemory, Text};
use sqlite_items::Items;
use std::alloc::Global;

#[cycle(mask)]
pub fn masked(alloc: Global, value: &Value) -> Result<Value, OutOfMemory>
    ensures { IfOk result (λ made. made ≡ spec.masked value.now) }
{
    match value {
        Value::Null => Ok(Value::Null),
        Value::Flag(flag) => Ok(Value::Flag(*flag)),
        Value::Whole(number) => Ok(Value::Whole(*number)),
        Value::Text(text) => Ok(Value::Text(text.copy()?)),
        Value::List(values) => Ok(Value::List(masked_values(alloc, values.as_slice())?)),
        Value::Object(fields) => Ok(Value::Object(masked_fields(alloc, fields.as_slice())?)),
        Value::Secret(_) => Ok(Value::Text(Text::from_str(alloc, shown_secret())?)),
        Value::Unknown => Ok(Value::Unknown),
    }
}

#[cycle(mask)]
fn masked_values(alloc: Global, values: &[Value]) -> Result<Items<Value>, OutOfMemory>
    ensures { IfOk result (λ made. made ≡ map spec.masked values.now) }
{
    let mut made = Items::new(alloc);
    for value in values {
        made.push(masked(alloc, value)?)?;
    }
    Ok(made)
}

#[cycle(mask)]
fn masked_fields(
    alloc: Global,
    fields: &[(Text, Value)],
) -> Result<Items<(Text, Value)>, OutOfMemory>
    ensures { IfOk result (λ made. made ≡ spec.masked_fields fields.now) }
{
    let mut made = Items::new(alloc);
    for (key, value) in fields {
        made.push((key.copy()?, masked(alloc, value)?))?;
    }
    Ok(made)
}
