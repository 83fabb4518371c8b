ghost use Rattle.std.specs.Prelude.{◌≡◌, IfOk};

use crate::value::Value;
use pl_text::{OutOfMemory, Text};
use sqlite_items::{Boxed, Items};
use std::alloc::Global;

#[cycle(copy)]
pub fn copy(alloc: Global, value: &Value) -> Result<Value, OutOfMemory>
    ensures { IfOk result (λ made. made ≡ value.now) }
{
    match value {
        Value::Null => Ok(Value::Null),
        Value::Flag(flag) => Ok(Value::Flag(*flag)),
        Value::Whole(number) => Ok(Value::Whole(*number)),
        Value::Text(text) => Ok(Value::Text(text.copy()?)),
        Value::List(values) => Ok(Value::List(copy_values(alloc, values.as_slice())?)),
        Value::Object(fields) => Ok(Value::Object(copy_fields(alloc, fields.as_slice())?)),
        Value::Secret(inner) => Ok(Value::Secret(Boxed::new(alloc, copy(alloc, inner.get())?)?)),
        Value::Unknown => Ok(Value::Unknown),
    }
}

#[cycle(copy)]
pub fn copy_values(alloc: Global, values: &[Value]) -> Result<Items<Value>, OutOfMemory>
    ensures { IfOk result (λ made. made ≡ values.now) }
{
    let mut made = Items::new(alloc);
    for value in values {
        made.push(copy(alloc, value)?)?;
    }
    Ok(made)
}

#[cycle(copy)]
pub fn copy_fields(
    alloc: Global,
    fields: &[(Text, Value)],
) -> Result<Items<(Text, Value)>, OutOfMemory>
    ensures { IfOk result (λ made. made ≡ fields.now) }
{
    let mut made = Items::new(alloc);
    for (key, value) in fields {
        made.push((key.copy()?, copy(alloc, value)?))?;
    }
    Ok(made)
}
