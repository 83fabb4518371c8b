ghost use Rattle.std.specs.Prelude.{◌≡◌, IfOk, IfErr};
ghost use Rattle.pl_value.specs.IsValue.{AreFields};
ghost use Rattle.pl_value.specs.Secrets as spec;

use crate::copy::copy;
use crate::fields::Fields;
use crate::marks::secret_key;
use crate::value::{MOST_LEVELS, Value};
use pl_text::{OutOfMemory, Text, Texts};
use sqlite_items::{Boxed, Items};
use std::alloc::Global;

/// Wraps the values under these keys as secrets. After `OutOfMemory` the fields come back as they were.
pub fn mark_secrets(
    alloc: Global,
    fields: Fields,
    keys: &Texts,
) -> Result<Fields, (Fields, OutOfMemory)>
    ensures marked { IfOk result (λ made. made ≡ spec.marked keys.now fields) }
    ensures unchanged { IfErr result (λ left. left.0 ≡ fields) }
{
    match marked(alloc, fields.as_slice(), keys.as_slice()) {
        Ok(made) => Ok(Fields::from_items(made)),
        Err(error) => Err((fields, error)),
    }
}

fn marked(
    alloc: Global,
    fields: &[(Text, Value)],
    keys: &[Text],
) -> Result<Items<(Text, Value)>, OutOfMemory>
    ensures { IfOk result (λ made. made ≡ spec.marked keys.now fields.now) }
{
    let mut made = Items::new(alloc);
    for field in fields {
        made.push((field.0.copy()?, marked_value(alloc, field, keys)?))?;
    }
    Ok(made)
}

fn marked_value(alloc: Global, field: &(Text, Value), keys: &[Text]) -> Result<Value, OutOfMemory>
    ensures { IfOk result (λ made. made ≡ (spec.marked_field keys.now field.now).1) }
{
    let value = copy(alloc, &field.1)?;
    if is_to_mark(field, keys) {
        Ok(Value::Secret(Boxed::new(alloc, value)?))
    } else {
        Ok(value)
    }
}

fn is_to_mark(field: &(Text, Value), keys: &[Text]) -> bool
    ensures { result ≡ spec.is_to_mark keys.now field.now }
{
    let (key, value) = field;
    is_named(keys, key)
        && !is_secret(value)
        && key.as_str() != secret_key()
        && value.depth() < MOST_LEVELS
}

fn is_named(keys: &[Text], key: &Text) -> bool
    ensures { result ≡ spec.is_named keys.now key.now }
{
    for name in keys {
        if name.as_str() == key.as_str() {
            return true;
        }
    }
    false
}

fn is_secret(value: &Value) -> bool
    ensures { result ≡ spec.is_secret value.now }
{
    matches!(value, Value::Secret(_))
}
