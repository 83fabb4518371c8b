ghost use Rattle.std.specs.Prelude.{◌≡◌, ◌+◌, ◌∷◌, ◌++◌, drop, IfErr, IfOk, IfSome, OnOk, option_map, slice_get, take};
ghost use Rattle.std.specs.Option.{option_copied};
ghost use Rattle.pl_value.specs.Keys as keys;
ghost use Rattle.pl_path.specs.Found as found;
ghost use Rattle.pl_path.specs.Reset as spec;

use crate::found::{elements_of, field_under, fields_of};
use crate::segment::{Path, Segment};
use pl_value::{Fields, MOST_LEVELS, OutOfMemory, Text, Value};
use sqlite_items::{Boxed, Items};
use std::alloc::Global;
use std::cmp::Ordering;

/// Sets the fields back to the old ones at the path: the old value is put there, and where there is none, a key is
/// taken out and an element stays. Nothing changes where the fields have no place for it, or where a value
/// would become too deep to be read back. Secrets on the way stay. After `OutOfMemory` the fields come back as
/// they were.
pub fn reset_to_old(
    alloc: Global,
    path: &Path,
    fields: Fields,
    old: &Fields,
) -> Result<Fields, (Fields, OutOfMemory)>
    ensures reset { IfOk result (λ made. made ≡ spec.reset_along path.now fields old.now) }
    ensures unchanged { IfErr result (λ left. left.0 ≡ fields) }
{
    let Some((segment, rest)) = path.as_slice().split_first() else {
        return Ok(fields);
    };
    let Segment::Key(key) = segment else {
        return Ok(fields);
    };
    let made = reset_fields(
        alloc,
        key.as_slice(),
        rest,
        fields.as_slice(),
        old.as_slice(),
    );
    let made = match made {
        Ok(made) => made,
        Err(error) => return Err((fields, error)),
    };
    if are_too_deep(made.as_slice()) {
        return Ok(fields);
    }
    Ok(Fields::from_items(made))
}

/// Whether one of the values is too deep to be read back.
fn are_too_deep(fields: &[(Text, Value)]) -> bool
    ensures { result ≡ spec.are_too_deep fields.now }
{
    for (_, value) in fields {
        if is_too_deep(value) {
            return true;
        }
    }
    false
}

fn is_too_deep(value: &Value) -> bool
    ensures { result ≡ spec.is_too_deep value.now }
{
    value.depth() > MOST_LEVELS
}

/// The value set back at the segments, where `old` stands in its place in the old fields.
#[cycle(reset)]
fn reset_value(
    alloc: Global,
    path: &[Segment],
    holder: &Value,
    old: Option<&Value>,
) -> Result<Value, OutOfMemory>
    ensures { IfOk result (λ made. made ≡ spec.reset_in path.now (found.found_from path.now (option_copied old.entry)) holder.now) }
{
    match path.split_first() {
        Some((segment, rest)) => reset_at(alloc, segment, rest, holder, old),
        None => holder.copy(alloc),
    }
}

/// The same, at the segment and those behind it.
#[cycle(reset)]
fn reset_at(
    alloc: Global,
    segment: &Segment,
    rest: &[Segment],
    holder: &Value,
    old: Option<&Value>,
) -> Result<Value, OutOfMemory>
    ensures { IfOk result (λ made. made ≡ spec.reset_in (segment.now ∷ rest.now)
        (found.found_from (segment.now ∷ rest.now) (option_copied old.entry)) holder.now) }
{
    match holder {
        Value::Secret(inner) => {
            let made = reset_at(alloc, segment, rest, inner.get(), old)?;
            Ok(Value::Secret(Boxed::new(alloc, made)?))
        }
        Value::Object(fields) => match segment {
            Segment::Key(key) => {
                let key = key.as_slice();
                let made = reset_fields(alloc, key, rest, fields.as_slice(), old_fields(old))?;
                Ok(Value::Object(made))
            }
            Segment::Index(_) => holder.copy(alloc),
        },
        Value::List(values) => match segment {
            Segment::Key(_) => holder.copy(alloc),
            Segment::Index(place) => {
                let place = *place as usize;
                let made = reset_elements(
                    alloc,
                    place,
                    rest,
                    values.as_slice(),
                    old_elements(old),
                )?;
                Ok(Value::List(made))
            }
        },
        Value::Null | Value::Flag(_) | Value::Whole(_) | Value::Text(_) | Value::Unknown => {
            holder.copy(alloc)
        }
    }
}

fn old_fields(old: Option<&Value>) -> &[(Text, Value)]
    ensures { result.now ≡ found.fields_in (option_copied old.entry) }
{
    match old {
        Some(holder) => fields_of(holder),
        None => &[],
    }
}

fn old_elements(old: Option<&Value>) -> &[Value]
    ensures { result.now ≡ found.elements_in (option_copied old.entry) }
{
    match old {
        Some(holder) => elements_of(holder),
        None => &[],
    }
}

/// The fields set back at the key and the segments behind it.
#[cycle(reset)]
fn reset_fields(
    alloc: Global,
    key: &[u8],
    rest: &[Segment],
    fields: &[(Text, Value)],
    old: &[(Text, Value)],
) -> Result<Items<(Text, Value)>, OutOfMemory>
    ensures { IfOk result (λ made. made ≡ spec.reset_fields (Segment.Key key.now ∷ rest.now)
        (found.found_from rest.now (keys.value_at key.now old.now)) fields.now) }
{
    let put = field_under(old, key);
    if rest.is_empty() {
        put_field(alloc, key, put, fields)
    } else {
        change_field(alloc, key, rest, fields, put.map(|field| &field.1))
    }
}

/// The fields with this one, which has the key, between those of lower keys and those of higher ones.
fn put_field(
    alloc: Global,
    key: &[u8],
    put: Option<&(Text, Value)>,
    fields: &[(Text, Value)],
) -> Result<Items<(Text, Value)>, OutOfMemory>
    requires { IfSome put (λ field. field.now.0 ≡ key.now) }
    ensures { IfOk result (λ made. made ≡ spec.with_put key.now (option_map (λ field. field.now.1) put.entry) fields.now) }
{
    let mut made = Items::new(alloc);
    copy_below(alloc, &mut made, fields, key)?;
    if let Some((name, value)) = put {
        made.push((name.copy()?, value.copy(alloc)?))?;
    }
    copy_above(alloc, &mut made, fields, key)?;
    Ok(made)
}

/// Adds copies of the fields of lower keys.
fn copy_below(
    alloc: Global,
    made: &mut Items<(Text, Value)>,
    fields: &[(Text, Value)],
    key: &[u8],
) -> Result<(), OutOfMemory>
    ensures { OnOk result (made.new ≡ made.old ++ spec.fields_below key.now fields.now) }
{
    for (name, value) in fields {
        if is_below(name.as_str().as_bytes(), key) {
            made.push((name.copy()?, value.copy(alloc)?))?;
        }
    }
    Ok(())
}

/// Adds copies of the fields of higher keys.
fn copy_above(
    alloc: Global,
    made: &mut Items<(Text, Value)>,
    fields: &[(Text, Value)],
    key: &[u8],
) -> Result<(), OutOfMemory>
    ensures { OnOk result (made.new ≡ made.old ++ spec.fields_above key.now fields.now) }
{
    for (name, value) in fields {
        if is_below(key, name.as_str().as_bytes()) {
            made.push((name.copy()?, value.copy(alloc)?))?;
        }
    }
    Ok(())
}

fn is_below(first: &[u8], second: &[u8]) -> bool
    ensures { result ≡ keys.is_below first.now second.now }
{
    first.cmp(second) == Ordering::Less
}

/// The fields with the one of this key set back at the segments.
#[cycle(reset)]
fn change_field(
    alloc: Global,
    key: &[u8],
    path: &[Segment],
    fields: &[(Text, Value)],
    old: Option<&Value>,
) -> Result<Items<(Text, Value)>, OutOfMemory>
    ensures { IfOk result (λ made. made ≡ spec.with_changed_field
        (spec.reset_in path.now (found.found_from path.now (option_copied old.entry))) key.now fields.now) }
{
    let mut made = Items::new(alloc);
    for (name, value) in fields {
        let changed = if name.as_str().as_bytes() == key {
            reset_value(alloc, path, value, old)?
        } else {
            value.copy(alloc)?
        };
        made.push((name.copy()?, changed))?;
    }
    Ok(made)
}

/// The elements with the one at the place set back at the segments behind it.
#[cycle(reset)]
fn reset_elements(
    alloc: Global,
    place: usize,
    rest: &[Segment],
    values: &[Value],
    old: &[Value],
) -> Result<Items<Value>, OutOfMemory>
    ensures { IfOk result (λ made. made ≡ spec.reset_elements place rest.now
        (found.found_from rest.now (slice_get old.now place)) values.now) }
{
    let mut made = Items::new(alloc);
    let Some((before, element, after)) = around(values, place) else {
        copy_values(alloc, &mut made, values)?;
        return Ok(made);
    };
    copy_values(alloc, &mut made, before)?;
    made.push(reset_element(alloc, rest, element, element_at(old, place))?)?;
    copy_values(alloc, &mut made, after)?;
    Ok(made)
}

fn element_at(values: &[Value], place: usize) -> Option<&Value>
    ensures { option_copied result ≡ slice_get values.now place }
{
    values.get(place)
}

/// The elements before the place, the one there, and those after it.
fn around(values: &[Value], place: usize) -> Option<(&[Value], &Value, &[Value])>
    ensures element { option_map (λ parts. parts.1.now) result ≡ slice_get values.now place }
    ensures before { IfSome result (λ parts. parts.0.now ≡ take place values.now) }
    ensures after { IfSome result (λ parts. parts.2.now ≡ drop (place + 1) values.now) }
{
    if place < values.len() {
        Some((&values[..place], &values[place], &values[place + 1..]))
    } else {
        None
    }
}

/// The element set back at the segments; to the old one where there is none.
#[cycle(reset)]
fn reset_element(
    alloc: Global,
    path: &[Segment],
    element: &Value,
    old: Option<&Value>,
) -> Result<Value, OutOfMemory>
    ensures { IfOk result (λ made. made ≡ spec.reset_one path.now
        (found.found_from path.now (option_copied old.entry)) element.now) }
{
    match old {
        Some(put) if path.is_empty() => put.copy(alloc),
        _ => reset_value(alloc, path, element, old),
    }
}

fn copy_values(alloc: Global, made: &mut Items<Value>, values: &[Value]) -> Result<(), OutOfMemory>
    ensures { OnOk result (made.new ≡ made.old ++ values.now) }
{
    for value in values {
        made.push(value.copy(alloc)?)?;
    }
    Ok(())
}
