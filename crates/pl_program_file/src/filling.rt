ghost use Rattle.std.specs.Prelude.{◌≡◌, ◌≢◌, ◌≤◌, IfErr, IfOk, IfSome, IsTrue, option_map};
ghost use Rattle.pl_value.specs.Depth.{most_levels};
ghost use Rattle.pl_value.specs.Inside.{depth};
ghost use Rattle.pl_value.specs.IsValue.{AreFields, AreValues, IsValue, is_unmarked, may_stand_under};
ghost use Rattle.pl_program_file.specs.Filled as spec;

use crate::fault::Unfilled;
use crate::known::{Known, known_at, value_of};
use crate::reference::reference_in;
use pl_value::{
    Fields, MOST_LEVELS, OutOfMemory, Text, Value, Values, may_stand_under, secret_key,
};
use sqlite_items::Boxed;
use std::alloc::Global;

/// Where a value stands that is to be filled.
#[derive(Clone, Copy)]
struct Place {
    /// How many lists, objects and secrets may stand in each other there.
    levels: u64,
    /// Whether it is right under the key by which JSON marks a secret.
    marked: bool,
}

/// The fields with what the references in them stand for. An output that is absent counts as missing, and so does one
/// that would be nested too deep or would make a secret's mark; in a preview the unknown stands in its place.
pub fn filled_fields(
    alloc: Global,
    known: &[Known],
    preview: bool,
    fields: &Fields,
) -> Result<Fields, Unfilled>
    ensures filled { IfOk result (λ made. spec.filled_fields known.now preview fields.now ≡ Ok made) }
    ensures missing { IfErr result (λ why. why ≢ Unfilled.OutOfMemory
        → spec.filled_fields known.now preview fields.now ≡ Err why) }
{
    filled_members(alloc, known, preview, fields.as_slice(), MOST_LEVELS)
}

#[cycle(filling)]
fn filled(
    alloc: Global,
    known: &[Known],
    preview: bool,
    value: &Value,
    place: Place,
) -> Result<Value, Unfilled>
    requires sound { IsValue value.now }
    requires levels { place.levels ≤ most_levels }
    ensures filled { IfOk result (λ made. spec.filled known.now preview value.now place ≡ Ok made) }
    ensures missing { IfErr result (λ why. why ≢ Unfilled.OutOfMemory
        → spec.filled known.now preview value.now place ≡ Err why) }
    ensures sound { IfOk result (λ made. IsValue made) }
{
    match value {
        Value::Null => Ok(Value::Null),
        Value::Flag(flag) => Ok(Value::Flag(*flag)),
        Value::Whole(number) => Ok(Value::Whole(*number)),
        Value::Text(text) => filled_text(alloc, known, preview, text, place),
        Value::List(values) => {
            let values = filled_values(alloc, known, preview, values.as_slice(), place.levels)?;
            Ok(Value::from_values(values))
        }
        Value::Object(fields) => {
            let levels = place.levels.saturating_sub(1);
            let fields = filled_members(alloc, known, preview, fields.as_slice(), levels)?;
            Ok(Value::from_fields(fields))
        }
        Value::Secret(inner) => {
            let inner = filled(alloc, known, preview, inner.get(), inside(place.levels))?;
            Ok(secret(alloc, inner)?)
        }
        Value::Unknown => Ok(Value::Unknown),
    }
}

/// The place of what stands in a list or a secret for which so many levels are left.
fn inside(levels: u64) -> Place
    ensures { result ≡ spec.inside levels }
{
    Place {
        levels: levels.saturating_sub(1),
        marked: false,
    }
}

/// The place of what stands under the key.
fn under(key: &str, levels: u64) -> Place
    ensures { result ≡ spec.under key.now levels }
{
    Place {
        levels,
        marked: key == secret_key(),
    }
}

#[cycle(filling)]
fn filled_values(
    alloc: Global,
    known: &[Known],
    preview: bool,
    values: &[Value],
    levels: u64,
) -> Result<Values, Unfilled>
    requires sound { AreValues values.now }
    requires levels { levels ≤ most_levels }
    ensures filled { IfOk result (λ made. spec.filled_values known.now preview (spec.inside levels) values.now ≡ Ok made) }
    ensures missing { IfErr result (λ why. why ≢ Unfilled.OutOfMemory
        → spec.filled_values known.now preview (spec.inside levels) values.now ≡ Err why) }
{
    let mut made = Values::new(alloc);
    for value in values {
        made.push(filled(alloc, known, preview, value, inside(levels))?)?;
    }
    Ok(made)
}

#[cycle(filling)]
fn filled_members(
    alloc: Global,
    known: &[Known],
    preview: bool,
    fields: &[(Text, Value)],
    levels: u64,
) -> Result<Fields, Unfilled>
    requires sound { AreFields fields.now }
    requires levels { levels ≤ most_levels }
    ensures filled { IfOk result (λ made. spec.filled_members known.now preview levels fields.now ≡ Ok made) }
    ensures missing { IfErr result (λ why. why ≢ Unfilled.OutOfMemory
        → spec.filled_members known.now preview levels fields.now ≡ Err why) }
{
    let mut made = Fields::new(alloc);
    for (key, value) in fields {
        let value = filled(alloc, known, preview, value, under(key.as_str(), levels))?;
        made.push(key.copy()?, value)?;
    }
    Ok(made)
}

fn secret(alloc: Global, value: Value) -> Result<Value, OutOfMemory>
    requires { IsValue value }
    ensures made { IfOk result (λ made. made ≡ Value.Secret value) }
    ensures sound { IfOk result (λ made. IsValue made) }
{
    let inner = Boxed::new(alloc, value)?;
    Ok(Value::Secret(inner))
}

/// What stands in the place of a text: what it refers to, or the text itself.
fn filled_text(
    alloc: Global,
    known: &[Known],
    preview: bool,
    text: &Text,
    place: Place,
) -> Result<Value, Unfilled>
    requires sound { IsValue (Value.Text text.now) }
    requires levels { place.levels ≤ most_levels }
    ensures filled { IfOk result (λ made. spec.filled_text known.now preview text.now place ≡ Ok made) }
    ensures missing { IfErr result (λ why. why ≢ Unfilled.OutOfMemory
        → spec.filled_text known.now preview text.now place ≡ Err why) }
    ensures sound { IfOk result (λ made. IsValue made) }
{
    match reference_in(text.as_str()) {
        None => Ok(Value::Text(text.copy()?)),
        Some((name, key)) => referred(alloc, known, preview, name, key, place),
    }
}

/// What stands in the place of a reference.
fn referred(
    alloc: Global,
    known: &[Known],
    preview: bool,
    name: &str,
    key: &str,
    place: Place,
) -> Result<Value, Unfilled>
    requires { place.levels ≤ most_levels }
    ensures filled { IfOk result (λ made. spec.referred known.now preview place (name.now, key.now) ≡ Ok made) }
    ensures missing { IfErr result (λ why. why ≢ Unfilled.OutOfMemory
        → spec.referred known.now preview place (name.now, key.now) ≡ Err why) }
    ensures sound { IfOk result (λ made. IsValue made) }
{
    match fitting(alloc, known, name, key, place)? {
        Some(value) => Ok(value),
        None if preview => Ok(Value::Unknown),
        None => Err(missing(alloc, name, key)?),
    }
}

fn missing(alloc: Global, name: &str, key: &str) -> Result<Unfilled, OutOfMemory>
    ensures { IfOk result (λ made. made ≡ Unfilled.Missing name.now key.now) }
{
    Ok(Unfilled::Missing {
        name: Text::from_str(alloc, name)?,
        key: Text::from_str(alloc, key)?,
    })
}

/// The value that the reference stands for, if there is one and it may stand in the place.
fn fitting(
    alloc: Global,
    known: &[Known],
    name: &str,
    key: &str,
    place: Place,
) -> Result<Option<Value>, OutOfMemory>
    requires { place.levels ≤ most_levels }
    ensures value { IfOk result (λ found. found ≡ spec.fitting known.now place (name.now, key.now)) }
    ensures sound { IfOk result (λ found. IfSome found IsValue) }
{
    let Some(row) = known_at(known, name) else {
        return Ok(None);
    };
    match value_of(alloc, row, key)? {
        Some(value) if fits(&value, place) => Ok(Some(value)),
        _ => Ok(None),
    }
}

/// Whether the value may stand in the place.
fn fits(value: &Value, place: Place) -> bool
    requires { place.levels ≤ most_levels }
    ensures { result ≡ spec.fits place value.now }
{
    value.depth() <= place.levels && (!place.marked || may_stand_under(secret_key(), value))
}
