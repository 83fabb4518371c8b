ghost use Rattle.std.specs.Prelude.{◌≡◌, IfOk, IfSome};
ghost use Rattle.std.specs.Option.{option_copied};
ghost use Rattle.pl_value.specs.IsValue.{IsValue};
ghost use Rattle.pl_program_file.specs.Filled as spec;

use pl_urn::Urn;
use pl_value::{Fields, OutOfMemory, Text, Value, unknown_text};
use std::alloc::Global;

/// A resource that was registered, with what the engine answered.
#[derive(Debug, Drop)]
pub struct Known {
    pub name: Text,
    pub urn: Urn,
    pub id: Option<Text>,
    pub outputs: Fields,
}

/// The key under which a reference names a resource's id.
pub fn id_key() -> &'static str
    ensures { result.now ≡ spec.id_key }
{
    "id"
}

/// What is known of the resource of this name.
pub fn known_at<'a>(known: &'a [Known], name: &str) -> Option<&'a Known>
    ensures { option_copied result ≡ spec.known_at name.now known.now }
{
    known.iter().find(|row| row.name.as_str() == name)
}

/// The value that a reference to this key stands for.
pub fn value_of(alloc: Global, row: &Known, key: &str) -> Result<Option<Value>, OutOfMemory>
    ensures value { IfOk result (λ found. found ≡ spec.value_of key.now row.now) }
    ensures sound { IfOk result (λ found. IfSome found IsValue) }
{
    if key == id_key() {
        return id_value(alloc, &row.id);
    }
    match row.outputs.find(key) {
        None => Ok(None),
        Some(value) => {
            let value = value.copy(alloc)?;
            Ok(Some(value))
        }
    }
}

fn id_value(alloc: Global, id: &Option<Text>) -> Result<Option<Value>, OutOfMemory>
    ensures value { IfOk result (λ found. found ≡ spec.id_value id.now) }
    ensures sound { IfOk result (λ found. IfSome found IsValue) }
{
    match id {
        None => Ok(None),
        Some(id) => {
            let value = text_value(alloc, id)?;
            Ok(Some(value))
        }
    }
}

/// The text as a value; that of the unknown is the unknown.
fn text_value(alloc: Global, text: &Text) -> Result<Value, OutOfMemory>
    ensures value { IfOk result (λ value. value ≡ spec.text_value text.now) }
    ensures sound { IfOk result (λ value. IsValue value) }
{
    if text.as_str() == unknown_text() {
        return Ok(Value::Unknown);
    }
    let text = Text::from_str(alloc, text.as_str())?;
    Ok(Value::Text(text))
}
