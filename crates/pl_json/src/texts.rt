ghost use Rattle.std.specs.Prelude.{◌≡◌, IfOk};
ghost use Rattle.pl_value.specs.IsValue.{IsValue};
ghost use Rattle.pl_json.specs.Spelled.{value_text, fields_text};

use crate::spelling::{spell, spell_fields};
use pl_value::{Fields, OutOfMemory, Text, Value};
use std::alloc::Global;

/// The value's text in JSON, without a space or a line break.
pub fn text_of(alloc: Global, value: &Value) -> Result<Text, OutOfMemory>
    requires { IsValue value.now }
    ensures { IfOk result (λ made. made ≡ value_text value.now) }
{
    let text = spell(alloc, value)?.to_string(alloc)?;
    Ok(Text::from_string(text))
}

/// The text of the fields as an object, without a space or a line break.
pub fn text_of_fields(alloc: Global, fields: &Fields) -> Result<Text, OutOfMemory>
    ensures { IfOk result (λ made. made ≡ fields_text fields.now) }
{
    let text = spell_fields(alloc, fields)?.to_string(alloc)?;
    Ok(Text::from_string(text))
}
