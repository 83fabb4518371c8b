ghost use Rattle.std.specs.Prelude.{◌≡◌, IfOk, map};
ghost use Rattle.serde_json.specs.Data.{array};
ghost use Rattle.serde_json.specs.View.{items_of, view};
ghost use Rattle.pl_provider_msg.specs.Response.{reason_data};

use pl_value::{OutOfMemory, Text};
use serde_json::{Value, json};
use std::alloc::{AllocError, Global};

/// The reasons as an array.
pub(crate) fn spell_reasons(alloc: Global, reasons: &[(Text, Text)]) -> Result<Value, OutOfMemory>
    ensures { IfOk result (λ made. view made ≡ array (items_of (map reason_data reasons.now))) }
{
    let mut made = Vec::new(alloc);
    for pair in reasons {
        made.push(spell_reason(alloc, pair.0.as_str(), pair.1.as_str())?)?;
    }
    Ok(Value::Array(made))
}

fn spell_reason(alloc: Global, property: &str, reason: &str) -> Result<Value, AllocError>
    ensures { IfOk result (λ made. view made ≡ reason_data (property.now, reason.now)) }
{
    json!(in alloc; {"property": property, "reason": reason})
}
