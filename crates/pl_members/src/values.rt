ghost use Rattle.std.specs.Prelude.{◌≡◌, IfOk, Err, None, Some, option_map};
ghost use Rattle.serde_json.specs.Find.{get};
ghost use Rattle.serde_json.specs.View.{view};
ghost use Rattle.pl_members.specs.Field as spec;

use crate::fault::Unread;
use crate::fields::present;
use pl_json::{FieldsFault, read_fields};
use pl_value::{Fields, JsonFault};
use serde_json::Value;
use std::alloc::Global;

/// The object of values that the data spells.
pub fn pairs_of(alloc: Global, value: &Value) -> Result<Fields, Unread>
    ensures read { IfOk result (λ made. spec.pairs_of (view value.now) ≡ Some made) }
    ensures wrong_form { result ≡ Err Unread.WrongForm → spec.pairs_of (view value.now) ≡ None }
{
    match read_fields(alloc, value, "") {
        Ok(fields) => Ok(fields),
        Err(FieldsFault::WrongKind) => Err(Unread::WrongForm),
        Err(FieldsFault::Json(JsonFault::OutOfMemory)) => Err(Unread::OutOfMemory),
        Err(FieldsFault::Json(_)) => Err(Unread::WrongForm),
    }
}

/// The object of values in a field that has to be there.
pub fn pairs(alloc: Global, message: &Value, name: &str) -> Result<Fields, Unread>
    ensures read { IfOk result (λ made. spec.pairs (get name.now (view message.now)) ≡ Some made) }
    ensures wrong_form { result ≡ Err Unread.WrongForm
        → spec.pairs (get name.now (view message.now)) ≡ None }
{
    let Some(value) = message.get(name) else {
        return Err(Unread::WrongForm);
    };
    pairs_of(alloc, value)
}

/// The object of values, if something is there.
pub fn pairs_if_there(alloc: Global, value: Option<&Value>) -> Result<Option<Fields>, Unread>
    ensures read { IfOk result (λ made. spec.pairs_if_there (option_map (λ v. view v.now) value.entry) ≡ Some made) }
    ensures wrong_form { result ≡ Err Unread.WrongForm
        → spec.pairs_if_there (option_map (λ v. view v.now) value.entry) ≡ None }
{
    match value {
        None => Ok(None),
        Some(value) => {
            let fields = pairs_of(alloc, value)?;
            Ok(Some(fields))
        }
    }
}

/// The object of values in a field; nothing is in it where the field is absent or null.
pub fn pairs_or_none(alloc: Global, message: &Value, name: &str) -> Result<Fields, Unread>
    ensures read { IfOk result (λ made. spec.pairs_or_none (spec.present name.now (view message.now)) ≡ Some made) }
    ensures wrong_form { result ≡ Err Unread.WrongForm
        → spec.pairs_or_none (spec.present name.now (view message.now)) ≡ None }
{
    match present(message, name) {
        None => Ok(Fields::new(alloc)),
        Some(value) => pairs_of(alloc, value),
    }
}
