ghost use Rattle.std.specs.Prelude.{◌≡◌, IfOk, Err, None, Some, option_map};
ghost use Rattle.serde_json.specs.Find.{get};
ghost use Rattle.serde_json.specs.View.{view};
ghost use Rattle.pl_json.specs.Texts as texts;
ghost use Rattle.pl_members.specs.Field as spec;

use crate::fault::Unread;
use pl_urn::{Urn, UrnFault, parse};
use pl_value::Text;
use serde_json::Value;
use std::alloc::Global;

/// The greatest number that a request may have.
pub const GREATEST_NUMBER: u64 = 1 << 53;

/// The JSON value that the bytes spell.
pub fn json_of(alloc: Global, bytes: &[u8]) -> Result<Value, Unread>
    ensures value { IfOk result (λ value. texts.json_of bytes.now ≡ Some (view value)) }
    ensures wrong_form { result ≡ Err Unread.WrongForm → texts.json_of bytes.now ≡ None }
{
    match Value::from_slice(alloc, bytes) {
        Ok(message) => Ok(message),
        Err(error) => {
            if error.is_memory() {
                Err(Unread::OutOfMemory)
            } else {
                Err(Unread::WrongForm)
            }
        }
    }
}

/// What stands in a field in which null counts as absent.
pub fn present<'a>(message: &'a Value, name: &str) -> Option<&'a Value>
    ensures { option_map (λ value. view value.now) result ≡ spec.present name.now (view message.now) }
{
    let value = message.get(name)?;
    if value.is_null() { None } else { Some(value) }
}

/// The text in a field, where one is there.
pub fn str_in<'a>(message: &'a Value, name: &str) -> Option<&'a str>
    ensures { option_map (λ found. found.now) result ≡ spec.text (get name.now (view message.now)) }
{
    message.get(name)?.as_str()
}

/// The whole number in a field, where one is there.
pub fn whole(message: &Value, name: &str) -> Option<u64>
    ensures { result ≡ spec.whole (get name.now (view message.now)) }
{
    message.get(name)?.as_u64()
}

/// The number of a request in a field, where one is there.
pub fn request_number(message: &Value, name: &str) -> Option<u64>
    ensures { result ≡ spec.request_number (get name.now (view message.now)) }
{
    let n = message.get(name)?.as_u64()?;
    if 1 <= n && n <= GREATEST_NUMBER {
        Some(n)
    } else {
        None
    }
}

/// True or false in a field; the usual one where it is absent or null.
pub fn flag_or(message: &Value, name: &str, usual: bool) -> Option<bool>
    ensures { result ≡ spec.flag_or usual (spec.present name.now (view message.now)) }
{
    match present(message, name) {
        None => Some(usual),
        Some(value) => value.as_bool(),
    }
}

/// True or false in a field, or none where it is absent or null.
pub fn flag_if_there(message: &Value, name: &str) -> Option<Option<bool>>
    ensures { result ≡ spec.flag_if_there (spec.present name.now (view message.now)) }
{
    match present(message, name) {
        None => Some(None),
        Some(value) => {
            let flag = value.as_bool()?;
            Some(Some(flag))
        }
    }
}

/// The text in a field that has to be there.
pub fn text(alloc: Global, message: &Value, name: &str) -> Result<Text, Unread>
    ensures read { IfOk result (λ made. spec.text (get name.now (view message.now)) ≡ Some made) }
    ensures wrong_form { result ≡ Err Unread.WrongForm
        → spec.text (get name.now (view message.now)) ≡ None }
{
    let Some(found) = str_in(message, name) else {
        return Err(Unread::WrongForm);
    };
    Ok(Text::from_str(alloc, found)?)
}

/// The text with a byte at least in a field that has to be there.
pub fn nonempty_text(alloc: Global, message: &Value, name: &str) -> Result<Text, Unread>
    ensures read { IfOk result (λ made. spec.nonempty_text (get name.now (view message.now)) ≡ Some made) }
    ensures wrong_form { result ≡ Err Unread.WrongForm
        → spec.nonempty_text (get name.now (view message.now)) ≡ None }
{
    let Some(found) = str_in(message, name) else {
        return Err(Unread::WrongForm);
    };
    if found.is_empty() {
        return Err(Unread::WrongForm);
    }
    Ok(Text::from_str(alloc, found)?)
}

/// The text, if something is there.
pub fn text_if_there(alloc: Global, value: Option<&Value>) -> Result<Option<Text>, Unread>
    ensures read { IfOk result (λ made. spec.text_if_there (option_map (λ v. view v.now) value.entry) ≡ Some made) }
    ensures wrong_form { result ≡ Err Unread.WrongForm
        → spec.text_if_there (option_map (λ v. view v.now) value.entry) ≡ None }
{
    let Some(value) = value else {
        return Ok(None);
    };
    let Some(found) = value.as_str() else {
        return Err(Unread::WrongForm);
    };
    let made = Text::from_str(alloc, found)?;
    Ok(Some(made))
}

/// The URN in a field that has to be there.
pub fn urn(alloc: Global, message: &Value, name: &str) -> Result<Urn, Unread>
    ensures read { IfOk result (λ made. spec.urn (get name.now (view message.now)) ≡ Some made) }
    ensures wrong_form { result ≡ Err Unread.WrongForm
        → spec.urn (get name.now (view message.now)) ≡ None }
{
    let Some(found) = str_in(message, name) else {
        return Err(Unread::WrongForm);
    };
    match parse(alloc, found) {
        Ok(urn) => Ok(urn),
        Err(UrnFault::OutOfMemory) => Err(Unread::OutOfMemory),
        Err(_) => Err(Unread::WrongForm),
    }
}
