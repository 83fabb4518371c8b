ghost use Rattle.std.specs.Prelude.{◌≡◌, IfOk, Err, None, Some};
ghost use Rattle.serde_json.specs.Find.{get, as_str};
ghost use Rattle.serde_json.specs.View.{items_view, members_view, view};
ghost use Rattle.pl_members.specs.Field as spec;

use crate::fault::Unread;
use crate::fields::present;
use crate::writing::Members;
use pl_state::KeyedTexts;
use pl_value::{Text, Texts};
use serde_json::Value;
use std::alloc::Global;

fn each_text(alloc: Global, items: &[Value]) -> Result<Texts, Unread>
    ensures read { IfOk result (λ made. spec.each_item as_str (items_view items.now) ≡ Some made) }
    ensures wrong_form { result ≡ Err Unread.WrongForm → spec.each_item as_str (items_view items.now) ≡ None }
{
    let mut texts = Texts::new(alloc);
    for item in items {
        let Some(found) = item.as_str() else {
            return Err(Unread::WrongForm);
        };
        texts.push(Text::from_str(alloc, found)?)?;
    }
    Ok(texts)
}

fn texts_of(alloc: Global, value: &Value) -> Result<Texts, Unread>
    ensures read { IfOk result (λ made. spec.texts_of (view value.now) ≡ Some made) }
    ensures wrong_form { result ≡ Err Unread.WrongForm → spec.texts_of (view value.now) ≡ None }
{
    let Some(items) = value.as_array() else {
        return Err(Unread::WrongForm);
    };
    each_text(alloc, items.as_slice())
}

/// The list of texts in a field; nothing is in it where the field is absent or null.
pub fn texts_or_none(alloc: Global, message: &Value, name: &str) -> Result<Texts, Unread>
    ensures read { IfOk result (λ made. spec.texts_or_none (spec.present name.now (view message.now)) ≡ Some made) }
    ensures wrong_form { result ≡ Err Unread.WrongForm
        → spec.texts_or_none (spec.present name.now (view message.now)) ≡ None }
{
    match present(message, name) {
        None => Ok(Texts::new(alloc)),
        Some(value) => texts_of(alloc, value),
    }
}

/// The list of texts in a field, of which there is one at least.
pub fn some_texts(alloc: Global, message: &Value, name: &str) -> Result<Texts, Unread>
    ensures read { IfOk result (λ made. spec.some_texts (get name.now (view message.now)) ≡ Some made) }
    ensures wrong_form { result ≡ Err Unread.WrongForm
        → spec.some_texts (get name.now (view message.now)) ≡ None }
{
    let Some(value) = message.get(name) else {
        return Err(Unread::WrongForm);
    };
    let texts = texts_of(alloc, value)?;
    if texts.len() == 0 {
        return Err(Unread::WrongForm);
    }
    Ok(texts)
}

fn each_member(alloc: Global, members: &Members) -> Result<KeyedTexts, Unread>
    ensures read { IfOk result (λ made. spec.each_member spec.texts_of (members_view members.now.entries) ≡ Some made) }
    ensures wrong_form { result ≡ Err Unread.WrongForm
        → spec.each_member spec.texts_of (members_view members.now.entries) ≡ None }
{
    let mut pairs = KeyedTexts::new(alloc);
    for (key, value) in members.iter() {
        let texts = texts_of(alloc, value)?;
        let key = Text::from_str(alloc, key.as_str())?;
        pairs.push((key, texts))?;
    }
    Ok(pairs)
}

fn keyed_of(alloc: Global, value: &Value) -> Result<KeyedTexts, Unread>
    ensures read { IfOk result (λ made. spec.keyed_of (view value.now) ≡ Some made) }
    ensures wrong_form { result ≡ Err Unread.WrongForm → spec.keyed_of (view value.now) ≡ None }
{
    let Some(members) = value.as_object() else {
        return Err(Unread::WrongForm);
    };
    each_member(alloc, members)
}

/// The object of lists of texts in a field; nothing is in it where the field is absent or null.
pub fn keyed_or_none(alloc: Global, message: &Value, name: &str) -> Result<KeyedTexts, Unread>
    ensures read { IfOk result (λ made. spec.keyed_or_none (spec.present name.now (view message.now)) ≡ Some made) }
    ensures wrong_form { result ≡ Err Unread.WrongForm
        → spec.keyed_or_none (spec.present name.now (view message.now)) ≡ None }
{
    match present(message, name) {
        None => Ok(KeyedTexts::new(alloc)),
        Some(value) => keyed_of(alloc, value),
    }
}
