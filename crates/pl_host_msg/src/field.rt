ghost use Rattle.std.specs.Prelude.{◌≡◌, option_map};
ghost use Rattle.serde_json.specs.View.{view};
ghost use Rattle.pl_members.specs.Field.{present, text};
ghost use Rattle.pl_host_msg.specs.Field.{is_empty_list, is_empty_object, is_false, is_left_out, optional_text, plain_type, request_number};

use pl_members::{GREATEST_NUMBER, present};
use pl_urn::is_provider_type;
use serde_json::Value;

pub(crate) fn text<'a>(message: &'a Value, name: &str) -> Option<&'a str>
    ensures { option_map (λ found. found.now) result ≡ text (present name.now (view message.now)) }
{
    present(message, name)?.as_str()
}

pub(crate) fn plain_type<'a>(message: &'a Value, name: &str) -> Option<&'a str>
    ensures { option_map (λ found. found.now) result
        ≡ plain_type (present name.now (view message.now)) }
{
    let kind = text(message, name)?;
    if is_provider_type(kind) {
        None
    } else {
        Some(kind)
    }
}

pub(crate) fn request_number(message: &Value, name: &str) -> Option<u64>
    ensures { result ≡ request_number (present name.now (view message.now)) }
{
    let n = present(message, name)?.as_u64()?;
    if 1 <= n && n <= GREATEST_NUMBER {
        Some(n)
    } else {
        None
    }
}

pub(crate) fn optional_text<'a>(message: &'a Value, name: &str) -> Option<Option<&'a str>>
    ensures { option_map (λ found. option_map (λ text. text.now) found) result
        ≡ optional_text (present name.now (view message.now)) }
{
    let Some(value) = present(message, name) else {
        return Some(None);
    };
    let text = value.as_str()?;
    if text.is_empty() {
        Some(None)
    } else {
        Some(Some(text))
    }
}

pub(crate) fn is_left_out(message: &Value, name: &str) -> bool
    ensures { result ≡ is_left_out (present name.now (view message.now)) }
{
    present(message, name).is_none()
}

pub(crate) fn is_false(message: &Value, name: &str) -> bool
    ensures { result ≡ is_false (present name.now (view message.now)) }
{
    match present(message, name) {
        None => true,
        Some(value) => !value.as_bool().unwrap_or(true),
    }
}

pub(crate) fn is_empty_list(message: &Value, name: &str) -> bool
    ensures { result ≡ is_empty_list (present name.now (view message.now)) }
{
    let Some(value) = present(message, name) else {
        return true;
    };
    match value.as_array() {
        None => false,
        Some(items) => items.is_empty(),
    }
}

pub(crate) fn is_empty_object(message: &Value, name: &str) -> bool
    ensures { result ≡ is_empty_object (present name.now (view message.now)) }
{
    let Some(value) = present(message, name) else {
        return true;
    };
    match value.as_object() {
        None => false,
        Some(members) => members.is_empty(),
    }
}
