ghost use Rattle.std.specs.Prelude.{◌≡◌, IfOk, Err, None, Some};
ghost use Rattle.serde_json.specs.View.{items_view, view};
ghost use Rattle.pl_members.specs.Field.{each_item};
ghost use Rattle.pl_provider_msg.specs.Reasons.{reason_of, some_reasons};

use pl_events::Reasons;
use pl_members::{Unread, text};
use pl_value::Text;
use serde_json::Value;
use std::alloc::Global;

/// A property and the reason for which its value is refused.
fn reason_of(alloc: Global, value: &Value) -> Result<(Text, Text), Unread>
    ensures read { IfOk result (λ made. reason_of (view value.now) ≡ Some made) }
    ensures wrong_form { result ≡ Err Unread.WrongForm → reason_of (view value.now) ≡ None }
{
    let property = text(alloc, value, "property")?;
    let reason = text(alloc, value, "reason")?;
    Ok((property, reason))
}

fn each_reason(alloc: Global, items: &[Value]) -> Result<Reasons, Unread>
    ensures read { IfOk result (λ made. each_item reason_of (items_view items.now) ≡ Some made) }
    ensures wrong_form { result ≡ Err Unread.WrongForm → each_item reason_of (items_view items.now) ≡ None }
{
    let mut reasons = Reasons::new(alloc);
    for item in items {
        reasons.push(reason_of(alloc, item)?)?;
    }
    Ok(reasons)
}

/// The list of such reasons, of which there is one at least.
pub(crate) fn some_reasons(alloc: Global, value: &Value) -> Result<Reasons, Unread>
    ensures read { IfOk result (λ made. some_reasons (view value.now) ≡ Some made) }
    ensures wrong_form { result ≡ Err Unread.WrongForm → some_reasons (view value.now) ≡ None }
{
    let Some(items) = value.as_array() else {
        return Err(Unread::WrongForm);
    };
    let reasons = each_reason(alloc, items.as_slice())?;
    if reasons.len() == 0 {
        return Err(Unread::WrongForm);
    }
    Ok(reasons)
}
