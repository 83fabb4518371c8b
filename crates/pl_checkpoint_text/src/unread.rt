ghost use Rattle.std.specs.Prelude.{◌≡◌, IfOk, Some, unwrap_or};
ghost use Rattle.serde_json.specs.Data.{no_members};
ghost use Rattle.serde_json.specs.Find.{as_object};
ghost use Rattle.pl_checkpoint_text.specs.Spelled.{unread_fields, whole_members};
ghost use Rattle.serde_json.specs.View.{items_view, members_view, view};
ghost use Rattle.serde_json.specs.Written.{has_float, items_have_float, members_have_float};

use crate::members::Members;
use pl_value::{OutOfMemory, Text};
use serde_json::{Map, Value as Json};
use std::alloc::Global;
use std::mem;

/// The fields of the object that the text spells; none where it spells no object, or where a number in it is not whole.
pub fn unread_in(alloc: Global, text: &Text) -> Result<Members, OutOfMemory>
    ensures { IfOk result (λ made. members_view made.entries ≡ unread_fields text.now) }
{
    match Json::from_str(alloc, text.as_str()) {
        Ok(mut value) => Ok(whole_or_none(alloc, take_members(alloc, &mut value))),
        Err(fault) => {
            if fault.is_memory() {
                Err(OutOfMemory)
            } else {
                Ok(Map::new(alloc))
            }
        }
    }
}

/// Takes the members of an object away from it.
fn take_members(alloc: Global, value: &mut Json) -> Members
    ensures { members_view result.entries ≡ unwrap_or (as_object (view value.old)) no_members }
{
    match value.as_object_mut() {
        Some(members) => mem::replace(members, Map::new(alloc)),
        None => Map::new(alloc),
    }
}

fn whole_or_none(alloc: Global, members: Members) -> Members
    ensures { members_view result.entries ≡ whole_members (Some (members_view members.entries)) }
{
    if have_float(&members) {
        return Map::new(alloc);
    }
    members
}

#[cycle(has_float)]
fn has_float(value: &Json) -> bool
    ensures { result ≡ has_float (view value.now) }
{
    match value {
        Json::Number(number) => number.is_f64(),
        Json::Array(items) => any_has_float(items.as_slice()),
        Json::Object(members) => have_float(members),
        _ => false,
    }
}

#[cycle(has_float)]
fn any_has_float(items: &[Json]) -> bool
    ensures { result ≡ items_have_float (items_view items.now) }
{
    for item in items {
        if has_float(item) {
            return true;
        }
    }
    false
}

#[cycle(has_float)]
fn have_float(members: &Members) -> bool
    ensures { result ≡ members_have_float (members_view members.now.entries) }
{
    for (key, member) in members.iter() {
        if has_float(member) {
            return true;
        }
    }
    false
}
