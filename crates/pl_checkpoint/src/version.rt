ghost use Rattle.std.specs.Prelude.{◌≡◌, codes, IfOk};
ghost use Rattle.pl_checkpoint_text.specs.Formed.{has_wholes, is_whole, items_have_wholes, members_have_wholes};
ghost use Rattle.pl_checkpoint_text.specs.Read.{Tells, version_of, version_text};
ghost use Rattle.serde_json.specs.Find.{get_member};
ghost use Rattle.serde_json.specs.View.{items_view, members_view, number_view, view};

use crate::kinds::{member, missing};
use pl_checkpoint_text::{Members, ReadFault};
use pl_state::BadCheckpoint;
use pl_value::{OutOfMemory, Text};
use serde_json::{Number, Value as Json};
use std::alloc::Global;

/// The version has to be there, and 3.
pub fn check_version(alloc: Global, members: &Members) -> Result<(), ReadFault>
    ensures { Tells (version_of (get_member (codes "version") (members_view members.now.entries))) result }
{
    let Some(value) = member(members, "version") else {
        return Err(missing(Text::from_str(alloc, "version")?));
    };
    match value.as_u64() {
        Some(3) => Ok(()),
        _ => Err(ReadFault::Bad(BadCheckpoint::NotVersion3(version_text(alloc, value)?))),
    }
}

/// The text of what stands for the version; empty where a number in it is not whole.
fn version_text(alloc: Global, value: &Json) -> Result<Text, OutOfMemory>
    ensures { IfOk result (λ text. text ≡ version_text (view value.now)) }
{
    if !has_wholes(value) {
        return Ok(Text::from_string(String::new(alloc)));
    }
    let text = value.to_string(alloc)?;
    Ok(Text::from_string(text))
}

#[cycle(has_wholes)]
fn has_wholes(value: &Json) -> bool
    ensures { result ≡ has_wholes (view value.now) }
{
    match value {
        Json::Number(number) => is_whole(number),
        Json::Array(items) => items_have_wholes(items.as_slice()),
        Json::Object(members) => members_have_wholes(members),
        _ => true,
    }
}

/// Whether the number is whole and has a place in 64 bits with a sign.
pub fn is_whole(number: &Number) -> bool
    ensures { result ≡ is_whole (number_view number.now) }
{
    match number.as_i64() {
        Some(_whole) => true,
        None => false,
    }
}

#[cycle(has_wholes)]
fn items_have_wholes(items: &[Json]) -> bool
    ensures { result ≡ items_have_wholes (items_view items.now) }
{
    for item in items {
        if !has_wholes(item) {
            return false;
        }
    }
    true
}

#[cycle(has_wholes)]
fn members_have_wholes(members: &Members) -> bool
    ensures { result ≡ members_have_wholes (members_view members.now.entries) }
{
    for (key, value) in members.iter() {
        if !has_wholes(value) {
            return false;
        }
    }
    true
}
