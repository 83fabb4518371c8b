ghost use Rattle.std.specs.Prelude.{◌≡◌};
ghost use Rattle.serde_json.specs.View.{members_view, view};
ghost use Rattle.pl_checkpoint_text.specs.Read.{Tells};
ghost use Rattle.pl_checkpoint_text.specs.ReadEntry.{entry_in, kind_called, kind_in, pending_in, pending_of};
ghost use Rattle.pl_checkpoint_text.specs.ReadField.{required};

use crate::entry::entry_in;
use crate::kinds::{given, missing, wrong_kind};
use crate::path::field_path;
use pl_checkpoint_text::{Members, ReadFault};
use pl_state::{Entry, Pending, PendingKind};
use pl_value::Text;
use serde_json::Value as Json;
use std::alloc::Global;

/// A pending operation at the path.
pub fn pending_in(alloc: Global, value: &Json, path: Text) -> Result<Pending, ReadFault>
    ensures { Tells (pending_in path (view value.now)) result }
{
    match value.as_object() {
        Some(members) => pending_of(alloc, members, path.as_str()),
        None => Err(wrong_kind(path)),
    }
}

/// The pending operation whose fields are these members, at the path.
#[tactic(auto, unfolding(pl_checkpoint_text::specs::ReadEntry::pending_of))]
fn pending_of(alloc: Global, members: &Members, path: &str) -> Result<Pending, ReadFault>
    ensures { Tells (pending_of path.now (members_view members.now.entries)) result }
{
    let kind = pending_kind(alloc, members, path, "type")?;
    let entry = required_entry(alloc, members, path, "resource")?;
    Ok(Pending { kind, entry })
}

#[tactic(auto, unfolding(pl_checkpoint_text::specs::ReadField::required))]
fn pending_kind(
    alloc: Global,
    members: &Members,
    path: &str,
    key: &str,
) -> Result<PendingKind, ReadFault>
    ensures { Tells (required kind_in path.now key.now (members_view members.now.entries)) result }
{
    let path = field_path(alloc, path, key)?;
    let Some(value) = given(members, key) else {
        return Err(missing(path));
    };
    match value.as_str().and_then(kind_called) {
        Some(kind) => Ok(kind),
        None => Err(wrong_kind(path)),
    }
}

fn kind_called(word: &str) -> Option<PendingKind>
    ensures { result ≡ kind_called word.now }
{
    match word {
        "creating" => Some(PendingKind::Creating),
        "updating" => Some(PendingKind::Updating),
        "deleting" => Some(PendingKind::Deleting),
        "reading" => Some(PendingKind::Reading),
        "importing" => Some(PendingKind::Importing),
        _ => None,
    }
}

#[tactic(auto, unfolding(pl_checkpoint_text::specs::ReadField::required))]
fn required_entry(
    alloc: Global,
    members: &Members,
    path: &str,
    key: &str,
) -> Result<Entry, ReadFault>
    ensures { Tells (required entry_in path.now key.now (members_view members.now.entries)) result }
{
    let path = field_path(alloc, path, key)?;
    match given(members, key) {
        Some(value) => entry_in(alloc, value, path),
        None => Err(missing(path)),
    }
}
