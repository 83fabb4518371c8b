ghost use Rattle.std.specs.Prelude.{◌≡◌};
ghost use Rattle.serde_json.specs.View.{members_view, view};
ghost use Rattle.pl_checkpoint_text.specs.Read.{Tells};
ghost use Rattle.pl_checkpoint_text.specs.ReadEntry.{entry_in};
ghost use Rattle.pl_checkpoint.specs.ReadParts.{entry_by_parts};

use crate::kinds::wrong_kind;
use crate::sections::{further_of, joined, last_of, linked_of, named_of, placed_of};
use pl_checkpoint_text::{Members, ReadFault};
use pl_state::Entry;
use pl_value::Text;
use serde_json::Value as Json;
use std::alloc::Global;

/// An entry at the path.
pub fn entry_in(alloc: Global, value: &Json, path: Text) -> Result<Entry, ReadFault>
    ensures { Tells (entry_in path (view value.now)) result }
{
    match value.as_object() {
        Some(members) => entry_of(alloc, members, path.as_str()),
        None => Err(wrong_kind(path)),
    }
}

/// The entry whose fields are these members, at the path.
#[tactic(auto, unfolding(crate::specs::ReadParts::entry_by_parts))]
fn entry_of(alloc: Global, members: &Members, path: &str) -> Result<Entry, ReadFault>
    ensures { Tells (entry_by_parts path.now (members_view members.now.entries)) result }
{
    let named = named_of(alloc, members, path)?;
    let placed = placed_of(alloc, members, path)?;
    let linked = linked_of(alloc, members, path)?;
    let further = further_of(alloc, members, path)?;
    let last = last_of(alloc, members, path)?;
    Ok(joined(named, placed, linked, further, last))
}
