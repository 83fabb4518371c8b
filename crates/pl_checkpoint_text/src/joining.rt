ghost use Rattle.std.specs.Prelude.{◌≡◌, ◌++◌, false, IfOk, IsUtf8, OnOk, string_cmp};
ghost use Rattle.std.specs.BTreeMap.{IsOrdered};
ghost use Rattle.pl_state.specs.declared.snapshot.Snapshot.{Snapshot};
ghost use Rattle.serde_json.specs.Data.{string};
ghost use Rattle.serde_json.specs.View.{members_view, view};
ghost use Rattle.serde_json.specs.Written.{comma_if, compact_text, has_float, members_have_float};
ghost use Rattle.pl_checkpoint_text.specs.Pieces.{ArePieces, field_text, fields_text, list_text, listed, with_places};
ghost use Rattle.pl_checkpoint_text.specs.Spelled.{checkpoint_text, unread_fields, with_manifest};

use crate::members::Members;
use crate::unread::unread_in;
use pl_value::{Bytes, OutOfMemory, Text, Texts};
use serde_json::{Map, Value as Json, put};
use std::alloc::Global;

/// The checkpoint's bytes of the state with this name, these unread fields, and these texts of its entries and of its
/// pending operations. Texts that were kept need not be made anew.
pub fn join_text(
    alloc: Global,
    stack: &Text,
    rest: &Text,
    entries: &Texts,
    pendings: &Texts,
) -> Result<Bytes, OutOfMemory>
    ensures text { IfOk result (λ bytes. (state : Snapshot)
        → ArePieces stack.now rest.now entries.now pendings.now state → bytes ≡ checkpoint_text state) }
    ensures utf8 { IfOk result (λ bytes. IsUtf8 bytes) }
{
    let members = deployment_members(alloc, rest)?;
    let mut out = Bytes::from_slice(alloc, b"{\"checkpoint\":{\"latest\":{")?;
    push_members(alloc, &mut out, &members, entries, pendings)?;
    out.extend(b"},\"stack\":")?;
    push_quoted(alloc, &mut out, stack.as_str())?;
    out.extend(b"},\"version\":3}")?;
    Ok(out)
}

/// The members of a deployment with these unread fields, and nothing yet where its two lists stand.
fn deployment_members(alloc: Global, rest: &Text) -> Result<Members, OutOfMemory>
    ensures { IfOk result (λ made. members_view made.entries ≡ with_places (unread_fields rest.now)) }
{
    let mut members = unread_in(alloc, rest)?;
    add_manifest(alloc, &mut members)?;
    put(&mut members, alloc, "pending_operations", Json::Null)?;
    put(&mut members, alloc, "resources", Json::Null)?;
    Ok(members)
}

fn add_manifest(alloc: Global, members: &mut Members) -> Result<(), OutOfMemory>
    ensures { OnOk result (members_view members.new.entries ≡ with_manifest (members_view members.old.entries)) }
{
    if members.get("manifest").is_none() {
        put(members, alloc, "manifest", Json::Object(Map::new(alloc)))?;
    }
    Ok(())
}

/// Adds a comma, where something stands before.
fn push_comma_if(out: &mut Bytes, is_later: bool) -> Result<(), OutOfMemory>
    ensures added { OnOk result (out.new ≡ out.old ++ comma_if is_later) }
    ensures utf8 { OnOk result (IsUtf8 out.old → IsUtf8 out.new) }
{
    if is_later {
        out.extend(b",")?;
    }
    Ok(())
}

/// Adds the texts, with commas between them.
fn push_listed(out: &mut Bytes, texts: &[Text]) -> Result<(), OutOfMemory>
    ensures added { OnOk result (out.new ≡ out.old ++ listed false texts.now) }
    ensures utf8 { OnOk result (IsUtf8 out.old → IsUtf8 out.new) }
{
    let mut is_later = false;
    for text in texts {
        push_comma_if(out, is_later)?;
        out.extend(text.as_str().as_bytes())?;
        is_later = true;
    }
    Ok(())
}

/// Adds the array of the texts.
fn push_list(out: &mut Bytes, texts: &Texts) -> Result<(), OutOfMemory>
    ensures added { OnOk result (out.new ≡ out.old ++ list_text texts.now) }
    ensures utf8 { OnOk result (IsUtf8 out.old → IsUtf8 out.new) }
{
    out.extend(b"[")?;
    push_listed(out, texts.as_slice())?;
    out.extend(b"]")
}

/// Adds the text of the value.
fn push_value(alloc: Global, out: &mut Bytes, value: &Json) -> Result<(), OutOfMemory>
    ensures added { OnOk result (has_float (view value.now) ≡ false → out.new ≡ out.old ++ compact_text (view value.now)) }
    ensures utf8 { OnOk result (IsUtf8 out.old → IsUtf8 out.new) }
{
    let text = value.to_vec(alloc)?;
    out.extend(text.as_slice())
}

/// Adds the text as JSON.
fn push_quoted(alloc: Global, out: &mut Bytes, text: &str) -> Result<(), OutOfMemory>
    ensures added { OnOk result (out.new ≡ out.old ++ compact_text (string text.now)) }
    ensures utf8 { OnOk result (IsUtf8 out.old → IsUtf8 out.new) }
{
    let value = Json::try_from_str(alloc, text)?;
    push_value(alloc, out, &value)
}

/// Adds what stands under the key.
fn push_field(
    alloc: Global,
    out: &mut Bytes,
    key: &str,
    value: &Json,
    entries: &Texts,
    pendings: &Texts,
) -> Result<(), OutOfMemory>
    ensures added { OnOk result (has_float (view value.now) ≡ false
        → out.new ≡ out.old ++ field_text entries.now pendings.now key.now (view value.now)) }
    ensures utf8 { OnOk result (IsUtf8 out.old → IsUtf8 out.new) }
{
    match key {
        "pending_operations" => push_list(out, pendings),
        "resources" => push_list(out, entries),
        _ => push_value(alloc, out, value),
    }
}

/// Adds the members, with commas between them.
fn push_members(
    alloc: Global,
    out: &mut Bytes,
    members: &Members,
    entries: &Texts,
    pendings: &Texts,
) -> Result<(), OutOfMemory>
    ensures rising { IsOrdered string_cmp members.now }
    ensures added { OnOk result (members_have_float (members_view members.now.entries) ≡ false
        → out.new ≡ out.old ++ fields_text entries.now pendings.now false (members_view members.now.entries)) }
    ensures utf8 { OnOk result (IsUtf8 out.old → IsUtf8 out.new) }
{
    let mut is_later = false;
    for (key, value) in members.iter() {
        push_comma_if(out, is_later)?;
        push_quoted(alloc, out, key.as_str())?;
        out.extend(b":")?;
        push_field(alloc, out, key.as_str(), value, entries, pendings)?;
        is_later = true;
    }
    Ok(())
}
