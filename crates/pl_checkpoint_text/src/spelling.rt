ghost use Rattle.std.specs.Prelude.{◌≡◌, IfOk, IsUtf8, map};
ghost use Rattle.serde_json.specs.View.{view};
ghost use Rattle.pl_checkpoint_text.specs.Pieces.{entry_text, pending_text};
ghost use Rattle.pl_checkpoint_text.specs.ReadLaws.{IsReadable, ReadOnlyAs};
ghost use Rattle.pl_checkpoint_text.specs.Spelled.{checkpoint_text, entry_data, kind_word, pending_data};

use crate::joining::join_text;
use crate::members::{
    put_bool, put_flag, put_properties, put_reference_if_some, put_text, put_text_if_some,
    put_texts, put_urn_if_some, put_urns, put_values,
};
use crate::unread::unread_in;
use pl_state::{Entry, Pending, PendingKind, Snapshot};
use pl_value::{Bytes, OutOfMemory, Text, Texts};
use serde_json::{Map, Value as Json, put};
use std::alloc::Global;

/// The bytes of the checkpoint. Those of a state that a checkpoint may hold read as the state, and as no other.
pub fn write(alloc: Global, state: &Snapshot) -> Result<Bytes, OutOfMemory>
    ensures text { IfOk result (λ bytes. bytes ≡ checkpoint_text state.now) }
    ensures utf8 { IfOk result (λ bytes. IsUtf8 bytes) }
    ensures read_back { IfOk result (λ bytes. IsReadable state.now → ReadOnlyAs bytes state.now) }
{
    let entries = spell_entries(alloc, state.entries.as_slice())?;
    let pendings = spell_pendings(alloc, state.pending.as_slice())?;
    join_text(alloc, &state.stack, &state.rest, &entries, &pendings)
}

fn spell_entries(alloc: Global, entries: &[Entry]) -> Result<Texts, OutOfMemory>
    ensures { IfOk result (λ made. made ≡ map entry_text entries.now) }
{
    let mut made = Texts::new(alloc);
    for entry in entries {
        made.push(spell_entry(alloc, entry)?)?;
    }
    Ok(made)
}

fn spell_pendings(alloc: Global, operations: &[Pending]) -> Result<Texts, OutOfMemory>
    ensures { IfOk result (λ made. made ≡ map pending_text operations.now) }
{
    let mut made = Texts::new(alloc);
    for operation in operations {
        made.push(spell_pending(alloc, operation)?)?;
    }
    Ok(made)
}

/// The text of an entry, for `join_text`.
pub fn spell_entry(alloc: Global, entry: &Entry) -> Result<Text, OutOfMemory>
    ensures { IfOk result (λ text. text ≡ entry_text entry.now) }
{
    let value = entry_value(alloc, entry)?;
    let text = value.to_string(alloc)?;
    Ok(Text::from_string(text))
}

/// The text of a pending operation, for `join_text`.
pub fn spell_pending(alloc: Global, operation: &Pending) -> Result<Text, OutOfMemory>
    ensures { IfOk result (λ text. text ≡ pending_text operation.now) }
{
    let value = pending_value(alloc, operation)?;
    let text = value.to_string(alloc)?;
    Ok(Text::from_string(text))
}

fn pending_value(alloc: Global, operation: &Pending) -> Result<Json, OutOfMemory>
    ensures { IfOk result (λ made. view made ≡ pending_data operation.now) }
{
    let mut members = Map::new(alloc);
    put(
        &mut members,
        alloc,
        "resource",
        entry_value(alloc, &operation.entry)?,
    )?;
    put_text(alloc, &mut members, "type", kind_word(operation.kind))?;
    Ok(Json::Object(members))
}

fn kind_word(kind: PendingKind) -> &'static str
    ensures { result.now ≡ kind_word kind }
{
    match kind {
        PendingKind::Creating => "creating",
        PendingKind::Updating => "updating",
        PendingKind::Deleting => "deleting",
        PendingKind::Reading => "reading",
        PendingKind::Importing => "importing",
    }
}

fn entry_value(alloc: Global, entry: &Entry) -> Result<Json, OutOfMemory>
    ensures { IfOk result (λ made. view made ≡ entry_data entry.now) }
{
    let mut fields = unread_in(alloc, &entry.rest)?;
    put_texts(
        alloc,
        &mut fields,
        "additionalSecretOutputs",
        &entry.additional_secret_outputs,
    )?;
    put_urns(alloc, &mut fields, "aliases", &entry.aliases)?;
    put_bool(alloc, &mut fields, "custom", entry.custom)?;
    put_flag(alloc, &mut fields, "delete", entry.doomed)?;
    put_urn_if_some(alloc, &mut fields, "deletedWith", &entry.deleted_with)?;
    put_urns(alloc, &mut fields, "dependencies", &entry.dependencies)?;
    put_flag(alloc, &mut fields, "external", entry.external)?;
    put_text_if_some(alloc, &mut fields, "id", &entry.id)?;
    put_text_if_some(alloc, &mut fields, "importID", &entry.import_id)?;
    put_texts(alloc, &mut fields, "initErrors", &entry.init_errors)?;
    put_values(alloc, &mut fields, "inputs", &entry.inputs)?;
    put_values(alloc, &mut fields, "outputs", &entry.outputs)?;
    put_urn_if_some(alloc, &mut fields, "parent", &entry.parent)?;
    put_flag(
        alloc,
        &mut fields,
        "pendingReplacement",
        entry.pending_replacement,
    )?;
    put_properties(
        alloc,
        &mut fields,
        "propertyDependencies",
        &entry.property_dependencies,
    )?;
    put_flag(alloc, &mut fields, "protect", entry.protect)?;
    put_reference_if_some(alloc, &mut fields, "provider", &entry.provider)?;
    put_flag(alloc, &mut fields, "retainOnDelete", entry.retain_on_delete)?;
    put_text(alloc, &mut fields, "type", entry.kind.as_str())?;
    put_text(alloc, &mut fields, "urn", entry.urn.as_str())?;
    Ok(Json::Object(fields))
}
