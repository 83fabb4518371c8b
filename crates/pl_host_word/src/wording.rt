ghost use Rattle.std.specs.Prelude.{◌≡◌, ◌<◌, ◌≤◌, IfErr, IfOk, OnOk, length};
ghost use Rattle.std.specs.Str.{IsUtf8};
ghost use Rattle.serde_json.specs.View.{members_view, view};
ghost use Rattle.pl_world.specs.Frames.{IsBody};
ghost use Rattle.pl_world.specs.declared.frames.TheConstants.{MAX_BODY};
ghost use Rattle.pl_members.specs.Message.{IfTooLong};
ghost use Rattle.pl_host_word.specs.Spelled.{done_data, early_fields, early_read_fields, failed_data, invoke_data, late_fields, late_read_fields, outputs_data, read_data, register_data, request_data, told_data, word_data, word_text};
ghost use Rattle.pl_json.specs.Objects.{with_fields};

use crate::calls::HostCall;
use crate::members::{put_call, put_number};
use crate::word::HostWord;
use pl_events::Request;
use pl_members::{
    Members, MsgOut, fitting, put_bool, put_fields, put_flag, put_flag_if_some, put_keyed,
    put_pairs, put_text, put_text_if_some, put_texts,
};
use pl_state::Registration;
use pl_value::{Bytes, Fields, OutOfMemory, Text};
use pl_world::MAX_BODY;
use serde_json::{Map, Value};
use std::alloc::Global;

/// The bytes of a word, as a host sends it. `TooLong` comes where they are too many for the body of a frame.
pub fn word_bytes(alloc: Global, word: &HostWord) -> Result<Bytes, MsgOut>
    ensures bytes { IfOk result (λ bytes. bytes ≡ word_text word.now) }
    ensures utf8 { IfOk result IsUtf8 }
    ensures body { IfOk result IsBody }
    ensures too_long { IfErr result (λ error. IfTooLong error
        (λ len. len ≡ length (word_text word.now))) }
    ensures over { IfErr result (λ error. IfTooLong error (λ len. MAX_BODY < len)) }
{
    let bytes = word_value(alloc, word)?.to_vec(alloc)?;
    fitting(bytes)
}

fn word_value(alloc: Global, word: &HostWord) -> Result<Value, OutOfMemory>
    ensures { IfOk result (λ value. view value ≡ word_data word.now) }
{
    match word {
        HostWord::Request(request) => request_value(alloc, request),
        HostWord::Success => done_value(alloc),
        HostWord::Error(text) => failed_value(alloc, text.as_str()),
    }
}

fn request_value(alloc: Global, request: &Request) -> Result<Value, OutOfMemory>
    ensures { IfOk result (λ value. view value ≡ request_data request.now) }
{
    match request {
        Request::Register { n, told } => told_value(alloc, *n, told),
        Request::Outputs { n, urn, outputs } => outputs_value(alloc, *n, urn, outputs),
        Request::Invoke {
            n,
            token,
            args,
            provider,
            version,
        } => invoke_value(alloc, *n, token, args, provider, version),
    }
}

/// A registration that names an id to read is a reading.
fn told_value(alloc: Global, n: u64, told: &Registration) -> Result<Value, OutOfMemory>
    ensures { IfOk result (λ value. view value ≡ told_data n told.now told.now.read_id) }
{
    match &told.read_id {
        None => register_value(alloc, n, told),
        Some(id) => read_value(alloc, n, id, told),
    }
}

#[tactic(auto, unfolding(crate::specs::Spelled::register_data))]
fn register_value(alloc: Global, n: u64, told: &Registration) -> Result<Value, OutOfMemory>
    ensures { IfOk result (λ value. view value ≡ register_data n told.now) }
{
    let mut members = Map::new(alloc);
    put_early(alloc, &mut members, told)?;
    put_late(alloc, &mut members, n, told)?;
    Ok(Value::Object(members))
}

/// Puts the first fields of a registration.
fn put_early(alloc: Global, members: &mut Members, told: &Registration) -> Result<(), OutOfMemory>
    ensures { OnOk result (members_view members.new.entries
        ≡ with_fields (early_fields told.now) (members_view members.old.entries)) }
{
    let secrets = &told.additional_secret_outputs;
    put_texts(alloc, members, "additionalSecretOutputs", secrets)?;
    put_texts(alloc, members, "aliases", &told.aliases)?;
    put_call(alloc, members, HostCall::Register)?;
    put_bool(alloc, members, "custom", told.custom)?;
    let first = told.delete_before_replace;
    put_flag_if_some(alloc, members, "deleteBeforeReplace", first)?;
    put_text_if_some(alloc, members, "deletedWith", &told.deleted_with)?;
    put_texts(alloc, members, "dependencies", &told.dependencies)?;
    put_texts(alloc, members, "ignoreChanges", &told.ignore_changes)?;
    put_text_if_some(alloc, members, "importId", &told.import_id)?;
    put_pairs(alloc, members, "inputs", &told.inputs)?;
    Ok(())
}

/// Puts the other fields of a registration.
fn put_late(
    alloc: Global,
    members: &mut Members,
    n: u64,
    told: &Registration,
) -> Result<(), OutOfMemory>
    ensures { OnOk result (members_view members.new.entries
        ≡ with_fields (late_fields n told.now) (members_view members.old.entries)) }
{
    put_number(alloc, members, n)?;
    put_text(alloc, members, "name", told.name.as_str())?;
    put_text_if_some(alloc, members, "parent", &told.parent)?;
    let properties = &told.property_dependencies;
    put_keyed(alloc, members, "propertyDependencies", properties)?;
    put_flag(alloc, members, "protect", told.protect)?;
    put_text_if_some(alloc, members, "provider", &told.provider)?;
    put_flag(alloc, members, "retainOnDelete", told.retain_on_delete)?;
    put_text(alloc, members, "type", told.kind.as_str())?;
    put_text_if_some(alloc, members, "version", &told.version)?;
    Ok(())
}

#[tactic(auto, unfolding(crate::specs::Spelled::read_data))]
fn read_value(alloc: Global, n: u64, id: &Text, told: &Registration) -> Result<Value, OutOfMemory>
    ensures { IfOk result (λ value. view value ≡ read_data n id.now told.now) }
{
    let mut members = Map::new(alloc);
    put_early_read(alloc, &mut members, id, told)?;
    put_late_read(alloc, &mut members, n, told)?;
    Ok(Value::Object(members))
}

/// Puts the first fields of a reading.
fn put_early_read(
    alloc: Global,
    members: &mut Members,
    id: &Text,
    told: &Registration,
) -> Result<(), OutOfMemory>
    ensures { OnOk result (members_view members.new.entries
        ≡ with_fields (early_read_fields id.now told.now) (members_view members.old.entries)) }
{
    put_call(alloc, members, HostCall::Read)?;
    put_texts(alloc, members, "dependencies", &told.dependencies)?;
    put_text(alloc, members, "id", id.as_str())?;
    put_pairs(alloc, members, "inputs", &told.inputs)?;
    Ok(())
}

/// Puts the other fields of a reading.
fn put_late_read(
    alloc: Global,
    members: &mut Members,
    n: u64,
    told: &Registration,
) -> Result<(), OutOfMemory>
    ensures { OnOk result (members_view members.new.entries
        ≡ with_fields (late_read_fields n told.now) (members_view members.old.entries)) }
{
    put_number(alloc, members, n)?;
    put_text(alloc, members, "name", told.name.as_str())?;
    put_text_if_some(alloc, members, "parent", &told.parent)?;
    let properties = &told.property_dependencies;
    put_keyed(alloc, members, "propertyDependencies", properties)?;
    put_text_if_some(alloc, members, "provider", &told.provider)?;
    put_text(alloc, members, "type", told.kind.as_str())?;
    put_text_if_some(alloc, members, "version", &told.version)?;
    Ok(())
}

#[tactic(auto, unfolding(crate::specs::Spelled::outputs_data))]
fn outputs_value(alloc: Global, n: u64, urn: &Text, outputs: &Fields) -> Result<Value, OutOfMemory>
    ensures { IfOk result (λ value. view value ≡ outputs_data n urn.now outputs.now) }
{
    let mut members = Map::new(alloc);
    put_call(alloc, &mut members, HostCall::Outputs)?;
    put_number(alloc, &mut members, n)?;
    put_fields(alloc, &mut members, "outputs", outputs)?;
    put_text(alloc, &mut members, "urn", urn.as_str())?;
    Ok(Value::Object(members))
}

#[tactic(auto, unfolding(crate::specs::Spelled::invoke_data))]
fn invoke_value(
    alloc: Global,
    n: u64,
    token: &Text,
    args: &Fields,
    provider: &Option<Text>,
    version: &Option<Text>,
) -> Result<Value, OutOfMemory>
    ensures { IfOk result (λ value. view value ≡ invoke_data n token.now args.now provider.now version.now) }
{
    let mut members = Map::new(alloc);
    put_pairs(alloc, &mut members, "args", args)?;
    put_call(alloc, &mut members, HostCall::Invoke)?;
    put_number(alloc, &mut members, n)?;
    put_text_if_some(alloc, &mut members, "provider", provider)?;
    put_text(alloc, &mut members, "token", token.as_str())?;
    put_text_if_some(alloc, &mut members, "version", version)?;
    Ok(Value::Object(members))
}

fn done_value(alloc: Global) -> Result<Value, OutOfMemory>
    ensures { IfOk result (λ value. view value ≡ done_data) }
{
    let mut members = Map::new(alloc);
    put_call(alloc, &mut members, HostCall::Done)?;
    Ok(Value::Object(members))
}

fn failed_value(alloc: Global, text: &str) -> Result<Value, OutOfMemory>
    ensures { IfOk result (λ value. view value ≡ failed_data text.now) }
{
    let mut members = Map::new(alloc);
    put_call(alloc, &mut members, HostCall::Failed)?;
    put_text(alloc, &mut members, "text", text)?;
    Ok(Value::Object(members))
}
