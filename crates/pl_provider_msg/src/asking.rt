ghost use Rattle.std.specs.Prelude.{◌≡◌, ◌<◌, IfErr, IfOk, OnOk, length};
ghost use Rattle.std.specs.Str.{IsUtf8};
ghost use Rattle.serde_json.specs.View.{members_view, view};
ghost use Rattle.pl_world.specs.Frames.{IsBody};
ghost use Rattle.pl_world.specs.declared.frames.TheConstants.{MAX_BODY};
ghost use Rattle.pl_members.specs.Message.{IfTooLong};
ghost use Rattle.pl_provider_msg.specs.Parts.{begun, with_names, with_objects};
ghost use Rattle.pl_provider_msg.specs.Request.{ask_data, ask_text, asked_call};

use crate::words::call_word;
use pl_events::{Ask, Call};
use pl_members::{Members, MsgOut, fitting, put_fields, put_text};
use pl_value::{Bytes, OutOfMemory};
use serde_json::{Map, Value, put};
use std::alloc::Global;

/// The bytes that ask a provider under a ticket.
pub fn request_bytes(alloc: Global, ticket: u64, body: &Ask) -> Result<Bytes, MsgOut>
    ensures bytes { IfOk result (λ bytes. bytes ≡ ask_text ticket body.now) }
    ensures utf8 { IfOk result IsUtf8 }
    ensures body { IfOk result IsBody }
    ensures too_long { IfErr result (λ error. IfTooLong error
        (λ len. len ≡ length (ask_text ticket body.now))) }
    ensures over { IfErr result (λ error. IfTooLong error (λ len. MAX_BODY < len)) }
{
    let bytes = ask_value(alloc, ticket, body)?.to_vec(alloc)?;
    fitting(bytes)
}

fn ask_value(alloc: Global, ticket: u64, body: &Ask) -> Result<Value, OutOfMemory>
    ensures { IfOk result (λ value. view value ≡ ask_data ticket body.now) }
{
    let mut members = begun(alloc, asked_call(body), ticket)?;
    put_names(alloc, &mut members, body)?;
    put_objects(alloc, &mut members, body)?;
    Ok(Value::Object(members))
}

/// The call of a request.
fn asked_call(body: &Ask) -> Call
    ensures { result ≡ asked_call body.now }
{
    match body {
        Ask::CheckConfig { .. } => Call::CheckConfig,
        Ask::Configure { .. } => Call::Configure,
        Ask::Check { .. } => Call::Check,
        Ask::Diff { .. } => Call::Diff,
        Ask::Create { .. } => Call::Create,
        Ask::Update { .. } => Call::Update,
        Ask::Delete { .. } => Call::Delete,
        Ask::Read { .. } => Call::Read,
        Ask::Invoke { .. } => Call::Invoke,
    }
}

/// What each request has: its call and its ticket.
fn begun(alloc: Global, call: Call, ticket: u64) -> Result<Members, OutOfMemory>
    ensures { IfOk result (λ made. members_view made.entries ≡ begun call ticket) }
{
    let mut members = Map::new(alloc);
    put_text(alloc, &mut members, "call", call_word(call))?;
    put(&mut members, alloc, "n", Value::from(ticket))?;
    Ok(members)
}

/// Puts the texts that name what is asked about.
fn put_names(alloc: Global, members: &mut Members, body: &Ask) -> Result<(), OutOfMemory>
    ensures { OnOk result (members_view members.new.entries
        ≡ with_names body.now (members_view members.old.entries)) }
{
    match body {
        Ask::CheckConfig { urn, .. } | Ask::Check { urn, .. } | Ask::Create { urn, .. } => {
            put_text(alloc, members, "urn", urn.as_str())
        }
        Ask::Diff { urn, id, .. }
        | Ask::Update { urn, id, .. }
        | Ask::Delete { urn, id, .. }
        | Ask::Read { urn, id, .. } => {
            put_text(alloc, members, "urn", urn.as_str())?;
            put_text(alloc, members, "id", id.as_str())
        }
        Ask::Configure { .. } => Ok(()),
        Ask::Invoke { token, .. } => put_text(alloc, members, "token", token.as_str()),
    }
}

/// Puts the objects of values.
fn put_objects(alloc: Global, members: &mut Members, body: &Ask) -> Result<(), OutOfMemory>
    ensures { OnOk result (members_view members.new.entries
        ≡ with_objects body.now (members_view members.old.entries)) }
{
    match body {
        Ask::CheckConfig { inputs, old, .. } | Ask::Check { inputs, old, .. } => {
            if let Some(old) = old {
                put_fields(alloc, members, "old", old)?;
            }
            put_fields(alloc, members, "inputs", inputs)
        }
        Ask::Configure { inputs } | Ask::Create { inputs, .. } => {
            put_fields(alloc, members, "inputs", inputs)
        }
        Ask::Diff {
            old_inputs,
            old_outputs,
            inputs,
            ..
        }
        | Ask::Update {
            old_inputs,
            old_outputs,
            inputs,
            ..
        } => {
            put_fields(alloc, members, "old_inputs", old_inputs)?;
            put_fields(alloc, members, "old_outputs", old_outputs)?;
            put_fields(alloc, members, "inputs", inputs)
        }
        Ask::Delete {
            inputs,
            outputs,
            ..
        }
        | Ask::Read {
            inputs,
            outputs,
            ..
        } => {
            put_fields(alloc, members, "inputs", inputs)?;
            put_fields(alloc, members, "outputs", outputs)
        }
        Ask::Invoke { args, .. } => put_fields(alloc, members, "args", args),
    }
}
