ghost use Rattle.std.specs.Prelude.{◌≡◌, ◌<◌, IfErr, IfOk, [], ◌∷◌, length};
ghost use Rattle.std.specs.Str.{IsUtf8};
ghost use Rattle.serde_json.specs.Data.{object};
ghost use Rattle.serde_json.specs.View.{members_view, view};
ghost use Rattle.pl_world.specs.Frames.{IsBody};
ghost use Rattle.pl_world.specs.declared.frames.TheConstants.{MAX_BODY};
ghost use Rattle.pl_members.specs.Message.{IfTooLong};
ghost use Rattle.pl_json.specs.Spelled.{spelled_fields};
ghost use Rattle.pl_provider_msg.specs.Request.{object_of};
ghost use Rattle.pl_provider_msg.specs.Response.{compared_data, ok_data, partial_data, reply_data, reply_text};

use crate::members::spell_reasons;
use crate::words::changes_word;
use pl_events::{Reasons, Reply};
use pl_members::{Members, MsgOut, fitting, put_bool, put_fields, put_text, spell_texts};
use pl_state::Diffed;
use pl_value::{Bytes, Fields, OutOfMemory, Text, Texts};
use serde_json::{Map, Value, json, put};
use std::alloc::{AllocError, Global};

/// The bytes of the reply under a ticket.
pub fn reply_bytes(alloc: Global, ticket: u64, reply: &Reply) -> Result<Bytes, MsgOut>
    ensures bytes { IfOk result (λ bytes. bytes ≡ reply_text ticket reply.now) }
    ensures utf8 { IfOk result IsUtf8 }
    ensures body { IfOk result IsBody }
    ensures too_long { IfErr result (λ error. IfTooLong error
        (λ len. len ≡ length (reply_text ticket reply.now))) }
    ensures over { IfErr result (λ error. IfTooLong error (λ len. MAX_BODY < len)) }
{
    let bytes = reply_value(alloc, ticket, reply)?.to_vec(alloc)?;
    fitting(bytes)
}

fn reply_value(alloc: Global, ticket: u64, reply: &Reply) -> Result<Value, OutOfMemory>
    ensures { IfOk result (λ value. view value ≡ reply_data ticket reply.now) }
{
    match reply {
        Reply::Checked(inputs) => one_object(alloc, ticket, "inputs", inputs),
        Reply::CheckFailed(reasons) => failed(alloc, ticket, reasons),
        Reply::Configured => done(alloc, ticket, Map::new(alloc)),
        Reply::Diffed(told) => compared(alloc, ticket, told),
        Reply::Made { id, outputs } => made(alloc, ticket, id, outputs),
        Reply::MadePartly {
            id,
            outputs,
            reasons,
        } => made_partly(alloc, ticket, id, outputs, reasons),
        Reply::Changed { outputs } => one_object(alloc, ticket, "outputs", outputs),
        Reply::ChangedPartly { outputs, reasons } => {
            changed_partly(alloc, ticket, outputs, reasons)
        }
        Reply::Removed => done(alloc, ticket, Map::new(alloc)),
        Reply::Found {
            id,
            inputs,
            outputs,
        } => found(alloc, ticket, id, inputs, outputs),
        Reply::Gone => Ok(gone(alloc, ticket)?),
        Reply::Result(fields) => one_object(alloc, ticket, "result", fields),
        Reply::Error(text) => Ok(refused(alloc, ticket, text.as_str())?),
    }
}

/// The reply of success with these members.
fn done(alloc: Global, ticket: u64, members: Members) -> Result<Value, OutOfMemory>
    ensures { IfOk result (λ value. view value ≡ ok_data ticket (object (members_view members.entries))) }
{
    let mut reply = Map::new(alloc);
    put(&mut reply, alloc, "n", Value::from(ticket))?;
    put(&mut reply, alloc, "ok", Value::Object(members))?;
    Ok(Value::Object(reply))
}

/// The reply of what was done in part, with these members.
fn partly(alloc: Global, ticket: u64, members: Members) -> Result<Value, OutOfMemory>
    ensures { IfOk result (λ value. view value ≡ partial_data ticket (object (members_view members.entries))) }
{
    let mut reply = Map::new(alloc);
    put(&mut reply, alloc, "n", Value::from(ticket))?;
    put(&mut reply, alloc, "partial", Value::Object(members))?;
    Ok(Value::Object(reply))
}

/// The reply of success that has one object of values.
fn one_object(alloc: Global, ticket: u64, key: &str, fields: &Fields) -> Result<Value, OutOfMemory>
    ensures { IfOk result (λ value. view value
        ≡ ok_data ticket (object_of ((key.now, spelled_fields fields.now) ∷ []))) }
{
    let mut members = Map::new(alloc);
    put_fields(alloc, &mut members, key, fields)?;
    done(alloc, ticket, members)
}

fn failed(alloc: Global, ticket: u64, reasons: &Reasons) -> Result<Value, OutOfMemory>
    ensures { IfOk result (λ value. view value ≡ reply_data ticket (Reply.CheckFailed reasons.now)) }
{
    let failures = spell_reasons(alloc, reasons.as_slice())?;
    let mut reply = Map::new(alloc);
    put(&mut reply, alloc, "failures", failures)?;
    put(&mut reply, alloc, "n", Value::from(ticket))?;
    Ok(Value::Object(reply))
}

fn compared(alloc: Global, ticket: u64, told: &Diffed) -> Result<Value, OutOfMemory>
    ensures { IfOk result (λ value. view value ≡ ok_data ticket (compared_data told.now)) }
{
    let mut members = Map::new(alloc);
    put_text(alloc, &mut members, "changes", changes_word(told.changes))?;
    let first = told.delete_before_replace;
    put_bool(alloc, &mut members, "delete_before_replace", first)?;
    let replaces = spell_texts(alloc, told.replaces.as_slice())?;
    put(&mut members, alloc, "replaces", replaces)?;
    done(alloc, ticket, members)
}

fn made(alloc: Global, ticket: u64, id: &Text, outputs: &Fields) -> Result<Value, OutOfMemory>
    ensures { IfOk result (λ value. view value ≡ reply_data ticket (Reply.Made id.now outputs.now)) }
{
    let mut members = Map::new(alloc);
    put_text(alloc, &mut members, "id", id.as_str())?;
    put_fields(alloc, &mut members, "outputs", outputs)?;
    done(alloc, ticket, members)
}

fn made_partly(
    alloc: Global,
    ticket: u64,
    id: &Text,
    outputs: &Fields,
    reasons: &Texts,
) -> Result<Value, OutOfMemory>
    ensures { IfOk result (λ value. view value
        ≡ reply_data ticket (Reply.MadePartly id.now outputs.now reasons.now)) }
{
    let mut members = Map::new(alloc);
    put_text(alloc, &mut members, "id", id.as_str())?;
    put_fields(alloc, &mut members, "outputs", outputs)?;
    let reasons = spell_texts(alloc, reasons.as_slice())?;
    put(&mut members, alloc, "reasons", reasons)?;
    partly(alloc, ticket, members)
}

fn changed_partly(
    alloc: Global,
    ticket: u64,
    outputs: &Fields,
    reasons: &Texts,
) -> Result<Value, OutOfMemory>
    ensures { IfOk result (λ value. view value
        ≡ reply_data ticket (Reply.ChangedPartly outputs.now reasons.now)) }
{
    let mut members = Map::new(alloc);
    put_fields(alloc, &mut members, "outputs", outputs)?;
    let reasons = spell_texts(alloc, reasons.as_slice())?;
    put(&mut members, alloc, "reasons", reasons)?;
    partly(alloc, ticket, members)
}

fn found(
    alloc: Global,
    ticket: u64,
    id: &Text,
    inputs: &Option<Fields>,
    outputs: &Fields,
) -> Result<Value, OutOfMemory>
    ensures { IfOk result (λ value. view value
        ≡ reply_data ticket (Reply.Found id.now inputs.now outputs.now)) }
{
    let mut members = Map::new(alloc);
    put_text(alloc, &mut members, "id", id.as_str())?;
    put_fields(alloc, &mut members, "outputs", outputs)?;
    if let Some(inputs) = inputs {
        put_fields(alloc, &mut members, "inputs", inputs)?;
    }
    done(alloc, ticket, members)
}

fn gone(alloc: Global, ticket: u64) -> Result<Value, AllocError>
    ensures { IfOk result (λ value. view value ≡ reply_data ticket Reply.Gone) }
{
    json!(in alloc; {"gone": true, "n": ticket})
}

fn refused(alloc: Global, ticket: u64, error: &str) -> Result<Value, AllocError>
    ensures { IfOk result (λ value. view value ≡ reply_data ticket (Reply.Error error.now)) }
{
    json!(in alloc; {"error": error, "n": ticket})
}
