ghost use Rattle.std.specs.Prelude.{◌≡◌, ◌<◌, ◌≤◌, IfErr, IfOk, length};
ghost use Rattle.std.specs.Str.{IsUtf8};
ghost use Rattle.serde_json.specs.Data.{object};
ghost use Rattle.serde_json.specs.View.{members_view, view};
ghost use Rattle.pl_events.specs.Halted.{halted};
ghost use Rattle.pl_host_msg.specs.Answer.{answer_data, answer_text, ok_data};
ghost use Rattle.pl_members.specs.Message.{IfTooLong};
ghost use Rattle.pl_world.specs.declared.frames.TheConstants.{MAX_BODY};

use pl_events::Answer;
use pl_json::spell_fields;
use pl_members::{MsgOut, fitting};
use pl_urn::Urn;
use pl_value::{Bytes, Fields, OutOfMemory, Text};
use serde_json::{Map, Value, json, put};
use std::alloc::{AllocError, Global};

/// The bytes of the answer to request `n`.
pub fn answer_bytes(alloc: Global, n: u64, answer: &Answer) -> Result<Bytes, MsgOut>
    ensures bytes { IfOk result (λ bytes. bytes ≡ answer_text n answer.now) }
    ensures utf8 { IfOk result IsUtf8 }
    ensures fits { IfOk result (λ bytes. length bytes ≤ MAX_BODY) }
    ensures too_long { IfErr result (λ error. IfTooLong error
        (λ len. len ≡ length (answer_text n answer.now))) }
    ensures over { IfErr result (λ error. IfTooLong error (λ len. MAX_BODY < len)) }
{
    let bytes = answer_value(alloc, n, answer)?.to_vec(alloc)?;
    fitting(bytes)
}

fn answer_value(alloc: Global, n: u64, answer: &Answer) -> Result<Value, OutOfMemory>
    ensures { IfOk result (λ value. view value ≡ answer_data n answer.now) }
{
    match answer {
        Answer::Registered { urn, id, outputs } => registered(alloc, n, urn, id, outputs),
        Answer::Noted => answered(alloc, n, Map::new(alloc)),
        Answer::Result(fields) => resulted(alloc, n, fields),
        Answer::Refused(error) => Ok(refused(alloc, n, error.as_str())?),
    }
}

/// The answer that is no refusal, with these members.
fn answered(alloc: Global, n: u64, members: Map<String, Value>) -> Result<Value, OutOfMemory>
    ensures { IfOk result (λ value. view value ≡ ok_data n (object (members_view members.entries))) }
{
    let mut answer = Map::new(alloc);
    put(&mut answer, alloc, "n", Value::from(n))?;
    put(&mut answer, alloc, "ok", Value::Object(members))?;
    Ok(Value::Object(answer))
}

fn registered(
    alloc: Global,
    n: u64,
    urn: &Urn,
    id: &Option<Text>,
    outputs: &Fields,
) -> Result<Value, OutOfMemory>
    ensures { IfOk result (λ value. view value ≡ answer_data n (Answer.Registered urn.now id.now outputs.now)) }
{
    let mut members = Map::new(alloc);
    if let Some(id) = id {
        put(
            &mut members,
            alloc,
            "id",
            Value::try_from_str(alloc, id.as_str())?,
        )?;
    }
    put(
        &mut members,
        alloc,
        "outputs",
        spell_fields(alloc, outputs)?,
    )?;
    put(
        &mut members,
        alloc,
        "urn",
        Value::try_from_str(alloc, urn.as_str())?,
    )?;
    answered(alloc, n, members)
}

fn resulted(alloc: Global, n: u64, fields: &Fields) -> Result<Value, OutOfMemory>
    ensures { IfOk result (λ value. view value ≡ answer_data n (Answer.Result fields.now)) }
{
    let mut members = Map::new(alloc);
    put(&mut members, alloc, "result", spell_fields(alloc, fields)?)?;
    answered(alloc, n, members)
}

fn refused(alloc: Global, n: u64, error: &str) -> Result<Value, AllocError>
    ensures { IfOk result (λ value. view value ≡ answer_data n (Answer.Refused error.now)) }
{
    json!(in alloc; {"error": error, "n": n})
}

/// The bytes of the answer to request `n` that the run no longer takes up. They always fit a frame.
pub fn halted_bytes(alloc: Global, n: u64) -> Result<Bytes, OutOfMemory>
    ensures bytes { IfOk result (λ bytes. bytes ≡ answer_text n halted) }
    ensures fits { IfOk result (λ bytes. length bytes ≤ MAX_BODY) }
{
    let value = refused(alloc, n, "halted")?;
    Ok(Bytes::from_vec(value.to_vec(alloc)?))
}
