ghost use Rattle.std.specs.Prelude.{◌≡◌, IfOk, Err, None, Some, true};
ghost use Rattle.serde_json.specs.View.{view};
ghost use Rattle.pl_events.specs.Replies.{reply_fits};
ghost use Rattle.pl_provider_msg.specs.Response.{changed_of, changed_partly_of, checked_of, compared_of, done_of, error_of, failures_of, found_of, gone_of, made_of, made_partly_of, partial_of, reply_called, reply_in, reply_read, result_of, success_of};

use crate::reasons::some_reasons;
use crate::words::changes_named;
use pl_events::{Call, Reply};
use pl_members::{
    MsgIn, Unread, flag_or, json_of, nonempty_text, pairs, pairs_if_there, present, some_texts,
    str_in, texts_or_none, whole,
};
use pl_state::Diffed;
use pl_value::{OutOfMemory, Text};
use serde_json::Value;
use std::alloc::Global;

/// The reply to a call that the body of a frame spells under a ticket.
pub fn reply_of(alloc: Global, ticket: u64, call: Call, bytes: &[u8]) -> Result<Reply, MsgIn>
    ensures reply { IfOk result (λ reply. reply_in ticket call bytes.now ≡ Some reply) }
    ensures fits { IfOk result (λ reply. reply_fits call reply ≡ true) }
    ensures no_message { result ≡ Err MsgIn.NotAMessage → reply_in ticket call bytes.now ≡ None }
{
    match reply_in(alloc, ticket, call, bytes) {
        Ok(reply) => Ok(reply),
        Err(Unread::WrongForm) => Err(MsgIn::NotAMessage),
        Err(Unread::OutOfMemory) => Err(MsgIn::OutOfMemory),
    }
}

#[tactic(auto, unfolding(crate::specs::Response::reply_in))]
fn reply_in(alloc: Global, ticket: u64, call: Call, bytes: &[u8]) -> Result<Reply, Unread>
    ensures reply { IfOk result (λ reply. reply_in ticket call bytes.now ≡ Some reply) }
    ensures wrong_form { result ≡ Err Unread.WrongForm → reply_in ticket call bytes.now ≡ None }
{
    let message = json_of(alloc, bytes)?;
    reply_read(alloc, ticket, call, &message)
}

#[tactic(auto, unfolding(crate::specs::Response::reply_read))]
fn reply_read(alloc: Global, ticket: u64, call: Call, message: &Value) -> Result<Reply, Unread>
    ensures reply { IfOk result (λ reply. reply_read ticket call (view message.now) ≡ Some reply) }
    ensures wrong_form { result ≡ Err Unread.WrongForm → reply_read ticket call (view message.now) ≡ None }
{
    let Some(n) = whole(message, "n") else {
        return Err(Unread::WrongForm);
    };
    if n != ticket {
        return Err(Unread::WrongForm);
    }
    reply_called(alloc, call, message)
}

#[tactic(auto, unfolding(crate::specs::Response::reply_called))]
fn reply_called(alloc: Global, call: Call, message: &Value) -> Result<Reply, Unread>
    ensures reply { IfOk result (λ reply. reply_called call (view message.now) ≡ Some reply) }
    ensures wrong_form { result ≡ Err Unread.WrongForm → reply_called call (view message.now) ≡ None }
{
    match (
        message.get("ok"),
        message.get("error"),
        message.get("failures"),
        message.get("partial"),
        message.get("gone"),
    ) {
        (Some(ok), None, None, None, None) => success_of(alloc, call, ok),
        (None, Some(error), None, None, None) => error_of(alloc, error),
        (None, None, Some(failures), None, None) => failures_of(alloc, call, failures),
        (None, None, None, Some(partial), None) => partial_of(alloc, call, partial),
        (None, None, None, None, Some(gone)) => gone_of(call, gone),
        _ => Err(Unread::WrongForm),
    }
}

/// What an object of success tells of a call.
fn success_of(alloc: Global, call: Call, ok: &Value) -> Result<Reply, Unread>
    ensures reply { IfOk result (λ reply. success_of call (view ok.now) ≡ Some reply) }
    ensures wrong_form { result ≡ Err Unread.WrongForm → success_of call (view ok.now) ≡ None }
{
    match call {
        Call::CheckConfig | Call::Check => checked_of(alloc, ok),
        Call::Configure => done_of(ok, Reply::Configured),
        Call::Diff => compared_of(alloc, ok),
        Call::Create => made_of(alloc, ok),
        Call::Update => changed_of(alloc, ok),
        Call::Delete => done_of(ok, Reply::Removed),
        Call::Read => found_of(alloc, ok),
        Call::Invoke => result_of(alloc, ok),
    }
}

/// The reply, if what stands there is an object.
fn done_of(ok: &Value, reply: Reply) -> Result<Reply, Unread>
    ensures reply { IfOk result (λ made. done_of reply (view ok.now) ≡ Some made) }
    ensures wrong_form { result ≡ Err Unread.WrongForm → done_of reply (view ok.now) ≡ None }
{
    if ok.is_object() {
        Ok(reply)
    } else {
        Err(Unread::WrongForm)
    }
}

fn checked_of(alloc: Global, ok: &Value) -> Result<Reply, Unread>
    ensures reply { IfOk result (λ reply. checked_of (view ok.now) ≡ Some reply) }
    ensures wrong_form { result ≡ Err Unread.WrongForm → checked_of (view ok.now) ≡ None }
{
    let inputs = pairs(alloc, ok, "inputs")?;
    Ok(Reply::Checked(inputs))
}

#[tactic(auto, unfolding(crate::specs::Response::compared_of))]
fn compared_of(alloc: Global, ok: &Value) -> Result<Reply, Unread>
    ensures reply { IfOk result (λ reply. compared_of (view ok.now) ≡ Some reply) }
    ensures wrong_form { result ≡ Err Unread.WrongForm → compared_of (view ok.now) ≡ None }
{
    let Some(word) = str_in(ok, "changes") else {
        return Err(Unread::WrongForm);
    };
    let Some(changes) = changes_named(word) else {
        return Err(Unread::WrongForm);
    };
    let replaces = texts_or_none(alloc, ok, "replaces")?;
    let Some(delete_before_replace) = flag_or(ok, "delete_before_replace", false) else {
        return Err(Unread::WrongForm);
    };
    Ok(Reply::Diffed(Diffed {
        changes,
        replaces,
        delete_before_replace,
    }))
}

#[tactic(auto, unfolding(crate::specs::Response::made_of))]
fn made_of(alloc: Global, ok: &Value) -> Result<Reply, Unread>
    ensures reply { IfOk result (λ reply. made_of (view ok.now) ≡ Some reply) }
    ensures wrong_form { result ≡ Err Unread.WrongForm → made_of (view ok.now) ≡ None }
{
    let id = nonempty_text(alloc, ok, "id")?;
    let outputs = pairs(alloc, ok, "outputs")?;
    Ok(Reply::Made { id, outputs })
}

fn changed_of(alloc: Global, ok: &Value) -> Result<Reply, Unread>
    ensures reply { IfOk result (λ reply. changed_of (view ok.now) ≡ Some reply) }
    ensures wrong_form { result ≡ Err Unread.WrongForm → changed_of (view ok.now) ≡ None }
{
    let outputs = pairs(alloc, ok, "outputs")?;
    Ok(Reply::Changed { outputs })
}

#[tactic(auto, unfolding(crate::specs::Response::found_of))]
fn found_of(alloc: Global, ok: &Value) -> Result<Reply, Unread>
    ensures reply { IfOk result (λ reply. found_of (view ok.now) ≡ Some reply) }
    ensures wrong_form { result ≡ Err Unread.WrongForm → found_of (view ok.now) ≡ None }
{
    let id = nonempty_text(alloc, ok, "id")?;
    let inputs = pairs_if_there(alloc, present(ok, "inputs"))?;
    let outputs = pairs(alloc, ok, "outputs")?;
    Ok(Reply::Found {
        id,
        inputs,
        outputs,
    })
}

fn result_of(alloc: Global, ok: &Value) -> Result<Reply, Unread>
    ensures reply { IfOk result (λ reply. result_of (view ok.now) ≡ Some reply) }
    ensures wrong_form { result ≡ Err Unread.WrongForm → result_of (view ok.now) ≡ None }
{
    let fields = pairs(alloc, ok, "result")?;
    Ok(Reply::Result(fields))
}

fn error_of(alloc: Global, error: &Value) -> Result<Reply, Unread>
    ensures reply { IfOk result (λ reply. error_of (view error.now) ≡ Some reply) }
    ensures wrong_form { result ≡ Err Unread.WrongForm → error_of (view error.now) ≡ None }
{
    let Some(text) = error.as_str() else {
        return Err(Unread::WrongForm);
    };
    Ok(Reply::Error(Text::from_str(alloc, text)?))
}

/// Inputs that are refused.
fn failures_of(alloc: Global, call: Call, failures: &Value) -> Result<Reply, Unread>
    ensures reply { IfOk result (λ reply. failures_of call (view failures.now) ≡ Some reply) }
    ensures wrong_form { result ≡ Err Unread.WrongForm → failures_of call (view failures.now) ≡ None }
{
    match call {
        Call::CheckConfig | Call::Check => {
            let reasons = some_reasons(alloc, failures)?;
            Ok(Reply::CheckFailed(reasons))
        }
        _ => Err(Unread::WrongForm),
    }
}

/// What was done in part.
fn partial_of(alloc: Global, call: Call, partial: &Value) -> Result<Reply, Unread>
    ensures reply { IfOk result (λ reply. partial_of call (view partial.now) ≡ Some reply) }
    ensures wrong_form { result ≡ Err Unread.WrongForm → partial_of call (view partial.now) ≡ None }
{
    match call {
        Call::Create => made_partly_of(alloc, partial),
        Call::Update => changed_partly_of(alloc, partial),
        _ => Err(Unread::WrongForm),
    }
}

#[tactic(auto, unfolding(crate::specs::Response::made_partly_of))]
fn made_partly_of(alloc: Global, partial: &Value) -> Result<Reply, Unread>
    ensures reply { IfOk result (λ reply. made_partly_of (view partial.now) ≡ Some reply) }
    ensures wrong_form { result ≡ Err Unread.WrongForm → made_partly_of (view partial.now) ≡ None }
{
    let id = nonempty_text(alloc, partial, "id")?;
    let outputs = pairs(alloc, partial, "outputs")?;
    let reasons = some_texts(alloc, partial, "reasons")?;
    Ok(Reply::MadePartly {
        id,
        outputs,
        reasons,
    })
}

#[tactic(auto, unfolding(crate::specs::Response::changed_partly_of))]
fn changed_partly_of(alloc: Global, partial: &Value) -> Result<Reply, Unread>
    ensures reply { IfOk result (λ reply. changed_partly_of (view partial.now) ≡ Some reply) }
    ensures wrong_form { result ≡ Err Unread.WrongForm → changed_partly_of (view partial.now) ≡ None }
{
    let outputs = pairs(alloc, partial, "outputs")?;
    let reasons = some_texts(alloc, partial, "reasons")?;
    Ok(Reply::ChangedPartly { outputs, reasons })
}

/// A thing that is not there.
fn gone_of(call: Call, gone: &Value) -> Result<Reply, Unread>
    ensures reply { IfOk result (λ reply. gone_of call (view gone.now) ≡ Some reply) }
    ensures wrong_form { result ≡ Err Unread.WrongForm → gone_of call (view gone.now) ≡ None }
{
    if call == Call::Read && gone.as_bool() == Some(true) {
        Ok(Reply::Gone)
    } else {
        Err(Unread::WrongForm)
    }
}
