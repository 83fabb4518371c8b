ghost use Rattle.std.specs.Prelude.{◌≡◌, Err, IfOk, None, Some, option_map};
ghost use Rattle.serde_json.specs.View.{view};
ghost use Rattle.pl_host_word.specs.Answer.{answer_by, answer_in, answer_read, noted_of, refused_of, registered_of, success_of};

use pl_events::Answer;
use pl_members::{MsgIn, Unread, json_of, pairs, pairs_of, request_number, text_if_there, urn};
use pl_value::Text;
use serde_json::Value;
use std::alloc::Global;

/// The answer that the body of a frame spells, with the number of its request. `NotAMessage` comes where it spells none.
pub fn answer_of(alloc: Global, bytes: &[u8]) -> Result<(u64, Answer), MsgIn>
    ensures answer { IfOk result (λ answer. answer_in bytes.now ≡ Some answer) }
    ensures no_message { result ≡ Err MsgIn.NotAMessage → answer_in bytes.now ≡ None }
{
    match answer_in(alloc, bytes) {
        Ok(answer) => Ok(answer),
        Err(Unread::WrongForm) => Err(MsgIn::NotAMessage),
        Err(Unread::OutOfMemory) => Err(MsgIn::OutOfMemory),
    }
}

#[tactic(auto, unfolding(crate::specs::Answer::answer_in))]
fn answer_in(alloc: Global, bytes: &[u8]) -> Result<(u64, Answer), Unread>
    ensures answer { IfOk result (λ answer. answer_in bytes.now ≡ Some answer) }
    ensures wrong_form { result ≡ Err Unread.WrongForm → answer_in bytes.now ≡ None }
{
    let message = json_of(alloc, bytes)?;
    answer_read(alloc, &message)
}

#[tactic(auto, unfolding(crate::specs::Answer::answer_read))]
fn answer_read(alloc: Global, message: &Value) -> Result<(u64, Answer), Unread>
    ensures answer { IfOk result (λ answer. answer_read (view message.now) ≡ Some answer) }
    ensures wrong_form { result ≡ Err Unread.WrongForm → answer_read (view message.now) ≡ None }
{
    let Some(n) = request_number(message, "n") else {
        return Err(Unread::WrongForm);
    };
    let answer = answer_by(alloc, message.get("ok"), message.get("error"))?;
    Ok((n, answer))
}

/// The answer, of which just one of `ok` and `error` is there.
fn answer_by(alloc: Global, ok: Option<&Value>, error: Option<&Value>) -> Result<Answer, Unread>
    ensures answer { IfOk result (λ answer. answer_by
        (option_map (λ v. view v.now) ok.entry) (option_map (λ v. view v.now) error.entry) ≡ Some answer) }
    ensures wrong_form { result ≡ Err Unread.WrongForm → answer_by
        (option_map (λ v. view v.now) ok.entry) (option_map (λ v. view v.now) error.entry) ≡ None }
{
    match (ok, error) {
        (Some(ok), None) => success_of(alloc, ok),
        (None, Some(error)) => refused_of(alloc, error),
        _ => Err(Unread::WrongForm),
    }
}

/// The answer that is no refusal.
#[tactic(auto, unfolding(crate::specs::Answer::success_of))]
fn success_of(alloc: Global, ok: &Value) -> Result<Answer, Unread>
    ensures answer { IfOk result (λ answer. success_of (view ok.now) ≡ Some answer) }
    ensures wrong_form { result ≡ Err Unread.WrongForm → success_of (view ok.now) ≡ None }
{
    if ok.get("urn").is_some() {
        return registered_of(alloc, ok);
    }
    if let Some(result) = ok.get("result") {
        let fields = pairs_of(alloc, result)?;
        return Ok(Answer::Result(fields));
    }
    noted_of(ok)
}

#[tactic(auto, unfolding(crate::specs::Answer::registered_of))]
fn registered_of(alloc: Global, ok: &Value) -> Result<Answer, Unread>
    ensures answer { IfOk result (λ answer. registered_of (view ok.now) ≡ Some answer) }
    ensures wrong_form { result ≡ Err Unread.WrongForm → registered_of (view ok.now) ≡ None }
{
    let urn = urn(alloc, ok, "urn")?;
    let id = text_if_there(alloc, ok.get("id"))?;
    let outputs = pairs(alloc, ok, "outputs")?;
    Ok(Answer::Registered { urn, id, outputs })
}

/// The answer to outputs: an object, whatever else it holds.
fn noted_of(ok: &Value) -> Result<Answer, Unread>
    ensures answer { IfOk result (λ answer. noted_of (view ok.now) ≡ Some answer) }
    ensures wrong_form { result ≡ Err Unread.WrongForm → noted_of (view ok.now) ≡ None }
{
    match ok.as_object() {
        Some(_) => Ok(Answer::Noted),
        None => Err(Unread::WrongForm),
    }
}

fn refused_of(alloc: Global, error: &Value) -> Result<Answer, Unread>
    ensures answer { IfOk result (λ answer. refused_of (view error.now) ≡ Some answer) }
    ensures wrong_form { result ≡ Err Unread.WrongForm → refused_of (view error.now) ≡ None }
{
    let Some(text) = error.as_str() else {
        return Err(Unread::WrongForm);
    };
    Ok(Answer::Refused(Text::from_str(alloc, text)?))
}
