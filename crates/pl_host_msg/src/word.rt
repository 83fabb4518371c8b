ghost use Rattle.std.specs.Prelude.{◌≡◌, Some, None, Err, IfOk};
ghost use Rattle.serde_json.specs.View.{view};
ghost use Rattle.pl_host_msg.specs.Word.{word_of, word_of_data};

use crate::field::text;
use crate::register::register_of;
use pl_events::Request;
use pl_members::{MsgIn, Unread, json_of};
use serde_json::Value;
use std::alloc::Global;

/// What a host says.
#[derive(Debug, Drop)]
pub enum HostWord {
    Request(Request),
    /// The word of success: nothing is read after it.
    Success,
}

/// The word that the body of a frame spells.
pub fn request_of(alloc: Global, bytes: &[u8]) -> Result<HostWord, MsgIn>
    ensures word { IfOk result (λ word. word_of bytes.now ≡ Some word) }
    ensures no_message { result ≡ Err MsgIn.NotAMessage → word_of bytes.now ≡ None }
{
    match word_of(alloc, bytes) {
        Ok(word) => Ok(word),
        Err(Unread::WrongForm) => Err(MsgIn::NotAMessage),
        Err(Unread::OutOfMemory) => Err(MsgIn::OutOfMemory),
    }
}

#[tactic(auto, unfolding(crate::specs::Word::word_of))]
fn word_of(alloc: Global, bytes: &[u8]) -> Result<HostWord, Unread>
    ensures word { IfOk result (λ word. word_of bytes.now ≡ Some word) }
    ensures wrong_form { result ≡ Err Unread.WrongForm → word_of bytes.now ≡ None }
{
    let message = json_of(alloc, bytes)?;
    word_of_data(alloc, &message)
}

#[tactic(auto, unfolding(crate::specs::Word::word_of_data))]
fn word_of_data(alloc: Global, message: &Value) -> Result<HostWord, Unread>
    ensures word { IfOk result (λ word. word_of_data (view message.now) ≡ Some word) }
    ensures wrong_form { result ≡ Err Unread.WrongForm
        → word_of_data (view message.now) ≡ None }
{
    let Some(call) = text(message, "call") else {
        return Err(Unread::WrongForm);
    };
    if call == "done" {
        return Ok(HostWord::Success);
    }
    if call != "register" {
        return Err(Unread::WrongForm);
    }
    let Some(told) = register_of(message) else {
        return Err(Unread::WrongForm);
    };
    let request = told.copied(alloc)?;
    Ok(HostWord::Request(request))
}
