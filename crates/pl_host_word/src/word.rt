ghost use Rattle.std.specs.Prelude.{◌≡◌, Err, IfOk, None, Some, true};
ghost use Rattle.serde_json.specs.View.{view};
ghost use Rattle.pl_host_word.specs.Word.{failed_of, invoke_of, is_formed_word, outputs_of, read_of, reading, register_of, registered, word_called, word_in, word_read};

use crate::calls::{HostCall, call_named};
use crate::options::{Extras, Flags, extras_of, flags_of};
use crate::resource::{Links, Names, links_of, names_of};
use pl_events::Request;
use pl_members::{
    MsgIn, Unread, json_of, nonempty_text, pairs, pairs_or_none, present, request_number, str_in,
    text, text_if_there,
};
use pl_state::Registration;
use pl_value::{Text, Texts};
use serde_json::Value;
use std::alloc::Global;

/// What a host says.
#[derive(Debug, Drop)]
pub enum HostWord {
    Request(Request),
    /// The word of success: nothing is read after it.
    Success,
    /// The word of error, with its text: nothing is read after it.
    Error(Text),
}

/// The word that the body of a frame spells. `NotAMessage` comes where it spells none.
pub fn word_of(alloc: Global, bytes: &[u8]) -> Result<HostWord, MsgIn>
    ensures word { IfOk result (λ word. word_in bytes.now ≡ Some word) }
    ensures no_message { result ≡ Err MsgIn.NotAMessage → word_in bytes.now ≡ None }
    ensures formed { IfOk result (λ word. is_formed_word word ≡ true) }
{
    match word_in(alloc, bytes) {
        Ok(word) => Ok(word),
        Err(Unread::WrongForm) => Err(MsgIn::NotAMessage),
        Err(Unread::OutOfMemory) => Err(MsgIn::OutOfMemory),
    }
}

#[tactic(auto, unfolding(crate::specs::Word::word_in))]
fn word_in(alloc: Global, bytes: &[u8]) -> Result<HostWord, Unread>
    ensures word { IfOk result (λ word. word_in bytes.now ≡ Some word) }
    ensures wrong_form { result ≡ Err Unread.WrongForm → word_in bytes.now ≡ None }
{
    let message = json_of(alloc, bytes)?;
    word_read(alloc, &message)
}

#[tactic(auto, unfolding(crate::specs::Word::word_read))]
fn word_read(alloc: Global, message: &Value) -> Result<HostWord, Unread>
    ensures word { IfOk result (λ word. word_read (view message.now) ≡ Some word) }
    ensures wrong_form { result ≡ Err Unread.WrongForm → word_read (view message.now) ≡ None }
{
    let Some(word) = str_in(message, "call") else {
        return Err(Unread::WrongForm);
    };
    let Some(call) = call_named(word) else {
        return Err(Unread::WrongForm);
    };
    word_called(alloc, call, message)
}

fn word_called(alloc: Global, call: HostCall, message: &Value) -> Result<HostWord, Unread>
    ensures word { IfOk result (λ word. word_called call (view message.now) ≡ Some word) }
    ensures wrong_form { result ≡ Err Unread.WrongForm → word_called call (view message.now) ≡ None }
{
    match call {
        HostCall::Register => Ok(HostWord::Request(register_of(alloc, message)?)),
        HostCall::Read => Ok(HostWord::Request(read_of(alloc, message)?)),
        HostCall::Outputs => Ok(HostWord::Request(outputs_of(alloc, message)?)),
        HostCall::Invoke => Ok(HostWord::Request(invoke_of(alloc, message)?)),
        HostCall::Done => Ok(HostWord::Success),
        HostCall::Failed => failed_of(alloc, message),
    }
}

#[tactic(auto, unfolding(crate::specs::Word::register_of))]
fn register_of(alloc: Global, message: &Value) -> Result<Request, Unread>
    ensures request { IfOk result (λ request. register_of (view message.now) ≡ Some request) }
    ensures wrong_form { result ≡ Err Unread.WrongForm → register_of (view message.now) ≡ None }
{
    let Some(n) = request_number(message, "n") else {
        return Err(Unread::WrongForm);
    };
    let names = names_of(alloc, message)?;
    let links = links_of(alloc, message)?;
    let Some(flags) = flags_of(message) else {
        return Err(Unread::WrongForm);
    };
    let extras = extras_of(alloc, message)?;
    let told = registered(names, links, flags, extras);
    Ok(Request::Register { n, told })
}

#[tactic(auto, unfolding(crate::specs::Word::read_of))]
fn read_of(alloc: Global, message: &Value) -> Result<Request, Unread>
    ensures request { IfOk result (λ request. read_of (view message.now) ≡ Some request) }
    ensures wrong_form { result ≡ Err Unread.WrongForm → read_of (view message.now) ≡ None }
{
    let Some(n) = request_number(message, "n") else {
        return Err(Unread::WrongForm);
    };
    let names = names_of(alloc, message)?;
    let id = nonempty_text(alloc, message, "id")?;
    let links = links_of(alloc, message)?;
    let told = reading(alloc, names, links, id);
    Ok(Request::Register { n, told })
}

#[tactic(auto, unfolding(crate::specs::Word::outputs_of))]
fn outputs_of(alloc: Global, message: &Value) -> Result<Request, Unread>
    ensures request { IfOk result (λ request. outputs_of (view message.now) ≡ Some request) }
    ensures wrong_form { result ≡ Err Unread.WrongForm → outputs_of (view message.now) ≡ None }
{
    let Some(n) = request_number(message, "n") else {
        return Err(Unread::WrongForm);
    };
    let urn = text(alloc, message, "urn")?;
    let outputs = pairs(alloc, message, "outputs")?;
    Ok(Request::Outputs { n, urn, outputs })
}

#[tactic(auto, unfolding(crate::specs::Word::invoke_of))]
fn invoke_of(alloc: Global, message: &Value) -> Result<Request, Unread>
    ensures request { IfOk result (λ request. invoke_of (view message.now) ≡ Some request) }
    ensures wrong_form { result ≡ Err Unread.WrongForm → invoke_of (view message.now) ≡ None }
{
    let Some(n) = request_number(message, "n") else {
        return Err(Unread::WrongForm);
    };
    let token = text(alloc, message, "token")?;
    let args = pairs_or_none(alloc, message, "args")?;
    let provider = text_if_there(alloc, present(message, "provider"))?;
    let version = text_if_there(alloc, present(message, "version"))?;
    Ok(Request::Invoke {
        n,
        token,
        args,
        provider,
        version,
    })
}

fn failed_of(alloc: Global, message: &Value) -> Result<HostWord, Unread>
    ensures word { IfOk result (λ word. failed_of (view message.now) ≡ Some word) }
    ensures wrong_form { result ≡ Err Unread.WrongForm → failed_of (view message.now) ≡ None }
{
    let text = text(alloc, message, "text")?;
    Ok(HostWord::Error(text))
}

fn registered(names: Names, links: Links, flags: Flags, extras: Extras) -> Registration
    ensures { result ≡ registered names links flags extras }
{
    Registration {
        kind: names.kind,
        name: names.name,
        custom: flags.custom,
        inputs: links.inputs,
        parent: names.parent,
        provider: names.provider,
        dependencies: links.dependencies,
        property_dependencies: links.property_dependencies,
        protect: flags.protect,
        aliases: extras.aliases,
        ignore_changes: extras.ignore_changes,
        delete_before_replace: flags.delete_before_replace,
        retain_on_delete: flags.retain_on_delete,
        deleted_with: extras.deleted_with,
        additional_secret_outputs: extras.additional_secret_outputs,
        import_id: extras.import_id,
        version: names.version,
        read_id: None,
    }
}

fn reading(alloc: Global, names: Names, links: Links, id: Text) -> Registration
    ensures { result ≡ reading names links id }
{
    Registration {
        kind: names.kind,
        name: names.name,
        custom: true,
        inputs: links.inputs,
        parent: names.parent,
        provider: names.provider,
        dependencies: links.dependencies,
        property_dependencies: links.property_dependencies,
        protect: false,
        aliases: Texts::new(alloc),
        ignore_changes: Texts::new(alloc),
        delete_before_replace: None,
        retain_on_delete: false,
        deleted_with: None,
        additional_secret_outputs: Texts::new(alloc),
        import_id: None,
        version: names.version,
        read_id: Some(id),
    }
}
