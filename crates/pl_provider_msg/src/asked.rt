ghost use Rattle.std.specs.Prelude.{◌≡◌, IfOk, Err, None, Some};
ghost use Rattle.serde_json.specs.View.{view};
ghost use Rattle.pl_provider_msg.specs.Request.{ask_called, ask_in, ask_read, changing_of, checking_of, configure_of, create_of, invoke_of, thing_of};

use crate::words::call_named;
use pl_events::{Ask, Call};
use pl_members::{MsgIn, Unread, json_of, pairs, pairs_if_there, str_in, text, urn, whole};
use pl_urn::Urn;
use pl_value::{Fields, Text};
use serde_json::Value;
use std::alloc::Global;

/// What is told of inputs that are checked.
#[derive(Drop)]
struct Checking {
    urn: Urn,
    inputs: Fields,
    old: Option<Fields>,
}

/// What is told of a thing that is compared or changed.
#[derive(Drop)]
struct Changing {
    urn: Urn,
    id: Text,
    old_inputs: Fields,
    old_outputs: Fields,
    inputs: Fields,
}

/// What is told of a thing that is deleted or read.
#[derive(Drop)]
struct Thing {
    urn: Urn,
    id: Text,
    inputs: Fields,
    outputs: Fields,
}

/// What the body of a frame asks a provider, with its ticket.
pub fn ask_of(alloc: Global, bytes: &[u8]) -> Result<(u64, Ask), MsgIn>
    ensures asked { IfOk result (λ asked. ask_in bytes.now ≡ Some asked) }
    ensures no_message { result ≡ Err MsgIn.NotAMessage → ask_in bytes.now ≡ None }
{
    match ask_in(alloc, bytes) {
        Ok(asked) => Ok(asked),
        Err(Unread::WrongForm) => Err(MsgIn::NotAMessage),
        Err(Unread::OutOfMemory) => Err(MsgIn::OutOfMemory),
    }
}

#[tactic(auto, unfolding(crate::specs::Request::ask_in))]
fn ask_in(alloc: Global, bytes: &[u8]) -> Result<(u64, Ask), Unread>
    ensures asked { IfOk result (λ asked. ask_in bytes.now ≡ Some asked) }
    ensures wrong_form { result ≡ Err Unread.WrongForm → ask_in bytes.now ≡ None }
{
    let message = json_of(alloc, bytes)?;
    ask_read(alloc, &message)
}

#[tactic(auto, unfolding(crate::specs::Request::ask_read))]
fn ask_read(alloc: Global, message: &Value) -> Result<(u64, Ask), Unread>
    ensures asked { IfOk result (λ asked. ask_read (view message.now) ≡ Some asked) }
    ensures wrong_form { result ≡ Err Unread.WrongForm → ask_read (view message.now) ≡ None }
{
    let Some(ticket) = whole(message, "n") else {
        return Err(Unread::WrongForm);
    };
    let Some(word) = str_in(message, "call") else {
        return Err(Unread::WrongForm);
    };
    let Some(call) = call_named(word) else {
        return Err(Unread::WrongForm);
    };
    let asked = ask_called(alloc, call, message)?;
    Ok((ticket, asked))
}

fn ask_called(alloc: Global, call: Call, message: &Value) -> Result<Ask, Unread>
    ensures asked { IfOk result (λ asked. ask_called call (view message.now) ≡ Some asked) }
    ensures wrong_form { result ≡ Err Unread.WrongForm → ask_called call (view message.now) ≡ None }
{
    match call {
        Call::CheckConfig => Ok(checking_of(alloc, message)?.into_config()),
        Call::Configure => configure_of(alloc, message),
        Call::Check => Ok(checking_of(alloc, message)?.into_check()),
        Call::Diff => Ok(changing_of(alloc, message)?.into_diff()),
        Call::Create => create_of(alloc, message),
        Call::Update => Ok(changing_of(alloc, message)?.into_update()),
        Call::Delete => Ok(thing_of(alloc, message)?.into_delete()),
        Call::Read => Ok(thing_of(alloc, message)?.into_read()),
        Call::Invoke => invoke_of(alloc, message),
    }
}

#[tactic(auto, unfolding(crate::specs::Request::checking_of))]
fn checking_of(alloc: Global, message: &Value) -> Result<Checking, Unread>
    ensures told { IfOk result (λ told. checking_of (view message.now) ≡ Some told) }
    ensures wrong_form { result ≡ Err Unread.WrongForm → checking_of (view message.now) ≡ None }
{
    let urn = urn(alloc, message, "urn")?;
    let inputs = pairs(alloc, message, "inputs")?;
    let old = pairs_if_there(alloc, message.get("old"))?;
    Ok(Checking { urn, inputs, old })
}

#[tactic(auto, unfolding(crate::specs::Request::changing_of))]
fn changing_of(alloc: Global, message: &Value) -> Result<Changing, Unread>
    ensures told { IfOk result (λ told. changing_of (view message.now) ≡ Some told) }
    ensures wrong_form { result ≡ Err Unread.WrongForm → changing_of (view message.now) ≡ None }
{
    let urn = urn(alloc, message, "urn")?;
    let id = text(alloc, message, "id")?;
    let old_inputs = pairs(alloc, message, "old_inputs")?;
    let old_outputs = pairs(alloc, message, "old_outputs")?;
    let inputs = pairs(alloc, message, "inputs")?;
    Ok(Changing {
        urn,
        id,
        old_inputs,
        old_outputs,
        inputs,
    })
}

#[tactic(auto, unfolding(crate::specs::Request::thing_of))]
fn thing_of(alloc: Global, message: &Value) -> Result<Thing, Unread>
    ensures told { IfOk result (λ told. thing_of (view message.now) ≡ Some told) }
    ensures wrong_form { result ≡ Err Unread.WrongForm → thing_of (view message.now) ≡ None }
{
    let urn = urn(alloc, message, "urn")?;
    let id = text(alloc, message, "id")?;
    let inputs = pairs(alloc, message, "inputs")?;
    let outputs = pairs(alloc, message, "outputs")?;
    Ok(Thing {
        urn,
        id,
        inputs,
        outputs,
    })
}

fn configure_of(alloc: Global, message: &Value) -> Result<Ask, Unread>
    ensures asked { IfOk result (λ asked. configure_of (view message.now) ≡ Some asked) }
    ensures wrong_form { result ≡ Err Unread.WrongForm → configure_of (view message.now) ≡ None }
{
    let inputs = pairs(alloc, message, "inputs")?;
    Ok(Ask::Configure { inputs })
}

#[tactic(auto, unfolding(crate::specs::Request::create_of))]
fn create_of(alloc: Global, message: &Value) -> Result<Ask, Unread>
    ensures asked { IfOk result (λ asked. create_of (view message.now) ≡ Some asked) }
    ensures wrong_form { result ≡ Err Unread.WrongForm → create_of (view message.now) ≡ None }
{
    let urn = urn(alloc, message, "urn")?;
    let inputs = pairs(alloc, message, "inputs")?;
    Ok(Ask::Create { urn, inputs })
}

#[tactic(auto, unfolding(crate::specs::Request::invoke_of))]
fn invoke_of(alloc: Global, message: &Value) -> Result<Ask, Unread>
    ensures asked { IfOk result (λ asked. invoke_of (view message.now) ≡ Some asked) }
    ensures wrong_form { result ≡ Err Unread.WrongForm → invoke_of (view message.now) ≡ None }
{
    let token = text(alloc, message, "token")?;
    let args = pairs(alloc, message, "args")?;
    Ok(Ask::Invoke { token, args })
}

impl Checking {
    fn into_config(self) -> Ask
        ensures { result ≡ Ask.CheckConfig self.urn self.inputs self.old }
    {
        Ask::CheckConfig {
            urn: self.urn,
            inputs: self.inputs,
            old: self.old,
        }
    }

    fn into_check(self) -> Ask
        ensures { result ≡ Ask.Check self.urn self.inputs self.old }
    {
        Ask::Check {
            urn: self.urn,
            inputs: self.inputs,
            old: self.old,
        }
    }
}

impl Changing {
    fn into_diff(self) -> Ask
        ensures { result ≡ Ask.Diff self.urn self.id self.old_inputs self.old_outputs self.inputs }
    {
        Ask::Diff {
            urn: self.urn,
            id: self.id,
            old_inputs: self.old_inputs,
            old_outputs: self.old_outputs,
            inputs: self.inputs,
        }
    }

    fn into_update(self) -> Ask
        ensures { result ≡ Ask.Update self.urn self.id self.old_inputs self.old_outputs self.inputs }
    {
        Ask::Update {
            urn: self.urn,
            id: self.id,
            old_inputs: self.old_inputs,
            old_outputs: self.old_outputs,
            inputs: self.inputs,
        }
    }
}

impl Thing {
    fn into_delete(self) -> Ask
        ensures { result ≡ Ask.Delete self.urn self.id self.inputs self.outputs }
    {
        Ask::Delete {
            urn: self.urn,
            id: self.id,
            inputs: self.inputs,
            outputs: self.outputs,
        }
    }

    fn into_read(self) -> Ask
        ensures { result ≡ Ask.Read self.urn self.id self.inputs self.outputs }
    {
        Ask::Read {
            urn: self.urn,
            id: self.id,
            inputs: self.inputs,
            outputs: self.outputs,
        }
    }
}
