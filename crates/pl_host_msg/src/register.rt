ghost use Rattle.std.specs.Prelude.{◌≡◌, IfOk, option_map};
ghost use Rattle.serde_json.specs.View.{view};
ghost use Rattle.pl_host_msg.specs.Word.{has_defaults, has_empty_lists, has_empty_objects, has_false_flags, has_no_choices, register_of};
ghost use Rattle.pl_host_msg.specs.Told.{request_from};

use crate::field::{
    is_empty_list, is_empty_object, is_false, is_left_out, optional_text, plain_type,
    request_number, text,
};
use pl_events::Request;
use pl_state::Registration;
use pl_value::{OutOfMemory, Text};
use serde_json::Value;
use std::alloc::Global;

/// A registration whose texts are those of the message.
#[derive(Drop)]
pub(crate) struct Told<'a> {
    n: u64,
    kind: &'a str,
    name: &'a str,
    parent: Option<&'a str>,
}

#[tactic(auto, unfolding(crate::specs::Word::register_of))]
pub(crate) fn register_of(message: &Value) -> Option<Told<'_>>
    ensures { option_map request_from result ≡ register_of (view message.now) }
{
    let n = request_number(message, "n")?;
    let kind = plain_type(message, "type")?;
    let name = text(message, "name")?;
    let parent = optional_text(message, "parent")?;
    if has_defaults(message) {
        Some(Told {
            n,
            kind,
            name,
            parent,
        })
    } else {
        None
    }
}

/// Whether the fields that are not read yet stand at their defaults.
#[tactic(auto, unfolding(crate::specs::Word::has_defaults))]
fn has_defaults(message: &Value) -> bool
    ensures { result ≡ has_defaults (view message.now) }
{
    has_false_flags(message)
        && has_empty_objects(message)
        && has_empty_lists(message)
        && has_no_choices(message)
}

#[tactic(auto, unfolding(crate::specs::Word::has_false_flags))]
fn has_false_flags(message: &Value) -> bool
    ensures { result ≡ has_false_flags (view message.now) }
{
    is_false(message, "custom")
        && is_false(message, "protect")
        && is_false(message, "retainOnDelete")
}

#[tactic(auto, unfolding(crate::specs::Word::has_empty_objects))]
fn has_empty_objects(message: &Value) -> bool
    ensures { result ≡ has_empty_objects (view message.now) }
{
    is_empty_object(message, "inputs") && is_empty_object(message, "propertyDependencies")
}

#[tactic(auto, unfolding(crate::specs::Word::has_empty_lists))]
fn has_empty_lists(message: &Value) -> bool
    ensures { result ≡ has_empty_lists (view message.now) }
{
    is_empty_list(message, "dependencies")
        && is_empty_list(message, "aliases")
        && is_empty_list(message, "ignoreChanges")
        && is_empty_list(message, "additionalSecretOutputs")
}

#[tactic(auto, unfolding(crate::specs::Word::has_no_choices))]
fn has_no_choices(message: &Value) -> bool
    ensures { result ≡ has_no_choices (view message.now) }
{
    is_left_out(message, "provider")
        && is_left_out(message, "deletedWith")
        && is_left_out(message, "importId")
        && is_left_out(message, "version")
        && is_left_out(message, "deleteBeforeReplace")
}

impl Told<'_> {
    pub(crate) fn copied(&self, alloc: Global) -> Result<Request, OutOfMemory>
        ensures { IfOk result (λ request. request ≡ request_from self.now) }
    {
        let kind = Text::from_str(alloc, self.kind)?;
        let name = Text::from_str(alloc, self.name)?;
        let parent = copy_text(alloc, self.parent)?;
        Ok(Request::Register {
            n: self.n,
            told: Registration::component(alloc, kind, name, parent),
        })
    }
}

fn copy_text(alloc: Global, text: Option<&str>) -> Result<Option<Text>, OutOfMemory>
    ensures { IfOk result (λ copied. copied ≡ option_map (λ s. s.now) text.entry) }
{
    match text {
        None => Ok(None),
        Some(text) => {
            let copied = Text::from_str(alloc, text)?;
            Ok(Some(copied))
        }
    }
}
