ghost use Rattle.std.specs.Prelude.{◌≡◌, IfOk, Err, None, Some, option_map};
ghost use Rattle.serde_json.specs.View.{view};
ghost use Rattle.pl_host_word.specs.Parent.{parent_text};
ghost use Rattle.pl_host_word.specs.Word.{links_of, names_of};

use pl_members::{
    Unread, keyed_or_none, pairs_or_none, present, text, text_if_there, texts_or_none,
};
use pl_state::KeyedTexts;
use pl_value::{Fields, Text, Texts};
use serde_json::Value;
use std::alloc::Global;

/// The texts that name a resource.
#[derive(Drop)]
pub(crate) struct Names {
    pub(crate) kind: Text,
    pub(crate) name: Text,
    pub(crate) parent: Option<Text>,
    pub(crate) provider: Option<Text>,
    pub(crate) version: Option<Text>,
}

/// What goes into a resource, and what it depends on.
#[derive(Drop)]
pub(crate) struct Links {
    pub(crate) inputs: Fields,
    pub(crate) dependencies: Texts,
    pub(crate) property_dependencies: KeyedTexts,
}

#[tactic(auto, unfolding(crate::specs::Word::names_of))]
pub(crate) fn names_of(alloc: Global, message: &Value) -> Result<Names, Unread>
    ensures told { IfOk result (λ told. names_of (view message.now) ≡ Some told) }
    ensures wrong_form { result ≡ Err Unread.WrongForm → names_of (view message.now) ≡ None }
{
    let kind = text(alloc, message, "type")?;
    let name = text(alloc, message, "name")?;
    let parent = parent_text(alloc, present(message, "parent"))?;
    let provider = text_if_there(alloc, present(message, "provider"))?;
    let version = text_if_there(alloc, present(message, "version"))?;
    Ok(Names {
        kind,
        name,
        parent,
        provider,
        version,
    })
}

#[tactic(auto, unfolding(crate::specs::Word::links_of))]
pub(crate) fn links_of(alloc: Global, message: &Value) -> Result<Links, Unread>
    ensures told { IfOk result (λ told. links_of (view message.now) ≡ Some told) }
    ensures wrong_form { result ≡ Err Unread.WrongForm → links_of (view message.now) ≡ None }
{
    let inputs = pairs_or_none(alloc, message, "inputs")?;
    let dependencies = texts_or_none(alloc, message, "dependencies")?;
    let property_dependencies = keyed_or_none(alloc, message, "propertyDependencies")?;
    Ok(Links {
        inputs,
        dependencies,
        property_dependencies,
    })
}

/// The text of the parent; the empty one counts as none.
fn parent_text(alloc: Global, value: Option<&Value>) -> Result<Option<Text>, Unread>
    ensures read { IfOk result (λ made. parent_text (option_map (λ v. view v.now) value.entry) ≡ Some made) }
    ensures wrong_form { result ≡ Err Unread.WrongForm
        → parent_text (option_map (λ v. view v.now) value.entry) ≡ None }
{
    let Some(value) = value else {
        return Ok(None);
    };
    let Some(found) = value.as_str() else {
        return Err(Unread::WrongForm);
    };
    if found.is_empty() {
        return Ok(None);
    }
    let made = Text::from_str(alloc, found)?;
    Ok(Some(made))
}
