ghost use Rattle.std.specs.Prelude.{◌≡◌, IfOk, Err, None, Some};
ghost use Rattle.serde_json.specs.View.{view};
ghost use Rattle.pl_host_word.specs.Word.{extras_of, flags_of};

use pl_members::{Unread, flag_if_there, flag_or, present, text_if_there, texts_or_none};
use pl_value::{Text, Texts};
use serde_json::Value;
use std::alloc::Global;

/// The options of a registration that are true or false.
#[derive(Clone, Copy)]
pub(crate) struct Flags {
    pub(crate) custom: bool,
    pub(crate) protect: bool,
    pub(crate) retain_on_delete: bool,
    pub(crate) delete_before_replace: Option<bool>,
}

/// The options of a registration that are texts and lists of texts.
#[derive(Drop)]
pub(crate) struct Extras {
    pub(crate) aliases: Texts,
    pub(crate) ignore_changes: Texts,
    pub(crate) additional_secret_outputs: Texts,
    pub(crate) deleted_with: Option<Text>,
    pub(crate) import_id: Option<Text>,
}

#[tactic(auto, unfolding(crate::specs::Word::flags_of))]
pub(crate) fn flags_of(message: &Value) -> Option<Flags>
    ensures { result ≡ flags_of (view message.now) }
{
    let custom = flag_or(message, "custom", false)?;
    let protect = flag_or(message, "protect", false)?;
    let retain_on_delete = flag_or(message, "retainOnDelete", false)?;
    let delete_before_replace = flag_if_there(message, "deleteBeforeReplace")?;
    Some(Flags {
        custom,
        protect,
        retain_on_delete,
        delete_before_replace,
    })
}

#[tactic(auto, unfolding(crate::specs::Word::extras_of))]
pub(crate) fn extras_of(alloc: Global, message: &Value) -> Result<Extras, Unread>
    ensures told { IfOk result (λ told. extras_of (view message.now) ≡ Some told) }
    ensures wrong_form { result ≡ Err Unread.WrongForm → extras_of (view message.now) ≡ None }
{
    let aliases = texts_or_none(alloc, message, "aliases")?;
    let ignore_changes = texts_or_none(alloc, message, "ignoreChanges")?;
    let additional_secret_outputs = texts_or_none(alloc, message, "additionalSecretOutputs")?;
    let deleted_with = text_if_there(alloc, present(message, "deletedWith"))?;
    let import_id = text_if_there(alloc, present(message, "importId"))?;
    Ok(Extras {
        aliases,
        ignore_changes,
        additional_secret_outputs,
        deleted_with,
        import_id,
    })
}
