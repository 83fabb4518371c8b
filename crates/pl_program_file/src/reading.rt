ghost use Rattle.std.specs.Prelude.{◌≡◌, [], IfOk, Err, None, Some, option_map};
ghost use Rattle.serde_json.specs.View.{items_view, view};
ghost use Rattle.pl_members.specs.Field.{each_item, present};
ghost use Rattle.pl_program_file.specs.Names.{have_names, has_name, may_all_follow, may_be_told, may_follow};
ghost use Rattle.pl_program_file.specs.Read as spec;

use crate::fault::ProgramFault;
use crate::names::{names_in_fields, names_of};
use crate::program::{Links, Program, Resource, Resources, Settings};
use crate::reference::is_name;
use pl_members::{
    Unread, flag_if_there, flag_or, json_of, pairs_if_there, pairs_or_none, present, text,
    text_if_there, texts_or_none,
};
use pl_value::{Fields, OutOfMemory, Text};
use serde_json::{Map, Value};
use std::alloc::Global;

/// The program that the bytes of a file spell. Names of resources are distinct, and each name that is used is that of
/// an earlier resource; in the outputs it is that of any.
pub fn read_program(alloc: Global, bytes: &[u8]) -> Result<Program, ProgramFault>
    ensures read { IfOk result (λ program. spec.program_of bytes.now ≡ Some program) }
    ensures bad { result ≡ Err ProgramFault.BadProgram → spec.program_of bytes.now ≡ None }
{
    match program_of(alloc, bytes) {
        Ok(program) => Ok(program),
        Err(Unread::WrongForm) => Err(ProgramFault::BadProgram),
        Err(Unread::OutOfMemory) => Err(ProgramFault::OutOfMemory),
    }
}

#[tactic(auto, unfolding(crate::specs::Read::program_of))]
fn program_of(alloc: Global, bytes: &[u8]) -> Result<Program, Unread>
    ensures read { IfOk result (λ program. spec.program_of bytes.now ≡ Some program) }
    ensures wrong_form { result ≡ Err Unread.WrongForm → spec.program_of bytes.now ≡ None }
{
    let given = json_of(alloc, bytes)?;
    program_read(alloc, &given)
}

#[tactic(auto, unfolding(crate::specs::Read::program_read))]
fn program_read(alloc: Global, given: &Value) -> Result<Program, Unread>
    ensures read { IfOk result (λ program. spec.program_read (view given.now) ≡ Some program) }
    ensures wrong_form { result ≡ Err Unread.WrongForm → spec.program_read (view given.now) ≡ None }
{
    let resources = resources_in(alloc, given.get("resources"))?;
    let outputs = pairs_if_there(alloc, present(given, "outputs"))?;
    if !is_formed(alloc, resources.as_slice(), &outputs)? {
        return Err(Unread::WrongForm);
    }
    Ok(Program { resources, outputs })
}

fn resources_in(alloc: Global, list: Option<&Value>) -> Result<Resources, Unread>
    ensures read { IfOk result (λ made. spec.resources_in (option_map (λ given. view given.now) list.entry) ≡ Some made) }
    ensures wrong_form { result ≡ Err Unread.WrongForm
        → spec.resources_in (option_map (λ given. view given.now) list.entry) ≡ None }
{
    let Some(given) = list else {
        return Err(Unread::WrongForm);
    };
    let Some(items) = given.as_array() else {
        return Err(Unread::WrongForm);
    };
    each_resource(alloc, items.as_slice())
}

fn each_resource(alloc: Global, items: &[Value]) -> Result<Resources, Unread>
    ensures read { IfOk result (λ made. each_item spec.resource_read (items_view items.now) ≡ Some made) }
    ensures wrong_form { result ≡ Err Unread.WrongForm
        → each_item spec.resource_read (items_view items.now) ≡ None }
{
    let mut resources = Resources::new(alloc);
    for item in items {
        resources.push(resource_read(alloc, item)?)?;
    }
    Ok(resources)
}

#[tactic(auto, unfolding(crate::specs::Read::resource_read))]
fn resource_read(alloc: Global, given: &Value) -> Result<Resource, Unread>
    ensures read { IfOk result (λ made. spec.resource_read (view given.now) ≡ Some made) }
    ensures wrong_form { result ≡ Err Unread.WrongForm → spec.resource_read (view given.now) ≡ None }
{
    let name = text(alloc, given, "name")?;
    let kind = text(alloc, given, "type")?;
    let Some(custom) = flag_or(given, "custom", true) else {
        return Err(Unread::WrongForm);
    };
    let inputs = pairs_or_none(alloc, given, "inputs")?;
    let (links, settings) = options_in(alloc, present(given, "options"))?;
    Ok(Resource {
        name,
        kind,
        custom,
        inputs,
        links,
        settings,
    })
}

/// What the options say; where they are absent, what an empty object says.
#[tactic(auto, unfolding(crate::specs::Read::options_in, crate::specs::Read::options_read))]
fn options_in(alloc: Global, options: Option<&Value>) -> Result<(Links, Settings), Unread>
    ensures read { IfOk result (λ made. spec.options_in (option_map (λ given. view given.now) options.entry) ≡ Some made) }
    ensures wrong_form { result ≡ Err Unread.WrongForm
        → spec.options_in (option_map (λ given. view given.now) options.entry) ≡ None }
{
    match options {
        None => options_read(alloc, &Value::Object(Map::new(alloc))),
        Some(given) => {
            if !given.is_object() {
                return Err(Unread::WrongForm);
            }
            options_read(alloc, given)
        }
    }
}

#[tactic(auto, unfolding(crate::specs::Read::options_read))]
fn options_read(alloc: Global, given: &Value) -> Result<(Links, Settings), Unread>
    ensures read { IfOk result (λ made. spec.options_read (view given.now) ≡ Some made) }
    ensures wrong_form { result ≡ Err Unread.WrongForm → spec.options_read (view given.now) ≡ None }
{
    let links = links_read(alloc, given)?;
    let settings = settings_read(alloc, given)?;
    Ok((links, settings))
}

#[tactic(auto, unfolding(crate::specs::Read::links_read))]
fn links_read(alloc: Global, given: &Value) -> Result<Links, Unread>
    ensures read { IfOk result (λ made. spec.links_read (view given.now) ≡ Some made) }
    ensures wrong_form { result ≡ Err Unread.WrongForm → spec.links_read (view given.now) ≡ None }
{
    let parent = text_if_there(alloc, present(given, "parent"))?;
    let provider = text_if_there(alloc, present(given, "provider"))?;
    let deleted_with = text_if_there(alloc, present(given, "deletedWith"))?;
    let depends_on = texts_or_none(alloc, given, "dependsOn")?;
    Ok(Links {
        parent,
        provider,
        deleted_with,
        depends_on,
    })
}

#[tactic(auto, unfolding(crate::specs::Read::settings_read))]
fn settings_read(alloc: Global, given: &Value) -> Result<Settings, Unread>
    ensures read { IfOk result (λ made. spec.settings_read (view given.now) ≡ Some made) }
    ensures wrong_form { result ≡ Err Unread.WrongForm → spec.settings_read (view given.now) ≡ None }
{
    let Some(protect) = flag_or(given, "protect", false) else {
        return Err(Unread::WrongForm);
    };
    let Some(retain_on_delete) = flag_or(given, "retainOnDelete", false) else {
        return Err(Unread::WrongForm);
    };
    let Some(delete_before_replace) = flag_if_there(given, "deleteBeforeReplace") else {
        return Err(Unread::WrongForm);
    };
    let aliases = texts_or_none(alloc, given, "aliases")?;
    let ignore_changes = texts_or_none(alloc, given, "ignoreChanges")?;
    let additional_secret_outputs = texts_or_none(alloc, given, "additionalSecretOutputs")?;
    let import_id = text_if_there(alloc, present(given, "importId"))?;
    let version = text_if_there(alloc, present(given, "version"))?;
    Ok(Settings {
        protect,
        aliases,
        ignore_changes,
        delete_before_replace,
        retain_on_delete,
        additional_secret_outputs,
        import_id,
        version,
    })
}

/// Whether each resource may stand where it does, and the outputs use names of resources alone.
fn is_formed(
    alloc: Global,
    resources: &[Resource],
    outputs: &Option<Fields>,
) -> Result<bool, OutOfMemory>
    ensures { IfOk result (λ formed. formed ≡ spec.is_formed resources.now outputs.now) }
{
    if !may_all_follow(alloc, resources)? {
        return Ok(false);
    }
    may_be_told(alloc, resources, outputs)
}

fn may_all_follow(alloc: Global, resources: &[Resource]) -> Result<bool, OutOfMemory>
    ensures { IfOk result (λ all. all ≡ may_all_follow [] resources.now) }
{
    for (place, resource) in resources.iter().enumerate() {
        if !may_follow(alloc, &resources[..place], resource)? {
            return Ok(false);
        }
    }
    Ok(true)
}

fn may_follow(alloc: Global, earlier: &[Resource], resource: &Resource) -> Result<bool, OutOfMemory>
    ensures { IfOk result (λ may. may ≡ may_follow earlier.now resource.now) }
{
    if !is_name(resource.name.as_str()) || has_name(earlier, resource.name.as_str()) {
        return Ok(false);
    }
    let names = names_of(alloc, resource)?;
    Ok(have_names(earlier, names.as_slice()))
}

fn may_be_told(
    alloc: Global,
    resources: &[Resource],
    outputs: &Option<Fields>,
) -> Result<bool, OutOfMemory>
    ensures { IfOk result (λ may. may ≡ may_be_told resources.now outputs.now) }
{
    let Some(outputs) = outputs else {
        return Ok(true);
    };
    let names = names_in_fields(alloc, outputs)?;
    Ok(have_names(resources, names.as_slice()))
}

fn have_names(resources: &[Resource], names: &[Text]) -> bool
    ensures { result ≡ have_names resources.now names.now }
{
    for name in names {
        if !has_name(resources, name.as_str()) {
            return false;
        }
    }
    true
}

fn has_name(resources: &[Resource], name: &str) -> bool
    ensures { result ≡ has_name resources.now name.now }
{
    for resource in resources {
        if resource.name.as_str() == name {
            return true;
        }
    }
    false
}
