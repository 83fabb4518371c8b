ghost use Rattle.std.specs.Prelude.{◌≡◌, ◌≢◌, IfErr, IfOk, OnOk};
ghost use Rattle.pl_program_file.specs.Registered as spec;

use crate::fault::Unfilled;
use crate::filling::filled_fields;
use crate::known::{Known, id_key, known_at};
use crate::names::{add_all, add_field_names, add_names};
use crate::program::{Links, Resource, Settings};
use pl_reference::{KeyedTexts, copy_text};
use pl_state::Registration;
use pl_value::{Fields, OutOfMemory, Text, Texts, Value, unknown_text};
use std::alloc::Global;

/// What is registered for a resource, once each resource that it uses is known. The stack, given by its URN, is the
/// parent of a resource that names none. The provider's id is looked for first, then the inputs are filled.
pub fn registration(
    alloc: Global,
    known: &[Known],
    stack: &str,
    preview: bool,
    resource: &Resource,
) -> Result<Registration, Unfilled>
    ensures made { IfOk result (λ made. spec.registration known.now stack.now preview resource.now ≡ Ok made) }
    ensures missing { IfErr result (λ why. why ≢ Unfilled.OutOfMemory
        → spec.registration known.now stack.now preview resource.now ≡ Err why) }
{
    let provider = provider_of(alloc, known, preview, &resource.links.provider)?;
    let inputs = filled_fields(alloc, known, preview, &resource.inputs)?;
    Ok(registered(alloc, known, stack, resource, provider, inputs)?)
}

fn registered(
    alloc: Global,
    known: &[Known],
    stack: &str,
    resource: &Resource,
    provider: Option<Text>,
    inputs: Fields,
) -> Result<Registration, OutOfMemory>
    ensures { IfOk result (λ made. made ≡ spec.registered known.now stack.now resource.now provider inputs) }
{
    let parent = parent_of(alloc, known, stack, &resource.links.parent)?;
    let dependencies = dependencies_of(alloc, known, resource)?;
    let property_dependencies = property_dependencies_of(alloc, known, resource.inputs.as_slice())?;
    let deleted_with = urn_of(alloc, known, &resource.links.deleted_with)?;
    let settings = copied(&resource.settings)?;
    Ok(Registration {
        kind: resource.kind.copy()?,
        name: resource.name.copy()?,
        custom: resource.custom,
        inputs,
        parent,
        provider,
        dependencies,
        property_dependencies,
        protect: settings.protect,
        aliases: settings.aliases,
        ignore_changes: settings.ignore_changes,
        delete_before_replace: settings.delete_before_replace,
        retain_on_delete: settings.retain_on_delete,
        deleted_with,
        additional_secret_outputs: settings.additional_secret_outputs,
        import_id: settings.import_id,
        version: settings.version,
        read_id: None,
    })
}

fn copied(settings: &Settings) -> Result<Settings, OutOfMemory>
    ensures { IfOk result (λ made. made ≡ settings.now) }
{
    Ok(Settings {
        protect: settings.protect,
        aliases: settings.aliases.copy()?,
        ignore_changes: settings.ignore_changes.copy()?,
        delete_before_replace: settings.delete_before_replace,
        retain_on_delete: settings.retain_on_delete,
        additional_secret_outputs: settings.additional_secret_outputs.copy()?,
        import_id: copy_text(&settings.import_id)?,
        version: copy_text(&settings.version)?,
    })
}

/// The URN of the resource that is named, if one is.
fn urn_of(alloc: Global, known: &[Known], name: &Option<Text>) -> Result<Option<Text>, OutOfMemory>
    ensures { IfOk result (λ urn. urn ≡ spec.urn_of known.now name.now) }
{
    let Some(name) = name else {
        return Ok(None);
    };
    let Some(row) = known_at(known, name.as_str()) else {
        return Ok(None);
    };
    let urn = Text::from_str(alloc, row.urn.as_str())?;
    Ok(Some(urn))
}

fn parent_of(
    alloc: Global,
    known: &[Known],
    stack: &str,
    name: &Option<Text>,
) -> Result<Option<Text>, OutOfMemory>
    ensures { IfOk result (λ urn. urn ≡ spec.parent_of known.now stack.now name.now) }
{
    if name.is_some() {
        return urn_of(alloc, known, name);
    }
    let urn = Text::from_str(alloc, stack)?;
    Ok(Some(urn))
}

/// The reference to the provider that is named, if one is.
fn provider_of(
    alloc: Global,
    known: &[Known],
    preview: bool,
    name: &Option<Text>,
) -> Result<Option<Text>, Unfilled>
    ensures made { IfOk result (λ made. spec.provider_of known.now preview name.now ≡ Ok made) }
    ensures missing { IfErr result (λ why. why ≢ Unfilled.OutOfMemory
        → spec.provider_of known.now preview name.now ≡ Err why) }
{
    let Some(name) = name else {
        return Ok(None);
    };
    let Some(row) = known_at(known, name.as_str()) else {
        return Err(no_id(alloc, name)?);
    };
    let id = match &row.id {
        Some(id) => id.as_str(),
        None if preview => unknown_text(),
        None => return Err(no_id(alloc, name)?),
    };
    let reference = reference_text(alloc, row.urn.as_str(), id)?;
    Ok(Some(reference))
}

fn no_id(alloc: Global, name: &Text) -> Result<Unfilled, OutOfMemory>
    ensures { IfOk result (λ made. made ≡ spec.no_id name.now) }
{
    Ok(Unfilled::Missing {
        name: name.copy()?,
        key: Text::from_str(alloc, id_key())?,
    })
}

fn reference_text(alloc: Global, urn: &str, id: &str) -> Result<Text, OutOfMemory>
    ensures { IfOk result (λ made. made ≡ spec.provider_text urn.now id.now) }
{
    let text = format!(in alloc; "{urn}::{id}")?;
    Ok(Text::from_string(text))
}

/// The URNs of the resources that the resource depends on: first those that its options name, then those that its
/// inputs refer to, each once.
fn dependencies_of(
    alloc: Global,
    known: &[Known],
    resource: &Resource,
) -> Result<Texts, OutOfMemory>
    ensures { IfOk result (λ urns. urns ≡ spec.dependencies_of known.now resource.now) }
{
    let mut names = Texts::new(alloc);
    add_all(resource.links.depends_on.as_slice(), &mut names)?;
    add_field_names(alloc, resource.inputs.as_slice(), &mut names)?;
    urns_once(alloc, known, names.as_slice())
}

/// The same for each input that refers to a resource.
fn property_dependencies_of(
    alloc: Global,
    known: &[Known],
    inputs: &[(Text, Value)],
) -> Result<KeyedTexts, OutOfMemory>
    ensures { IfOk result (λ pairs. pairs ≡ spec.property_dependencies_of known.now inputs.now) }
{
    let mut pairs = KeyedTexts::new(alloc);
    for (key, value) in inputs {
        add_property(alloc, known, key, value, &mut pairs)?;
    }
    Ok(pairs)
}

/// Adds the URNs that the value of an input refers to, if there are any.
fn add_property(
    alloc: Global,
    known: &[Known],
    key: &Text,
    value: &Value,
    pairs: &mut KeyedTexts,
) -> Result<(), OutOfMemory>
    ensures { OnOk result (pairs.new ≡ spec.with_property known.now pairs.old (key.now, value.now)) }
{
    let mut names = Texts::new(alloc);
    add_names(alloc, value, &mut names)?;
    if names.len() == 0 {
        return Ok(());
    }
    let urns = urns_once(alloc, known, names.as_slice())?;
    pairs.push((key.copy()?, urns))
}

/// The URNs of the resources of these names, each once, at its first place.
fn urns_once(alloc: Global, known: &[Known], names: &[Text]) -> Result<Texts, OutOfMemory>
    ensures { IfOk result (λ urns. urns ≡ spec.urns_once known.now names.now) }
{
    let mut urns = Texts::new(alloc);
    for name in names {
        if let Some(row) = known_at(known, name.as_str()) {
            add_once(alloc, row.urn.as_str(), &mut urns)?;
        }
    }
    Ok(urns)
}

fn add_once(alloc: Global, urn: &str, urns: &mut Texts) -> Result<(), OutOfMemory>
    ensures { OnOk result (urns.new ≡ spec.with_once urns.old urn.now) }
{
    if has(urns.as_slice(), urn) {
        return Ok(());
    }
    urns.push(Text::from_str(alloc, urn)?)
}

fn has(urns: &[Text], urn: &str) -> bool
    ensures { result ≡ spec.has urns.now urn.now }
{
    for one in urns {
        if one.as_str() == urn {
            return true;
        }
    }
    false
}
