ghost use Rattle.std.specs.Prelude.{◌≡◌, IfErr, IfOk, None, OnOk, Some, true};
ghost use Rattle.std.specs.Option.{option_copied};
ghost use Rattle.pl_reference.specs.Reference as reference;
ghost use Rattle.pl_state.specs.References.{property_urns};
ghost use Rattle.pl_options.specs.GoalOf as spec;
ghost use Rattle.pl_options.specs.Refused.{IsRefusedText, references_of};

use crate::fault::BadText;
use pl_reference::{KeyedUrns, RefFault, Urns, read_ref};
use pl_state::Registration;
use pl_urn::{Urn, UrnFault};
use pl_value::{OutOfMemory, Text, Texts};
use std::alloc::Global;

/// The URNs that a registration names, read.
#[derive(Debug, Drop)]
pub struct References {
    pub parent: Option<Urn>,
    pub dependencies: Urns,
    pub property_dependencies: KeyedUrns,
    pub deleted_with: Option<Urn>,
    pub aliases: Urns,
}

/// A text that may be left out; the empty one counts as left out.
pub fn given(text: &Option<Text>) -> Option<&Text>
    ensures { option_copied result ≡ spec.given text.now }
{
    match text {
        Some(text) if !text.is_empty() => Some(text),
        _ => None,
    }
}

/// The same text in memory of its own.
pub fn copy_given(text: &Option<Text>) -> Result<Option<Text>, OutOfMemory>
    ensures { IfOk result (λ made. made ≡ spec.given text.now) }
{
    match given(text) {
        Some(text) => Ok(Some(text.copy()?)),
        None => Ok(None),
    }
}

/// Reads the references of a registration, in their order.
pub fn read_references(alloc: Global, told: &Registration) -> Result<References, BadText>
    ensures read { IfOk result (λ made. made ≡ references_of told.now) }
    ensures passes { OnOk result (spec.bad_reference told.now ≡ None) }
    ensures refused { IfErr result (IsRefusedText (spec.bad_reference told.now)) }
{
    let parent = read_given_urn(alloc, &told.parent)?;
    check_provider(alloc, &told.provider)?;
    let dependencies = read_urns(alloc, &told.dependencies)?;
    let property_dependencies = read_keyed(alloc, told.property_dependencies.as_slice())?;
    let deleted_with = read_given_urn(alloc, &told.deleted_with)?;
    let aliases = read_urns(alloc, &told.aliases)?;
    Ok(References {
        parent,
        dependencies,
        property_dependencies,
        deleted_with,
        aliases,
    })
}

fn read_urn(alloc: Global, text: &Text) -> Result<Urn, BadText>
    ensures read { IfOk result (λ urn. urn ≡ text.now) }
    ensures passes { OnOk result (spec.is_urn text.now ≡ true) }
    ensures refused { IfErr result (IsRefusedText (spec.unless spec.is_urn (Some text.now))) }
{
    match pl_urn::parse(alloc, text.as_str()) {
        Ok(urn) => Ok(urn),
        Err(UrnFault::OutOfMemory) => Err(BadText::OutOfMemory),
        Err(_) => Err(BadText::Refused(text.copy()?)),
    }
}

fn read_given_urn(alloc: Global, text: &Option<Text>) -> Result<Option<Urn>, BadText>
    ensures read { IfOk result (λ made. made ≡ spec.given text.now) }
    ensures passes { OnOk result (spec.unless spec.is_urn (spec.given text.now) ≡ None) }
    ensures refused { IfErr result (IsRefusedText (spec.unless spec.is_urn (spec.given text.now))) }
{
    match given(text) {
        Some(text) => Ok(Some(read_urn(alloc, text)?)),
        None => Ok(None),
    }
}

/// Whether a text is a provider reference.
#[tactic(auto, using(crate::proofs::Readers::reference_is_read, crate::proofs::Readers::reference_is_refused))]
fn is_reference(alloc: Global, text: &str) -> Result<bool, OutOfMemory>
    ensures { IfOk result (λ is. is ≡ reference.is_reference text.now) }
{
    match read_ref(alloc, text) {
        Ok(_) => Ok(true),
        Err(RefFault::NotAReference) => Ok(false),
        Err(RefFault::OutOfMemory) => Err(OutOfMemory),
    }
}

/// The provider, where one is given, is to be a provider reference.
fn check_provider(alloc: Global, text: &Option<Text>) -> Result<(), BadText>
    ensures passes { OnOk result (spec.unless reference.is_reference (spec.given text.now) ≡ None) }
    ensures refused { IfErr result (IsRefusedText (spec.unless reference.is_reference (spec.given text.now))) }
{
    let Some(text) = given(text) else {
        return Ok(());
    };
    if is_reference(alloc, text.as_str())? {
        return Ok(());
    }
    Err(BadText::Refused(text.copy()?))
}

fn read_urns(alloc: Global, texts: &Texts) -> Result<Urns, BadText>
    ensures read { IfOk result (λ urns. urns ≡ texts.now) }
    ensures passes { OnOk result (spec.first_bad spec.is_urn texts.now ≡ None) }
    ensures refused { IfErr result (IsRefusedText (spec.first_bad spec.is_urn texts.now)) }
{
    let mut urns = Urns::new(alloc);
    for text in texts.as_slice() {
        urns.push(read_urn(alloc, text)?)?;
    }
    Ok(urns)
}

fn read_keyed(alloc: Global, pairs: &[(Text, Texts)]) -> Result<KeyedUrns, BadText>
    ensures read { IfOk result (λ made. made ≡ pairs.now) }
    ensures passes { OnOk result (spec.first_bad spec.is_urn (property_urns pairs.now) ≡ None) }
    ensures refused { IfErr result (IsRefusedText (spec.first_bad spec.is_urn (property_urns pairs.now))) }
{
    let mut made = KeyedUrns::new(alloc);
    for pair in pairs {
        let urns = read_urns(alloc, &pair.1)?;
        made.push((pair.0.copy()?, urns))?;
    }
    Ok(made)
}
