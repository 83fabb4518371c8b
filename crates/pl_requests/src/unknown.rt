ghost use Rattle.std.specs.Prelude.{◌≡◌, find, IfOk};
ghost use Rattle.std.specs.Option.{option_copied};
ghost use Rattle.pl_lemmas.specs.Words.{first_in, option_list};
ghost use Rattle.pl_model.specs.Requests as spec;
ghost use Rattle.pl_model.specs.declared.fixed.Fixed as fixed;
ghost use Rattle.pl_reference.specs.Reference as reference;
ghost use Rattle.pl_state.specs.References.{further_urns, property_urns};
ghost use Rattle.pl_requests.specs.Ids.{ForKnown, id_at};
ghost use Rattle.pl_requests.specs.Reading as reading;

use crate::words::given;
use pl_state::{Goal, ProviderRef, RefFault, Registration, Urns, read_ref};
use pl_told::Requests;
use pl_urn::Urn;
use pl_value::{OutOfMemory, Text};
use std::alloc::Global;

/// The first reference of a registration that names no earlier goal.
pub fn unknown_reference(
    alloc: Global,
    requests: &Requests,
    ids: &[Option<Text>],
    told: &Registration,
    goal: &Goal,
) -> Result<Option<Text>, OutOfMemory>
    ensures { IfOk result (λ text. (run : fixed.Fixed) → ForKnown run requests.now.goals ids.now (λ known.
        text ≡ first_in (spec.unknown_references known told.now goal.now))) }
{
    if let Some(urn) = unknown_urn(requests, goal.parent.as_ref()) {
        return Ok(Some(Text::from_str(alloc, urn.as_str())?));
    }
    if let Some(text) = unmet_provider(alloc, requests, ids, given(&told.provider))? {
        return Ok(Some(text));
    }
    match further_unknown(requests, goal) {
        None => Ok(None),
        Some(urn) => Ok(Some(Text::from_str(alloc, urn.as_str())?)),
    }
}

/// The first of the URNs that a goal names beside its parent's and its provider's that no goal has.
fn further_unknown<'a>(requests: &Requests, goal: &'a Goal) -> Option<&'a Urn>
    ensures { option_copied result ≡ find (reading.is_unknown requests.now.goals) (further_urns goal.now) }
{
    if let Some(urn) = first_unknown(requests, goal.dependencies.as_slice()) {
        return Some(urn);
    }
    if let Some(urn) = unknown_property(requests, goal.property_dependencies.as_slice()) {
        return Some(urn);
    }
    unknown_urn(requests, goal.deleted_with.as_ref())
}

/// The URN, where it is given and no goal has it.
fn unknown_urn<'a>(requests: &Requests, urn: Option<&'a Urn>) -> Option<&'a Urn>
    ensures { option_copied result ≡ find (reading.is_unknown requests.now.goals) (option_list (option_copied urn.entry)) }
{
    match urn {
        None => None,
        Some(urn) => {
            if requests.has_goal(urn.as_str()) {
                None
            } else {
                Some(urn)
            }
        }
    }
}

/// The first of the URNs that no goal has.
fn first_unknown<'a>(requests: &Requests, urns: &'a [Urn]) -> Option<&'a Urn>
    ensures { option_copied result ≡ find (reading.is_unknown requests.now.goals) urns.now }
{
    urns.iter().find(|urn| !requests.has_goal(urn.as_str()))
}

/// The first of the URNs of properties that no goal has.
fn unknown_property<'a>(requests: &Requests, pairs: &'a [(Text, Urns)]) -> Option<&'a Urn>
    ensures { option_copied result ≡ find (reading.is_unknown requests.now.goals) (property_urns pairs.now) }
{
    for pair in pairs {
        if let Some(urn) = first_unknown(requests, pair.1.as_slice()) {
            return Some(urn);
        }
    }
    None
}

/// The provider reference, where it is given and is not met.
fn unmet_provider(
    alloc: Global,
    requests: &Requests,
    ids: &[Option<Text>],
    text: Option<&str>,
) -> Result<Option<Text>, OutOfMemory>
    ensures { IfOk result (λ made. made ≡ find (reading.is_unmet_text requests.now.goals ids.now) (option_list (option_copied text.entry))) }
{
    let Some(text) = text else {
        return Ok(None);
    };
    if is_met_reference(alloc, requests, ids, text)? {
        return Ok(None);
    }
    Ok(Some(Text::from_str(alloc, text)?))
}

/// Whether a text is a provider reference that names a goal which is recorded with its id.
pub fn is_met_reference(
    alloc: Global,
    requests: &Requests,
    ids: &[Option<Text>],
    text: &str,
) -> Result<bool, OutOfMemory>
    ensures { IfOk result (λ is. is ≡ reading.is_met_text requests.now.goals ids.now text.now) }
{
    match read_ref(alloc, text) {
        Ok(reference) => Ok(is_met(requests, ids, &reference)),
        Err(RefFault::NotAReference) => Ok(false),
        Err(RefFault::OutOfMemory) => Err(OutOfMemory),
    }
}

/// Whether a provider reference names a goal which is recorded with its id.
fn is_met(requests: &Requests, ids: &[Option<Text>], reference: &ProviderRef) -> bool
    ensures { result ≡ reading.is_met_by requests.now.goals ids.now (reference.now.urn, reference.now.id) }
{
    match requests.goal_number(reference.urn.as_str()) {
        None => false,
        Some(number) => has_id(ids, number, reference.id.as_str()),
    }
}

/// Whether this id stands at a number.
fn has_id(ids: &[Option<Text>], number: u64, id: &str) -> bool
    ensures { result ≡ reading.has_id_at ids.now id.now number }
{
    match id_of(ids, number) {
        None => false,
        Some(own) => own.as_str() == id,
    }
}

/// The id that stands at a number.
fn id_of(ids: &[Option<Text>], number: u64) -> Option<&Text>
    ensures { option_copied result ≡ id_at ids.now number }
{
    match ids.get(number as usize) {
        Some(Some(id)) => Some(id),
        _ => None,
    }
}

/// Whether a text is a provider reference.
#[tactic(auto, using(pl_options::proofs::Readers::reference_is_read, pl_options::proofs::Readers::reference_is_refused))]
pub fn is_reference(alloc: Global, text: &str) -> Result<bool, OutOfMemory>
    ensures { IfOk result (λ is. is ≡ reference.is_reference text.now) }
{
    match read_ref(alloc, text) {
        Ok(_) => Ok(true),
        Err(RefFault::NotAReference) => Ok(false),
        Err(RefFault::OutOfMemory) => Err(OutOfMemory),
    }
}
