ghost use Rattle.std.specs.Prelude.{◌≡◌, IfErr, IfOk, List, None, ℕ, Ok, OnOk, option_map, Some, true};
ghost use Rattle.std.specs.Option.{option_copied};
ghost use Rattle.pl_path.specs.Grammar as path;
ghost use Rattle.pl_state.specs.declared.fault.OptionFault.TheVariants as option;
ghost use Rattle.pl_urn.specs.Grammar.{child_text, IsScope};
ghost use Rattle.pl_options.specs.GoalOf as spec;
ghost use Rattle.pl_options.specs.Refused.{HasPaths, IsRefusalOf, IsRefusedFor, IsRefusedText, references_of};

use crate::fault::{BadText, GoalFault};
use crate::reading::{References, copy_given, given, read_references};
use pl_path::PathFault;
use pl_reference::Urns;
use pl_state::{Goal, OptionFault, Registration};
use pl_urn::{Urn, UrnFault, is_provider_type};
use pl_value::{OutOfMemory, Texts};
use semver::Version;
use std::alloc::{AllocError, Global};

/// The goal of a registration in this stack and project, or its first fault. Its provider stays open.
pub fn goal_of(
    alloc: Global,
    told: &Registration,
    stack: &str,
    project: &str,
) -> Result<Goal, GoalFault>
    requires stack { IsScope stack.now }
    requires project { IsScope project.now }
    ensures made { IfOk result (λ goal. spec.goal_of stack.now project.now told.now ≡ Ok goal) }
    ensures paths { IfOk result HasPaths }
    ensures refused { IfErr result (IsRefusalOf (spec.goal_of stack.now project.now told.now)) }
{
    let references = match read_references(alloc, told) {
        Ok(references) => references,
        Err(bad) => return Err(bad_reference(bad)),
    };
    let urn = own_urn(alloc, references.parent.as_ref(), stack, project, told)?;
    check_paths(alloc, &told.ignore_changes)?;
    check_version(alloc, told)?;
    check_provided(told)?;
    Ok(goal_with(alloc, told, urn, references)?)
}

/// The URNs that take the goal's place among the URNs of earlier states, in order.
pub fn aliased_urns(goal: &Goal) -> &Urns
    ensures { result.now ≡ goal.now.aliases }
{
    &goal.aliases
}

fn bad_reference(bad: BadText) -> GoalFault
    ensures { (found : _) → IsRefusedText found bad → IsRefusedFor (option_map option.BadReference found) result }
{
    match bad {
        BadText::Refused(text) => GoalFault::Option(OptionFault::BadReference(text)),
        BadText::OutOfMemory => GoalFault::OutOfMemory,
    }
}

fn own_urn(
    alloc: Global,
    parent: Option<&Urn>,
    stack: &str,
    project: &str,
    told: &Registration,
) -> Result<Urn, GoalFault>
    requires stack { IsScope stack.now }
    requires project { IsScope project.now }
    ensures made { IfOk result (λ urn. urn ≡
        child_text (option_copied parent.entry) stack.now project.now told.now.kind told.now.name) }
    ensures passes { OnOk result (spec.bad_urn told.now ≡ None) }
    ensures refused { IfErr result (IsRefusedFor (option_map option.BadUrn (spec.bad_urn told.now))) }
{
    let (kind, name) = (&told.kind, &told.name);
    match pl_urn::child(alloc, parent, stack, project, kind.as_str(), name.as_str()) {
        Ok(urn) => Ok(urn),
        Err(UrnFault::OutOfMemory) => Err(GoalFault::OutOfMemory),
        Err(UrnFault::BadType) => Err(GoalFault::Option(OptionFault::BadUrn(kind.copy()?))),
        Err(_) => Err(GoalFault::Option(OptionFault::BadUrn(name.copy()?))),
    }
}

#[tactic(auto, using(crate::proofs::Readers::path_is_read, crate::proofs::Readers::path_is_refused))]
fn is_path(alloc: Global, text: &str) -> Result<bool, OutOfMemory>
    ensures { IfOk result (λ is. is ≡ path.is_path text.now) }
{
    match pl_path::parse(alloc, text) {
        Ok(_) => Ok(true),
        Err(PathFault::BadPath(_)) => Ok(false),
        Err(PathFault::OutOfMemory) => Err(OutOfMemory),
    }
}

fn check_paths(alloc: Global, texts: &Texts) -> Result<(), GoalFault>
    ensures passes { OnOk result (spec.first_bad path.is_path texts.now ≡ None) }
    ensures refused { IfErr result (IsRefusedFor (option_map option.BadPath (spec.first_bad path.is_path texts.now))) }
{
    for text in texts.as_slice() {
        if !is_path(alloc, text.as_str())? {
            return Err(GoalFault::Option(OptionFault::BadPath(text.copy()?)));
        }
    }
    Ok(())
}

fn is_version(alloc: Global, text: &str) -> Result<bool, OutOfMemory>
    ensures { IfOk result (λ is. is ≡ spec.is_version text.now) }
{
    match Version::parse(alloc, text) {
        Ok(_) => Ok(true),
        Err(error) if error == semver::Error::from(AllocError) => Err(OutOfMemory),
        Err(_) => Ok(false),
    }
}

fn check_version(alloc: Global, told: &Registration) -> Result<(), GoalFault>
    ensures passes { OnOk result (spec.bad_version told.now ≡ None) }
    ensures refused { IfErr result (IsRefusedFor (option_map option.BadVersion (spec.bad_version told.now))) }
{
    let Some(text) = given(&told.version) else {
        return Ok(());
    };
    if is_version(alloc, text.as_str())? {
        return Ok(());
    }
    Err(GoalFault::Option(OptionFault::BadVersion(text.copy()?)))
}

/// What provides has no provider itself.
fn check_provided(told: &Registration) -> Result<(), GoalFault>
    ensures passes { OnOk result (spec.provider_of_provider told.now ≡ None) }
    ensures refused { IfErr result (IsRefusedFor (spec.provider_of_provider told.now)) }
{
    if is_provider_type(told.kind.as_str()) && given(&told.provider).is_some() {
        return Err(GoalFault::Option(OptionFault::ProviderOfProvider));
    }
    Ok(())
}

#[tactic(auto, unfolding(crate::specs::GoalOf::plain_goal_of))]
fn goal_with(
    alloc: Global,
    told: &Registration,
    urn: Urn,
    references: References,
) -> Result<Goal, OutOfMemory>
    requires { references ≡ references_of told.now }
    ensures { IfOk result (λ goal. (stack project : List ℕ)
        → urn ≡ child_text (spec.given told.now.parent) stack project told.now.kind told.now.name
        → goal ≡ spec.plain_goal_of stack project told.now) }
{
    Ok(Goal {
        urn,
        custom: told.custom,
        kind: told.kind.copy()?,
        inputs: told.inputs.copy(alloc)?,
        parent: references.parent,
        provider: None,
        dependencies: references.dependencies,
        property_dependencies: references.property_dependencies,
        protect: told.protect,
        aliases: references.aliases,
        ignore_changes: told.ignore_changes.copy()?,
        delete_before_replace: told.delete_before_replace,
        retain_on_delete: told.retain_on_delete,
        deleted_with: references.deleted_with,
        additional_secret_outputs: told.additional_secret_outputs.copy()?,
        import_id: copy_given(&told.import_id)?,
        version: copy_given(&told.version)?,
        read_id: copy_given(&told.read_id)?,
    })
}
