ghost use Rattle.std.specs.Prelude.{◌≡◌, ◌&&◌, IfOk, None, Some};
ghost use Rattle.std.specs.Option.{option_copied};
ghost use Rattle.pl_model.specs.Known.{Known};
ghost use Rattle.pl_model.specs.Requests as spec;
ghost use Rattle.pl_model.specs.declared.fixed.Fixed as fixed;
ghost use Rattle.pl_urn.specs.Grammar.{IsScope, package_of};
ghost use Rattle.pl_requests.specs.Ids.{ForKnown, known_over};

use crate::default::is_bad_default;
use crate::unknown::{is_met_reference, is_reference, unknown_reference};
use crate::words::{given, invoked_version, is_component, text_in, token_package, uses_default};
use pl_decide::Problem;
use pl_events::Request;
use pl_model::Fixed;
use pl_options::{GoalFault, goal_of};
use pl_state::{Goal, OptionFault, Registration};
use pl_told::Requests;
use pl_value::{OutOfMemory, Text};
use std::alloc::Global;

/// Why a request is refused, if it is.
pub fn refusal_of(
    alloc: Global,
    requests: &Requests,
    run: &Fixed,
    ids: &[Option<Text>],
    request: &Request,
) -> Result<Option<Problem>, OutOfMemory>
    requires stack { IsScope run.now.stack }
    requires project { IsScope run.now.project }
    ensures { IfOk result (λ problem. ForKnown run.now requests.now.goals ids.now (λ known. problem ≡ spec.refusal_of known request.now)) }
{
    match request {
        Request::Register { told, .. } => registration_refusal(alloc, requests, run, ids, told),
        Request::Outputs { urn, .. } => outputs_refusal(requests, urn),
        Request::Invoke {
            token,
            provider,
            version,
            ..
        } => {
            let (provider, version) = (given(provider), invoked_version(version));
            invoke_refusal(alloc, requests, run, ids, token, provider, version)
        }
    }
}

/// Why a registration is refused: it makes no goal, or that goal may not be.
fn registration_refusal(
    alloc: Global,
    requests: &Requests,
    run: &Fixed,
    ids: &[Option<Text>],
    told: &Registration,
) -> Result<Option<Problem>, OutOfMemory>
    requires stack { IsScope run.now.stack }
    requires project { IsScope run.now.project }
    ensures { IfOk result (λ problem. ForKnown run.now requests.now.goals ids.now (λ known.
        problem ≡ spec.registration_refusal known told.now)) }
{
    match goal_of(alloc, told, run.stack.as_str(), run.project.as_str()) {
        Ok(goal) => goal_refusal(alloc, requests, run, ids, told, &goal),
        Err(GoalFault::Option(fault)) => Ok(Some(Problem::BadOption(fault))),
        Err(GoalFault::OutOfMemory) => Err(OutOfMemory),
    }
}

/// Why a registration with a goal is refused: by its default provider, by what it refers to, or by its URN.
fn goal_refusal(
    alloc: Global,
    requests: &Requests,
    run: &Fixed,
    ids: &[Option<Text>],
    told: &Registration,
    goal: &Goal,
) -> Result<Option<Problem>, OutOfMemory>
    requires stack { IsScope run.now.stack }
    requires project { IsScope run.now.project }
    ensures { IfOk result (λ problem. ForKnown run.now requests.now.goals ids.now (λ known.
        problem ≡ spec.goal_refusal known told.now goal.now)) }
{
    if lacks_default(alloc, run, told, goal)? {
        let fault = OptionFault::BadUrn(goal.kind.copy()?);
        return Ok(Some(Problem::BadOption(fault)));
    }
    match unknown_reference(alloc, requests, ids, told, goal)? {
        Some(text) => Ok(Some(Problem::UnknownReference(text))),
        None => duplicate(requests, goal),
    }
}

/// Whether a registration uses a default provider whose type makes no URN.
fn lacks_default(
    alloc: Global,
    run: &Fixed,
    told: &Registration,
    goal: &Goal,
) -> Result<bool, OutOfMemory>
    requires stack { IsScope run.now.stack }
    requires project { IsScope run.now.project }
    ensures { IfOk result (λ lacks. lacks
        ≡ (spec.uses_default told.now goal.now && spec.is_bad_default (package_of goal.now.urn) goal.now.version)) }
{
    if !uses_default(told, goal) {
        return Ok(false);
    }
    is_bad_default(alloc, run, goal.urn.package(), text_in(&goal.version))
}

/// A goal's URN is refused where an earlier goal has it.
fn duplicate(requests: &Requests, goal: &Goal) -> Result<Option<Problem>, OutOfMemory>
    ensures { IfOk result (λ problem. (run : fixed.Fixed) (known : Known) → problem
        ≡ spec.refused_if (spec.has_goal (known_over run requests.now.goals known) goal.now.urn) (Problem.DuplicateUrn goal.now.urn)) }
{
    if !requests.has_goal(goal.urn.as_str()) {
        return Ok(None);
    }
    Ok(Some(Problem::DuplicateUrn(goal.urn.copy()?)))
}

/// Why told outputs are refused: no goal has their URN, or that goal is no component.
fn outputs_refusal(requests: &Requests, urn: &Text) -> Result<Option<Problem>, OutOfMemory>
    ensures { IfOk result (λ problem. (run : fixed.Fixed) (known : Known) → problem
        ≡ spec.outputs_refusal (known_over run requests.now.goals known) urn.now
        (spec.goal_with_urn (known_over run requests.now.goals known) urn.now)) }
{
    match requests.goal_with_urn(urn.as_str()) {
        None => Ok(Some(Problem::UnknownReference(urn.copy()?))),
        Some(goal) => custom_outputs(goal),
    }
}

/// Outputs are refused where they are told of a goal that is no component.
fn custom_outputs(goal: &Goal) -> Result<Option<Problem>, OutOfMemory>
    ensures { IfOk result (λ problem. (known : Known) (urn : _) → problem ≡ spec.outputs_refusal known urn (Some goal.now)) }
{
    if is_component(goal) {
        return Ok(None);
    }
    Ok(Some(Problem::OutputsOfCustom(goal.urn.copy()?)))
}

/// Why an invoke is refused, by the provider that it names or else by its default one.
fn invoke_refusal(
    alloc: Global,
    requests: &Requests,
    run: &Fixed,
    ids: &[Option<Text>],
    token: &Text,
    provider: Option<&str>,
    version: Option<&str>,
) -> Result<Option<Problem>, OutOfMemory>
    requires stack { IsScope run.now.stack }
    requires project { IsScope run.now.project }
    ensures { IfOk result (λ problem. ForKnown run.now requests.now.goals ids.now (λ known. problem
        ≡ spec.invoke_refusal known token.now (option_copied provider.entry) (option_copied version.entry))) }
{
    match provider {
        Some(text) => named_refusal(alloc, requests, ids, text),
        None => default_refusal(alloc, run, token, version),
    }
}

/// An invoke that names no provider is refused where the type of its default one makes no URN.
fn default_refusal(
    alloc: Global,
    run: &Fixed,
    token: &Text,
    version: Option<&str>,
) -> Result<Option<Problem>, OutOfMemory>
    requires stack { IsScope run.now.stack }
    requires project { IsScope run.now.project }
    ensures { IfOk result (λ problem. (known : Known) → problem
        ≡ spec.invoke_refusal known token.now None (option_copied version.entry)) }
{
    if !is_bad_default(alloc, run, token_package(token.as_str()), version)? {
        return Ok(None);
    }
    let fault = OptionFault::BadUrn(token.copy()?);
    Ok(Some(Problem::BadOption(fault)))
}

/// An invoke that names a provider is refused where that is no provider reference, or one that is not met.
fn named_refusal(
    alloc: Global,
    requests: &Requests,
    ids: &[Option<Text>],
    text: &str,
) -> Result<Option<Problem>, OutOfMemory>
    ensures { IfOk result (λ problem. (run : fixed.Fixed) → ForKnown run requests.now.goals ids.now (λ known.
        (token : _) (version : _) → problem ≡ spec.invoke_refusal known token (Some text.now) version)) }
{
    if !is_reference(alloc, text)? {
        let fault = OptionFault::BadReference(Text::from_str(alloc, text)?);
        return Ok(Some(Problem::BadOption(fault)));
    }
    if is_met_reference(alloc, requests, ids, text)? {
        return Ok(None);
    }
    Ok(Some(Problem::UnknownReference(Text::from_str(alloc, text)?)))
}
