ghost use Rattle.std.specs.Prelude.{◌≡◌, ◌++◌, ℕ, IfOk, length, None, Some, true};
ghost use Rattle.std.specs.Option.{option_copied};
ghost use Rattle.pl_events.specs.declared.event.Request.TheVariants as request;
ghost use Rattle.pl_lemmas.specs.Words.{option_list};
ghost use Rattle.pl_model.specs.Known.{Known};
ghost use Rattle.pl_model.specs.Requests as spec;
ghost use Rattle.pl_model.specs.declared.fixed.Fixed as fixed;
ghost use Rattle.pl_options.specs.Refused.{HasPaths};
ghost use Rattle.pl_urn.specs.Grammar.{IsScope};
ghost use Rattle.pl_value.specs.declared.value.Value as value;
ghost use Rattle.pl_requests.specs.Ids.{known_over};
ghost use Rattle.pl_requests.specs.Making.{Makes, MakesFor, own_making};
ghost use Rattle.pl_requests.specs.Reading.{is_known_version};

use crate::default::default_provider;
use crate::words::{given, invoked_version, text_in, token_package, uses_default};
use pl_events::Request;
use pl_model::Fixed;
use pl_options::{GoalFault, goal_of};
use pl_state::{Goal, RefFault, Registration, read_ref};
use pl_told::{Made, Requests};
use pl_value::{OutOfMemory, Text};
use std::alloc::Global;

/// The goals that an accepted request makes, and the number of the one that it is about.
#[derive(Debug, Drop)]
pub struct Making {
    /// The default provider that the request needs and that does not stand yet.
    pub default: Option<Made>,
    /// The goal of a registration.
    pub own: Option<Made>,
    pub about: Option<u64>,
}

/// The goals that a request makes where it is not refused.
pub fn goals_made(
    alloc: Global,
    requests: &Requests,
    run: &Fixed,
    request: &Request,
) -> Result<Making, OutOfMemory>
    requires stack { IsScope run.now.stack }
    requires project { IsScope run.now.project }
    ensures { IfOk result (MakesFor run.now requests.now.goals request.now) }
{
    match request {
        Request::Register { told, .. } => registered(alloc, requests, run, told),
        Request::Outputs { urn, .. } => Ok(told_outputs(requests, urn)),
        Request::Invoke {
            token,
            provider,
            version,
            ..
        } => invoked(alloc, requests, run, token, provider, version),
    }
}

fn registered(
    alloc: Global,
    requests: &Requests,
    run: &Fixed,
    told: &Registration,
) -> Result<Making, OutOfMemory>
    requires stack { IsScope run.now.stack }
    requires project { IsScope run.now.project }
    ensures { IfOk result (λ making. (n : ℕ) → MakesFor run.now requests.now.goals (request.Register n told.now) making) }
{
    match goal_of(alloc, told, run.stack.as_str(), run.project.as_str()) {
        Ok(goal) => made_of_goal(alloc, requests, run, told, goal),
        Err(GoalFault::Option(_)) => Ok(nothing_made()),
        Err(GoalFault::OutOfMemory) => Err(OutOfMemory),
    }
}

fn nothing_made() -> Making
    ensures { result ≡ record { default = None; own = None; about = None } }
{
    Making {
        default: None,
        own: None,
        about: None,
    }
}

/// The goal of a registration, with the number of its provider.
fn made_of_goal(
    alloc: Global,
    requests: &Requests,
    run: &Fixed,
    told: &Registration,
    goal: Goal,
) -> Result<Making, OutOfMemory>
    requires stack { IsScope run.now.stack }
    requires project { IsScope run.now.project }
    requires version { is_known_version goal.version ≡ true }
    requires paths { HasPaths goal }
    ensures { IfOk result (λ making. (known : Known) → spec.goal_refusal (known_over run.now requests.now.goals known) told.now goal ≡ None
        → Makes (known_over run.now requests.now.goals known)
        (spec.with_goal (known_over run.now requests.now.goals known) told.now goal)
        (spec.newest_number (spec.with_goal (known_over run.now requests.now.goals known) told.now goal)) making) }
{
    if uses_default(told, &goal) {
        let version = text_in(&goal.version);
        let provider = default_provider(alloc, requests, run, goal.urn.package(), version)?;
        own_making(alloc, requests, provider.missing, goal, provider.number)
    } else {
        let provider = named_provider(alloc, requests, given(&told.provider))?;
        own_making(alloc, requests, None, goal, provider)
    }
}

/// The default provider that is missing, and after it a goal with the number of its provider.
fn own_making(
    alloc: Global,
    requests: &Requests,
    missing: Option<Made>,
    goal: Goal,
    provider: Option<u64>,
) -> Result<Making, OutOfMemory>
    requires { HasPaths goal }
    ensures { IfOk result (λ making. making ≡ own_making requests.now.goals missing goal provider) }
{
    let about = match &missing {
        None => requests.len(),
        Some(_) => requests.len() + 1,
    };
    let mut goal = goal;
    goal.provider = provider;
    let own = Made::new(alloc, goal)?;
    Ok(Making {
        default: missing,
        own: Some(own),
        about: Some(about),
    })
}

/// The number of the goal that a provider reference names, if it is given.
fn named_provider(
    alloc: Global,
    requests: &Requests,
    text: Option<&str>,
) -> Result<Option<u64>, OutOfMemory>
    ensures { IfOk result (λ number. (run : fixed.Fixed) (known : Known)
        → number ≡ spec.named_provider (known_over run requests.now.goals known) (option_copied text.entry)) }
{
    let Some(text) = text else {
        return Ok(None);
    };
    match read_ref(alloc, text) {
        Ok(reference) => Ok(requests.goal_number(reference.urn.as_str())),
        Err(RefFault::NotAReference) => Ok(None),
        Err(RefFault::OutOfMemory) => Err(OutOfMemory),
    }
}

/// Outputs make no goal, and are about the one with their URN.
fn told_outputs(requests: &Requests, urn: &Text) -> Making
    ensures { (run : fixed.Fixed) (n : ℕ) (outputs : _) → MakesFor run requests.now.goals (request.Outputs n urn.now outputs) result }
{
    Making {
        default: None,
        own: None,
        about: requests.goal_number(urn.as_str()),
    }
}

/// An invoke makes its default provider where it names none, and is about its provider.
fn invoked(
    alloc: Global,
    requests: &Requests,
    run: &Fixed,
    token: &Text,
    provider: &Option<Text>,
    version: &Option<Text>,
) -> Result<Making, OutOfMemory>
    requires stack { IsScope run.now.stack }
    requires project { IsScope run.now.project }
    ensures { IfOk result (λ making. (n : ℕ) (args : _)
        → MakesFor run.now requests.now.goals (request.Invoke n token.now args provider.now version.now) making) }
{
    match given(provider) {
        None => {
            let package = token_package(token.as_str());
            let version = invoked_version(version);
            let provider = default_provider(alloc, requests, run, package, version)?;
            Ok(Making {
                default: provider.missing,
                own: None,
                about: provider.number,
            })
        }
        Some(text) => {
            let about = named_provider(alloc, requests, Some(text))?;
            Ok(Making {
                default: None,
                own: None,
                about,
            })
        }
    }
}
