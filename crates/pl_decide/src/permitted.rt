ghost use Rattle.std.specs.Prelude.{◌≡◌};
ghost use Rattle.pl_decide.specs.Permits.{delete_replaced_step, delete_step, has_line, has_urn_in, is_always_wanted, is_free, is_planned, is_wanted, permits_chained, permits_left, permits_replaced, permits_step, step_is_planned, step_name};

use crate::decision::Decision;
use crate::kinds::{is_component, is_of_default};
use crate::limits::{Limits, PlanLines};
use pl_state::{Goal, Urns};
use pl_urn::Urn;

/// The name of a decision's step, by whether a creation stands for what was deleted first; empty for a refusal.
pub fn step_name(replaces: bool, decision: &Decision) -> &'static str
    ensures { result.now ≡ step_name replaces decision.now }
{
    match decision {
        Decision::Keep => "same",
        Decision::Create if replaces => "create-replacement",
        Decision::Create => "create",
        Decision::Update => "update",
        Decision::Replace { .. } => "create-replacement",
        Decision::Import => "import",
        Decision::ReadOnly => "read",
        Decision::Refused(_) => "",
    }
}

fn delete_step() -> &'static str
    ensures { result.now ≡ delete_step }
{
    "delete"
}

fn delete_replaced_step() -> &'static str
    ensures { result.now ≡ delete_replaced_step }
{
    "delete-replaced"
}

fn has_urn_in(urn: &Urn, urns: &Urns) -> bool
    ensures { result ≡ has_urn_in urn.now urns.now }
{
    urns.as_slice()
        .iter()
        .any(|named| named.as_str() == urn.as_str())
}

fn has_line(urn: &Urn, step: &str, lines: &PlanLines) -> bool
    ensures { result ≡ has_line urn.now step.now lines.now }
{
    lines.as_slice().iter().any(|line| line.0.as_str() == urn.as_str() && line.1.as_str() == step)
}

/// Whether a resource is among those that may be changed.
pub fn is_wanted(limits: &Limits, urn: &Urn) -> bool
    ensures { result ≡ is_wanted limits.now urn.now }
{
    match &limits.only {
        None => true,
        Some(urns) => has_urn_in(urn, urns),
    }
}

fn is_planned(limits: &Limits, urn: &Urn, step: &str) -> bool
    ensures { result ≡ is_planned limits.now urn.now step.now }
{
    match &limits.plan {
        None => true,
        Some(lines) => has_line(urn, step, lines),
    }
}

fn is_free(decision: &Decision) -> bool
    ensures { result ≡ is_free decision.now }
{
    matches!(
        decision,
        Decision::Keep | Decision::ReadOnly | Decision::Refused(_)
    )
}

fn is_always_wanted(goal: &Goal) -> bool
    ensures { result ≡ is_always_wanted goal.now }
{
    is_component(goal) || is_of_default(&goal.urn)
}

fn step_is_planned(limits: &Limits, urn: &Urn, decision: &Decision) -> bool
    ensures { result ≡ step_is_planned limits.now urn.now decision.now }
{
    is_planned(limits, urn, step_name(false, decision))
        || is_planned(limits, urn, step_name(true, decision))
}

/// Whether a decision on a goal is permitted, what its rows say aside.
pub fn permits_step(limits: &Limits, goal: &Goal, decision: &Decision) -> bool
    ensures { result ≡ permits_step limits.now goal.now decision.now }
{
    is_free(decision)
        || ((is_always_wanted(goal) || is_wanted(limits, &goal.urn))
            && step_is_planned(limits, &goal.urn, decision))
}

/// Whether the claim of this URN may be replaced.
pub fn permits_replaced(limits: &Limits, urn: &Urn) -> bool
    ensures { result ≡ permits_replaced limits.now urn.now }
{
    is_planned(limits, urn, delete_replaced_step())
}

/// Whether a row of the chain of a claim that is deleted first may be taken along.
pub fn permits_chained(limits: &Limits, claimed: bool, doomed: bool, urn: &Urn) -> bool
    ensures { result ≡ permits_chained limits.now claimed doomed urn.now }
{
    (claimed || is_wanted(limits, urn))
        && ((claimed && !doomed) || is_planned(limits, urn, delete_replaced_step()))
}

/// Whether a row that is left at the end may be deleted: `turned` is the URN that its goal gave it, and `urn` that in
/// the base.
pub fn permits_left(limits: &Limits, turned: &Urn, urn: &Urn) -> bool
    ensures { result ≡ permits_left limits.now turned.now urn.now }
{
    is_wanted(limits, turned)
        && (is_planned(limits, urn, delete_step())
            || is_planned(limits, urn, delete_replaced_step()))
}
