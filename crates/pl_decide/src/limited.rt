ghost use Rattle.std.specs.Prelude.{◌≡◌, if◌then◌else◌, IfOk, None, not, option_map};
ghost use Rattle.std.specs.Option.{option_copied};
ghost use Rattle.pl_decide.specs.Limited.{decide_limited, is_create_first, is_delete_first, is_replacement, limited, own_refusal, permits_claim};

use crate::decision::{Decision, ProviderChange};
use crate::limits::Limits;
use crate::permitted::{permits_replaced, permits_step};
use crate::problem::Problem;
use crate::table::by_table;
use pl_state::{Diffed, Entry, Goal};
use pl_value::{Fields, OutOfMemory};

/// What is decided of a goal, by its claim, by how its provider stands to the claim's, by its checked inputs and by
/// the diff, if one was asked, and then by the limits. To a replacement that deletes first the limits say nothing yet:
/// its chain is asked before them.
pub fn decide(
    claim: Option<&Entry>,
    goal: &Goal,
    provider: ProviderChange,
    checked: &Fields,
    diff: Option<&Diffed>,
    limits: &Limits,
) -> Result<Decision, OutOfMemory>
    ensures { IfOk result (λ made. made ≡
        decide_limited (option_copied claim.entry) goal.now provider checked.now (option_copied diff.entry) limits.now) }
{
    let decision = by_table(claim, goal, provider, checked, diff)?;
    limited(limits, claim, goal, decision)
}

fn limited(
    limits: &Limits,
    claim: Option<&Entry>,
    goal: &Goal,
    decision: Decision,
) -> Result<Decision, OutOfMemory>
    ensures { IfOk result (λ made. made ≡ limited limits.now (option_copied claim.entry) goal.now decision) }
{
    if is_delete_first(&decision) {
        return Ok(decision);
    }
    match own_refusal(limits, claim, goal, &decision)? {
        None => Ok(decision),
        Some(problem) => Ok(Decision::Refused(problem)),
    }
}

/// Whether the old thing is deleted before the new one is made.
pub fn is_delete_first(decision: &Decision) -> bool
    ensures { result ≡ is_delete_first decision.now }
{
    matches!(decision, Decision::Replace { first: false })
}

/// Whether the new thing is made before the old one is deleted.
pub fn is_create_first(decision: &Decision) -> bool
    ensures { result ≡ is_create_first decision.now }
{
    matches!(decision, Decision::Replace { first: true })
}

/// Whether a new thing is made in place of the old one.
pub fn is_replacement(decision: &Decision) -> bool
    ensures { result ≡ is_replacement decision.now }
{
    matches!(decision, Decision::Replace { .. })
}

/// The refusal by the limits, the claim's chain aside: that of the goal, or that of its claim where its old thing alone
/// may not go.
pub fn own_refusal(
    limits: &Limits,
    claim: Option<&Entry>,
    goal: &Goal,
    decision: &Decision,
) -> Result<Option<Problem>, OutOfMemory>
    ensures { IfOk result (λ problem. problem ≡ own_refusal limits.now (option_copied claim.entry) goal.now decision.now) }
{
    if !permits_step(limits, goal, decision) {
        return Ok(Some(Problem::NotPermitted(goal.urn.copy()?)));
    }
    if is_replacement(decision) {
        claim_refusal(limits, claim)
    } else {
        Ok(None)
    }
}

fn claim_refusal(limits: &Limits, claim: Option<&Entry>) -> Result<Option<Problem>, OutOfMemory>
    ensures { IfOk result (λ problem. problem ≡
        (if not (permits_claim limits.now (option_copied claim.entry))
        then option_map (λ row. Problem.NotPermitted row.urn) (option_copied claim.entry) else None)) }
{
    match claim {
        Some(row) if !permits_replaced(limits, &row.urn) => {
            let urn = row.urn.copy()?;
            Ok(Some(Problem::NotPermitted(urn)))
        }
        _ => Ok(None),
    }
}
