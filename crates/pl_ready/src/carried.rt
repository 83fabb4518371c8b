ghost use Rattle.std.specs.Prelude.{◌≡◌};
ghost use Rattle.pl_columns.specs.Read.{known_by};
ghost use Rattle.pl_model.specs.Due as spec;

use crate::unknown::{has_unknown_inputs, is_preview};
use pl_columns::Columns;
use pl_decide::{Decision, is_provided};
use pl_events::{Op, Subject};
use pl_model::Decided;
use pl_state::Goal;

/// In a preview, whether the goal's provider has inputs that are not known.
pub fn has_unknown_provider(columns: &Columns, goal: &Goal) -> bool
    ensures { result ≡ spec.has_unknown_provider (known_by columns.now) goal.now }
{
    is_preview(&columns.run().mode) && has_unknown_inputs(columns, goal.provider)
}

/// The operation by which a decision is carried out, if it takes one.
pub fn op_of_decision(number: u64, decision: &Decision) -> Option<Op>
    ensures { result ≡ spec.op_of_decision number decision.now }
{
    let goal = Subject::Goal(number);
    match decision {
        Decision::Keep => None,
        Decision::Create => Some(Op::Create(goal)),
        Decision::Update => Some(Op::Update(goal)),
        Decision::Replace { .. } => Some(Op::Create(goal)),
        Decision::Import => Some(Op::Read(goal)),
        Decision::ReadOnly => Some(Op::Read(goal)),
        Decision::Refused(_) => None,
    }
}

/// Whether a decision is carried out by reading.
fn is_reading(decision: &Decision) -> bool
    ensures { result ≡ spec.is_reading decision.now }
{
    matches!(decision, Decision::Import | Decision::ReadOnly)
}

/// Whether a decision is sent to a provider: in a preview only to read, where the provider is known.
pub fn is_carried_out(columns: &Columns, goal: &Goal, decision: &Decision) -> bool
    ensures { result ≡ spec.is_carried_out (known_by columns.now) goal.now decision.now }
{
    is_provided(goal)
        && (!is_preview(&columns.run().mode)
            || (is_reading(decision) && !has_unknown_provider(columns, goal)))
}

/// The operation that a goal needs, if it needs one.
pub fn op_of_goal(columns: &Columns, number: u64, goal: &Goal, one: &Decided) -> Option<Op>
    ensures { result ≡ spec.op_of_goal (known_by columns.now) number goal.now one.now }
{
    if is_carried_out(columns, goal, &one.decision) {
        op_of_decision(number, &one.decision)
    } else {
        None
    }
}
