ghost use Rattle.std.specs.Prelude.{◌≡◌, IfOk, option_and_then};
ghost use Rattle.std.specs.List.{filter_map};
ghost use Rattle.pl_columns.specs.Read.{known_by};
ghost use Rattle.pl_model.specs.Known.{decided_goal, is_over};
ghost use Rattle.pl_model.specs.Problems as spec;
ghost use Rattle.pl_problems.specs.Since.{decided_since};

use crate::lacking::missing_provider;
use crate::words::push_found;
use pl_columns::Columns;
use pl_decide::{Decision, Problem};
use pl_value::OutOfMemory;
use std::alloc::Global;

/// The refusals of the goals that were decided since there were `before` decisions, in the order of the goals.
pub fn refusals(alloc: Global, columns: &Columns, before: u64) -> Result<Vec<Problem>, OutOfMemory>
    ensures { IfOk result (λ problems. problems.items
        ≡ filter_map (λ one. spec.refusal_in one.decision) (decided_since (known_by columns.now) before)) }
{
    let mut problems = Vec::new(alloc);
    for goal in before..columns.claims.count() {
        let found = refusal_at(alloc, columns, goal)?;
        push_found(&mut problems, found)?;
    }
    Ok(problems)
}

fn refusal_at(alloc: Global, columns: &Columns, goal: u64) -> Result<Option<Problem>, OutOfMemory>
    ensures { IfOk result (λ found. found
        ≡ option_and_then (λ one. spec.refusal_in one.decision) (decided_goal (known_by columns.now) goal)) }
{
    match columns.decided(goal) {
        None => Ok(None),
        Some(one) => refusal_in(alloc, &one.decision),
    }
}

fn refusal_in(alloc: Global, decision: &Decision) -> Result<Option<Problem>, OutOfMemory>
    ensures { IfOk result (λ found. found ≡ spec.refusal_in decision.now) }
{
    match decision {
        Decision::Refused(problem) => Ok(Some(problem.copy(alloc)?)),
        _ => Ok(None),
    }
}

/// That a row which such a goal has deleted lacks its provider, in the order of the goals.
pub fn missing_providers(
    alloc: Global,
    columns: &Columns,
    before: u64,
) -> Result<Vec<Problem>, OutOfMemory>
    ensures { IfOk result (λ problems. problems.items
        ≡ filter_map (spec.missing_provider (known_by columns.now)) (decided_since (known_by columns.now) before)) }
{
    let over = columns.is_over();
    let mut problems = Vec::new(alloc);
    for goal in before..columns.claims.count() {
        let found = missing_at(columns, over, goal)?;
        push_found(&mut problems, found)?;
    }
    Ok(problems)
}

fn missing_at(columns: &Columns, over: bool, goal: u64) -> Result<Option<Problem>, OutOfMemory>
    requires { over ≡ is_over (known_by columns.now) }
    ensures { IfOk result (λ found. found
        ≡ option_and_then (spec.missing_provider (known_by columns.now)) (decided_goal (known_by columns.now) goal)) }
{
    let (Some(one), Some(chain)) = (columns.decided(goal), columns.claims.chain(goal)) else {
        return Ok(None);
    };
    missing_provider(columns, over, one, chain.as_slice())
}
