ghost use Rattle.std.specs.Prelude.{◌≡◌, ◌||◌, [], IfOk};
ghost use Rattle.std.specs.Option.{option_copied};
ghost use Rattle.pl_entries.specs.Recorded.{recorded_result};
ghost use Rattle.pl_model.specs.Claims.{id_of_row};
ghost use Rattle.pl_model.specs.Entries as spec;
ghost use Rattle.pl_refresh.specs.Planned as planned;
ghost use Rattle.pl_state.specs.Kinds as kinds;

use crate::ids::{copy_id, kept_id, new_id};
use crate::recording::Recording;
use pl_decide::{Decision, is_component, is_of_provider};
use pl_model::Decided;
use pl_reference::copy_text;
use pl_refresh::planned_outputs;
use pl_state::{Entry, Goal};
use pl_value::{Fields, OutOfMemory, Text, Texts};
use std::alloc::Global;

/// What a keep gives to the entry of a goal, over the row that the goal claims. `fresh` is the number that the keep
/// carries, if it carries one.
pub fn result_of_keep(
    alloc: Global,
    goal: &Goal,
    claim: Option<&Entry>,
    one: &Decided,
    fresh: Option<u128>,
) -> Result<Recording, OutOfMemory>
    ensures { IfOk result (λ made. recorded_result made ≡ spec.result_of_keep goal.now (option_copied claim.entry) one.now fresh) }
{
    if is_keep(&one.decision) {
        return kept_same(alloc, goal, claim, fresh);
    }
    if !is_own(goal) {
        return kept_planned(alloc, goal, claim, one);
    }
    if is_update(&one.decision) {
        kept_changed(alloc, goal, claim, fresh)
    } else {
        kept_new(alloc, goal, claim, fresh)
    }
}

fn is_keep(decision: &Decision) -> bool
    ensures { result ≡ spec.is_keep decision.now }
{
    matches!(decision, Decision::Keep)
}

fn is_update(decision: &Decision) -> bool
    ensures { result ≡ spec.is_update decision.now }
{
    matches!(decision, Decision::Update)
}

/// Whether a goal is made without an operation: it is a component or a provider.
fn is_own(goal: &Goal) -> bool
    ensures { result ≡ (kinds.is_component goal.now || kinds.is_provider_goal goal.now) }
{
    is_component(goal) || is_of_provider(&goal.urn)
}

/// All of the claim that a keep leaves as it is.
fn kept_same(
    alloc: Global,
    goal: &Goal,
    claim: Option<&Entry>,
    fresh: Option<u128>,
) -> Result<Recording, OutOfMemory>
    ensures { IfOk result (λ made. recorded_result made ≡ spec.kept_same goal.now (option_copied claim.entry) fresh) }
{
    match claim {
        None => Recording::new(alloc, None, Fields::new(alloc), Texts::new(alloc)),
        Some(row) => Ok(Recording {
            id: kept_id(alloc, goal, claim, fresh)?,
            outputs: row.outputs.copy(alloc)?,
            reasons: row.init_errors.copy()?,
            rest: row.rest.copy()?,
        }),
    }
}

/// Of a component or a provider that is made anew.
fn kept_new(
    alloc: Global,
    goal: &Goal,
    claim: Option<&Entry>,
    fresh: Option<u128>,
) -> Result<Recording, OutOfMemory>
    ensures { IfOk result (λ made. recorded_result made ≡ spec.kept_new goal.now (option_copied claim.entry) fresh) }
{
    let id = new_id(alloc, goal, claim, fresh)?;
    Recording::new(alloc, id, Fields::new(alloc), Texts::new(alloc))
}

/// Of a component or a provider that is changed.
fn kept_changed(
    alloc: Global,
    goal: &Goal,
    claim: Option<&Entry>,
    fresh: Option<u128>,
) -> Result<Recording, OutOfMemory>
    ensures { IfOk result (λ made. recorded_result made ≡ spec.kept_changed goal.now (option_copied claim.entry) fresh) }
{
    let id = kept_id(alloc, goal, claim, fresh)?;
    let outputs = copy_outputs(alloc, claim)?;
    Recording::new(alloc, id, outputs, Texts::new(alloc))
}

/// The outputs of a row, or none where there is no row.
pub fn copy_outputs(alloc: Global, row: Option<&Entry>) -> Result<Fields, OutOfMemory>
    ensures { IfOk result (λ made. made ≡ spec.outputs_of_row (option_copied row.entry)) }
{
    match row {
        None => Ok(Fields::new(alloc)),
        Some(row) => row.outputs.copy(alloc),
    }
}

/// In a preview, what another goal's entry is planned to be.
fn kept_planned(
    alloc: Global,
    goal: &Goal,
    claim: Option<&Entry>,
    one: &Decided,
) -> Result<Recording, OutOfMemory>
    ensures { IfOk result (λ made. recorded_result made ≡ spec.kept_planned goal.now (option_copied claim.entry) one.now) }
{
    match &one.decision {
        Decision::Update => planned_update(alloc, claim, &one.checked),
        Decision::Import => planned(alloc, copy_text(&goal.import_id)?, &one.checked),
        Decision::ReadOnly => planned(alloc, copy_text(&goal.read_id)?, &one.checked),
        _ => planned(alloc, None, &one.checked),
    }
}

fn planned(alloc: Global, id: Option<Text>, checked: &Fields) -> Result<Recording, OutOfMemory>
    ensures { IfOk result (λ made. recorded_result made ≡ spec.result_with id checked.now []) }
{
    Recording::new(alloc, id, checked.copy(alloc)?, Texts::new(alloc))
}

fn planned_update(
    alloc: Global,
    claim: Option<&Entry>,
    checked: &Fields,
) -> Result<Recording, OutOfMemory>
    ensures { IfOk result (λ made. recorded_result made ≡ spec.result_with (id_of_row (option_copied claim.entry))
        (planned.planned_outputs (spec.outputs_of_row (option_copied claim.entry)) checked.now) []) }
{
    let id = copy_id(claim)?;
    let outputs = outputs_over(alloc, claim, checked)?;
    Recording::new(alloc, id, outputs, Texts::new(alloc))
}

fn outputs_over(
    alloc: Global,
    claim: Option<&Entry>,
    checked: &Fields,
) -> Result<Fields, OutOfMemory>
    ensures { IfOk result (λ made. made ≡ planned.planned_outputs (spec.outputs_of_row (option_copied claim.entry)) checked.now) }
{
    match claim {
        None => planned_outputs(alloc, None, checked),
        Some(row) => planned_outputs(alloc, Some(&row.outputs), checked),
    }
}
