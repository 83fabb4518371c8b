ghost use Rattle.std.specs.Prelude.{◌≡◌, ◌==◌, if◌then◌else◌, IfOk, None, option_and_then, option_map, Some};
ghost use Rattle.pl_columns.specs.Read.{known_by};
ghost use Rattle.pl_model.specs.Asked as spec;
ghost use Rattle.pl_model.specs.Decisions.{kin_at, number_at};
ghost use Rattle.pl_model.specs.Known as known;
ghost use Rattle.pl_turns.specs.Seen.{seen_turn};

use pl_asks::id_or_empty;
use pl_columns::Columns;
use pl_events::{Ask, Subject};
use pl_state::Entry;
use pl_turns::{Turn, next_turn};
use pl_value::{Fields, OutOfMemory};
use std::alloc::Global;

/// What a provider is asked to check of the inputs of a provider goal.
pub fn ask_config(
    alloc: Global,
    columns: &Columns,
    about: Subject,
) -> Result<Option<Ask>, OutOfMemory>
    ensures { IfOk result (λ made. made ≡ option_map spec.ask_config (spec.turn_on (known_by columns.now) about)) }
{
    match turn_on(columns, about) {
        Some(turn) => Ok(Some(config_at(alloc, &turn)?)),
        None => Ok(None),
    }
}

/// What a provider is asked to check of the inputs of another goal.
pub fn ask_check(
    alloc: Global,
    columns: &Columns,
    about: Subject,
) -> Result<Option<Ask>, OutOfMemory>
    ensures { IfOk result (λ made. made ≡ option_map spec.ask_check (spec.turn_on (known_by columns.now) about)) }
{
    match turn_on(columns, about) {
        Some(turn) => Ok(Some(check_at(alloc, &turn)?)),
        None => Ok(None),
    }
}

/// What a provider is asked to compare of a goal.
pub fn ask_diff(
    alloc: Global,
    columns: &Columns,
    about: Subject,
) -> Result<Option<Ask>, OutOfMemory>
    ensures { IfOk result (λ made. made ≡ option_and_then spec.ask_diff (spec.turn_on (known_by columns.now) about)) }
{
    match turn_on(columns, about) {
        Some(turn) => diff_at(alloc, &turn),
        None => Ok(None),
    }
}

// ---- the turn

/// The turn of a subject that is the first goal without a decision.
fn turn_on<'a>(columns: &'a Columns, about: Subject) -> Option<Turn<'a>>
    ensures { option_map seen_turn result ≡ spec.turn_on (known_by columns.now) about }
{
    match about {
        Subject::Goal(number) => turn_of_goal(columns, number),
        Subject::Row(_) | Subject::Pending(_) => None,
    }
}

fn turn_of_goal<'a>(columns: &'a Columns, number: u64) -> Option<Turn<'a>>
    ensures { option_map seen_turn result ≡ known.turn_of_goal (known_by columns.now) number }
{
    columns.requests.have_paths();
    match next_turn(&columns.requests, &columns.errands, &columns.claims) {
        Some(turn) => turn_if(turn, number),
        None => None,
    }
}

/// A turn, if it is that of the goal of this number.
fn turn_if<'a>(turn: Turn<'a>, number: u64) -> Option<Turn<'a>>
    ensures { option_map seen_turn result ≡ (if number_at (seen_turn turn.entry) == number then Some (seen_turn turn.entry) else None) }
{
    if turn.number == number {
        Some(turn)
    } else {
        None
    }
}

// ---- what is asked at it

/// The inputs of a goal's kin, which are told as the old ones.
fn old_inputs(alloc: Global, turn: &Turn<'_>) -> Result<Option<Fields>, OutOfMemory>
    ensures { IfOk result (λ made. made ≡ option_map spec.inputs_of_row (kin_at (seen_turn turn.now))) }
{
    match turn.kin() {
        Some(kin) => Ok(Some(kin.inputs.copy(alloc)?)),
        None => Ok(None),
    }
}

fn config_at(alloc: Global, turn: &Turn<'_>) -> Result<Ask, OutOfMemory>
    ensures { IfOk result (λ made. made ≡ spec.ask_config (seen_turn turn.now)) }
{
    Ok(Ask::CheckConfig {
        urn: turn.goal.urn.copy()?,
        inputs: turn.inputs(alloc)?,
        old: old_inputs(alloc, turn)?,
    })
}

fn check_at(alloc: Global, turn: &Turn<'_>) -> Result<Ask, OutOfMemory>
    ensures { IfOk result (λ made. made ≡ spec.ask_check (seen_turn turn.now)) }
{
    Ok(Ask::Check {
        urn: turn.goal.urn.copy()?,
        inputs: turn.inputs(alloc)?,
        old: old_inputs(alloc, turn)?,
    })
}

fn diff_at(alloc: Global, turn: &Turn<'_>) -> Result<Option<Ask>, OutOfMemory>
    ensures { IfOk result (λ made. made ≡ spec.ask_diff (seen_turn turn.now)) }
{
    match turn.checked(alloc)? {
        Some(checked) => diff_with(alloc, turn, checked),
        None => Ok(None),
    }
}

/// The same, of checked inputs.
fn diff_with(alloc: Global, turn: &Turn<'_>, checked: Fields) -> Result<Option<Ask>, OutOfMemory>
    ensures { IfOk result (λ made. made ≡ option_map (spec.ask_diff_over (seen_turn turn.now) checked) (kin_at (seen_turn turn.now))) }
{
    match turn.kin() {
        Some(kin) => Ok(Some(diff_over(alloc, turn, checked, kin)?)),
        None => Ok(None),
    }
}

/// The same, of checked inputs and the kin.
fn diff_over(
    alloc: Global,
    turn: &Turn<'_>,
    checked: Fields,
    kin: &Entry,
) -> Result<Ask, OutOfMemory>
    ensures { IfOk result (λ made. made ≡ spec.ask_diff_over (seen_turn turn.now) checked kin.now) }
{
    Ok(Ask::Diff {
        urn: turn.goal.urn.copy()?,
        id: id_or_empty(alloc, kin.id.as_ref())?,
        old_inputs: kin.inputs.copy(alloc)?,
        old_outputs: kin.outputs.copy(alloc)?,
        inputs: checked,
    })
}
