ghost use Rattle.std.specs.Prelude.{◌≡◌, IfOk, option_and_then, true};
ghost use Rattle.std.specs.Option.{option_copied};
ghost use Rattle.pl_columns.specs.Read.{known_by};
ghost use Rattle.pl_entries.specs.Opened.{IsRowNow};
ghost use Rattle.pl_entries.specs.Recorded.{is_provider_decided};
ghost use Rattle.pl_lemmas.specs.Words.{none_or};
ghost use Rattle.pl_model.specs.Known as known;
ghost use Rattle.pl_model.specs.Recording as recording;
ghost use Rattle.pl_model.specs.State as spec;

use crate::ids::copy_id;
use crate::keeping::copy_outputs;
use crate::providing::claimed_row;
use crate::recorded::entry_with;
use crate::recording::Recording;
use pl_columns::Columns;
use pl_events::{Op, Subject};
use pl_model::Decided;
use pl_state::{Entry, Goal, Pending, PendingKind};
use pl_value::{Fields, OutOfMemory, Texts};
use std::alloc::Global;

/// The entry of a decided goal that is being made: without an id or outputs.
pub fn creating_entry(
    alloc: Global,
    columns: &Columns,
    number: u64,
) -> Result<Option<Entry>, OutOfMemory>
    requires { is_provider_decided (known_by columns.now) number ≡ true }
    ensures { IfOk result (λ made. made ≡ spec.creating_entry (known_by columns.now) number) }
{
    let Some(goal) = columns.goal(number) else {
        return Ok(None);
    };
    let Some(one) = columns.decided(number) else {
        return Ok(None);
    };
    let recording = Recording::new(alloc, None, Fields::new(alloc), Texts::new(alloc))?;
    let entry = entry_with(alloc, columns, goal, one, recording)?;
    Ok(Some(entry))
}

/// The entry of a decided goal that is being changed: with the id and the outputs of the row that it claims.
pub fn updating_entry(
    alloc: Global,
    columns: &Columns,
    number: u64,
) -> Result<Option<Entry>, OutOfMemory>
    requires { is_provider_decided (known_by columns.now) number ≡ true }
    ensures { IfOk result (λ made. made ≡ spec.updating_entry (known_by columns.now) number) }
{
    let Some(goal) = columns.goal(number) else {
        return Ok(None);
    };
    let Some(one) = columns.decided(number) else {
        return Ok(None);
    };
    let entry = updating_result(alloc, columns, goal, one)?;
    Ok(Some(entry))
}

fn updating_result(
    alloc: Global,
    columns: &Columns,
    goal: &Goal,
    one: &Decided,
) -> Result<Entry, OutOfMemory>
    requires { none_or (known.is_decided (known_by columns.now)) goal.now.provider ≡ true }
    ensures { IfOk result (λ made. made ≡ spec.updating_result (known_by columns.now) goal.now one.now) }
{
    let claim = claimed_row(columns, one.claim);
    let id = copy_id(claim)?;
    let outputs = copy_outputs(alloc, claim)?;
    let recording = Recording::new(alloc, id, Fields::new(alloc), Texts::new(alloc))?;
    let mut entry = entry_with(alloc, columns, goal, one, recording)?;
    entry.outputs = outputs;
    Ok(entry)
}

/// The pending operation that an operation opens when it is begun. `row` is the row that a deletion deletes, as it
/// stands now, and nothing else is asked of it.
pub fn pending_for(
    alloc: Global,
    columns: &Columns,
    about: Op,
    row: Option<&Entry>,
) -> Result<Option<Pending>, OutOfMemory>
    requires provider { none_or (is_provider_decided (known_by columns.now)) (recording.goal_of_op about) ≡ true }
    requires row { IsRowNow (known_by columns.now) about (option_copied row) }
    ensures { IfOk result (λ made. made ≡ spec.pending_for (known_by columns.now) about) }
{
    match about {
        Op::Create(subject) => {
            let entry = creating(alloc, columns, subject)?;
            Ok(pending_with(PendingKind::Creating, entry))
        }
        Op::Update(subject) => {
            let entry = updating(alloc, columns, subject)?;
            Ok(pending_with(PendingKind::Updating, entry))
        }
        Op::Delete(_) => {
            let entry = copy_entry(alloc, row)?;
            Ok(pending_with(PendingKind::Deleting, entry))
        }
        _ => Ok(None),
    }
}

fn pending_with(kind: PendingKind, entry: Option<Entry>) -> Option<Pending>
    ensures { result ≡ spec.pending_with kind entry }
{
    match entry {
        Some(entry) => Some(Pending { kind, entry }),
        None => None,
    }
}

fn goal_in(about: Subject) -> Option<u64>
    ensures { result ≡ recording.goal_in about }
{
    match about {
        Subject::Goal(goal) => Some(goal),
        Subject::Row(_) | Subject::Pending(_) => None,
    }
}

fn creating(alloc: Global, columns: &Columns, about: Subject) -> Result<Option<Entry>, OutOfMemory>
    requires { none_or (is_provider_decided (known_by columns.now)) (recording.goal_in about) ≡ true }
    ensures { IfOk result (λ made. made ≡ option_and_then (spec.creating_entry (known_by columns.now)) (recording.goal_in about)) }
{
    match goal_in(about) {
        Some(number) => creating_entry(alloc, columns, number),
        None => Ok(None),
    }
}

fn updating(alloc: Global, columns: &Columns, about: Subject) -> Result<Option<Entry>, OutOfMemory>
    requires { none_or (is_provider_decided (known_by columns.now)) (recording.goal_in about) ≡ true }
    ensures { IfOk result (λ made. made ≡ option_and_then (spec.updating_entry (known_by columns.now)) (recording.goal_in about)) }
{
    match goal_in(about) {
        Some(number) => updating_entry(alloc, columns, number),
        None => Ok(None),
    }
}

fn copy_entry(alloc: Global, row: Option<&Entry>) -> Result<Option<Entry>, OutOfMemory>
    ensures { IfOk result (λ made. made ≡ option_copied row.entry) }
{
    match row {
        Some(row) => Ok(Some(row.copy(alloc)?)),
        None => Ok(None),
    }
}
