ghost use Rattle.std.specs.Prelude.{◌≡◌, IfOk, true};
ghost use Rattle.pl_columns.specs.Read.{known_by};
ghost use Rattle.pl_entries.specs.Recorded as spec;
ghost use Rattle.pl_lemmas.specs.Words.{none_or};
ghost use Rattle.pl_model.specs.Entries.{goal_entry};
ghost use Rattle.pl_model.specs.Known.{is_decided};

use crate::keeping::result_of_keep;
use crate::making::goal_entry;
use crate::providing::{claimed_row, reference_of};
use crate::recording::Recording;
use crate::replied::result_of_reply;
use pl_columns::Columns;
use pl_events::Reply;
use pl_model::Decided;
use pl_state::{Entry, Goal};
use pl_value::OutOfMemory;
use std::alloc::Global;

/// The entry of a goal, with what its recording gives.
pub fn entry_with(
    alloc: Global,
    columns: &Columns,
    goal: &Goal,
    one: &Decided,
    recording: Recording,
) -> Result<Entry, OutOfMemory>
    requires { none_or (is_decided (known_by columns.now)) goal.now.provider ≡ true }
    ensures { IfOk result (λ made. made ≡ goal_entry (known_by columns.now) goal.now one.now (spec.recorded_result recording)) }
{
    let provider = reference_of(alloc, columns, goal)?;
    goal_entry(alloc, goal, one, provider, recording)
}

/// The entry that the keep of a decided goal records, with the number that it carries.
pub fn entry_of_keep(
    alloc: Global,
    columns: &Columns,
    number: u64,
    fresh: Option<u128>,
) -> Result<Option<Entry>, OutOfMemory>
    requires { spec.is_provider_decided (known_by columns.now) number ≡ true }
    ensures { IfOk result (λ made. made ≡ spec.kept_entry (known_by columns.now) number fresh) }
{
    let Some(goal) = columns.goal(number) else {
        return Ok(None);
    };
    let Some(one) = columns.decided(number) else {
        return Ok(None);
    };
    let claim = claimed_row(columns, one.claim);
    let recording = result_of_keep(alloc, goal, claim, one, fresh)?;
    let entry = entry_with(alloc, columns, goal, one, recording)?;
    Ok(Some(entry))
}

/// The entry that a reply to an operation of a decided goal records, if it records one.
pub fn entry_of_reply(
    alloc: Global,
    columns: &Columns,
    number: u64,
    reply: &Reply,
) -> Result<Option<Entry>, OutOfMemory>
    requires { spec.is_provider_decided (known_by columns.now) number ≡ true }
    ensures { IfOk result (λ made. made ≡ spec.replied_entry (known_by columns.now) number reply.now) }
{
    let Some(goal) = columns.goal(number) else {
        return Ok(None);
    };
    let Some(one) = columns.decided(number) else {
        return Ok(None);
    };
    let claim = claimed_row(columns, one.claim);
    match result_of_reply(alloc, claim, reply)? {
        Some(recording) => Ok(Some(entry_with(alloc, columns, goal, one, recording)?)),
        None => Ok(None),
    }
}
