ghost use Rattle.std.specs.Prelude.{◌≡◌, false, IfOk, option_and_then, option_map};
ghost use Rattle.std.specs.Option.{option_copied};
ghost use Rattle.pl_asks.specs.Turned.{needs_turn};
ghost use Rattle.pl_columns.specs.Read.{known_by};
ghost use Rattle.pl_entries.specs.Opened.{IsRowNow};
ghost use Rattle.pl_events.specs.declared.operation.Ask.TheVariants as ask;
ghost use Rattle.pl_events.specs.declared.operation.Op.TheVariants as op;
ghost use Rattle.pl_events.specs.declared.operation.Source.TheVariants as source;
ghost use Rattle.pl_events.specs.declared.operation.Subject.TheVariants as subject;
ghost use Rattle.pl_model.specs.Asked as spec;
ghost use Rattle.pl_model.specs.Entries.{old_row};
ghost use Rattle.pl_model.specs.Recording.{row_in};

use crate::asks::{
    ask_create, ask_delete, ask_import, ask_invoke, ask_read_goal, ask_read_row, ask_update,
};
use crate::imports::{import_id, pending_at};
use pl_columns::Columns;
use pl_decide::kin_of;
use pl_entries::claimed_row;
use pl_events::{Ask, Op, Source, Subject};
use pl_state::Entry;
use pl_value::{Fields, OutOfMemory};
use std::alloc::Global;

/// What a provider is asked by an operation that waits for no turn of a goal. `row` is the row that a deletion deletes,
/// as it stands now, and nothing else is asked of it.
pub fn ask_of(
    alloc: Global,
    columns: &Columns,
    about: Op,
    row: Option<&Entry>,
) -> Result<Option<Ask>, OutOfMemory>
    requires turn { needs_turn about ≡ false }
    requires row { IsRowNow (known_by columns.now) about (option_copied row) }
    ensures { IfOk result (λ made. made ≡ spec.ask_of (known_by columns.now) about) }
{
    match about {
        Op::Configure(source) => configure(alloc, columns, source),
        Op::Create(subject) => create(alloc, columns, subject),
        Op::Update(subject) => update(alloc, columns, subject),
        Op::Delete(subject) => delete(alloc, columns, subject, row),
        Op::Read(subject) => read(alloc, columns, subject),
        Op::Invoke(n) => invoke(alloc, columns, n),
        Op::CheckConfig(_) | Op::Check(_) | Op::Diff(_) => Ok(None),
    }
}

/// The inputs that a provider is configured with.
fn provider_inputs(columns: &Columns, source: Source) -> Option<&Fields>
    ensures { option_copied result ≡ spec.provider_inputs (known_by columns.now) source }
{
    match source {
        Source::Goal(number) => checked_inputs(columns, number),
        Source::Row(row) => row_inputs(columns, row),
    }
}

fn checked_inputs(columns: &Columns, number: u64) -> Option<&Fields>
    ensures { option_copied result ≡ spec.provider_inputs (known_by columns.now) (source.Goal number) }
{
    match columns.decided(number) {
        Some(one) => Some(&one.checked),
        None => None,
    }
}

fn row_inputs(columns: &Columns, row: u64) -> Option<&Fields>
    ensures { option_copied result ≡ spec.provider_inputs (known_by columns.now) (source.Row row) }
{
    match columns.row(row) {
        Some(entry) => Some(&entry.inputs),
        None => None,
    }
}

fn configure(alloc: Global, columns: &Columns, source: Source) -> Result<Option<Ask>, OutOfMemory>
    ensures { IfOk result (λ made. made ≡ option_map ask.Configure (spec.provider_inputs (known_by columns.now) source)) }
{
    match provider_inputs(columns, source) {
        Some(inputs) => Ok(Some(Ask::Configure {
            inputs: inputs.copy(alloc)?,
        })),
        None => Ok(None),
    }
}

fn create(alloc: Global, columns: &Columns, about: Subject) -> Result<Option<Ask>, OutOfMemory>
    ensures { IfOk result (λ made. made ≡ spec.of_goal (known_by columns.now) about spec.ask_create) }
{
    let Subject::Goal(number) = about else {
        return Ok(None);
    };
    let Some(goal) = columns.goal(number) else {
        return Ok(None);
    };
    let Some(one) = columns.decided(number) else {
        return Ok(None);
    };
    let asked = ask_create(alloc, goal, one)?;
    Ok(Some(asked))
}

fn update(alloc: Global, columns: &Columns, about: Subject) -> Result<Option<Ask>, OutOfMemory>
    ensures { IfOk result (λ made. made ≡ spec.of_goal (known_by columns.now) about (spec.ask_update (known_by columns.now))) }
{
    let Subject::Goal(number) = about else {
        return Ok(None);
    };
    let Some(goal) = columns.goal(number) else {
        return Ok(None);
    };
    let Some(one) = columns.decided(number) else {
        return Ok(None);
    };
    match kin_of(claimed_row(columns, one.claim)) {
        Some(kin) => Ok(Some(ask_update(alloc, goal, one, kin)?)),
        None => Ok(None),
    }
}

/// Of the row that is deleted, as it stands now.
#[tactic(auto, using(crate::proofs::Places::row_asked))]
fn delete(
    alloc: Global,
    columns: &Columns,
    about: Subject,
    row: Option<&Entry>,
) -> Result<Option<Ask>, OutOfMemory>
    requires { option_copied row ≡ option_and_then (old_row (known_by columns.now)) (row_in about) }
    ensures { IfOk result (λ made. made ≡ spec.ask_row (known_by columns.now) about) }
{
    match row {
        Some(row) => Ok(Some(ask_delete(alloc, row)?)),
        None => Ok(None),
    }
}

fn read(alloc: Global, columns: &Columns, about: Subject) -> Result<Option<Ask>, OutOfMemory>
    ensures { IfOk result (λ made. made ≡ spec.ask_read (known_by columns.now) about) }
{
    match about {
        Subject::Goal(number) => read_goal(alloc, columns, number),
        Subject::Row(row) => read_row(alloc, columns, row),
        Subject::Pending(at) => read_pending(alloc, columns, at),
    }
}

fn read_goal(alloc: Global, columns: &Columns, number: u64) -> Result<Option<Ask>, OutOfMemory>
    ensures { IfOk result (λ made. made ≡ spec.ask_read (known_by columns.now) (subject.Goal number)) }
{
    let Some(goal) = columns.goal(number) else {
        return Ok(None);
    };
    let Some(one) = columns.decided(number) else {
        return Ok(None);
    };
    let asked = ask_read_goal(alloc, goal, one)?;
    Ok(Some(asked))
}

fn read_row(alloc: Global, columns: &Columns, row: u64) -> Result<Option<Ask>, OutOfMemory>
    ensures { IfOk result (λ made. made ≡ spec.ask_read (known_by columns.now) (subject.Row row)) }
{
    match columns.row(row) {
        Some(entry) => Ok(Some(ask_read_row(alloc, entry)?)),
        None => Ok(None),
    }
}

fn read_pending(alloc: Global, columns: &Columns, at: u64) -> Result<Option<Ask>, OutOfMemory>
    ensures { IfOk result (λ made. made ≡ spec.ask_read (known_by columns.now) (subject.Pending at)) }
{
    match pending_at(columns, at) {
        Some(pending) => Ok(Some(ask_import(alloc, &pending.entry, import_id(columns, at))?)),
        None => Ok(None),
    }
}

fn invoke(alloc: Global, columns: &Columns, n: u64) -> Result<Option<Ask>, OutOfMemory>
    ensures { IfOk result (λ made. made ≡ spec.ask_of (known_by columns.now) (op.Invoke n)) }
{
    match columns.asked(n) {
        Some(asked) => ask_invoke(alloc, &asked.request),
        None => Ok(None),
    }
}
