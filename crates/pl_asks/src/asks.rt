ghost use Rattle.std.specs.Prelude.{◌≡◌, [], IfOk, Some};
ghost use Rattle.std.specs.Option.{option_copied, option_or};
ghost use Rattle.pl_events.specs.declared.operation.Ask.TheVariants as ask;
ghost use Rattle.pl_model.specs.Asked as spec;

use pl_events::{Ask, Request};
use pl_model::Decided;
use pl_state::{Entry, Goal};
use pl_value::{Fields, OutOfMemory, Text};
use std::alloc::Global;

/// An id in memory of its own, or the empty text where there is none.
pub fn id_or_empty(alloc: Global, id: Option<&Text>) -> Result<Text, OutOfMemory>
    ensures { IfOk result (λ made. made ≡ spec.id_or_empty (option_copied id.entry)) }
{
    match id {
        Some(id) => id.copy(),
        None => Text::from_str(alloc, ""),
    }
}

pub fn ask_create(alloc: Global, goal: &Goal, one: &Decided) -> Result<Ask, OutOfMemory>
    ensures { IfOk result (λ made. spec.ask_create goal.now one.now ≡ Some made) }
{
    Ok(Ask::Create {
        urn: goal.urn.copy()?,
        inputs: one.checked.copy(alloc)?,
    })
}

pub fn ask_update(
    alloc: Global,
    goal: &Goal,
    one: &Decided,
    kin: &Entry,
) -> Result<Ask, OutOfMemory>
    ensures { IfOk result (λ made. made ≡ spec.ask_update_over goal.now one.now kin.now) }
{
    Ok(Ask::Update {
        urn: goal.urn.copy()?,
        id: id_or_empty(alloc, kin.id.as_ref())?,
        old_inputs: kin.inputs.copy(alloc)?,
        old_outputs: kin.outputs.copy(alloc)?,
        inputs: one.checked.copy(alloc)?,
    })
}

pub fn ask_delete(alloc: Global, row: &Entry) -> Result<Ask, OutOfMemory>
    ensures { IfOk result (λ made. made ≡ spec.ask_delete row.now) }
{
    Ok(Ask::Delete {
        urn: row.urn.copy()?,
        id: id_or_empty(alloc, row.id.as_ref())?,
        inputs: row.inputs.copy(alloc)?,
        outputs: row.outputs.copy(alloc)?,
    })
}

pub fn ask_read_row(alloc: Global, row: &Entry) -> Result<Ask, OutOfMemory>
    ensures { IfOk result (λ made. made ≡ spec.ask_read_row row.now) }
{
    Ok(Ask::Read {
        urn: row.urn.copy()?,
        id: id_or_empty(alloc, row.id.as_ref())?,
        inputs: row.inputs.copy(alloc)?,
        outputs: row.outputs.copy(alloc)?,
    })
}

/// The id under which a goal's thing is read: the one that it reads, or the one that it imports.
fn read_id(goal: &Goal) -> Option<&Text>
    ensures { option_copied result ≡ option_or goal.now.read_id goal.now.import_id }
{
    match &goal.read_id {
        Some(id) => Some(id),
        None => goal.import_id.as_ref(),
    }
}

pub fn ask_read_goal(alloc: Global, goal: &Goal, one: &Decided) -> Result<Ask, OutOfMemory>
    ensures { IfOk result (λ made. spec.ask_read_goal goal.now one.now ≡ Some made) }
{
    Ok(Ask::Read {
        urn: goal.urn.copy()?,
        id: id_or_empty(alloc, read_id(goal))?,
        inputs: one.checked.copy(alloc)?,
        outputs: Fields::new(alloc),
    })
}

/// The thing that a pending creation made is read under the id by which it is imported.
pub fn ask_import(alloc: Global, entry: &Entry, id: Option<&Text>) -> Result<Ask, OutOfMemory>
    ensures { IfOk result (λ made. made ≡ ask.Read entry.now.urn (spec.id_or_empty (option_copied id.entry)) entry.now.inputs []) }
{
    Ok(Ask::Read {
        urn: entry.urn.copy()?,
        id: id_or_empty(alloc, id)?,
        inputs: entry.inputs.copy(alloc)?,
        outputs: Fields::new(alloc),
    })
}

pub fn ask_invoke(alloc: Global, request: &Request) -> Result<Option<Ask>, OutOfMemory>
    ensures { IfOk result (λ made. made ≡ spec.ask_invoke request.now) }
{
    match request {
        Request::Invoke { token, args, .. } => Ok(Some(Ask::Invoke {
            token: token.copy()?,
            args: args.copy(alloc)?,
        })),
        Request::Register { .. } | Request::Outputs { .. } => Ok(None),
    }
}
