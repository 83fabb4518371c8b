ghost use Rattle.std.specs.Prelude.{◌≡◌, ◌&&◌, IfOk, is_none, option_map};
ghost use Rattle.std.specs.Option.{option_copied};
ghost use Rattle.pl_model.specs.Claims as spec;
ghost use Rattle.pl_model.specs.Entries as entries;
ghost use Rattle.pl_options.specs.Names.{id_text};
ghost use Rattle.pl_state.specs.Kinds.{is_provider_goal};
ghost use Rattle.pl_urn.specs.Cut as cut;

use pl_decide::is_of_provider;
use pl_options::id_of;
use pl_reference::copy_text;
use pl_state::{Entry, Goal};
use pl_value::{OutOfMemory, Text};
use std::alloc::Global;

fn has_cut(id: &str) -> bool
    ensures { result ≡ cut.has_cut id.now }
{
    id.contains("::")
}

fn begins_with_colon(id: &str) -> bool
    ensures { result ≡ spec.begins_with_colon id.now }
{
    id.starts_with(':')
}

/// Whether a reference can name an id.
fn is_usable(id: &str) -> bool
    ensures { result ≡ spec.is_usable id.now }
{
    !id.is_empty() && !has_cut(id) && !begins_with_colon(id)
}

/// The id of a row, if there are both.
fn id_of_row(row: Option<&Entry>) -> Option<&Text>
    ensures { option_copied result ≡ spec.id_of_row (option_copied row.entry) }
{
    match row {
        Some(row) => row.id.as_ref(),
        None => None,
    }
}

/// The id of a row, where a reference can name it.
fn usable_id(row: Option<&Entry>) -> Option<&Text>
    ensures { option_copied result ≡ spec.usable_id (spec.id_of_row (option_copied row.entry)) }
{
    match id_of_row(row) {
        Some(id) if is_usable(id.as_str()) => Some(id),
        _ => None,
    }
}

/// Whether the keep of a goal carries a number: it is a provider whose claim has no id that a reference can name.
pub fn needs_fresh(goal: &Goal, claim: Option<&Entry>) -> bool
    ensures { result ≡ (is_provider_goal goal.now && is_none (spec.usable_id (spec.id_of_row (option_copied claim.entry)))) }
{
    is_of_provider(&goal.urn) && usable_id(claim).is_none()
}

/// The id of a row in memory of its own.
pub fn copy_id(row: Option<&Entry>) -> Result<Option<Text>, OutOfMemory>
    ensures { IfOk result (λ id. id ≡ spec.id_of_row (option_copied row.entry)) }
{
    match row {
        Some(row) => copy_text(&row.id),
        None => Ok(None),
    }
}

/// The id that is made of a number, if there is one.
fn fresh_id(alloc: Global, fresh: Option<u128>) -> Result<Option<Text>, OutOfMemory>
    ensures { IfOk result (λ id. id ≡ option_map id_text fresh) }
{
    match fresh {
        Some(drawn) => Ok(Some(id_of(alloc, drawn)?)),
        None => Ok(None),
    }
}

/// The id of a provider: its claim's, where a reference can name that, or else the one made of the number.
pub fn kept_provider_id(
    alloc: Global,
    claim: Option<&Entry>,
    fresh: Option<u128>,
) -> Result<Option<Text>, OutOfMemory>
    ensures { IfOk result (λ id. id ≡ spec.kept_provider_id (option_copied claim.entry) fresh) }
{
    match usable_id(claim) {
        Some(id) => Ok(Some(id.copy()?)),
        None => fresh_id(alloc, fresh),
    }
}

/// The id of a goal that is kept or changed.
pub fn kept_id(
    alloc: Global,
    goal: &Goal,
    claim: Option<&Entry>,
    fresh: Option<u128>,
) -> Result<Option<Text>, OutOfMemory>
    ensures { IfOk result (λ id. id ≡ entries.kept_id goal.now (option_copied claim.entry) fresh) }
{
    if is_of_provider(&goal.urn) {
        kept_provider_id(alloc, claim, fresh)
    } else {
        copy_id(claim)
    }
}

/// The id of a goal that is made without an operation.
pub fn new_id(
    alloc: Global,
    goal: &Goal,
    claim: Option<&Entry>,
    fresh: Option<u128>,
) -> Result<Option<Text>, OutOfMemory>
    ensures { IfOk result (λ id. id ≡ entries.new_id goal.now (option_copied claim.entry) fresh) }
{
    if is_of_provider(&goal.urn) {
        kept_provider_id(alloc, claim, fresh)
    } else {
        Ok(None)
    }
}
