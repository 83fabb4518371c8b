ghost use Rattle.std.specs.Prelude.{◌≡◌, IfOk, option_map, Some};
ghost use Rattle.std.specs.Option.{option_copied};
ghost use Rattle.pl_entries.specs.Recorded.{recorded_result};
ghost use Rattle.pl_model.specs.Claims.{id_of_row};
ghost use Rattle.pl_model.specs.Entries as spec;

use crate::ids::copy_id;
use crate::recording::Recording;
use pl_events::Reply;
use pl_state::Entry;
use pl_value::{Fields, OutOfMemory, Text, Texts};
use std::alloc::Global;

/// What a reply gives to the entry of a goal, over the row that the goal claims; nothing where it records no thing.
pub fn result_of_reply(
    alloc: Global,
    claim: Option<&Entry>,
    reply: &Reply,
) -> Result<Option<Recording>, OutOfMemory>
    ensures { IfOk result (λ made. option_map recorded_result made ≡ spec.result_of_reply (option_copied claim.entry) reply.now) }
{
    let none = Texts::new(alloc);
    match reply {
        Reply::Made { id, outputs } => Ok(Some(named(alloc, id, outputs, &none)?)),
        Reply::MadePartly {
            id,
            outputs,
            reasons,
        } => Ok(Some(named(alloc, id, outputs, reasons)?)),
        Reply::Changed { outputs } => Ok(Some(changed(alloc, claim, outputs, &none)?)),
        Reply::ChangedPartly { outputs, reasons } => {
            Ok(Some(changed(alloc, claim, outputs, reasons)?))
        }
        Reply::Found { id, outputs, .. } => Ok(Some(named(alloc, id, outputs, &none)?)),
        _ => Ok(None),
    }
}

/// Of a thing that the reply names.
fn named(
    alloc: Global,
    id: &Text,
    outputs: &Fields,
    reasons: &Texts,
) -> Result<Recording, OutOfMemory>
    ensures { IfOk result (λ made. recorded_result made ≡ spec.result_with (Some id.now) outputs.now reasons.now) }
{
    Recording::new(
        alloc,
        Some(id.copy()?),
        outputs.copy(alloc)?,
        reasons.copy()?,
    )
}

/// Of a thing that keeps the id of the claim.
fn changed(
    alloc: Global,
    claim: Option<&Entry>,
    outputs: &Fields,
    reasons: &Texts,
) -> Result<Recording, OutOfMemory>
    ensures { IfOk result (λ made. recorded_result made ≡ spec.result_with (id_of_row (option_copied claim.entry)) outputs.now reasons.now) }
{
    Recording::new(
        alloc,
        copy_id(claim)?,
        outputs.copy(alloc)?,
        reasons.copy()?,
    )
}
