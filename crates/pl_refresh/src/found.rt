ghost use Rattle.std.specs.Prelude.{◌≡◌, IfOk, option_map};
ghost use Rattle.pl_value.specs.Secrets.{marked};
ghost use Rattle.pl_refresh.specs.Refreshed.{refreshed};

use pl_state::Entry;
use pl_value::{Fields, OutOfMemory, Text, Texts, mark_secrets};
use std::alloc::Global;

/// The row that a row becomes once its thing was read and found: with the id and the outputs that were found, and the
/// inputs if some were. The outputs that the row names are secrets.
pub fn refreshed(
    alloc: Global,
    row: &Entry,
    id: &Text,
    inputs: Option<&Fields>,
    outputs: &Fields,
) -> Result<Entry, OutOfMemory>
    ensures { IfOk result (λ made. made ≡ refreshed row.now id.now (option_map (λ found. found.now) inputs.entry) outputs.now) }
{
    let mut made = row.copy(alloc)?;
    made.id = Some(id.copy()?);
    made.inputs = inputs.unwrap_or(&row.inputs).copy(alloc)?;
    made.outputs = marked(alloc, outputs, &row.additional_secret_outputs)?;
    Ok(made)
}

fn marked(alloc: Global, fields: &Fields, keys: &Texts) -> Result<Fields, OutOfMemory>
    ensures { IfOk result (λ made. made ≡ marked keys.now fields.now) }
{
    let fields = fields.copy(alloc)?;
    match mark_secrets(alloc, fields, keys) {
        Ok(made) => Ok(made),
        Err((_, error)) => Err(error),
    }
}
