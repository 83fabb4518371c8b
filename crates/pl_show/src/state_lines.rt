ghost use Rattle.std.specs.Prelude.{◌≡◌, IfOk};
ghost use Rattle.pl_show.specs.Line.{resource_lines, sound_line};

use pl_state::{Entry, Snapshot};
use pl_value::{OutOfMemory, Text};
use std::alloc::Global;

/// The URNs of the entries, one a line.
pub fn resource_lines(alloc: Global, entries: &[Entry]) -> Result<Text, OutOfMemory>
    ensures { IfOk result (λ text. text ≡ resource_lines entries.now) }
{
    let mut text = String::new(alloc);
    for entry in entries {
        text.push_str(entry.urn.as_str())?;
        text.push_str("\n")?;
    }
    Ok(Text::from_string(text))
}

/// The line that tells how many resources and pending operations a state has.
pub fn sound_line(alloc: Global, state: &Snapshot) -> Result<Text, OutOfMemory>
    ensures { IfOk result (λ text. text ≡ sound_line state.now) }
{
    let resources = state.entries.len();
    let pending = state.pending.len();
    let text = format!(in alloc; "sound: {resources} resources, {pending} pending\n")?;
    Ok(Text::from_string(text))
}
