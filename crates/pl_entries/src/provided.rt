ghost use Rattle.std.specs.Prelude.{◌≡◌, IfOk};
ghost use Rattle.std.specs.Option.{option_copied};
ghost use Rattle.pl_columns.specs.Read.{known_by};
ghost use Rattle.pl_entries.specs.AreDecided.{AreDecided};
ghost use Rattle.pl_lemmas.specs.Words.{some_passes};
ghost use Rattle.pl_requests.specs.Ids as spec;
ghost use Rattle.pl_state.specs.Kinds.{is_provider_goal};

use crate::providing::provider_id;
use pl_columns::Columns;
use pl_decide::is_of_provider;
use pl_state::Goal;
use pl_value::{OutOfMemory, Text};
use std::alloc::Global;

/// Whether there is a goal, and it is a provider.
fn is_provider(goal: Option<&Goal>) -> bool
    ensures { result ≡ some_passes is_provider_goal (option_copied goal.entry) }
{
    match goal {
        Some(goal) => is_of_provider(&goal.urn),
        None => false,
    }
}

/// The id that a provider is recorded with, if the goal of the number is one that is recorded.
fn recorded_id(alloc: Global, columns: &Columns, goal: u64) -> Result<Option<Text>, OutOfMemory>
    requires { AreDecided (known_by columns.now) }
    ensures { IfOk result (λ id. id ≡ spec.recorded_id (known_by columns.now) goal) }
{
    if columns.is_recorded(goal) && is_provider(columns.goal(goal)) {
        provider_id(alloc, columns, goal)
    } else {
        Ok(None)
    }
}

/// The ids of the recorded providers, each at the number of its goal.
pub fn recorded_ids(alloc: Global, columns: &Columns) -> Result<Vec<Option<Text>>, OutOfMemory>
    requires { AreDecided (known_by columns.now) }
    ensures { IfOk result (λ ids. spec.TellsIds ids.items (known_by columns.now)) }
{
    let mut ids = Vec::new(alloc);
    for goal in 0..columns.requests.len() {
        let id = recorded_id(alloc, columns, goal)?;
        ids.push(id)?;
    }
    Ok(ids)
}
