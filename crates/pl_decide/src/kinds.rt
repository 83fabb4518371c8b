ghost use Rattle.std.specs.Prelude.{◌≡◌};
ghost use Rattle.std.specs.Option.{option_copied};
ghost use Rattle.pl_state.specs.Kinds.{is_component, is_default_name, is_importing_goal, is_managed, is_of_default, is_of_provider, is_provided, is_provided_row, is_reading_goal, kin_of};

use pl_state::{Entry, Goal};
use pl_urn::{Urn, is_provider_type};

/// Whether a URN is that of a provider.
pub fn is_of_provider(urn: &Urn) -> bool
    ensures { result ≡ is_of_provider urn.now }
{
    is_provider_type(urn.own_type())
}

/// Whether a URN is that of a default provider.
pub fn is_of_default(urn: &Urn) -> bool
    ensures { result ≡ is_of_default urn.now }
{
    is_of_provider(urn) && is_default_name(urn.name())
}

fn is_default_name(name: &str) -> bool
    ensures { result ≡ is_default_name name.now }
{
    name == "default" || name.starts_with("default_")
}

/// Whether a goal is neither custom nor a provider.
pub fn is_component(goal: &Goal) -> bool
    ensures { result ≡ is_component goal.now }
{
    !goal.custom && !is_of_provider(&goal.urn)
}

/// Whether a goal has a provider: it is custom and is no provider itself.
pub fn is_provided(goal: &Goal) -> bool
    ensures { result ≡ is_provided goal.now }
{
    goal.custom && !is_of_provider(&goal.urn)
}

/// Whether a row has a provider: it is custom and is no provider itself.
pub fn is_provided_row(row: &Entry) -> bool
    ensures { result ≡ is_provided_row row.now }
{
    row.custom && !is_of_provider(&row.urn)
}

/// Whether the thing of a goal is only read.
pub fn is_reading(goal: &Goal) -> bool
    ensures { result ≡ is_reading_goal goal.now }
{
    is_provided(goal) && goal.read_id.is_some()
}

/// Whether a goal takes a thing over by its id.
pub fn is_importing(goal: &Goal) -> bool
    ensures { result ≡ is_importing_goal goal.now }
{
    is_provided(goal) && goal.import_id.is_some()
}

fn is_managed(row: &Entry) -> bool
    ensures { result ≡ is_managed row.now }
{
    !(row.external || row.pending_replacement)
}

/// A claim, where its thing is managed.
pub fn kin_of<'a>(claim: Option<&'a Entry>) -> Option<&'a Entry>
    ensures { option_copied result ≡ kin_of (option_copied claim.entry) }
{
    match claim {
        Some(row) if is_managed(row) => Some(row),
        _ => None,
    }
}
