ghost use Rattle.std.specs.Prelude.{◌≡◌, option_and_then, option_map};
ghost use Rattle.std.specs.Option.{option_copied};
ghost use Rattle.pl_lemmas.specs.Words.{numbered};
ghost use Rattle.pl_model.specs.Decisions as spec;
ghost use Rattle.pl_model.specs.Run.{rows_of};
ghost use Rattle.pl_state.specs.Chain.{provider_row_of};
ghost use Rattle.pl_turns.specs.Seen.{seen_turn};

use crate::turn::Turn;
use crate::words::{goal_urn, row_urn};
use pl_decide::{ProviderChange, is_of_default};
use pl_urn::Urn;

impl Turn<'_> {
    /// How the goal's provider stands to that of its claim.
    pub fn change(&self) -> ProviderChange
        ensures { result ≡ spec.change_at (seen_turn self.now) }
    {
        change_between(self.claim_provider_urn(), self.goal_provider_urn())
    }

    /// The URN of the provider of the claim.
    pub fn claim_provider_urn(&self) -> Option<&Urn>
        ensures { option_copied result ≡ spec.claim_provider_urn (seen_turn self.now) }
    {
        match self.claim {
            None => None,
            Some(row) => self.provider_urn_of(row),
        }
    }

    /// The URN of the goal's provider.
    pub fn goal_provider_urn(&self) -> Option<&Urn>
        ensures { option_copied result ≡ spec.goal_provider_urn (seen_turn self.now) }
    {
        self.earlier_urn(self.goal.provider)
    }

    /// The URN of the provider of a row.
    fn provider_urn_of(&self, row: u64) -> Option<&Urn>
        ensures { option_copied result ≡ option_and_then (spec.row_provider_urn (seen_turn self.now))
            (provider_row_of (rows_of self.now.claims.now.run) row) }
    {
        match self.claims.base().provider_row(row) {
            None => None,
            Some(provider) => self.row_provider_urn(provider),
        }
    }

    /// The URN of a row that is a provider: that of the goal that claims the row, or else the row's own.
    fn row_provider_urn(&self, row: u64) -> Option<&Urn>
        ensures { option_copied result ≡ spec.row_provider_urn (seen_turn self.now) row }
    {
        match self.earlier_urn(self.claims.claimer(row)) {
            Some(urn) => Some(urn),
            None => row_urn(self.claims.row(row)),
        }
    }

    /// The URN of the goal of a number, if there is a number and that goal is before this one.
    fn earlier_urn(&self, number: Option<u64>) -> Option<&Urn>
        ensures { option_copied result ≡ option_map (λ goal. goal.urn) (option_and_then (numbered (seen_turn self.now).earlier) number) }
    {
        match number {
            None => None,
            Some(number) => goal_urn(self.earlier(number)),
        }
    }
}

fn change_between(old: Option<&Urn>, new: Option<&Urn>) -> ProviderChange
    ensures { result ≡ spec.change_between (option_copied old.entry) (option_copied new.entry) }
{
    if same_text(old, new) {
        ProviderChange::Same
    } else if is_default_or_none(old) && is_default_or_none(new) {
        ProviderChange::BothDefault
    } else {
        ProviderChange::Other
    }
}

fn same_text(old: Option<&Urn>, new: Option<&Urn>) -> bool
    ensures { result ≡ spec.same_text (option_copied old.entry) (option_copied new.entry) }
{
    match old {
        None => new.is_none(),
        Some(old) => match new {
            None => false,
            Some(new) => old.as_str() == new.as_str(),
        },
    }
}

/// Whether a provider is a default one, or there is none.
fn is_default_or_none(urn: Option<&Urn>) -> bool
    ensures { result ≡ spec.is_default_or_none (option_copied urn.entry) }
{
    match urn {
        None => true,
        Some(urn) => is_of_default(urn),
    }
}
