ghost use Rattle.std.specs.Prelude.{◌≡◌, ◌<◌, ◌∷◌, [], ℕ, IfErr, IfOk, None, OnOk, length};
ghost use Rattle.std.specs.Option.{option_copied};
ghost use Rattle.pl_chain.specs.Claimed.{is_in};
ghost use Rattle.pl_decide.specs.Limited as limited;
ghost use Rattle.pl_decide.specs.Permits.{permits_chained};
ghost use Rattle.pl_model.specs.Claims.{chain_of_claim};
ghost use Rattle.pl_model.specs.Decisions as spec;
ghost use Rattle.pl_model.specs.Run.{rows_of};
ghost use Rattle.pl_state.specs.Chain.{rows_at};
ghost use Rattle.pl_turns.specs.Chained.{TellsProtectedAt, limits_refusal, protected_at};
ghost use Rattle.pl_turns.specs.Seen.{seen_turn};

use crate::turn::Turn;
use crate::words::is_row;
use pl_chain::ChainFault;
use pl_decide::{Decision, Problem, own_refusal, permits_chained};
use pl_state::Entry;
use pl_value::{OutOfMemory, Rows};
use std::alloc::Global;

impl Turn<'_> {
    /// Whether a goal before this one, or this one, claims the row.
    pub fn claims_row(&self, row: u64) -> bool
        ensures { result ≡ spec.claims_at (seen_turn self.now) row }
    {
        self.claims.is_claimed(row) || is_row(self.claim, row)
    }

    /// The rows of the claim's chain; it is refused by the first of them that is protected and goes along.
    pub fn chain(&self, alloc: Global) -> Result<Rows, ChainFault>
        ensures listed { IfOk result (λ rows. rows ≡ chain_of_claim self.now.claims.now.run self.now.claim) }
        ensures unprotected { OnOk result (protected_at (seen_turn self.now) ≡ None) }
        ensures refused { IfErr result (TellsProtectedAt (seen_turn self.now)) }
    {
        match self.claim {
            None => Ok(Rows::new(alloc)),
            Some(row) => {
                let claimed = self.claimed_rows(alloc)?;
                pl_chain::chain(alloc, &self.run().base.entries, &claimed, row)
            }
        }
    }

    /// The rows that this goal and those before it claim.
    fn claimed_rows(&self, alloc: Global) -> Result<Rows, OutOfMemory>
        ensures { IfOk result (λ claimed. (row : ℕ) → row < length (rows_of self.now.claims.now.run)
            → is_in claimed row ≡ spec.claims_at (seen_turn self.now) row) }
    {
        let mut claimed = Rows::new(alloc);
        let count = self.run().base.entries.len() as u64;
        for row in 0..count {
            if self.claims_row(row) {
                claimed.push(row)?;
            }
        }
        Ok(claimed)
    }

    /// The refusal by the limits of what is deleted first, over the rows of its chain.
    pub fn limits_refusal(
        &self,
        decision: &Decision,
        chain: &[u64],
    ) -> Result<Option<Problem>, OutOfMemory>
        ensures { IfOk result (λ problem. problem ≡ limits_refusal (seen_turn self.now)
            (rows_at (rows_of self.now.claims.now.run) chain.now) decision.now) }
    {
        let limits = &self.run().limits;
        if let Some(problem) = own_refusal(limits, self.claimed(), self.goal, decision)? {
            return Ok(Some(problem));
        }
        match self.first_unpermitted(chain) {
            None => Ok(None),
            Some(row) => Ok(Some(Problem::NotPermitted(row.urn.copy()?))),
        }
    }

    /// The first of the rows at these places that the limits do not let go.
    fn first_unpermitted(&self, places: &[u64]) -> Option<&Entry>
        ensures { option_copied result ≡ limited.first_unpermitted self.now.claims.now.run.limits (spec.claims_at (seen_turn self.now))
            (rows_at (rows_of self.now.claims.now.run) places.now) }
    {
        for place in places {
            if let Some(row) = self.unpermitted_at(*place) {
                return Some(row);
            }
        }
        None
    }

    fn unpermitted_at(&self, place: u64) -> Option<&Entry>
        ensures { option_copied result ≡ limited.first_unpermitted self.now.claims.now.run.limits (spec.claims_at (seen_turn self.now))
            (rows_at (rows_of self.now.claims.now.run) (place ∷ [])) }
    {
        match self.claims.row(place) {
            Some(row) if !self.permits(place, row) => Some(row),
            _ => None,
        }
    }

    /// Whether the limits let a row of the chain go.
    fn permits(&self, place: u64, row: &Entry) -> bool
        ensures { result ≡ permits_chained self.now.claims.now.run.limits (spec.claims_at (seen_turn self.now) place) row.now.doomed row.now.urn }
    {
        permits_chained(
            &self.run().limits,
            self.claims_row(place),
            row.doomed,
            &row.urn,
        )
    }
}
