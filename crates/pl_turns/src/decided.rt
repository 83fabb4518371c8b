ghost use Rattle.std.specs.Prelude.{◌≡◌, IfOk, IfSome, option_map};
ghost use Rattle.std.specs.Option.{option_copied};
ghost use Rattle.pl_model.specs.Claims.{chain_of_goal};
ghost use Rattle.pl_model.specs.Decisions as spec;
ghost use Rattle.pl_turns.specs.Seen.{seen_turn};

use crate::diff::Diff;
use crate::turn::Turn;
use pl_model::Decided;
use pl_state::Diffed;
use pl_value::{Fields, OutOfMemory, Rows};
use std::alloc::Global;

/// What is decided of a goal, with its chain.
#[derive(Debug, Drop)]
pub struct Settled {
    pub decided: Decided,
    /// The rows that go along with its claim, where that is deleted first.
    pub chain: Rows,
}

impl Turn<'_> {
    /// What is decided of the goal, once its check and its diff have come.
    pub fn decided(&self, alloc: Global) -> Result<Option<Settled>, OutOfMemory>
        ensures decided { IfOk result (λ made. option_map (λ one. one.decided) made ≡ spec.decided_at (seen_turn self.now)) }
        ensures chain { IfOk result (λ made. IfSome made (λ one. one.chain ≡ chain_of_goal self.now.claims.now.run one.decided)) }
    {
        match self.diff(alloc)? {
            Diff::Awaited => Ok(None),
            Diff::Unwanted => self.decided_with(alloc, None),
            Diff::Known(diff) => self.decided_with(alloc, Some(&diff)),
        }
    }

    /// The same by a diff.
    fn decided_with(
        &self,
        alloc: Global,
        diff: Option<&Diffed>,
    ) -> Result<Option<Settled>, OutOfMemory>
        ensures decided { IfOk result (λ made. option_map (λ one. one.decided) made
            ≡ option_map (λ checked. spec.decided_by (seen_turn self.now) checked (option_copied diff.entry)) (spec.checked_at (seen_turn self.now))) }
        ensures chain { IfOk result (λ made. IfSome made (λ one. one.chain ≡ chain_of_goal self.now.claims.now.run one.decided)) }
    {
        match self.checked(alloc)? {
            None => Ok(None),
            Some(checked) => {
                let settled = self.settled(alloc, checked, diff)?;
                Ok(Some(settled))
            }
        }
    }

    /// The same by checked inputs and a diff.
    fn settled(
        &self,
        alloc: Global,
        checked: Fields,
        diff: Option<&Diffed>,
    ) -> Result<Settled, OutOfMemory>
        ensures decided { IfOk result (λ made. made.decided ≡ spec.decided_by (seen_turn self.now) checked (option_copied diff.entry)) }
        ensures chain { IfOk result (λ made. made.chain ≡ chain_of_goal self.now.claims.now.run made.decided) }
    {
        let inputs = self.inputs(alloc)?;
        let verdict = self.decision(alloc, &checked, diff)?;
        Ok(Settled {
            decided: Decided {
                claim: self.claim,
                inputs,
                checked,
                decision: verdict.decision,
            },
            chain: verdict.chain,
        })
    }
}
