ghost use Rattle.std.specs.Prelude.{◌≡◌, [], IfOk, true};
ghost use Rattle.std.specs.Option.{option_copied};
ghost use Rattle.pl_decide.specs.Limited as limited;
ghost use Rattle.pl_model.specs.Decisions as spec;
ghost use Rattle.pl_model.specs.Claims.{chain_of_claim};
ghost use Rattle.pl_turns.specs.Chained.{chain_by, limits_refusal, refusal_at};
ghost use Rattle.pl_turns.specs.Seen.{seen_turn};

use crate::turn::Turn;
use pl_chain::ChainFault;
use pl_decide::{Decision, Problem, decide, is_delete_first};
use pl_state::Diffed;
use pl_value::{Fields, OutOfMemory, Rows};
use std::alloc::Global;

/// What is decided of a goal at last, with the rows that go along with its claim where that is deleted first.
#[derive(Debug, Drop)]
pub struct Verdict {
    pub decision: Decision,
    pub chain: Rows,
}

impl Turn<'_> {
    /// What is decided by the table, after what the chain and then the limits say to it.
    pub fn decision(
        &self,
        alloc: Global,
        checked: &Fields,
        diff: Option<&Diffed>,
    ) -> Result<Verdict, OutOfMemory>
        ensures decision { IfOk result (λ made. made.decision ≡ spec.decision_at (seen_turn self.now) checked.now (option_copied diff.entry)) }
        ensures chain { IfOk result (λ made. made.chain ≡ chain_by (seen_turn self.now) made.decision) }
    {
        let limits = &self.run().limits;
        let decision = decide(
            self.claimed(),
            self.goal,
            self.change(),
            checked,
            diff,
            limits,
        )?;
        if is_delete_first(&decision) {
            return self.over_chain(alloc, decision);
        }
        let chain = Rows::new(alloc);
        Ok(Verdict { decision, chain })
    }

    /// What becomes of a decision to delete first, over the claim's chain.
    fn over_chain(&self, alloc: Global, decision: Decision) -> Result<Verdict, OutOfMemory>
        requires { limited.is_delete_first decision ≡ true }
        ensures decision { IfOk result (λ made. made.decision ≡ limited.refused_by (refusal_at (seen_turn self.now) decision) decision) }
        ensures chain { IfOk result (λ made. made.chain ≡ chain_by (seen_turn self.now) made.decision) }
    {
        match self.chain(alloc) {
            Ok(chain) => self.over_limits(alloc, decision, chain),
            Err(ChainFault::Protected(urn)) => Ok(refused(
                alloc,
                decision,
                Problem::Protected(urn),
            )),
            Err(ChainFault::OutOfMemory) => Err(OutOfMemory),
        }
    }

    /// What becomes of a decision to delete first by the limits, over the rows of a chain.
    fn over_limits(
        &self,
        alloc: Global,
        decision: Decision,
        chain: Rows,
    ) -> Result<Verdict, OutOfMemory>
        requires first { limited.is_delete_first decision ≡ true }
        requires chain { chain ≡ chain_of_claim self.now.claims.now.run self.now.claim }
        ensures decision { IfOk result (λ made. made.decision
            ≡ limited.refused_by (limits_refusal (seen_turn self.now) (spec.chain_at (seen_turn self.now)) decision) decision) }
        ensures chain { IfOk result (λ made. made.chain ≡ chain_by (seen_turn self.now) made.decision) }
    {
        match self.limits_refusal(&decision, chain.as_slice())? {
            None => Ok(Verdict { decision, chain }),
            Some(problem) => Ok(refused(alloc, decision, problem)),
        }
    }
}

/// The refusal of a decision; takes no memory.
fn refused(alloc: Global, _decision: Decision, problem: Problem) -> Verdict
    ensures decision { result.decision ≡ Decision.Refused problem }
    ensures chain { result.chain ≡ [] }
{
    Verdict {
        decision: Decision::Refused(problem),
        chain: Rows::new(alloc),
    }
}
