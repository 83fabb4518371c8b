ghost use Rattle.std.specs.Prelude.{◌≡◌, IfOk, Some};
ghost use Rattle.std.specs.Option.{option_copied};
ghost use Rattle.pl_lemmas.specs.Words.{numbered};
ghost use Rattle.pl_model.specs.Decisions as spec;
ghost use Rattle.pl_turns.specs.Seen.{seen_turn};

use crate::turn::Turn;
use pl_decide::{is_wanted, kin_of};
use pl_model::Fixed;
use pl_options::with_ignored;
use pl_state::{Entry, Goal};
use pl_value::{Fields, OutOfMemory};
use std::alloc::Global;

impl Turn<'_> {
    /// What the run is over.
    pub fn run(&self) -> &Fixed
        ensures { result.now ≡ self.now.claims.now.run }
    {
        self.claims.run()
    }

    /// The row that the goal claims.
    pub fn claimed(&self) -> Option<&Entry>
        ensures { option_copied result ≡ spec.claim_at (seen_turn self.now) }
    {
        match self.claim {
            None => None,
            Some(row) => self.claims.row(row),
        }
    }

    /// The claim, where its thing is managed.
    pub fn kin(&self) -> Option<&Entry>
        ensures { option_copied result ≡ spec.kin_at (seen_turn self.now) }
    {
        kin_of(self.claimed())
    }

    /// The goal of a number, where it is before this one.
    pub fn earlier(&self, number: u64) -> Option<&Goal>
        ensures { option_copied result ≡ numbered (seen_turn self.now).earlier number }
    {
        if number < self.number {
            self.requests.goal(number)
        } else {
            None
        }
    }

    /// The goal's inputs over those of its kin: what the goal ignores is as the kin has it, and all of it where the
    /// goal is not to be changed.
    pub fn inputs(&self, alloc: Global) -> Result<Fields, OutOfMemory>
        ensures { IfOk result (λ fields. fields ≡ spec.inputs_at (seen_turn self.now)) }
    {
        match self.kin() {
            None => self.goal.inputs.copy(alloc),
            Some(kin) => self.inputs_over(alloc, kin),
        }
    }

    fn inputs_over(&self, alloc: Global, kin: &Entry) -> Result<Fields, OutOfMemory>
        ensures { IfOk result (λ fields. fields ≡ spec.inputs_over (seen_turn self.now) (Some kin.now)) }
    {
        if is_wanted(&self.run().limits, &self.goal.urn) {
            with_ignored(alloc, self.goal, &kin.inputs)
        } else {
            kin.inputs.copy(alloc)
        }
    }
}
