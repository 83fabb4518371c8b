ghost use Rattle.std.specs.Prelude.{◌≡◌, IfOk, option_and_then, option_map};
ghost use Rattle.pl_course.specs.Course.{known_now};
ghost use Rattle.pl_model.specs.Decisions.{checked_at};
ghost use Rattle.pl_model.specs.Known as spec;
ghost use Rattle.pl_turns.specs.Seen.{seen_turn};

use crate::held::Core;
use pl_turns::{Turn, next_turn};
use pl_value::{Fields, OutOfMemory};
use std::alloc::Global;

impl Core {
    /// The turn of a goal, where it is the first that is not decided.
    fn turn_of(&self, goal: u64) -> Option<Turn<'_>>
        ensures { option_map seen_turn result ≡ spec.turn_of_goal (known_now self.now) goal }
    {
        self.columns.requests.have_paths();
        match next_turn(
            &self.columns.requests,
            &self.columns.errands,
            &self.columns.claims,
        ) {
            None => None,
            Some(turn) => if turn.number == goal {
                Some(turn)
            } else {
                None
            },
        }
    }

    /// The row that a goal claims, once everything before it is decided.
    pub fn claim(&self, goal: u64) -> Option<u64>
        ensures { result ≡ spec.claim_of (known_now self.now) goal }
    {
        match self.decided_claim(goal) {
            Some(row) => Some(row),
            None => match self.turn_of(goal) {
                None => None,
                Some(turn) => turn.claim,
            },
        }
    }

    /// The row that a decided goal claims.
    fn decided_claim(&self, goal: u64) -> Option<u64>
        ensures { result ≡ option_and_then (λ one. one.claim) (spec.decided_goal (known_now self.now) goal) }
    {
        match self.columns.claims.decided(goal) {
            None => None,
            Some(one) => one.claim,
        }
    }

    /// The checked inputs of a goal, once they are known.
    pub fn checked(&self, alloc: Global, goal: u64) -> Result<Option<Fields>, OutOfMemory>
        ensures { IfOk result (λ checked. checked ≡ spec.checked_of (known_now self.now) goal) }
    {
        match self.columns.claims.decided(goal) {
            Some(one) => {
                let checked = one.checked.copy(alloc)?;
                Ok(Some(checked))
            }
            None => self.checked_now(alloc, goal),
        }
    }

    /// The checked inputs of a goal that is not decided.
    fn checked_now(&self, alloc: Global, goal: u64) -> Result<Option<Fields>, OutOfMemory>
        ensures { IfOk result (λ checked. checked ≡ option_and_then checked_at (spec.turn_of_goal (known_now self.now) goal)) }
    {
        match self.turn_of(goal) {
            None => Ok(None),
            Some(turn) => turn.checked(alloc),
        }
    }
}
