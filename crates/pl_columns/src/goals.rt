ghost use Rattle.std.specs.Prelude.{◌≡◌, option_and_then};
ghost use Rattle.std.specs.Option.{option_copied};
ghost use Rattle.pl_columns.specs.Read.{history_by, known_by};
ghost use Rattle.pl_lemmas.specs.Words.{has_number};
ghost use Rattle.pl_model.specs.Claims.{goal_number};
ghost use Rattle.pl_model.specs.Known as spec;
ghost use Rattle.pl_model.specs.Recording.{posted_of};
ghost use Rattle.pl_model.specs.Requests.{goal_with_urn};

use crate::columns::Columns;
use pl_model::{Decided, Heard};
use pl_state::Goal;

impl Columns {
    /// The goal of a number.
    pub fn goal(&self, number: u64) -> Option<&Goal>
        ensures { option_copied result ≡ spec.goal_at (known_by self.now) number }
    {
        self.requests.goal(number)
    }

    /// The number of the newest goal with a URN.
    pub fn goal_number(&self, urn: &str) -> Option<u64>
        ensures { result ≡ goal_number (known_by self.now).goals urn.now }
    {
        self.requests.goal_number(urn)
    }

    /// The newest told request of a number.
    pub fn asked(&self, n: u64) -> Option<&Heard>
        ensures { option_copied result ≡ spec.asked_at (known_by self.now) n }
    {
        self.requests.asked(n)
    }

    /// Whether a request was answered.
    pub fn was_posted(&self, n: u64) -> bool
        ensures { result ≡ has_number (posted_of (history_by self.now)) n }
    {
        self.records.was_posted(n)
    }

    /// What is decided of a goal.
    pub fn decided(&self, number: u64) -> Option<&Decided>
        ensures { option_copied result ≡ spec.decided_goal (known_by self.now) number }
    {
        self.claims.decided(number)
    }

    /// Whether a goal is recorded.
    pub fn is_recorded(&self, goal: u64) -> bool
        ensures { result ≡ spec.is_recorded (known_by self.now) goal }
    {
        self.records.is_recorded(goal)
    }

    /// Whether a problem stands.
    pub fn has_problem(&self) -> bool
        ensures { result ≡ spec.has_problem (known_by self.now) }
    {
        self.troubles.any()
    }
}
