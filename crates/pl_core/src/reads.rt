ghost use Rattle.std.specs.Prelude.{◌≡◌, length};
ghost use Rattle.std.specs.Option.{option_copied};
ghost use Rattle.pl_course.specs.Course.{known_now};
ghost use Rattle.pl_model.specs.Claims.{is_chained};
ghost use Rattle.pl_model.specs.Known as spec;
ghost use Rattle.pl_model.specs.Tickets as tickets;
ghost use Rattle.pl_troubles.specs.First.{least_place};

use crate::held::Core;
use pl_decide::Decision;
use pl_events::History;
use pl_model::{Fixed, Mode};
use pl_state::{Goal, Snapshot};

impl Core {
    /// The events of the run.
    pub fn history(&self) -> &History
        ensures { result.now.events ≡ self.now.history }
    {
        &self.history
    }

    /// What the run is over.
    pub fn run(&self) -> &Fixed
        ensures { result.now ≡ self.now.run }
    {
        self.columns.run()
    }

    /// What the run is to do.
    pub fn mode(&self) -> &Mode
        ensures { result.now ≡ self.now.run.mode }
    {
        &self.run().mode
    }

    /// The state at the start.
    pub fn base(&self) -> &Snapshot
        ensures { result.now ≡ self.now.run.base }
    {
        &self.run().base
    }

    /// The number of goals.
    pub fn goals(&self) -> u64
        ensures { result ≡ length (known_now self.now).goals }
    {
        self.columns.requests.len()
    }

    /// The goal of a number.
    pub fn goal(&self, goal: u64) -> Option<&Goal>
        ensures { option_copied result ≡ spec.goal_at (known_now self.now) goal }
    {
        self.columns.requests.goal(goal)
    }

    /// What is decided of a goal, once it is.
    pub fn decision(&self, goal: u64) -> Option<&Decision>
        ensures { option_copied result ≡ spec.decision_of (known_now self.now) goal }
    {
        match self.columns.claims.decided(goal) {
            None => None,
            Some(one) => Some(&one.decision),
        }
    }

    /// Whether a row of the state at the start is in some goal's chain.
    pub fn chained(&self, row: u64) -> bool
        ensures { result ≡ is_chained self.now.run (known_now self.now).decided row }
    {
        self.columns.claims.is_chained(row)
    }

    /// The ticket of the next operation.
    pub fn next_ticket(&self) -> u64
        ensures { result ≡ tickets.next_ticket self.now.history }
    {
        self.columns.next_ticket()
    }

    /// The position of the least problem: of the first other than want of memory, or else of the first.
    pub fn problem_at(&self) -> Option<u64>
        ensures { result ≡ least_place (known_now self.now).problems }
    {
        self.columns.troubles.problem_at()
    }
}
