ghost use Rattle.std.specs.Prelude.{◌≡◌, ◌&&◌, find, not, reverse};
ghost use Rattle.pl_model.specs.Due as due;
ghost use Rattle.pl_model.specs.Rows.{row_numbers};
ghost use Rattle.pl_due.specs.Now as spec;
ghost use Rattle.pl_due.specs.Seen.{known_in};

use crate::seen::Seen;
use pl_model::Work;
use pl_ready::{is_clear_ready, is_drop_ready, is_keep_ready, is_post_due};

impl Seen<'_> {
    /// The first request that is to be answered.
    pub fn first_post(&self) -> Option<u64>
        ensures { result ≡ find (due.is_post_due (known_in self.now)) self.now.requests.now }
    {
        self.requests
            .iter()
            .copied()
            .find(|n| is_post_due(self.columns, *n))
    }

    /// Whether a goal is to be kept, and that is not over the limit.
    fn is_kept_now(&self, number: u64) -> bool
        ensures { result ≡ (due.is_keep_ready (known_in self.now) number && not (spec.passes_now self.now (Work.Keep number))) }
    {
        is_keep_ready(self.columns, number) && !self.passes_limit(Work::Keep(number))
    }

    /// The first goal that is to be kept, where no problem stands.
    pub fn first_keep(&self) -> Option<u64>
        ensures { result ≡ find (λ number. due.is_keep_ready (known_in self.now) number && not (spec.passes_now self.now (Work.Keep number)))
            (due.goal_numbers (known_in self.now)) }
    {
        (0..self.columns.requests.len()).find(|number| self.is_kept_now(*number))
    }

    /// The first pending operation that is to be let go, where no problem stands.
    pub fn first_clear(&self) -> Option<u64>
        ensures { result ≡ find (due.is_clear_ready (known_in self.now)) (due.pending_numbers (known_in self.now)) }
    {
        let count = self.columns.run().base.pending.len() as u64;
        (0..count).find(|at| is_clear_ready(self.columns, *at))
    }

    fn is_dropped(&self, row: u64) -> bool
        ensures { result ≡ due.is_drop_ready (known_in self.now) row }
    {
        is_drop_ready(self.columns, self.over, row)
    }

    /// The last row that is to be dropped, where no problem stands.
    pub fn last_drop(&self) -> Option<u64>
        ensures { result ≡ find (due.is_drop_ready (known_in self.now)) (reverse (row_numbers (known_in self.now))) }
    {
        let mut left = self.columns.row_count();
        while left > 0 {
            left -= 1;
            if self.is_dropped(left) {
                return Some(left);
            }
        }
        None
    }
}
