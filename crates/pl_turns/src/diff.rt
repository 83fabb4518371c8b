ghost use Rattle.std.specs.Prelude.{◌≡◌, IfOk};
ghost use Rattle.std.specs.Option.{option_copied};
ghost use Rattle.pl_model.specs.Decisions as spec;

use crate::turn::Turn;
use pl_decide::needs_diff;
use pl_events::{Op, Reply, Subject};
use pl_state::{Changes, Diffed};
use pl_value::{OutOfMemory, Texts};
use std::alloc::Global;

/// The diff of a goal, as far as it is known.
#[derive(Debug, Drop)]
pub enum Diff {
    /// One is wanted that is not known yet.
    Awaited,
    /// None is wanted.
    Unwanted,
    Known(Diffed),
}

impl Turn<'_> {
    ghost use Rattle.pl_turns.specs.Diffs.{known_diff};
    ghost use Rattle.pl_turns.specs.Seen.{seen_turn};

    /// Whether the decision waits for a diff.
    pub fn wants_diff(&self) -> bool
        ensures { result ≡ spec.wants_diff (seen_turn self.now) }
    {
        needs_diff(self.claimed(), self.goal, self.change())
    }

    /// The diff, once it is known.
    pub fn diff(&self, alloc: Global) -> Result<Diff, OutOfMemory>
        ensures { IfOk result (λ diff. known_diff diff ≡ spec.diff_at (seen_turn self.now)) }
    {
        if !self.wants_diff() {
            return Ok(Diff::Unwanted);
        }
        if self.is_provider_unknown() {
            return Ok(Diff::Known(unknown_diff(alloc)));
        }
        let reply = self.errands.reply_to(Op::Diff(Subject::Goal(self.number)));
        match diffed_in(reply) {
            None => Ok(Diff::Awaited),
            Some(diff) => Ok(Diff::Known(diff.copy()?)),
        }
    }
}

/// What counts as the diff where the provider is not known; takes no memory.
fn unknown_diff(alloc: Global) -> Diffed
    ensures { result ≡ spec.unknown_diff }
{
    Diffed {
        changes: Changes::SomeChange,
        replaces: Texts::new(alloc),
        delete_before_replace: false,
    }
}

fn diffed_in<'a>(reply: Option<&'a Reply>) -> Option<&'a Diffed>
    ensures { option_copied result ≡ spec.diffed_in (option_copied reply.entry) }
{
    match reply {
        Some(Reply::Diffed(diff)) => Some(diff),
        _ => None,
    }
}
