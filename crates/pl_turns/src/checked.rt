ghost use Rattle.std.specs.Prelude.{◌≡◌, IfOk};
ghost use Rattle.std.specs.Option.{option_copied};
ghost use Rattle.pl_lemmas.specs.Words.{numbered, some_passes};
ghost use Rattle.pl_value.specs.Inside.{any_field_unknown};
ghost use Rattle.pl_model.specs.Decisions as spec;
ghost use Rattle.pl_model.specs.Tickets.{reply_to};
ghost use Rattle.pl_turns.specs.Seen.{seen_turn};

use crate::turn::Turn;
use crate::words::is_preview;
use pl_claims::Claims;
use pl_decide::{is_of_provider, is_provided, is_reading};
use pl_events::{Op, Reply, Subject};
use pl_value::{Fields, OutOfMemory};
use std::alloc::Global;

impl Turn<'_> {
    /// Whether the goal's provider has inputs that are not known; in a preview alone.
    pub fn is_provider_unknown(&self) -> bool
        ensures { result ≡ spec.is_provider_unknown (seen_turn self.now) }
    {
        is_preview(&self.run().mode) && has_unknown_inputs(self.claims, self.goal.provider)
    }

    /// Whether a provider checks the goal's inputs; those of a provider goal are checked anyway.
    pub fn needs_check(&self) -> bool
        ensures { result ≡ spec.needs_check (seen_turn self.now) }
    {
        is_provided(self.goal) && !is_reading(self.goal) && !self.is_provider_unknown()
    }

    /// The checked inputs, once they are known.
    pub fn checked(&self, alloc: Global) -> Result<Option<Fields>, OutOfMemory>
        ensures { IfOk result (λ checked. checked ≡ spec.checked_at (seen_turn self.now)) }
    {
        let goal = Subject::Goal(self.number);
        if is_of_provider(&self.goal.urn) {
            self.checked_by(alloc, Op::CheckConfig(goal))
        } else if self.needs_check() {
            self.checked_by(alloc, Op::Check(goal))
        } else {
            let inputs = self.inputs(alloc)?;
            Ok(Some(inputs))
        }
    }

    /// The inputs in the reply to a check.
    fn checked_by(&self, alloc: Global, op: Op) -> Result<Option<Fields>, OutOfMemory>
        ensures { IfOk result (λ checked. checked ≡ spec.checked_in (reply_to self.now.errands.now.tickets.answers op)) }
    {
        match checked_in(self.errands.reply_to(op)) {
            None => Ok(None),
            Some(fields) => {
                let copied = fields.copy(alloc)?;
                Ok(Some(copied))
            }
        }
    }
}

fn has_unknown_inputs(claims: &Claims, provider: Option<u64>) -> bool
    ensures { result ≡ spec.has_unknown_inputs claims.now.decided provider }
{
    match provider {
        None => false,
        Some(goal) => has_unknown_checked(claims, goal),
    }
}

fn has_unknown_checked(claims: &Claims, goal: u64) -> bool
    ensures { result ≡ some_passes (λ one. any_field_unknown one.checked) (numbered claims.now.decided goal) }
{
    match claims.decided(goal) {
        None => false,
        Some(one) => one.checked.has_unknown(),
    }
}

fn checked_in<'a>(reply: Option<&'a Reply>) -> Option<&'a Fields>
    ensures { option_copied result ≡ spec.checked_in (option_copied reply.entry) }
{
    match reply {
        Some(Reply::Checked(fields)) => Some(fields),
        _ => None,
    }
}
